// Bytes and numbers, written into a lent part of a text.
#![tactic(auto)]

ghost use Rattle.std.specs.Prelude.{◌≡◌, ℕ, List, [], ◌∷◌, ◌++◌, ◌≤◌, ◌<◌, ◌/◌, ◌%◌, nat_abs, length, drop};
ghost use Rattle.printing.specs.Numerals.{base_number, digit_of, digits_of, prefix_text, number_text};
ghost use Rattle.printing.specs.Writing.{Puts};

use std::marker::Model;

// The base of a numeral.
#[derive(Clone, Copy, PartialEq, Eq)]
pub enum Base {
    Decimal,
    Hexadecimal,
}

// How many bytes were written; `None` where they had no room, and then none was.
pub fn put_bytes(src: &[u8], out: &mut [u8]) -> Option<usize>
    ensures { Puts src.now out.old out.new result }
{
    let size = src.len();
    if out.len() < size {
        return None;
    }
    // Byte by byte: the library's copy makes a caller in C bring a `memmove`.
    for i in 0..size {
        out[i] = src[i];
    }
    Some(size)
}

#[tactic(auto, unfolding(crate::specs::Numerals::digit_of))]
pub fn digit(d: u8) -> u8
    requires { d < 16 }
    ensures { result ≡ digit_of d }
{
    if d < 10 { b'0' + d } else { b'a' - 10 + d }
}

// Divisions by a constant are fast, by a variable slow: hence the two arms.
fn quotient(n: u64, base: Base) -> u64
    ensures { result ≡ n / base_number base }
{
    match base {
        Base::Decimal => n / 10,
        Base::Hexadecimal => n / 16,
    }
}

fn remainder(n: u64, base: Base) -> u8
    ensures { result ≡ n % base_number base }
{
    match base {
        Base::Decimal => (n % 10) as u8,
        Base::Hexadecimal => (n % 16) as u8,
    }
}

// A numeral, made from its end: its bytes are those from `start` on. The longest has 23.
#[derive(Drop)]
struct Numeral {
    text: [u8; 23],
    start: usize,
}

impl Model for Numeral {
    ghost Value = { List ℕ };

    ghost view = { λ m. drop m.start m.text };

    ghost invariant = { λ m. (length m.text ≡ 23) × (m.start ≤ 23) };
}

impl Numeral {
    fn new() -> Numeral
        ensures { result ≡ [] }
    {
        Numeral {
            text: [0; 23],
            start: 23,
        }
    }

    // The digits of a number, put there from the last one on.
    fn of(n: u64, base: Base) -> Numeral
        ensures { result ≡ digits_of (base_number base) n }
    {
        let mut numeral = Numeral::new();
        let mut rest = n;
        loop {
            numeral.put_before(digit(remainder(rest, base)));
            rest = quotient(rest, base);
            if rest == 0 {
                return numeral;
            }
        }
    }

    fn put_before(&mut self, byte: u8)
        requires { length self.old < 23 }
        ensures { self.new ≡ byte ∷ self.old }
    {
        self.start -= 1;
        self.text[self.start] = byte;
    }

    #[tactic(auto, unfolding(crate::specs::Numerals::prefix_text))]
    fn put_prefix(&mut self, base: Base)
        requires { length self.old ≤ 21 }
        ensures { self.new ≡ prefix_text (base_number base) ++ self.old }
    {
        if base == Base::Hexadecimal {
            self.put_before(b'x');
            self.put_before(b'0');
        }
    }

    fn bytes(&self) -> &[u8]
        ensures { result.now ≡ self.now }
    {
        &self.text[self.start..]
    }
}

// A value below zero is negated; the lowest has no negation in an i64, so one is added first, and again behind the cast.
pub fn magnitude(value: i64) -> u64
    ensures { result ≡ nat_abs value }
{
    if value < 0 {
        ((-(value + 1)) as u64) + 1
    } else {
        value as u64
    }
}

// A number in a base: its sign, its prefix and its digits.
pub fn put_number(value: i64, base: Base, out: &mut [u8]) -> Option<usize>
    ensures { Puts (number_text (base_number base) value) out.old out.new result }
{
    let mut numeral = Numeral::of(magnitude(value), base);
    numeral.put_prefix(base);
    if value < 0 {
        numeral.put_before(b'-');
    }
    put_bytes(numeral.bytes(), out)
}

// A number without sign and prefix.
pub fn put_plain(n: u64, base: Base, out: &mut [u8]) -> Option<usize>
    ensures { Puts (digits_of (base_number base) n) out.old out.new result }
{
    let numeral = Numeral::of(n, base);
    put_bytes(numeral.bytes(), out)
}
