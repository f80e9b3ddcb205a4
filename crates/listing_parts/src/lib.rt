// The parts of a listing's line: the address, the bytes of a gap, the line of a bad description.
#![tactic(auto)]

ghost use Rattle.std.specs.Prelude.{[], ◌∷◌, ◌++◌, ◌≡◌, ◌+◌, ◌*◌, ◌%◌, ◌≤◌, length};
ghost use Rattle.format.specs.Numbers.{longest_text};
ghost use Rattle.printing.specs.Numerals.{base_number, digit_of, digits_of};
ghost use Rattle.listing_parts.specs.Parts.{hex_digits, address_text, byte_word, byte_text, bytes_behind, gap_text, line_text, line_bytes, malformed_text, fault_line};
ghost use Rattle.listing_parts.specs.Put.{Put, Appended, GapBytes};

use acceptance::Rejection;
use printing::Base;

// The bytes of a line at most: the address, a colon, a blank, a text and the line's end.
pub const LINE: usize = 16 + 2 + format::TEXT + 1;

// The one line of a bad description, with zeros behind it, and its size.
#[derive(Clone, Copy, PartialEq, Eq)]
pub struct FaultLine {
    pub bytes: [u8; LINE],
    pub size: usize,
}

// So many bytes behind those already written.
pub fn append(src: &[u8], out: &mut [u8], at: usize) -> usize
    requires { at + length src.now ≤ length out.old }
    ensures { Appended at src.now out.old out.new result }
{
    printing::put_bytes(src, &mut out[at..]);
    at + src.len()
}

fn digit(n: usize) -> u8
    ensures { result ≡ digit_of (n % 16) }
{
    printing::digit((n % 16) as u8)
}

// Eight digits, a colon and a blank.
fn short_address(n: usize) -> [u8; 10]
    ensures { result ≡ hex_digits 8 n ++ (58 ∷ 32 ∷ []) }
{
    let a = n / 16;
    let b = a / 16;
    let c = b / 16;
    let d = c / 16;
    let e = d / 16;
    let f = e / 16;
    let g = f / 16;
    [
        digit(g),
        digit(f),
        digit(e),
        digit(d),
        digit(c),
        digit(b),
        digit(a),
        digit(n),
        b':',
        b' ',
    ]
}

// A number behind the bytes already written.
fn append_number(n: usize, base: Base, out: &mut [u8], at: usize) -> usize
    requires { at + 20 ≤ length out.old }
    ensures { Appended at (digits_of (base_number base) n) out.old out.new result }
{
    let put = printing::put_plain(n as u64, base, &mut out[at..]);
    at + put.unwrap()
}

// An address of eight digits, or as many as it needs, a colon and a blank.
fn put_address(here: usize, line: &mut [u8]) -> usize
    requires { 22 ≤ length line.old }
    ensures { Put (address_text here ++ (58 ∷ 32 ∷ [])) line.old line.new result }
{
    if here < 4294967296 {
        let head = short_address(here);
        return append(&head, line, 0);
    }
    let end = append_number(here, Base::Hexadecimal, line, 0);
    append(b": ", line, end)
}

// A whole line, of an address and what is shown there.
pub fn put_line(shown: &[u8], here: usize, line: &mut [u8]) -> usize
    requires { (length shown.now ≤ longest_text) × (length line.old ≡ line_bytes) }
    ensures { Put (line_text here shown.now) line.old line.new result }
{
    let body = put_address(here, line);
    let end = append(shown, line, body);
    append(b"\n", line, end)
}

// ".byte " and the first byte of a gap.
fn first_byte(byte: u8) -> [u8; 10]
    ensures { result ≡ byte_word ++ byte_text byte }
{
    let n = byte as usize;
    [
        b'.',
        b'b',
        b'y',
        b't',
        b'e',
        b' ',
        b'0',
        b'x',
        digit(n / 16),
        digit(n),
    ]
}

// A further byte of a gap, behind ", ".
fn next_byte(byte: u8) -> [u8; 6]
    ensures { result ≡ 44 ∷ 32 ∷ byte_text byte }
{
    let n = byte as usize;
    [b',', b' ', b'0', b'x', digit(n / 16), digit(n)]
}

// The further bytes of a gap, behind the bytes already written.
fn append_bytes(bytes: &[u8], out: &mut [u8], at: usize) -> usize
    requires { at + 6 * length bytes.now ≤ length out.old }
    ensures { Appended at (bytes_behind bytes.now) out.old out.new result }
{
    let mut end = at;
    for byte in bytes {
        let text = next_byte(*byte);
        end = append(&text, out, end);
    }
    end
}

// The bytes of a gap.
pub fn put_gap(bytes: &[u8], out: &mut [u8]) -> usize
    requires { GapBytes bytes.now out.old }
    ensures { Put (gap_text bytes.now) out.old out.new result }
{
    let text = first_byte(bytes[0]);
    let end = append(&text, out, 0);
    append_bytes(&bytes[1..], out, end)
}

fn put_fault(first: usize, second: usize, line: &mut [u8]) -> usize
    requires { length line.old ≡ line_bytes }
    ensures { Put (malformed_text first second) line.old line.new result }
{
    let a = append(b"malformed ", line, 0);
    let b = append_number(first, Base::Decimal, line, a);
    let c = append(b" ", line, b);
    let d = append_number(second, Base::Decimal, line, c);
    append(b"\n", line, d)
}

// The one line of a bad description.
pub fn fault_line(rejection: Rejection) -> FaultLine
    ensures { result ≡ fault_line rejection }
{
    let first = rejection.first_value();
    let second = rejection.second_value();
    let mut bytes = [0u8; LINE];
    let size = put_fault(first, second, &mut bytes);
    FaultLine { bytes, size }
}
