// The value of a field, read by whole bytes, and how its look shows it.
#![tactic(auto)]

ghost use Rattle.std.specs.Prelude.{◌≡◌, ◌+◌, ◌*◌, ◌<◌, ◌≤◌, ◌/◌, ◌%◌, ◌^◌, length};
ghost use Rattle.fields.specs.Value.{Readable, value_of};
ghost use Rattle.fields.specs.Token.{Joinable, token_of};
ghost use Rattle.fields.specs.Look.{look_of, number_of};

use format::Field;
use printing::Base;

// How a value is shown: as a number, with a sign or without, in a base; or by its name.
#[derive(Clone, Copy, PartialEq, Eq)]
pub enum Look {
    Number { signed: bool, base: Base },
    Name,
}

impl From<u8> for Look {
    ghost from_gives = { λ look r. r ≡ look_of look };

    #[tactic(auto, unfolding(crate::specs::Look::look_of))]
    fn from(look: u8) -> Look {
        match look {
            0 => Look::Number {
                signed: false,
                base: Base::Decimal,
            },
            1 => Look::Number {
                signed: true,
                base: Base::Decimal,
            },
            2 => Look::Number {
                signed: false,
                base: Base::Hexadecimal,
            },
            3 => Look::Number {
                signed: true,
                base: Base::Hexadecimal,
            },
            4 => Look::Name,
            5..=255 => Look::Number {
                signed: false,
                base: Base::Decimal,
            },
        }
    }
}

// Four bytes as a number, the lowest first.
fn joined(a: u8, b: u8, c: u8, d: u8) -> u64
    ensures { result ≡ a + 256 * (b + 256 * (c + 256 * d)) }
{
    u64::from(u32::from_le_bytes([a, b, c, d]))
}

// The token's number, its first byte the lowest. Written out by width: bytes that are joined where they stand are one load.
fn little(field: Field, code: &[u8]) -> u64
    requires { Joinable field code.now × (field.order ≡ 0) }
    ensures { result ≡ token_of field code.now }
{
    match field.width {
        1 => joined(code[0], 0, 0, 0),
        2 => joined(code[0], code[1], 0, 0),
        3 => joined(code[0], code[1], code[2], 0),
        _ => joined(code[0], code[1], code[2], code[3]),
    }
}

// The token's number, its first byte the highest.
fn big(field: Field, code: &[u8]) -> u64
    requires { Joinable field code.now × (field.order ≡ 0 → ⊥) }
    ensures { result ≡ token_of field code.now }
{
    match field.width {
        1 => joined(code[0], 0, 0, 0),
        2 => joined(code[1], code[0], 0, 0),
        3 => joined(code[2], code[1], code[0], 0),
        _ => joined(code[3], code[2], code[1], code[0]),
    }
}

fn token(field: Field, code: &[u8]) -> u64
    requires { Joinable field code.now }
    ensures { result ≡ token_of field code.now }
{
    if field.order == 0 {
        return little(field, code);
    }
    big(field, code)
}

// So many bits of a number, from bit `low` on.
pub fn cut(whole: u64, low: u8, bits: u8) -> u64
    requires { (low < 64) × (bits < 64) }
    ensures { result ≡ whole / 2 ^ low % 2 ^ bits }
{
    (whole >> low) % (1 << bits)
}

// The field's bits as a number, from the code at its start or from the context.
pub fn value(field: Field, code: &[u8], context: u64) -> u64
    requires readable { Readable field }
    requires width_in_bounds { field.source ≡ 0 → field.width ≤ length code.now }
    ensures { result ≡ value_of field code.now context }
{
    let bits = field.high + 1 - field.low;
    if field.source == 0 {
        return cut(token(field, code), field.low, bits);
    }
    cut(context, field.low, bits)
}

// The number that a value of so many bits is shown as; the top bit is the sign.
pub fn number(signed: bool, bits: u8, value: u64) -> i64
    requires { (1 ≤ bits) × (bits ≤ 32) × (value < 2 ^ bits) }
    ensures { result ≡ number_of signed bits value }
{
    let v = value as i64;
    if signed & (value >> (bits - 1) == 1) {
        return v - (1i64 << bits);
    }
    v
}
