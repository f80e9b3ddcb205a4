// The field read as a C function of its own, so that it can be timed alone, and the read that it replaced. No part of the library.
#![tactic(auto)]

ghost use Rattle.std.specs.Prelude.{◌≡◌, ◌<◌, ◌≤◌, length};
ghost use Rattle.fields.specs.Value.{Readable, token_byte, value_of};
ghost use Rattle.fields.specs.Token.{token_of};
ghost use Rattle.timed_field_reads.specs.Read.{can_read, field_value, record_value};

use format::{Cursor, Field};

// No value: a field has at most 32 bits.
const UNREAD: u64 = 18446744073709551615;

fn can_read(field: Field, code: &[u8]) -> bool
    ensures { result ≡ can_read field code.now }
{
    let width = usize::from(field.width);
    let high = usize::from(field.high);
    (field.width <= format::WIDEST)
        & (field.low <= field.high)
        & (high < 8 * width)
        & ((field.source != 0) | (width <= code.len()))
}

fn read(field: Field, context: u32, code: &[u8]) -> u64
    ensures { result ≡ field_value field context code.now }
{
    if can_read(field, code) {
        return fields::value(field, code, u64::from(context));
    }
    UNREAD
}

#[unsafe(no_mangle)]
pub extern "C" fn timed_field_read(bytes: &[u8], context: u32, code: &[u8]) -> u64
    ensures { result ≡ record_value bytes.now context code.now }
{
    if usize::from(format::FIELD_BYTES) <= bytes.len() {
        let start = Cursor { at: 0 };
        return read(start.read::<Field>(bytes).value, context, code);
    }
    UNREAD
}

// Byte j of the field's token, byte 0 the lowest.
fn byte(field: Field, code: &[u8], j: u8) -> u64
    requires { (field.width ≤ length code.now) × (j < field.width) }
    ensures { (result ≡ token_byte field code.now j) × (result < 256) }
{
    let k = if field.order == 0 {
        j
    } else {
        field.width - 1 - j
    };
    u64::from(code[usize::from(k)])
}

// The field's token as a number, from its highest byte down.
fn token_by_bytes(field: Field, code: &[u8]) -> u64
    requires { (field.width ≤ 4) × (field.width ≤ length code.now) }
    ensures { result ≡ token_of field code.now }
{
    let mut v: u64 = 0;
    let mut j = field.width;
    while 0 < j {
        j -= 1;
        v = byte(field, code, j) + 256 * v;
    }
    v
}

fn value_by_bytes(field: Field, code: &[u8], context: u64) -> u64
    requires readable { Readable field }
    requires width_in_bounds { field.source ≡ 0 → field.width ≤ length code.now }
    ensures { result ≡ value_of field code.now context }
{
    if field.source == 0 {
        let bits = field.high + 1 - field.low;
        return fields::cut(token_by_bytes(field, code), field.low, bits);
    }
    fields::value(field, code, context)
}

fn read_by_bytes(field: Field, context: u32, code: &[u8]) -> u64
    ensures { result ≡ field_value field context code.now }
{
    if can_read(field, code) {
        return value_by_bytes(field, code, u64::from(context));
    }
    UNREAD
}

#[unsafe(no_mangle)]
pub extern "C" fn timed_field_read_by_bytes(bytes: &[u8], context: u32, code: &[u8]) -> u64
    ensures { result ≡ record_value bytes.now context code.now }
{
    if usize::from(format::FIELD_BYTES) <= bytes.len() {
        let start = Cursor { at: 0 };
        return read_by_bytes(start.read::<Field>(bytes).value, context, code);
    }
    UNREAD
}
