// The text of a decoded instruction, printed from the scratch rows that the walk has left.
#![tactic(auto)]

ghost use Rattle.std.specs.Prelude.{◌≡◌, ◌+◌, ◌<◌, ◌≤◌, length};
ghost use Rattle.format.specs.Numbers.{most_rows};
ghost use Rattle.fields.specs.Look.{look_of};
ghost use Rattle.printing.specs.Numerals.{base_number, number_text};
ghost use Rattle.setting.specs.Fixed.{Fixed};
ghost use Rattle.walk_steps.specs.Scratch.{scratch_length};
ghost use Rattle.text.specs.Text.{base_of};
ghost use Rattle.scratch_rows.specs.Places.{kind_at, skip};
ghost use Rattle.text.specs.Places.{SoundRows};
ghost use Rattle.text.specs.Append.{Appends};
ghost use Rattle.text.specs.Lines.{line_of, lent_after};
ghost use Rattle.text.specs.Prints.{described, whole_text, Printable, ValueRow, PieceRow, LettersPrinted, NamePrinted, FieldPrinted, PartPrinted, PiecePrinted, ConstructorPrinted};

use fields::Look;
use printing::Base;
use setting::Prepared;

const COLUMNS: usize = scratch_rows::COLUMNS;

// "shown as signed hex"
const COMPUTED_BASE: Base = Base::Hexadecimal;

// The row behind so many parts, the first of which starts at this row.
fn row_behind(rows: &[i64], first: usize, parts: usize) -> usize
    requires { (length rows.now ≡ scratch_length) × (skip rows.now first parts < most_rows) }
    ensures { result ≡ skip rows.now first parts }
{
    let mut row = first;
    for _ in 0..parts {
        row += scratch_rows::column(rows, COLUMNS * row + 4);
    }
    row
}

// The base in which a look shows a number.
fn base_of(look: u8) -> Base
    ensures { base_number result ≡ base_of (look_of look) }
{
    match Look::from(look) {
        Look::Number { base, .. } => base,
        Look::Name => Base::Decimal,
    }
}

// Bytes of the text section. The part behind the bytes already written is lent on.
fn put_letters(
    desc: &[u8],
    fixed: &Prepared,
    offset: usize,
    n: usize,
    out: &mut [u8],
    at: usize,
) -> Option<usize>
    requires fixed { Fixed desc.now fixed.now × (offset + n ≤ length (described desc.now fixed.now).text) }
    requires at_in_bounds { at ≤ length out.old }
    ensures { LettersPrinted desc.now fixed.now at out.old out.new result offset n }
{
    let letters = setting::letters(desc, fixed, offset, n);
    let count = printing::put_bytes(letters, &mut out[at..])?;
    Some(at + count)
}

fn put_value(value: i64, base: Base, out: &mut [u8], at: usize) -> Option<usize>
    requires { at ≤ length out.old }
    ensures { Appends at (number_text (base_number base) value) out.old out.new result }
{
    let count = printing::put_number(value, base, &mut out[at..])?;
    Some(at + count)
}

fn put_name(desc: &[u8], fixed: &Prepared, n: usize, out: &mut [u8], at: usize) -> Option<usize>
    requires fixed { Fixed desc.now fixed.now × (n < length (described desc.now fixed.now).names) }
    requires at_in_bounds { at ≤ length out.old }
    ensures { NamePrinted desc.now fixed.now at out.old out.new result n }
{
    let name = setting::name(desc, fixed, n);
    let offset = name.offset as usize;
    put_letters(desc, fixed, offset, name.length as usize, out, at)
}

// A field's number, in its look's base.
fn put_field(
    desc: &[u8],
    fixed: &Prepared,
    index: usize,
    value: i64,
    out: &mut [u8],
    at: usize,
) -> Option<usize>
    requires fixed { Fixed desc.now fixed.now × (index < length (described desc.now fixed.now).fields) }
    requires at_in_bounds { at ≤ length out.old }
    ensures { FieldPrinted desc.now fixed.now at out.old out.new result index value }
{
    let field = setting::field(desc, fixed, index);
    let base = base_of(field.look);
    put_value(value, base, out, at)
}

// A field, a computed operand or a name, by its row.
fn print_value(
    desc: &[u8],
    fixed: &Prepared,
    rows: &[i64],
    used: usize,
    r: usize,
    kind: usize,
    out: &mut [u8],
    at: usize,
) -> Option<usize>
    requires printable { Printable desc.now fixed.now rows.now used r out.old at }
    requires value_row { ValueRow rows.now r kind }
    ensures { PartPrinted desc.now fixed.now at out.old out.new result rows.now r }
{
    let last = COLUMNS * r + 3;
    if kind == 1 {
        let index = scratch_rows::column(rows, COLUMNS * r + 1);
        return put_field(desc, fixed, index, rows[last], out, at);
    }
    if kind == 3 {
        return put_value(rows[last], COMPUTED_BASE, out, at);
    }
    put_name(desc, fixed, scratch_rows::column(rows, last), out, at)
}

// A piece of the constructor at row r.
#[cycle(print)]
fn print_piece(
    desc: &[u8],
    fixed: &Prepared,
    rows: &[i64],
    used: usize,
    r: usize,
    i: usize,
    out: &mut [u8],
    at: usize,
) -> Option<usize>
    requires printable { Printable desc.now fixed.now rows.now used r out.old at }
    requires piece_row { PieceRow desc.now fixed.now rows.now r i }
    ensures { PiecePrinted desc.now fixed.now at out.old out.new result rows.now r i }
{
    let piece = setting::piece(desc, fixed, i);
    let n = piece.n as usize;
    if piece.kind == 0 {
        return put_letters(desc, fixed, piece.offset as usize, n, out, at);
    }
    let row = row_behind(rows, r + 1, n - 1);
    print_part(desc, fixed, rows, used, row, out, at)
}

// The constructor at row r: its pieces in order, each behind the bytes already written.
#[cycle(print)]
fn print_constructor(
    desc: &[u8],
    fixed: &Prepared,
    rows: &[i64],
    used: usize,
    r: usize,
    out: &mut [u8],
    at: usize,
) -> Option<usize>
    requires printable { Printable desc.now fixed.now rows.now used r out.old at }
    requires r_value { kind_at rows.now r ≡ 0 }
    ensures { ConstructorPrinted desc.now fixed.now at out.old out.new result rows.now r }
{
    let number = scratch_rows::column(rows, COLUMNS * r + 1);
    let constructor = setting::constructor(desc, fixed, number);
    let first = constructor.pieces.first as usize;
    let count = constructor.pieces.count as usize;
    let mut end = at;
    for q in 0..count {
        end = print_piece(desc, fixed, rows, used, r, first + q, out, end)?;
    }
    Some(end)
}

// The part at row r: a constructor, or a value.
#[cycle(print)]
fn print_part(
    desc: &[u8],
    fixed: &Prepared,
    rows: &[i64],
    used: usize,
    r: usize,
    out: &mut [u8],
    at: usize,
) -> Option<usize>
    requires { Printable desc.now fixed.now rows.now used r out.old at }
    ensures { PartPrinted desc.now fixed.now at out.old out.new result rows.now r }
{
    let kind = scratch_rows::column(rows, COLUMNS * r);
    if kind == 0 {
        return print_constructor(desc, fixed, rows, used, r, out, at);
    }
    print_value(desc, fixed, rows, used, r, kind, out, at)
}

// Why no text is put into the lent part: a text may not be so long, or the part is shorter.
#[derive(Clone, Copy, PartialEq, Eq)]
pub enum NoText {
    TooLong,
    NoRoom,
}

// The text of the whole instruction, made in a text of its own and copied when it is known to fit; how many bytes it has.
pub fn print_text(
    desc: &[u8],
    fixed: &Prepared,
    rows: &[i64],
    used: usize,
    out: &mut [u8],
) -> Result<usize, NoText>
    requires fixed { Fixed desc.now fixed.now }
    requires sound_rows { SoundRows (described desc.now fixed.now) rows.now used × (0 < used) }
    ensures value { result ≡ line_of (whole_text desc.now fixed.now rows.now) (length out.old) }
    ensures out_after { out.new ≡ lent_after (whole_text desc.now fixed.now rows.now) out.old }
{
    let mut text = [0u8; format::TEXT];
    let Some(end) = print_part(desc, fixed, rows, used, 0, &mut text, 0) else {
        return Err(NoText::TooLong);
    };
    printing::put_bytes(&text[..end], out).ok_or(NoText::NoRoom)
}
