// The rules of document 01 for each record of a description.
#![tactic(auto)]

ghost use Rattle.std.specs.Prelude.{◌≡◌, false, not, ◌&&◌, ◌||◌, ◌+◌, ◌<◌, ◌≤◌, ◌^◌, ◌%◌, leb, ltb, eqb, get_or};
ghost use Rattle.lists.specs.Below.{all_below};
ghost use Rattle.format.specs.Numbers.{names_bits, byte_values};
ghost use Rattle.format.specs.Layout.{SectionsInBounds};
ghost use Rattle.format.specs.Description.{description, fields_of};
ghost use Rattle.format.specs.Rules.{source_ok, bits_ok, look_ok, field_ok, name_ok, table_ok, minimum_ok, value_ok, range_ok, shape_ok, operand_of, anchor_fits, expression_fits, operand_fits, piece_fits, constructor_ok, field_fits, operand_ok, piece_ok, letter_ok};
ghost use Rattle.rules.specs.Marks.{no_marks, table_marks, shown_marks};
ghost use Rattle.rules.specs.Judging.{Marked, Judging, Shaped};
ghost use Rattle.rules.specs.FieldOperands.{with_bit, FieldBits};
ghost use Rattle.rules.specs.Places.{place_fits};

use format::{Constructor, Field, Layout, Name, Operand, Pattern, Piece, Range};

// The marks of the operands shown so far.
const SHOWN: u8 = 16;

pub fn source_ok(f: Field) -> bool
    ensures { result ≡ source_ok f }
{
    ((f.source == 0) & (1 <= f.width) & (f.width <= format::WIDEST) & (f.order <= 1))
        | ((f.source == 1) & (f.width == format::WIDEST) & (f.order == 0))
}

pub fn bits_ok(f: Field) -> bool
    ensures { result ≡ bits_ok f }
{
    let width = f.width as u16;
    let high = f.high as u16;
    (f.low <= f.high) & (high < 8 * width)
}

// 2 to the power of a field's number of bits.
fn names_of(bits: usize) -> usize
    requires { bits ≤ names_bits }
    ensures { (result ≡ 2 ^ bits) × (result ≤ byte_values) }
{
    1 << bits
}

fn look_ok(f: Field, names: usize) -> bool
    requires { f.low ≤ f.high }
    ensures { result ≡ look_ok names f }
{
    if f.look != format::NAMES_LOOK {
        return (f.look < format::NAMES_LOOK) & (f.first == 0);
    }
    let bits = (f.high as usize) + 1 - (f.low as usize);
    if format::NAMES_BITS < bits {
        return false;
    }
    (f.first as usize) + names_of(bits) <= names
}

#[tactic(auto, unfolding(format::specs::Rules::field_ok))]
pub fn field_ok(f: Field, names: usize) -> bool
    ensures { result ≡ field_ok names f }
{
    source_ok(f) & bits_ok(f) && look_ok(f, names)
}

pub fn name_ok(n: Name, letters: usize) -> bool
    ensures { result ≡ name_ok letters n }
{
    (n.offset as usize) + (n.length as usize) <= letters
}

pub fn piece_ok(p: Piece, letters: usize) -> bool
    ensures { result ≡ piece_ok letters p }
{
    let end = (p.offset as usize) + (p.n as usize);
    ((p.kind == 0) & (1 <= p.n) & (end <= letters)) | ((p.kind == 1) & (p.offset == 0))
}

pub fn letter_ok(x: u8) -> bool
    ensures { result ≡ letter_ok x }
{
    (format::FIRST_LETTER <= x) & (x <= format::LAST_LETTER)
}

fn minimum_ok(c: Constructor) -> bool
    ensures { result ≡ minimum_ok c }
{
    let minimum = c.minimum;
    if format::PATTERN_BYTES <= minimum {
        return minimum <= format::LONGEST;
    }
    c.pattern.mask >> (8 * minimum) == 0
}

fn value_ok(p: Pattern) -> bool
    ensures { result ≡ value_ok p }
{
    (p.value & p.mask == p.value) & (p.contextvalue & p.contextmask == p.contextvalue)
}

fn range_ok(r: Range, most: u8, count: usize) -> bool
    ensures { result ≡ range_ok most count r }
{
    let end = (r.first as usize) + (r.count as usize);
    (r.count <= most) & (end <= count)
}

fn table_ok(desc: &[u8], layout: Layout, i: usize) -> bool
    requires sections_in_bounds { SectionsInBounds desc.now layout }
    requires i_lt_count { i < layout.constructors.count }
    ensures { result ≡ table_ok (description desc.now layout) i }
{
    let table = sections::table_at(desc, layout, i);
    if i == 0 {
        return table < format::TABLES;
    }
    let before = sections::table_at(desc, layout, i - 1);
    (table < format::TABLES) & (before <= table)
}

fn shape_ok(desc: &[u8], layout: Layout, i: usize, c: Constructor) -> bool
    requires sections_in_bounds { SectionsInBounds desc.now layout }
    requires i_lt_count { i < layout.constructors.count }
    ensures { result ≡ shape_ok (description desc.now layout) i c }
{
    table_ok(desc, layout, i)
        & minimum_ok(c)
        & value_ok(c.pattern)
        & range_ok(c.operands, format::OPERANDS_EACH, layout.operands.count)
        & range_ok(c.pieces, format::PIECES_EACH, layout.pieces.count)
}

// The tables that have a constructor, marked once for all operands that name one; nothing is marked before.
pub fn mark_tables(desc: &[u8], layout: Layout, marks: &mut [bool; format::BYTE_VALUES])
    requires { SectionsInBounds desc.now layout × (marks.old ≡ no_marks) }
    ensures { marks.new ≡ table_marks (description desc.now layout) }
{
    for i in 0..layout.constructors.count {
        let table = sections::table_at(desc, layout, i) as usize;
        marks[table] = true;
    }
}

// The word with this bit, if it is to be set.
fn with_bit(word: u16, bit: u16, set: bool) -> u16
    requires { word + bit < 2 ^ 16 }
    ensures { result ≡ with_bit word bit set }
{
    if set {
        return word + bit;
    }
    word
}

// The anchor and the table of the constructor's operand o, from 0, fit it.
fn place_fits(
    desc: &[u8],
    layout: Layout,
    tables: &[bool; format::BYTE_VALUES],
    c: Constructor,
    o: usize,
) -> bool
    requires marked { Marked desc.now layout tables.now }
    requires shaped { Shaped layout.operands.count layout.pieces.count c }
    requires o_lt_count { o < c.operands.count }
    ensures { result ≡ place_fits (description desc.now layout) c o }
{
    let x = sections::operand_at(desc, layout, c.operands.first as usize + o);
    let anchor = x.anchor as usize;
    let index = x.index as usize;
    (anchor < o + 1) & ((x.kind != 1) | ((x.index < c.table) & tables[index]))
}

// The constructor's field operands, as the bits of a word: bit n for operand n, the first is 1.
fn field_operands(desc: &[u8], layout: Layout, c: Constructor) -> u16
    requires sections_in_bounds { SectionsInBounds desc.now layout }
    requires shaped { Shaped layout.operands.count layout.pieces.count c }
    ensures { FieldBits (description desc.now layout) c result }
{
    let first = c.operands.first as usize;
    let mut word: u16 = 0;
    let mut bit: u16 = 2;
    for o in 0..c.operands.count as usize {
        let x = sections::operand_at(desc, layout, first + o);
        word = with_bit(word, bit, x.kind == 0);
        bit = 2 * bit;
    }
    word
}

// An expression that the operand names, if it is written, names field operands of the constructor.
fn expression_fits(desc: &[u8], layout: Layout, c: Constructor, x: Operand) -> bool
    requires sections_in_bounds { SectionsInBounds desc.now layout }
    requires shaped { Shaped layout.operands.count layout.pieces.count c }
    ensures { result ≡ expression_fits (description desc.now layout) c x }
{
    if x.kind != 2 {
        return true;
    }
    let index = x.index as usize;
    if layout.expressions.count <= index {
        return true;
    }
    let at = sections::expression_place(desc, layout, index);
    if !expressions::writes(desc, at) {
        return true;
    }
    expressions::names_only(desc, at, field_operands(desc, layout, c))
}

// The anchors and tables of the constructor's operands fit it.
fn places_fit(
    desc: &[u8],
    layout: Layout,
    tables: &[bool; format::BYTE_VALUES],
    c: Constructor,
) -> bool
    requires marked { Marked desc.now layout tables.now }
    requires shaped { Shaped layout.operands.count layout.pieces.count c }
    ensures { result ≡ all_below c.operands.count (place_fits (description desc.now layout) c) }
{
    (0..c.operands.count as usize).all(|o| place_fits(desc, layout, tables, c, o))
}

// The expressions that its operands name fit it. Most descriptions have none.
fn expressions_fit(desc: &[u8], layout: Layout, c: Constructor) -> bool
    requires sections_in_bounds { SectionsInBounds desc.now layout }
    requires shaped { Shaped layout.operands.count layout.pieces.count c }
    ensures { result ≡ all_below c.operands.count (λ o. expression_fits (description desc.now layout) c (operand_of (description desc.now layout) c o)) }
{
    if layout.expressions.count == 0 {
        return true;
    }
    let first = c.operands.first as usize;
    (0..c.operands.count as usize).all(|o| {
        expression_fits(
            desc,
            layout,
            c,
            sections::operand_at(desc, layout, first + o),
        )
    })
}

fn operands_ok(
    desc: &[u8],
    layout: Layout,
    tables: &[bool; format::BYTE_VALUES],
    c: Constructor,
) -> bool
    requires marked { Marked desc.now layout tables.now }
    requires shaped { Shaped layout.operands.count layout.pieces.count c }
    ensures { result ≡ all_below c.operands.count (operand_fits (description desc.now layout) c) }
{
    places_fit(desc, layout, tables, c) && expressions_fit(desc, layout, c)
}

// A piece of a constructor with so many operands, where `shown` marks those that an earlier piece shows.
fn piece_fits(p: Piece, operands: u8, shown: &[bool; SHOWN as usize]) -> bool
    ensures { result ≡ not (eqb p.kind 1) || (leb 1 p.n && leb p.n operands && not (get_or shown.now (p.n % shown_marks) false)) }
{
    let at = (p.n % SHOWN) as usize;
    (p.kind != 1) | ((1 <= p.n) & (p.n <= operands) & !shown[at])
}

// No branch depends on a piece's kind, which is hard to foretell: the loop keeps the answer so far.
fn pieces_ok(desc: &[u8], layout: Layout, c: Constructor) -> bool
    requires sections_in_bounds { SectionsInBounds desc.now layout }
    requires shaped { Shaped layout.operands.count layout.pieces.count c }
    ensures { result ≡ all_below c.pieces.count (piece_fits (description desc.now layout) c) }
{
    let first = c.pieces.first as usize;
    let mut shown = [false; SHOWN as usize];
    let mut good = true;
    for q in 0..c.pieces.count as usize {
        let p = sections::piece_at(desc, layout, first + q);
        good = good & piece_fits(p, c.operands.count, &shown);
        let at = (p.n % SHOWN) as usize;
        shown[at] = shown[at] | (p.kind == 1);
    }
    good
}

pub fn constructor_ok(
    desc: &[u8],
    layout: Layout,
    tables: &[bool; format::BYTE_VALUES],
    i: usize,
    c: Constructor,
) -> bool
    requires { Judging desc.now layout tables.now i c }
    ensures { result ≡ constructor_ok (description desc.now layout) i }
{
    shape_ok(desc, layout, i, c)
        && operands_ok(desc, layout, tables, c)
        && pieces_ok(desc, layout, c)
}

fn field_fits(desc: &[u8], layout: Layout, x: Operand) -> bool
    requires { SectionsInBounds desc.now layout }
    ensures { result ≡ field_fits (fields_of desc.now layout) x }
{
    let index = x.index as usize;
    if index < layout.fields.count {
        let f = sections::field_at(desc, layout, index);
        (f.source != 1) | ((x.anchor == 0) & (x.offset == 0))
    } else {
        false
    }
}

#[tactic(auto, unfolding(format::specs::Rules::operand_ok))]
pub fn operand_ok(desc: &[u8], layout: Layout, x: Operand) -> bool
    requires { SectionsInBounds desc.now layout }
    ensures { result ≡ operand_ok (fields_of desc.now layout) layout.expressions.count x }
{
    if x.kind == 0 {
        return (x.offset <= format::FARTHEST) & field_fits(desc, layout, x);
    }
    let index = x.index as usize;
    let computed = (index < layout.expressions.count) & (x.anchor == 0) & (x.offset == 0);
    (x.offset <= format::FARTHEST) & ((x.kind == 1) | ((x.kind == 2) & computed))
}
