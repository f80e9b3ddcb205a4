// The places of a description's sections, found in one pass over the counts, and the records that stand there.
#![tactic(auto)]

ghost use Rattle.std.specs.Prelude.{◌≡◌, ◌+◌, ◌*◌, ◌<◌, get_or};
ghost use Rattle.format.specs.Layout.{SectionsInBounds, inside, layout_of};
ghost use Rattle.format.specs.Numbers.{expression_bytes};
ghost use Rattle.format.specs.Description.{description, records_of, fields_of, names_of, constructors_of, operands_of, pieces_of, text_of, no_field, no_name, no_constructor, no_operand, no_piece};
ghost use Rattle.format.specs.Rules.{table_at};

use format::{
    Constructor, Cursor, Field, Layout, Name, Operand, Pattern, Piece, Place, Record, Section,
};

// The counts, read in order: where the sections stand, or the section at fault.
pub fn read_layout(desc: &[u8]) -> Result<Layout, usize>
    ensures { result ≡ layout_of desc.now }
{
    let start = Cursor { at: 0 };
    let fields = start
        .count(desc, 0, format::FIELDS, format::FIELD_BYTES)
        .ok_or(1usize)?;
    let names = fields
        .next
        .count(desc, 0, format::NAMES, format::NAME_BYTES)
        .ok_or(2usize)?;
    let constructors = names
        .next
        .count(
            desc,
            format::LEAST_CONSTRUCTORS,
            format::CONSTRUCTORS,
            format::CONSTRUCTOR_BYTES,
        )
        .ok_or(3usize)?;
    let operands = constructors
        .next
        .count(desc, 0, format::OPERANDS, format::OPERAND_BYTES)
        .ok_or(4usize)?;
    let pieces = operands
        .next
        .count(desc, 0, format::PIECES, format::PIECE_BYTES)
        .ok_or(5usize)?;
    let text = pieces
        .next
        .count(desc, 0, format::LETTERS, format::LETTER_BYTES)
        .ok_or(6usize)?;
    let mut layout = Layout {
        fields: fields.value,
        names: names.value,
        constructors: constructors.value,
        operands: operands.value,
        pieces: pieces.value,
        text: text.value,
        expressions: Section { start: 0, count: 0 },
    };
    // A description may end after the text.
    if text.next.at == desc.len() {
        return Ok(layout);
    }
    let expressions = text
        .next
        .count(desc, 0, format::EXPRESSIONS, format::EXPRESSION_BYTES)
        .ok_or(7usize)?;
    if expressions.next.at != desc.len() {
        return Err(7);
    }
    layout.expressions = expressions.value;
    Ok(layout)
}

// Record i of a section.
fn record_at<T: Record>(desc: &[u8], section: Section, i: usize) -> T
    requires inside { inside desc.now T.BYTES section }
    requires i_lt_count { i < section.count }
    ensures { (none : T) → result ≡ get_or (records_of T.reading T.BYTES desc.now section) i none }
{
    let c = Cursor {
        at: section.start + T::BYTES * i,
    };
    c.read::<T>(desc).value
}

#[tactic(auto, unfolding(format::specs::Description::fields_of))]
pub fn field_at(desc: &[u8], layout: Layout, i: usize) -> Field
    requires sections_in_bounds { SectionsInBounds desc.now layout }
    requires i_lt_count { i < layout.fields.count }
    ensures { result ≡ get_or (fields_of desc.now layout) i no_field }
{
    record_at(desc, layout.fields, i)
}

#[tactic(auto, unfolding(format::specs::Description::names_of))]
pub fn name_at(desc: &[u8], layout: Layout, i: usize) -> Name
    requires sections_in_bounds { SectionsInBounds desc.now layout }
    requires i_lt_count { i < layout.names.count }
    ensures { result ≡ get_or (names_of desc.now layout) i no_name }
{
    record_at(desc, layout.names, i)
}

#[tactic(auto, unfolding(format::specs::Description::constructors_of))]
pub fn constructor_at(desc: &[u8], layout: Layout, i: usize) -> Constructor
    requires sections_in_bounds { SectionsInBounds desc.now layout }
    requires i_lt_count { i < layout.constructors.count }
    ensures { result ≡ get_or (constructors_of desc.now layout) i no_constructor }
{
    record_at(desc, layout.constructors, i)
}

// A constructor's pattern alone, for choosing.
pub fn pattern_of(desc: &[u8], layout: Layout, i: usize) -> Pattern
    requires sections_in_bounds { SectionsInBounds desc.now layout }
    requires i_lt_count { i < layout.constructors.count }
    ensures { result ≡ (get_or (constructors_of desc.now layout) i no_constructor).pattern }
{
    format::pattern_at(
        desc,
        layout.constructors.start + (format::CONSTRUCTOR_BYTES as usize) * i,
    )
}

// A constructor's table alone.
pub fn table_at(desc: &[u8], layout: Layout, i: usize) -> u8
    requires sections_in_bounds { SectionsInBounds desc.now layout }
    requires i_lt_count { i < layout.constructors.count }
    ensures { result ≡ table_at (description desc.now layout) i }
{
    let at = layout.constructors.start + (format::CONSTRUCTOR_BYTES as usize) * i;
    desc[at]
}

#[tactic(auto, unfolding(format::specs::Description::operands_of))]
pub fn operand_at(desc: &[u8], layout: Layout, i: usize) -> Operand
    requires sections_in_bounds { SectionsInBounds desc.now layout }
    requires i_lt_count { i < layout.operands.count }
    ensures { result ≡ get_or (operands_of desc.now layout) i no_operand }
{
    record_at(desc, layout.operands, i)
}

#[tactic(auto, unfolding(format::specs::Description::pieces_of))]
pub fn piece_at(desc: &[u8], layout: Layout, i: usize) -> Piece
    requires sections_in_bounds { SectionsInBounds desc.now layout }
    requires i_lt_count { i < layout.pieces.count }
    ensures { result ≡ get_or (pieces_of desc.now layout) i no_piece }
{
    record_at(desc, layout.pieces, i)
}

#[tactic(auto, unfolding(format::specs::Description::text_of))]
pub fn letter_at(desc: &[u8], layout: Layout, i: usize) -> u8
    requires sections_in_bounds { SectionsInBounds desc.now layout }
    requires i_lt_count { i < layout.text.count }
    ensures { result ≡ get_or (text_of desc.now layout) i 0 }
{
    record_at(desc, layout.text, i)
}

// Where an expression stands.
pub fn expression_place(desc: &[u8], layout: Layout, i: usize) -> usize
    requires sections_in_bounds { SectionsInBounds desc.now layout }
    requires i_lt_count { i < layout.expressions.count }
    ensures { result ≡ layout.expressions.start + expression_bytes * i }
{
    record_at::<Place>(desc, layout.expressions, i).at
}
