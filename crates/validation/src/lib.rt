// The check of a description: its first fault, or the places of its sections.
#![tactic(auto)]

ghost use Rattle.std.specs.Prelude.{◌≡◌, ◌<◌, ℕ, Bool};
ghost use Rattle.format.specs.Layout.{SectionsInBounds, inside};
ghost use Rattle.format.specs.Description.{description, records_of, pieces_of, no_piece};
ghost use Rattle.format.specs.Rules.{piece_ok, letter_ok};
ghost use Rattle.format.specs.Check.{all_good, bad_field, bad_name, bad_constructor, bad_operand, bad_piece, bad_letter, bad_expression, fault_of, check_of};
ghost use Rattle.validation.specs.Judgement.{judgement, record_in, first_broken};

use format::{Cursor, Fault, Layout, Place, Record, Section};

// The fault of the first of a section's records that is not good. The cursor goes from record to record.
fn judge<T: Record, F: Fn(usize, T) -> bool>(
    section: usize,
    desc: &[u8],
    records: Section,
    good: F,
) -> Result<(), Fault>
    requires in_bounds { inside desc.now T.BYTES records }
    requires callable { (i : ℕ) → i < records.count → F.pre good i (record_in T.reading T.BYTES desc.now records i) }
    ensures { (rule : ℕ → T → Bool) (none : T) → ((i : ℕ) (r : Bool) → i < records.count → F.post good i (record_in T.reading T.BYTES desc.now records i) r → r ≡ rule i (record_in T.reading T.BYTES desc.now records i)) → result ≡ judgement section (first_broken rule none (records_of T.reading T.BYTES desc.now records)) records.count }
{
    let mut c = Cursor { at: records.start };
    for i in 0..records.count {
        let r = c.read::<T>(desc);
        if !good(i, r.value) {
            return Err(Fault { section, number: i });
        }
        c = r.next;
    }
    Ok(())
}

fn judge_fields(desc: &[u8], layout: Layout) -> Result<(), Fault>
    requires { SectionsInBounds desc.now layout }
    ensures { result ≡ judgement 1 (bad_field (description desc.now layout)) layout.fields.count }
{
    judge(1, desc, layout.fields, |_, field| {
        rules::field_ok(field, layout.names.count)
    })
}

fn judge_names(desc: &[u8], layout: Layout) -> Result<(), Fault>
    requires { SectionsInBounds desc.now layout }
    ensures { result ≡ judgement 2 (bad_name (description desc.now layout)) layout.names.count }
{
    judge(2, desc, layout.names, |_, name| {
        rules::name_ok(name, layout.text.count)
    })
}

#[tactic(auto, using(sections::proofs::Records::record_is), unfolding(format::specs::Description::constructors_of))]
fn judge_constructors(desc: &[u8], layout: Layout) -> Result<(), Fault>
    requires { SectionsInBounds desc.now layout }
    ensures { result ≡ judgement 3 (bad_constructor (description desc.now layout)) layout.constructors.count }
{
    let mut tables = [false; format::BYTE_VALUES];
    rules::mark_tables(desc, layout, &mut tables);
    judge(3, desc, layout.constructors, |i, constructor| {
        rules::constructor_ok(desc, layout, &tables, i, constructor)
    })
}

fn judge_operands(desc: &[u8], layout: Layout) -> Result<(), Fault>
    requires { SectionsInBounds desc.now layout }
    ensures { result ≡ judgement 4 (bad_operand (description desc.now layout)) layout.operands.count }
{
    judge(4, desc, layout.operands, |_, operand| {
        rules::operand_ok(desc, layout, operand)
    })
}

// Whether all pieces are good, with no branch in the loop: which way a piece goes is hard to foretell.
fn all_pieces(desc: &[u8], layout: Layout) -> bool
    requires { SectionsInBounds desc.now layout }
    ensures { result ≡ all_good (piece_ok layout.text.count) no_piece (pieces_of desc.now layout) }
{
    let mut good = true;
    for i in 0..layout.pieces.count {
        let p = sections::piece_at(desc, layout, i);
        good = good & rules::piece_ok(p, layout.text.count);
    }
    good
}

fn judge_pieces(desc: &[u8], layout: Layout) -> Result<(), Fault>
    requires { SectionsInBounds desc.now layout }
    ensures { result ≡ judgement 5 (bad_piece (description desc.now layout)) layout.pieces.count }
{
    if all_pieces(desc, layout) {
        return Ok(());
    }
    judge(5, desc, layout.pieces, |_, piece| {
        rules::piece_ok(piece, layout.text.count)
    })
}

// Whether all of the text is good, with no branch in the loop: the machine tests many letters at once.
fn all_letters(text: &[u8]) -> bool
    ensures { result ≡ all_good letter_ok 0 text.now }
{
    let mut good = true;
    for x in text {
        good = good & rules::letter_ok(*x);
    }
    good
}

fn judge_text(desc: &[u8], layout: Layout) -> Result<(), Fault>
    requires { SectionsInBounds desc.now layout }
    ensures { result ≡ judgement 6 (bad_letter (description desc.now layout)) layout.text.count }
{
    let text = &desc[layout.text.start..layout.text.start + layout.text.count];
    if all_letters(text) {
        return Ok(());
    }
    judge(6, desc, layout.text, |_, letter| rules::letter_ok(letter))
}

fn judge_expressions(desc: &[u8], layout: Layout) -> Result<(), Fault>
    requires { SectionsInBounds desc.now layout }
    ensures { result ≡ judgement 7 (bad_expression (description desc.now layout)) layout.expressions.count }
{
    judge(7, desc, layout.expressions, |_, expression: Place| {
        expressions::writes(desc, expression.at)
    })
}

// The sections in file order.
fn first_fault(desc: &[u8], layout: Layout) -> Result<Layout, Fault>
    requires { SectionsInBounds desc.now layout }
    ensures { result ≡ fault_of (description desc.now layout) layout }
{
    judge_fields(desc, layout)?;
    judge_names(desc, layout)?;
    judge_constructors(desc, layout)?;
    judge_operands(desc, layout)?;
    judge_pieces(desc, layout)?;
    judge_text(desc, layout)?;
    judge_expressions(desc, layout)?;
    Ok(layout)
}

// Any bytes are judged: the first fault, or the places of a well-formed description.
pub fn check(desc: &[u8]) -> Result<Layout, Fault>
    ensures { result ≡ check_of desc.now }
{
    let layout = sections::read_layout(desc).map_err(|section| Fault {
        section,
        number: format::SECTION,
    })?;
    first_fault(desc, layout)
}
