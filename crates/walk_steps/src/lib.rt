// The walk's steps that ask no table: a field, a computed operand, a constructor's end; and the scratch rows that they write.
#![tactic(auto)]

ghost use Rattle.std.specs.Prelude.{[], ◌∷◌, ◌≡◌, ◌+◌, ◌<◌, ◌≤◌, max, length, get_or};
ghost use Rattle.format.specs.Numbers.{longest, most_rows};
ghost use Rattle.fields.specs.Value.{Readable};
ghost use Rattle.decoding_spec.specs.State.{counted};
ghost use Rattle.decoding_spec.specs.Walk.{width_of};
ghost use Rattle.setting.specs.Fixed.{Fixed, setting_in};
ghost use Rattle.walk_steps.specs.Scratch.{sized, written};
ghost use Rattle.walk_steps.specs.Steps.{beyond_places, Ready, Within, closed_as, closed_rows, Showable, ShownSteps, FieldSteps, ComputedSteps, PutsNumber};

use decoding_spec::{Refusal, State};
use fields::Look;
use format::Field;
use setting::Prepared;

// A scratch row's numbers: those of a row, and its size. And the scratch buffer's numbers, for all rows.
pub const SCRATCH_NUMBERS: usize = 5;

pub const SCRATCH: usize = SCRATCH_NUMBERS * format::ROWS;

const LONGEST: usize = format::LONGEST as usize;

// The state behind a walk, and its length.
#[derive(Clone, Copy)]
pub struct Walk {
    pub state: State,
    pub length: usize,
}

pub fn one_more(state: State) -> State
    requires { state.used ≤ most_rows }
    ensures { result ≡ counted state }
{
    let mut next = state;
    next.used = state.used + 1;
    next
}

// A row at its place. A buffer of another length than the scratch's is for walks that keep no rows.
fn put_row(
    rows: &mut [i64],
    row: usize,
    kind: u8,
    number: usize,
    start: usize,
    last: i64,
    size: usize,
)
    requires { (row < most_rows) × (number < 65536) × (start ≤ longest) × (size ≤ most_rows) }
    ensures { rows.new ≡ written row (sized kind number start last size ∷ []) rows.old }
{
    if rows.len() == SCRATCH {
        let at = SCRATCH_NUMBERS * row;
        rows[at] = kind as i64;
        rows[at + 1] = number as i64;
        rows[at + 2] = start as i64;
        rows[at + 3] = last;
        rows[at + 4] = size as i64;
    }
}

fn width_of(field: Field) -> usize
    ensures { (result ≡ width_of field) × (result < 256) }
{
    if field.source == 0 {
        return usize::from(field.width);
    }
    0
}

// A field whose value is shown as a number; it is read only where rows are kept.
fn put_number(
    field: Field,
    signed: bool,
    index: u8,
    code: &[u8],
    context: u64,
    place: usize,
    rows: &mut [i64],
    used: usize,
)
    requires readable { Readable field × (field.source ≡ 0 → field.width ≤ length code.now) }
    requires used_lt_most_rows { (used < most_rows) × (place ≤ longest) }
    ensures { PutsNumber field signed index code.now context place used rows.old rows.new }
{
    if rows.len() == SCRATCH {
        let value = fields::value(field, code, context);
        let bits = field.high + 1 - field.low;
        let shown = fields::number(signed, bits, value);
        put_row(rows, used, 1, usize::from(index), place, shown, 1);
    }
}

// A field's value as its look shows it.
fn show(
    desc: &[u8],
    fixed: &Prepared,
    field: Field,
    index: u8,
    code: &[u8],
    place: usize,
    rows: &mut [i64],
    state: State,
) -> Result<Walk, Refusal>
    requires { Fixed desc.now fixed.now × Showable (setting_in desc.now fixed.now) field code.now place state }
    ensures { ShownSteps desc.now fixed.now code.now place state rows.old result rows.new field index }
{
    let length = width_of(field);
    let used = state.used;
    let context = state.context;
    let look = Look::from(field.look);
    match look {
        Look::Number { signed, base: _ } => {
            put_number(field, signed, index, code, context, place, rows, used);
            Ok(Walk {
                state: one_more(state),
                length,
            })
        }
        Look::Name => {
            let value = fields::value(field, code, context);
            let name = usize::from(field.first) + (value as usize);
            let found = setting::name(desc, fixed, name);
            if found.length == 0 {
                return Err(Refusal::Hole(place as u16));
            }
            put_row(rows, used, 2, usize::from(index), place, name as i64, 1);
            Ok(Walk {
                state: one_more(state),
                length,
            })
        }
    }
}

// The field at a place, with the code from there on.
pub fn field_from(
    desc: &[u8],
    fixed: &Prepared,
    index: u8,
    code: &[u8],
    place: usize,
    rows: &mut [i64],
    state: State,
) -> Result<Walk, Refusal>
    requires { Ready (index < length (setting_in desc.now fixed.now).description.fields) desc.now fixed.now code.now place state }
    ensures { FieldSteps desc.now fixed.now code.now place state rows.old result rows.new index }
{
    if format::ROWS <= state.used {
        return Err(Refusal::TooManyRows);
    }
    let field = setting::field(desc, fixed, usize::from(index));
    let end = place + width_of(field);
    if (LONGEST < place) | (LONGEST < end) {
        return Err(Refusal::TooFar(place as u16));
    }
    if fixed.total < end {
        return Err(Refusal::Short(place as u16));
    }
    show(desc, fixed, field, index, code, place, rows, state)
}

// A computed operand: it has no bytes, and its value is not known before the root's end.
pub fn computed_from(
    fixed: &Prepared,
    index: u8,
    place: usize,
    rows: &mut [i64],
    state: State,
) -> Result<Walk, Refusal>
    requires { place < beyond_places }
    ensures { ComputedSteps fixed.now.total index place state rows.old result rows.new }
{
    if format::ROWS <= state.used {
        return Err(Refusal::TooManyRows);
    }
    if LONGEST < place {
        return Err(Refusal::TooFar(place as u16));
    }
    if fixed.total < place {
        return Err(Refusal::Short(place as u16));
    }
    put_row(rows, state.used, 3, usize::from(index), place, 0, 1);
    Ok(Walk {
        state: one_more(state),
        length: 0,
    })
}

// A constructor after its operands: its length, and its row before theirs.
pub fn close(
    fixed: &Prepared,
    number: usize,
    minimum: usize,
    at: usize,
    rows: &mut [i64],
    used: usize,
    walked: Result<Walk, Refusal>,
) -> Result<Walk, Refusal>
    requires number_bound { (number < 65536) × (minimum < 256) × (at ≤ longest) × (used < most_rows) }
    requires within { Within at (used + 1) walked }
    ensures value { result ≡ closed_as fixed.now.total number minimum at walked }
    ensures rows_after { rows.new ≡ closed_rows number at used result rows.old }
{
    let Walk { state, length: far } = walked?;
    let length = minimum.max(far);
    let own_end = at + length;
    if LONGEST < own_end {
        return Err(Refusal::TooFar(at as u16));
    }
    if fixed.total < own_end {
        return Err(Refusal::Short(at as u16));
    }
    let last = length as i64;
    let size = state.used - used;
    put_row(rows, used, 0, number, at, last, size);
    let mut then = state;
    then.taken = number;
    Ok(Walk {
        state: then,
        length,
    })
}
