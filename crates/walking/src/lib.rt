// The walk over an instruction: from the root to its operands, each inner table in turn.
#![tactic(auto)]

ghost use Rattle.std.specs.Prelude.{◌≡◌, ◌<◌, ◌≤◌, length, Ok};
ghost use Rattle.format.specs.Numbers.{tables};
ghost use Rattle.setting.specs.Fixed.{Fixed, setting_in};
ghost use Rattle.walk_steps.specs.Steps.{beyond_places, Ready, answer_of};
ghost use Rattle.walking.specs.Walks.{OperandWalks, OperandsWalk, ConstructorWalks, TableWalks, chosen_as, root_chosen, RootWalks, PlacedAt, UsableAt, ConstructorAt, instruction_as, walked_at, told_length, no_rows, leaving};

use choosing_spec::NotChosen;
use decoding_spec::{Refusal, State};
use format::{Constructor, Operand};
use setting::Prepared;
use walk_steps::{SCRATCH, Walk};

// The ends of a constructor's operands, and its start.
const ENDS: usize = format::OPERANDS_EACH as usize + 1;

const LONGEST: usize = format::LONGEST as usize;

// What a choice in a table comes to at a place.
fn judge(choice: Result<usize, NotChosen>, at: usize, table: u8) -> Result<usize, Refusal>
    requires { at < beyond_places }
    ensures { result ≡ chosen_as at table choice }
{
    let place = at as u16;
    choice.map_err(|why| match why {
        NotChosen::Short => Refusal::Short(place),
        NotChosen::NoMatch => Refusal::NoMatch { place, table },
        NotChosen::Ambiguous => Refusal::Ambiguous { place, table },
    })
}

// An operand that starts so far behind its constructor; past the code's end that is no bytes.
#[cycle(walk)]
fn walk_operand(
    desc: &[u8],
    fixed: &Prepared,
    operand: Operand,
    code: &[u8],
    at: usize,
    start: usize,
    rows: &mut [i64],
    state: State,
) -> Result<Walk, Refusal>
    requires { Ready (PlacedAt desc.now fixed.now operand at start) desc.now fixed.now code.now at state }
    ensures { OperandWalks desc.now fixed.now code.now at state rows.old result rows.new operand start }
{
    let from = start.min(code.len());
    let place = at + start;
    if operand.kind == 0 {
        return walk_steps::field_from(
            desc,
            fixed,
            operand.index,
            &code[from..],
            place,
            rows,
            state,
        );
    }
    if operand.kind == 2 {
        return walk_steps::computed_from(fixed, operand.index, place, rows, state);
    }
    walk_table(
        desc,
        fixed,
        operand.index,
        &code[from..],
        place,
        rows,
        state,
    )
}

// A constructor's operands in order: the state behind them, and the farthest end from the constructor's start.
#[cycle(walk)]
fn walk_operands(
    desc: &[u8],
    fixed: &Prepared,
    constructor: Constructor,
    code: &[u8],
    at: usize,
    rows: &mut [i64],
    state: State,
) -> Result<Walk, Refusal>
    requires { Ready (UsableAt desc.now fixed.now constructor at) desc.now fixed.now code.now at state }
    ensures { OperandsWalk desc.now fixed.now code.now at state rows.old result rows.new constructor }
{
    let first = constructor.operands.first as usize;
    let count = usize::from(constructor.operands.count);
    let mut ends = [0u8; ENDS];
    let mut far: usize = 0;
    let mut passed = state;
    for o in 0..count {
        let operand = setting::operand(desc, fixed, first + o);
        let anchor = usize::from(operand.anchor);
        let offset = usize::from(operand.offset);
        let start = usize::from(ends[anchor]) + offset;
        let walk = walk_operand(desc, fixed, operand, code, at, start, rows, passed)?;
        let end = start + walk.length;
        passed = walk.state;
        ends[o + 1] = end as u8;
        far = far.max(end);
    }
    Ok(Walk {
        state: passed,
        length: far,
    })
}

// The constructor of this number, with its operands.
#[cycle(walk)]
fn walk_constructor(
    desc: &[u8],
    fixed: &Prepared,
    number: usize,
    code: &[u8],
    at: usize,
    rows: &mut [i64],
    state: State,
) -> Result<Walk, Refusal>
    requires { Ready (ConstructorAt desc.now fixed.now number at state) desc.now fixed.now code.now at state }
    ensures { ConstructorWalks desc.now fixed.now code.now at state rows.old result rows.new number }
{
    let constructor = setting::constructor(desc, fixed, number);
    let walked = walk_operands(
        desc,
        fixed,
        constructor,
        code,
        at,
        rows,
        walk_steps::one_more(state),
    );
    let minimum = usize::from(constructor.minimum);
    walk_steps::close(fixed, number, minimum, at, rows, state.used, walked)
}

// A table at its place, with the code from there on.
#[cycle(walk)]
fn walk_table(
    desc: &[u8],
    fixed: &Prepared,
    table: u8,
    code: &[u8],
    at: usize,
    rows: &mut [i64],
    state: State,
) -> Result<Walk, Refusal>
    requires { Ready (table < tables) desc.now fixed.now code.now at state }
    ensures { TableWalks desc.now fixed.now code.now at state rows.old result rows.new table }
{
    if format::ROWS <= state.used {
        return Err(Refusal::TooManyRows);
    }
    if LONGEST < at {
        return Err(Refusal::TooFar(at as u16));
    }
    let choice = setting::choose_at(desc, fixed, table, code, state.context);
    let number = judge(choice, at, table)?;
    walk_constructor(desc, fixed, number, code, at, rows, state)
}

// The choice at the code's start, in the root.
fn choose_root(desc: &[u8], fixed: &Prepared, context: u32, code: &[u8]) -> Result<usize, Refusal>
    requires { Fixed desc.now fixed.now }
    ensures { result ≡ root_chosen (setting_in desc.now fixed.now).description context code.now }
{
    let choice = setting::choose_root(desc, fixed, code, u64::from(context));
    judge(choice, 0, setting::root(desc, fixed))
}

// The walk at the code's start, of the root's constructor of this number, with all of the code.
fn walk_root(
    desc: &[u8],
    fixed: &Prepared,
    number: usize,
    context: u32,
    code: &[u8],
    rows: &mut [i64],
) -> Result<Walk, Refusal>
    requires fixed { Fixed desc.now fixed.now × (length code.now ≡ (setting_in desc.now fixed.now).total) }
    requires code_value { root_chosen (setting_in desc.now fixed.now).description context code.now ≡ Ok number }
    ensures { RootWalks desc.now fixed.now context code.now rows.old result rows.new }
{
    let start = State {
        used: 0,
        context: u64::from(context),
        taken: 0,
    };
    let walk = walk_constructor(desc, fixed, number, code, 0, rows, start)?;
    if walk.length == 0 {
        return Err(Refusal::RootLengthZero);
    }
    Ok(walk)
}

// The walk at a place of the code, without its rows.
pub fn step_at(
    desc: &[u8],
    fixed: &mut Prepared,
    context: u32,
    code: &[u8],
    at: usize,
) -> Result<Walk, Refusal>
    requires { Fixed desc.now fixed.old × (at ≤ length code.now) }
    ensures value { result ≡ answer_of (walked_at desc.now fixed.old code.now at context) }
    ensures fixed_after { fixed.new ≡ told_length fixed.old code.now at }
{
    fixed.total = code.len() - at;
    let number = choose_root(desc, fixed, context, &code[at..])?;
    let mut none = [0i64; 1];
    walk_root(desc, fixed, number, context, &code[at..], &mut none)
}

// The walk at a place of the code, with its rows, which are zeros before and behind those used; a refusal leaves zeros. Most refusals
// are the root's, before a row was written.
pub fn walk_at(
    desc: &[u8],
    fixed: &mut Prepared,
    context: u32,
    code: &[u8],
    at: usize,
    rows: &mut [i64; SCRATCH],
) -> Result<Walk, Refusal>
    requires { Fixed desc.now fixed.old × (at ≤ length code.now) × (rows.old ≡ no_rows) }
    ensures rows_after { leaving result rows.new ≡ instruction_as (walked_at desc.now fixed.old code.now at context) }
    ensures fixed_after { fixed.new ≡ told_length fixed.old code.now at }
{
    fixed.total = code.len() - at;
    let number = choose_root(desc, fixed, context, &code[at..])?;
    let walked = walk_root(desc, fixed, number, context, &code[at..], rows);
    if walked.is_err() {
        *rows = [0i64; SCRATCH];
    }
    walked
}
