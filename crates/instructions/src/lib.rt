// The instruction at a place of the code and at an address: the walk, and then the values of its computed operands.
#![tactic(auto)]

ghost use Rattle.std.specs.Prelude.{◌≡◌, ◌+◌, ◌^◌, ◌<◌, ◌≤◌, length};
ghost use Rattle.format.specs.Numbers.{longest, most_rows};
ghost use Rattle.setting.specs.Fixed.{Fixed, setting_in};
ghost use Rattle.walk_steps.specs.Scratch.{scratch_length};
ghost use Rattle.walk_steps.specs.Steps.{answer_of};
ghost use Rattle.walking.specs.Walks.{no_rows, leaving, instruction_as, told_length};
ghost use Rattle.scratch_rows.specs.Places.{kind_at};
ghost use Rattle.instructions.specs.Settling.{owner_below, count_at, counts_at, computed_at, settled_at, settled_from, settled_walk};
ghost use Rattle.instructions.specs.Instructions.{ReadableRows, RowOf, Settleable, Settles, result_at, stepped_as};

use decoding_spec::Refusal;
use setting::Prepared;
use walk_steps::{SCRATCH, Walk};

const COLUMNS: usize = scratch_rows::COLUMNS;

const OPERANDS: usize = format::OPERANDS_EACH as usize;

// An instruction without its rows: its length and its root's constructor. Two numbers, and no whole state: the state's numbers would be
// copied in pairs, for which the processor waits.
#[derive(Clone, Copy)]
pub struct Stepped {
    pub length: usize,
    pub constructor: usize,
}

// The constructor that the row is an operand of: the last one before it whose part reaches past it.
fn owner_of(rows: &[i64], row: usize) -> usize
    requires { (length rows.now ≡ scratch_length) × (row ≤ most_rows) }
    ensures { result ≡ owner_below rows.now row row }
{
    for k in (0..row).rev() {
        let size = scratch_rows::column(rows, COLUMNS * k + 4);
        if row - k < size {
            return k;
        }
    }
    0
}

// What the part at a row counts as: a field as its value, a name field as its bits.
fn count_at(desc: &[u8], fixed: &Prepared, rows: &[i64], used: usize, row: usize) -> i64
    requires { RowOf desc.now fixed.now rows.now used row }
    ensures { result ≡ count_at (setting_in desc.now fixed.now).description rows.now row }
{
    let kind = scratch_rows::column(rows, COLUMNS * row);
    if kind == 1 {
        return rows[COLUMNS * row + 3];
    }
    if kind == 2 {
        let index = scratch_rows::column(rows, COLUMNS * row + 1);
        let field = setting::field(desc, fixed, index);
        let name = printing::magnitude(rows[COLUMNS * row + 3]) as usize;
        return name.saturating_sub(usize::from(field.first)) as i64;
    }
    0
}

// The operands of the constructor at a row, with zeros behind them.
fn counts_at(
    desc: &[u8],
    fixed: &Prepared,
    rows: &[i64],
    used: usize,
    owner: usize,
) -> [i64; OPERANDS]
    requires { RowOf desc.now fixed.now rows.now used owner }
    ensures { result ≡ counts_at (setting_in desc.now fixed.now).description rows.now owner }
{
    let end = owner + scratch_rows::column(rows, COLUMNS * owner + 4);
    let mut counts = [0i64; OPERANDS];
    let mut row = owner + 1;
    for o in 0..OPERANDS {
        if end <= row {
            return counts;
        }
        counts[o] = count_at(desc, fixed, rows, used, row);
        row += scratch_rows::column(rows, COLUMNS * row + 4);
    }
    counts
}

// The value of the computed operand at a row.
fn computed_at(
    desc: &[u8],
    fixed: &Prepared,
    rows: &[i64],
    used: usize,
    row: usize,
    here: u64,
    after: u64,
) -> Option<i64>
    requires { RowOf desc.now fixed.now rows.now used row × (kind_at rows.now row ≡ 3) }
    ensures { result ≡ computed_at (setting_in desc.now fixed.now).description here after rows.now row }
{
    let owner = owner_of(rows, row);
    let counts = counts_at(desc, fixed, rows, used, owner);
    let index = scratch_rows::column(rows, COLUMNS * row + 1);
    let place = setting::expression_place(desc, fixed, index);
    expressions::evaluate(desc, place, &counts, here, after)
}

// The value put in, if the row is a computed operand's; or that it has one outside.
fn settle_row(
    desc: &[u8],
    fixed: &Prepared,
    rows: &mut [i64],
    used: usize,
    row: usize,
    here: u64,
    after: u64,
) -> Result<(), Refusal>
    requires { RowOf desc.now fixed.now rows.old used row }
    ensures { Settles (settled_at (setting_in desc.now fixed.now).description here after rows.old row) result rows.new }
{
    if scratch_rows::column(rows, COLUMNS * row) != 3 {
        return Ok(());
    }
    let Some(value) = computed_at(desc, fixed, rows, used, row, here, after) else {
        let place = scratch_rows::column(rows, COLUMNS * row + 2);
        return Err(Refusal::ValueOutside(place as u16));
    };
    rows[COLUMNS * row + 3] = value;
    Ok(())
}

// The values of all computed operands put in, in the rows' order.
fn settle(
    desc: &[u8],
    fixed: &Prepared,
    rows: &mut [i64],
    used: usize,
    here: u64,
    after: u64,
) -> Result<(), Refusal>
    requires { Fixed desc.now fixed.now × ReadableRows (setting_in desc.now fixed.now).description rows.old used }
    ensures { Settles (settled_from (setting_in desc.now fixed.now).description here after rows.old 0 used) result rows.new }
{
    for row in 0..used {
        settle_row(desc, fixed, rows, used, row, here, after)?;
    }
    Ok(())
}

// A walk at an address, with the values of its computed operands put in; a refusal leaves zeros.
fn settle_walk(
    desc: &[u8],
    fixed: &Prepared,
    walked: Result<Walk, Refusal>,
    here: u64,
    rows: &mut [i64; SCRATCH],
) -> Result<Walk, Refusal>
    requires { Fixed desc.now fixed.now × (here + longest < 2 ^ 64) × Settleable (setting_in desc.now fixed.now).description walked rows.old }
    ensures { leaving result rows.new ≡ settled_walk (setting_in desc.now fixed.now).description here walked rows.old }
{
    let walk = walked?;
    let after = here + (walk.length as u64);
    let settled = settle(desc, fixed, rows, walk.state.used, here, after);
    match settled {
        Ok(()) => Ok(walk),
        Err(refusal) => {
            *rows = [0i64; SCRATCH];
            Err(refusal)
        }
    }
}

// The instruction at a place of the code, with its rows, where there may be values to be put in.
fn settle_at(
    desc: &[u8],
    fixed: &mut Prepared,
    context: u32,
    address: u32,
    code: &[u8],
    at: usize,
    rows: &mut [i64; SCRATCH],
) -> Result<Walk, Refusal>
    requires { Fixed desc.now fixed.old × (at ≤ length code.now) × (rows.old ≡ no_rows) }
    ensures rows_after { leaving result rows.new ≡ instruction_as (result_at desc.now fixed.old code.now at context address) }
    ensures fixed_after { fixed.new ≡ told_length fixed.old code.now at }
{
    let walked = walking::walk_at(desc, fixed, context, code, at, rows);
    settle_walk(desc, fixed, walked, u64::from(address) + (at as u64), rows)
}

// The instruction at a place of the code, with its rows, which are zeros before and behind those used; a refusal leaves zeros. Only a
// description with expressions has values to be put in.
pub fn decode_at(
    desc: &[u8],
    fixed: &mut Prepared,
    context: u32,
    address: u32,
    code: &[u8],
    at: usize,
    rows: &mut [i64; SCRATCH],
) -> Result<Walk, Refusal>
    requires { Fixed desc.now fixed.old × (at ≤ length code.now) × (rows.old ≡ no_rows) }
    ensures rows_after { leaving result rows.new ≡ instruction_as (result_at desc.now fixed.old code.now at context address) }
    ensures fixed_after { fixed.new ≡ told_length fixed.old code.now at }
{
    if fixed.layout.expressions.count == 0 {
        return walking::walk_at(desc, fixed, context, code, at, rows);
    }
    settle_at(desc, fixed, context, address, code, at, rows)
}

// What a sweep asks of an instruction.
fn step_of(walked: Result<Walk, Refusal>) -> Result<Stepped, Refusal>
    ensures { result ≡ stepped_as walked }
{
    let walk = walked?;
    Ok(Stepped {
        length: walk.length,
        constructor: walk.state.taken,
    })
}

// The instruction at a place of the code, without its rows: for sweeps. Only a description with expressions needs them.
pub fn step_at(
    desc: &[u8],
    fixed: &mut Prepared,
    context: u32,
    address: u32,
    code: &[u8],
    at: usize,
) -> Result<Stepped, Refusal>
    requires { Fixed desc.now fixed.old × (at ≤ length code.now) }
    ensures value { result ≡ stepped_as (answer_of (result_at desc.now fixed.old code.now at context address)) }
    ensures fixed_after { fixed.new ≡ told_length fixed.old code.now at }
{
    if fixed.layout.expressions.count == 0 {
        return step_of(walking::step_at(desc, fixed, context, code, at));
    }
    let mut rows = [0i64; SCRATCH];
    step_of(settle_at(desc, fixed, context, address, code, at, &mut rows))
}
