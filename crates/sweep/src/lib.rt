// Sweeping a code buffer: a row for each instruction and each gap.
#![tactic(auto)]

ghost use Rattle.std.specs.Prelude.{true, ◌≡◌, ◌+◌, ◌-◌, ◌*◌, ◌<◌, ◌≤◌, ◌^◌, length};
ghost use Rattle.alignment.specs.Alignment.{is_alignment};
ghost use Rattle.format.specs.Numbers.{sweep_numbers};
ghost use Rattle.format.specs.Check.{WellFormed};
ghost use Rattle.setting.specs.Fixed.{Fixed};
ghost use Rattle.instructions.specs.Instructions.{result_at};
ghost use Rattle.sweep.specs.Sweep.{gap, aligned_step, row_at, sweep_of, buffer_after};
ghost use Rattle.sweep.specs.Buffer.{OutcomeIn, StillFixed, buffer_with_row};
ghost use Rattle.sweep.specs.declared.SweepError.TheVariants.{Rejected};

use acceptance::Rejection;
use decoding_spec::Refusal;
use format::Layout;
use setting::Prepared;

// Why a sweep ended: the code is used up, no whole row is left, or the code is short.
#[derive(Clone, Copy, PartialEq, Eq)]
pub enum End {
    Used,
    Full,
    Short,
}

// Why a sweep ended, how many rows it wrote, and the next byte.
#[derive(Clone, Copy, PartialEq, Eq)]
pub struct Swept {
    pub why: End,
    pub rows: usize,
    pub next: usize,
}

// Why nothing is swept: the description is no such one, or there is no such alignment.
#[derive(Clone, Copy)]
pub enum SweepError {
    Rejected(Rejection),
    NoAlignment(u32),
}

impl From<Rejection> for SweepError {
    ghost from_gives = { λ x e. e ≡ Rejected x };

    fn from(rejection: Rejection) -> SweepError {
        SweepError::Rejected(rejection)
    }
}

// What a place comes to: a row's length, answer and root constructor.
#[derive(Clone, Copy, PartialEq, Eq)]
pub struct Row {
    pub length: usize,
    pub answer: u8,
    pub constructor: usize,
}

const NUMBERS: usize = format::SWEEP_NUMBERS;

// The constructor of a gap.
const NO_ROOT: usize = 65535;

// A gap of this length, with the refusal's number; none where the code is short.
fn gap_of(length: usize, refusal: Refusal) -> Option<Row>
    ensures { result ≡ gap length refusal }
{
    if refusal.is_short() {
        return None;
    }
    Some(Row {
        length,
        answer: refusal.number(),
        constructor: NO_ROOT,
    })
}

// The decoding at a place, from there to the end of the code, whose byte 0 has this address; or that it is no multiple. None where the
// code is short.
fn step_at(
    desc: &[u8],
    fixed: &mut Prepared,
    context: u32,
    address: u32,
    alignment: usize,
    code: &[u8],
    at: usize,
) -> Option<Row>
    requires { Fixed desc.now fixed.old × (at ≤ length code.now) × (is_alignment alignment ≡ true) }
    ensures value { result ≡ aligned_step alignment (address + at) (length code.now - at) (result_at desc.now fixed.old code.now at context address) }
    ensures still_fixed { StillFixed desc.now fixed.old fixed.new }
{
    let here = (address as usize) + at;
    if !alignment::is_multiple(alignment, here) {
        return Some(Row {
            length: alignment::gap_length(alignment, here, code.len() - at),
            answer: alignment::NO_MULTIPLE,
            constructor: NO_ROOT,
        });
    }
    match instructions::step_at(desc, fixed, context, address, code, at) {
        Ok(step) => Some(Row {
            length: step.length,
            answer: 0,
            constructor: step.constructor,
        }),
        Err(refusal) => gap_of(
            alignment::gap_length(alignment, here, code.len() - at),
            refusal,
        ),
    }
}

// Row i of the lent rows.
fn put_row(rows: &mut [i64], i: usize, start: usize, row: Row)
    requires i_in_bounds { sweep_numbers * (i + 1) ≤ length rows.old }
    requires start_bound { (start < 2 ^ 63) × (row.length < 2 ^ 63) × (row.constructor < 2 ^ 63) }
    ensures { rows.new ≡ buffer_with_row i (row_at start row.length row.answer row.constructor) rows.old }
{
    let at = NUMBERS * i;
    rows[at] = start as i64;
    rows[at + 1] = row.length as i64;
    rows[at + 2] = row.answer as i64;
    rows[at + 3] = row.constructor as i64;
}

fn sweep_in(
    desc: &[u8],
    layout: Layout,
    context: u32,
    address: u32,
    alignment: usize,
    code: &[u8],
    rows: &mut [i64],
) -> Swept
    requires { WellFormed desc.now layout × (is_alignment alignment ≡ true) }
    ensures { OutcomeIn desc.now layout context address alignment code.now rows.old result rows.new }
{
    let mut fixed = setting::fill(desc, layout, true);
    let room = rows.len() / NUMBERS;
    let mut at = 0;
    let mut n = 0;
    while at < code.len() {
        if n == room {
            return Swept {
                why: End::Full,
                rows: n,
                next: at,
            };
        }
        let found = step_at(desc, &mut fixed, context, address, alignment, code, at);
        let Some(row) = found else {
            return Swept {
                why: End::Short,
                rows: n,
                next: at,
            };
        };
        put_row(rows, n, at, row);
        at += row.length;
        n += 1;
    }
    Swept {
        why: End::Used,
        rows: n,
        next: at,
    }
}

// Any bytes as the description and as the code, any context, any address of the code's byte 0, any alignment, any room for rows.
pub fn sweep(
    desc: &[u8],
    context: u32,
    address: u32,
    alignment: u32,
    code: &[u8],
    rows: &mut [i64],
) -> Result<Swept, SweepError>
    ensures value { result ≡ sweep_of desc.now context address alignment code.now (length rows.old) }
    ensures rows_after { rows.new ≡ buffer_after desc.now context address alignment code.now rows.old }
{
    let layout = acceptance::accept(desc)?;
    if !alignment::is_alignment(alignment) {
        return Err(SweepError::NoAlignment(alignment));
    }
    let unit = alignment as usize;
    Ok(sweep_in(desc, layout, context, address, unit, code, rows))
}
