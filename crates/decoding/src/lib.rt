// Decoding one instruction of any bytes to rows.
#![tactic(auto)]

ghost use Rattle.std.specs.Prelude.{◌≡◌, ◌*◌, ◌≤◌, length};
ghost use Rattle.format.specs.Numbers.{most_rows, row_numbers};
ghost use Rattle.format.specs.Check.{WellFormed};
ghost use Rattle.format.specs.Description.{description};
ghost use Rattle.decoding.specs.Decoding.{Decodes, decode_of, rows_after};
ghost use Rattle.decoding.specs.Copying.{Copied};
ghost use Rattle.decoding.specs.declared.DecodeError.TheVariants.{Rejected, Refused};

use acceptance::Rejection;
use decoding_spec::Refusal;
use format::Layout;

// Why no rows are written: the description is no such one, there is no instruction, or the rows have no room.
#[derive(Clone, Copy)]
pub enum DecodeError {
    Rejected(Rejection),
    Refused(Refusal),
    NoRoom,
}

impl From<Rejection> for DecodeError {
    ghost from_gives = { λ x e. e ≡ Rejected x };

    fn from(rejection: Rejection) -> DecodeError {
        DecodeError::Rejected(rejection)
    }
}

impl From<Refusal> for DecodeError {
    ghost from_gives = { λ r e. e ≡ Refused r };

    fn from(refusal: Refusal) -> DecodeError {
        DecodeError::Refused(refusal)
    }
}

// Four numbers of each of the scratch rows' five: number k of the rows is number k + k / 4 of the scratch rows.
fn copy_rows(scratch: &[i64; walk_steps::SCRATCH], used: usize, rows: &mut [i64])
    requires { (used ≤ most_rows) × (row_numbers * used ≤ length rows.old) }
    ensures { Copied scratch.now (row_numbers * used) rows.old rows.new }
{
    let numbers = format::ROW_NUMBERS * used;
    for k in 0..numbers {
        rows[k] = scratch[k + k / format::ROW_NUMBERS];
    }
}

fn decode_in(
    desc: &[u8],
    layout: Layout,
    context: u32,
    address: u32,
    code: &[u8],
    rows: &mut [i64],
) -> Result<usize, DecodeError>
    requires { WellFormed desc.now layout }
    ensures { Decodes (description desc.now layout) context address code.now rows.old result rows.new }
{
    let mut fixed = setting::fill(desc, layout, false);
    let mut scratch = [0i64; walk_steps::SCRATCH];
    let walk = instructions::decode_at(desc, &mut fixed, context, address, code, 0, &mut scratch)?;
    let used = walk.state.used;
    if rows.len() < format::ROW_NUMBERS * used {
        return Err(DecodeError::NoRoom);
    }
    copy_rows(&scratch, used, rows);
    Ok(used)
}

// Any bytes as the description and as the code, any context, any address of the code's first byte, any room for rows; how many rows
// are written.
pub fn decode(
    desc: &[u8],
    context: u32,
    address: u32,
    code: &[u8],
    rows: &mut [i64],
) -> Result<usize, DecodeError>
    ensures value { result ≡ decode_of desc.now context address code.now (length rows.old) }
    ensures rows_after { rows.new ≡ rows_after desc.now context address code.now rows.old }
{
    let layout = acceptance::accept(desc)?;
    decode_in(desc, layout, context, address, code, rows)
}
