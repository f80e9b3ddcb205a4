// The scratch rows, read by their places.
#![tactic(auto)]

ghost use Rattle.std.specs.Prelude.{◌≡◌, ◌<◌, pos, nat_abs, length, get_or};

// The numbers of a row.
pub const COLUMNS: usize = walk_steps::SCRATCH_NUMBERS;

// A number of the rows that is no value: a kind, a record, a start, a size.
pub fn column(rows: &[i64], i: usize) -> usize
    requires { i < length rows.now }
    ensures { result ≡ nat_abs (get_or rows.now i (pos 0)) }
{
    printing::magnitude(rows[i]) as usize
}
