// Alignment: which numbers are one, multiples of it, and how far a gap reaches.
#![tactic(auto)]

ghost use Rattle.std.specs.Prelude.{true, ◌≡◌};
ghost use Rattle.alignment.specs.Alignment.{is_alignment, is_multiple, gap_length};

// The answer of a place that is no multiple.
pub const NO_MULTIPLE: u8 = 14;

pub fn is_alignment(n: u32) -> bool
    ensures { result ≡ is_alignment n }
{
    matches!(n, 1 | 2 | 4 | 8)
}

// An alignment is a power of two, so that a mask gives the remainder.
pub fn is_multiple(n: usize, x: usize) -> bool
    requires { is_alignment n ≡ true }
    ensures { result ≡ is_multiple n x }
{
    x & (n - 1) == 0
}

// To the next multiple, or over all bytes that are left.
pub fn gap_length(n: usize, x: usize, left: usize) -> usize
    requires { is_alignment n ≡ true }
    ensures { result ≡ gap_length n x left }
{
    let reach = n - (x & (n - 1));
    reach.min(left)
}
