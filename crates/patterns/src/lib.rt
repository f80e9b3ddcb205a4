// Patterns on machine words: no loop over bits.
#![tactic(auto)]

ghost use Rattle.std.specs.Prelude.{◌≡◌, ◌-◌, ◌<◌, ◌*◌, ◌^◌, length};
ghost use Rattle.format.specs.Bytes.{u64_at};
ghost use Rattle.patterns.specs.Relations.{inside, overlap, overlap_of, equal, weight};
ghost use Rattle.patterns.specs.Words.{input_of, words_agree, words_whole};

use format::Pattern;

// A word with every bit set.
pub const ALL: u64 = u64::MAX;

// The first eight bytes of the code as a number, missing ones 0, the bits that are here and those that are missing, and the
// context. Made once for a choice.
#[derive(Clone, Copy)]
pub struct Input {
    pub word: u64,
    pub here: u64,
    pub missing: u64,
    pub context: u64,
}

// The number of fewer than eight bytes.
fn padded(code: &[u8]) -> u64
    requires { length code.now < 8 }
    ensures { result ≡ u64_at code.now 0 }
{
    let mut eight = [0u8; 8];
    eight[..code.len()].copy_from_slice(code);
    format::quad(&eight, 0)
}

pub fn input_of(code: &[u8], context: u64) -> Input
    ensures { result ≡ input_of code.now context }
{
    let n = code.len();
    if 8 <= n {
        return Input {
            word: format::quad(code, 0),
            here: ALL,
            missing: 0,
            context,
        };
    }
    let here = (1 << (8 * n)) - 1;
    Input {
        word: padded(code),
        here,
        missing: ALL - here,
        context,
    }
}

// Whether a pattern agrees with the context and the bytes that are here.
pub fn agrees(p: Pattern, i: Input) -> bool
    ensures { result ≡ words_agree p i }
{
    ((i.word ^ p.value) & (p.mask & i.here) == 0)
        & ((i.context ^ u64::from(p.contextvalue)) & u64::from(p.contextmask) == 0)
}

// Whether all bytes are here in which a pattern masks a bit.
pub fn whole(p: Pattern, i: Input) -> bool
    ensures { result ≡ words_whole p i }
{
    p.mask & i.missing == 0
}

pub fn lies_inside(a: Pattern, b: Pattern) -> bool
    ensures { result ≡ inside a b }
{
    (((a.mask ^ b.mask) | (a.value ^ b.value)) & b.mask == 0)
        & (((a.contextmask ^ b.contextmask) | (a.contextvalue ^ b.contextvalue)) & b.contextmask
            == 0)
}

pub fn overlaps(a: Pattern, b: Pattern) -> bool
    ensures { result ≡ overlap a b }
{
    ((a.value ^ b.value) & (a.mask & b.mask) == 0)
        & ((a.contextvalue ^ b.contextvalue) & (a.contextmask & b.contextmask) == 0)
}

pub fn joined(a: Pattern, b: Pattern) -> Pattern
    ensures { result ≡ overlap_of a b }
{
    Pattern {
        mask: a.mask | b.mask,
        value: a.value | b.value,
        contextmask: a.contextmask | b.contextmask,
        contextvalue: a.contextvalue | b.contextvalue,
    }
}

pub fn same(a: Pattern, b: Pattern) -> bool
    ensures { result ≡ equal a b }
{
    a == b
}

pub fn weight_of(p: Pattern) -> u32
    ensures { result ≡ weight p }
{
    p.mask.count_ones() + p.contextmask.count_ones()
}
