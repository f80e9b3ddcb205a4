// The form of a decision tree, judged in one pass over its nodes.
#![tactic(auto)]

ghost use Rattle.std.specs.Prelude.{cond, not, ◌&&◌, ◌≡◌, ℕ, ◌+◌, ◌*◌, ◌<◌, ◌≤◌, ltb, eqb, length};
ghost use Rattle.bits.specs.Bits.{is_set};
ghost use Rattle.tree_spec.specs.Nodes.{no_place, count_of, kind_at, bit_at, place_at};
ghost use Rattle.tree_spec.specs.Form.{side, leaf_ok, test_ok, node_ok, walk_of, ended, counted, form_of};

use format::Pattern;
use tree_spec::{NoSubtree, Subtree};

// Node i's three parts.
pub fn kind(tree: &[u8], i: usize) -> u8
    requires { 4 * i + 6 ≤ length tree.now }
    ensures { result ≡ kind_at tree.now i }
{
    tree[4 * i + 2]
}

pub fn bit(tree: &[u8], i: usize) -> u8
    requires { 4 * i + 6 ≤ length tree.now }
    ensures { result ≡ bit_at tree.now i }
{
    tree[4 * i + 3]
}

pub fn place(tree: &[u8], i: usize) -> usize
    requires { 4 * i + 6 ≤ length tree.now }
    ensures { result ≡ place_at tree.now i }
{
    format::word(tree, 4 * i + 4) as usize
}

// The path behind a test, on side x.
pub fn side_of(p: Pattern, kind: u8, bit: u8, x: u32) -> Pattern
    requires { (bit < 64) × ((kind ≡ 1 → ⊥) → bit < 32) × (x ≤ 1) }
    ensures { result ≡ side p kind bit x }
{
    if kind == 1 {
        return Pattern {
            mask: p.mask | (1 << bit),
            value: p.value | ((x as u64) << bit),
            contextmask: p.contextmask,
            contextvalue: p.contextvalue,
        };
    }
    Pattern {
        mask: p.mask,
        value: p.value,
        contextmask: p.contextmask | (1 << bit),
        contextvalue: p.contextvalue | (x << bit),
    }
}

// Whether a bit is one of the first `bits`, and no test of the path's before.
fn fresh(mask: u64, bit: u8, bits: u8) -> bool
    requires { bits ≤ 64 }
    ensures { result ≡ (ltb bit bits && not (is_set mask bit)) }
{
    if bit < bits {
        !((mask >> bit) % 2 == 1)
    } else {
        false
    }
}

fn leaf_ok(tree: &[u8], first: usize, n: usize, i: usize) -> bool
    requires i_in_bounds { 4 * i + 6 ≤ length tree.now }
    requires n_bound { first + n ≤ 512 }
    ensures { result ≡ leaf_ok first n tree.now i }
{
    let place = place(tree, i);
    (bit(tree, i) == 0)
        & (((first <= place) & (place < first + n)) | (place == tree_spec::NO_PLACE))
}

fn test_ok(tree: &[u8], p: Pattern, i: usize) -> bool
    requires { 4 * i + 6 ≤ length tree.now }
    ensures { result ≡ test_ok p tree.now i }
{
    let kind = kind(tree, i);
    let bit = bit(tree, i);
    if kind == 1 {
        return fresh(p.mask, bit, 64);
    }
    if kind == 2 {
        return fresh(p.contextmask as u64, bit, 32);
    }
    false
}

// Whether node i is sound by itself, on the path p.
fn node_ok(tree: &[u8], first: usize, n: usize, p: Pattern, i: usize) -> bool
    requires i_in_bounds { 4 * i + 6 ≤ length tree.now }
    requires n_bound { first + n ≤ 512 }
    ensures { result ≡ node_ok first n p tree.now i }
{
    if kind(tree, i) == 0 {
        leaf_ok(tree, first, n, i)
    } else {
        test_ok(tree, p, i)
    }
}

// Node i, where its one side stands elsewhere than behind its zero side.
fn own_side(place: usize, next: usize, i: usize) -> usize
    ensures { result ≡ cond (eqb place next) no_place i }
{
    if place == next {
        tree_spec::NO_PLACE
    } else {
        i
    }
}

// The subtree from node i on. It goes no deeper than 96 tests, since a bit that is tested twice is a fault.
fn walk(
    tree: &[u8],
    first: usize,
    n: usize,
    count: usize,
    p: Pattern,
    i: usize,
) -> Result<Subtree, NoSubtree>
    requires count_value { (count ≡ count_of tree.now) × (2 + 4 * count ≤ length tree.now) × (count ≤ 4095) }
    requires n_bound { first + n ≤ 512 }
    ensures { (deep : ℕ) → count_of tree.now ≤ i + deep → result ≡ walk_of first n tree.now deep p i }
{
    if count <= i {
        return Err(NoSubtree::Out);
    }
    if !node_ok(tree, first, n, p, i) {
        return Err(NoSubtree::Fault(i));
    }
    let kind = kind(tree, i);
    if kind == 0 {
        return Ok(Subtree {
            next: i + 1,
            side: tree_spec::NO_PLACE,
        });
    }
    let bit = bit(tree, i);
    let zero = walk(tree, first, n, count, side_of(p, kind, bit, 0), i + 1)?;
    let one = walk(tree, first, n, count, side_of(p, kind, bit, 1), zero.next)?;
    let own = own_side(place(tree, i), zero.next, i);
    Ok(Subtree {
        next: one.next,
        side: own.min(zero.side.min(one.side)),
    })
}

// Whether the bytes are a count and so many nodes.
fn count_ok(tree: &[u8]) -> bool
    ensures { result ≡ counted tree.now }
{
    if tree.len() < 2 {
        return false;
    }
    let count = format::word(tree, 0) as usize;
    (1 <= count) & (count <= tree_spec::MOST_NODES) & (tree.len() == 2 + 4 * count)
}

// The form of a tree of `count` nodes that was walked from its first one on.
fn end(count: usize, walked: Result<Subtree, NoSubtree>) -> Result<(), usize>
    ensures { result ≡ ended count walked }
{
    match walked {
        Ok(whole) => {
            if whole.next != count {
                Err(tree_spec::NO_PLACE)
            } else if whole.side != tree_spec::NO_PLACE {
                Err(whole.side)
            } else {
                Ok(())
            }
        }
        Err(NoSubtree::Fault(node)) => Err(node),
        Err(NoSubtree::Out) => Err(tree_spec::NO_PLACE),
    }
}

// Whether the bytes are a tree of good form for the constructors from `first` on, n of them; else the first bad node, or
// NO_PLACE.
pub fn form(tree: &[u8], first: usize, n: usize) -> Result<(), usize>
    requires { first + n ≤ 512 }
    ensures { result ≡ form_of first n tree.now }
{
    if !count_ok(tree) {
        return Err(tree_spec::NO_PLACE);
    }
    let count = format::word(tree, 0) as usize;
    let start = Pattern {
        mask: 0,
        value: 0,
        contextmask: 0,
        contextvalue: 0,
    };
    end(count, walk(tree, first, n, count, start, 0))
}
