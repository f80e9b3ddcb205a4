// The nodes of the tree that the rule makes for a table, looked at one after the other without writing any. A path's tests ascend, so
// that a path, as a pattern, says by itself which side comes next, and nothing calls itself.
#![tactic(auto)]

ghost use Rattle.std.specs.Prelude.{◌≡◌, ◌<◌};
ghost use Rattle.choosing.specs.Patterns.{patterns_in};
ghost use Rattle.choosing_spec.specs.ValidPattern.{ValidPattern};
ghost use Rattle.tree_building_spec.specs.Tree.{tree_of, size_of};
ghost use Rattle.tree_nodes.specs.Ready.{Ready};
ghost use Rattle.tree_counting.specs.Counting.{counted_of};
ghost use Rattle.tree_counting.specs.Turning.{top_of, cut_at, turn_of};

use format::{Pattern, Section};
use tables::Table;
use tree_building_spec::Node;

// The highest set bit of a word that is not 0, as a word.
fn highest(word: u64) -> u64
    requires { word ≡ 0 → ⊥ }
    ensures { result ≡ top_of word }
{
    1 << (63 - u64::leading_zeros(word))
}

// A word's bits below a bit, and that bit.
fn cut(word: u64, top: u64) -> u64
    requires { 0 < top }
    ensures { result ≡ cut_at word top }
{
    (word & (top - 1)) | top
}

// Behind a path whose tree is finished the path to the next side, unless the whole tree is finished. The last test that went to its
// zero side is the highest bit of those tested to be 0. It is turned to its one side, and the tests behind it are dropped.
pub fn turned(p: Pattern) -> Option<Pattern>
    requires { ValidPattern p }
    ensures { result ≡ turn_of p }
{
    let context = p.contextmask ^ p.contextvalue;
    if context != 0 {
        let top = highest(context as u64);
        return Some(Pattern {
            mask: p.mask,
            value: p.value,
            contextmask: cut(p.contextmask as u64, top) as u32,
            contextvalue: cut(p.contextvalue as u64, top) as u32,
        });
    }
    let bytes = p.mask ^ p.value;
    if bytes != 0 {
        let top = highest(bytes);
        return Some(Pattern {
            mask: cut(p.mask, top),
            value: cut(p.value, top),
            contextmask: 0,
            contextvalue: 0,
        });
    }
    None
}

// How many nodes the tree has, if no more than `most`; no more than that are looked at.
pub fn count(desc: &[u8], constructors: Section, table: Table, most: usize) -> Option<usize>
    requires { Ready desc.now constructors table }
    ensures { result ≡ counted_of most (size_of (tree_of table.first (patterns_in desc.now constructors table) table.count)) }
{
    let mut p = Pattern {
        mask: 0,
        value: 0,
        contextmask: 0,
        contextvalue: 0,
    };
    for before in 0..most {
        match tree_nodes::node_at(desc, constructors, table, p) {
            Node::Test { kind, bit } => {
                p = tree_form::side_of(p, kind, bit, 0);
            }
            Node::Leaf(_) => match turned(p) {
                Some(next) => {
                    p = next;
                }
                None => {
                    return Some(before + 1);
                }
            },
        }
    }
    None
}
