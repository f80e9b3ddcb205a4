// The rule's node at the end of a path: one pass over the table's patterns, on machine words.
#![tactic(auto)]

ghost use Rattle.std.specs.Prelude.{◌≡◌};
ghost use Rattle.choosing.specs.Patterns.{patterns_in};
ghost use Rattle.choosing_spec.specs.ValidPattern.{ValidPattern};
ghost use Rattle.tree_building_spec.specs.Rule.{node_of};
ghost use Rattle.tree_nodes.specs.Ready.{Ready};
ghost use Rattle.tree_nodes.specs.Gathering.{with_live, gathered};

use format::{Pattern, Section};
use tables::Table;
use tree_building_spec::Node;

// What the live patterns come to: all their masks, and the last one that masked all of them so far, as a leaf's place.
#[derive(Clone, Copy)]
pub struct Live {
    pub mask: u64,
    pub context: u32,
    pub leaf: usize,
}

// One more live pattern, that of constructor `at`.
fn with_live(live: Live, q: Pattern, at: usize) -> Live
    ensures { result ≡ with_live live q at }
{
    let mask = live.mask | q.mask;
    let context = live.context | q.contextmask;
    if (q.mask == mask) & (q.contextmask == context) {
        return Live {
            mask,
            context,
            leaf: at,
        };
    }
    Live {
        mask,
        context,
        leaf: live.leaf,
    }
}

fn gather(desc: &[u8], constructors: Section, table: Table, p: Pattern) -> Live
    requires { Ready desc.now constructors table }
    ensures { result ≡ gathered table.first (patterns_in desc.now constructors table) p table.count }
{
    let mut live = Live {
        mask: 0,
        context: 0,
        leaf: tree_spec::NO_PLACE,
    };
    for j in 0..table.count {
        let q = choosing::pattern_in(desc, constructors, table.first, j);
        if patterns::overlaps(p, q) {
            live = with_live(live, q, table.first + j);
        }
    }
    live
}

// A bit that a live pattern masks and that is not on the path is tested, the lowest first. Where there is none, all live patterns hold
// the path, and the one that masks as much as all of them is the innermost.
pub fn node_at(desc: &[u8], constructors: Section, table: Table, p: Pattern) -> Node
    requires ready { Ready desc.now constructors table }
    requires valid_pattern { ValidPattern p }
    ensures { result ≡ node_of table.first (patterns_in desc.now constructors table) table.count p }
{
    let live = gather(desc, constructors, table, p);
    let bytes = (live.mask | p.mask) ^ p.mask;
    if bytes != 0 {
        return Node::Test {
            kind: 1,
            bit: bytes.trailing_zeros() as u8,
        };
    }
    let context = (live.context | p.contextmask) ^ p.contextmask;
    if context != 0 {
        return Node::Test {
            kind: 2,
            bit: context.trailing_zeros() as u8,
        };
    }
    Node::Leaf(live.leaf)
}
