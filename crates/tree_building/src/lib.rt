// The decision tree of a table by the rule, for any bytes: its nodes are counted, then written.
#![tactic(auto)]

ghost use Rattle.std.specs.Prelude.{Ok, ◌≡◌, ◌+◌, ◌*◌, ◌<◌, ◌≤◌, length};
ghost use Rattle.format.specs.Check.{WellFormed};
ghost use Rattle.format.specs.Description.{description};
ghost use Rattle.choosing.specs.Patterns.{patterns_in};
ghost use Rattle.tree_building_spec.specs.Tree.{tree_of, size_of};
ghost use Rattle.tree_nodes.specs.Ready.{Ready};
ghost use Rattle.tree_building.specs.Building.{outcome_for, outcome_in, Builds, build_of, build_after};
ghost use Rattle.tree_building.specs.Room.{most_in};
ghost use Rattle.tree_building.specs.declared.BuildError.TheVariants.{Rejected};
ghost use Rattle.tree_building.specs.Writing.{PutsWord, PutsNode, PutsPlace, PutsTree};

use acceptance::Rejection;
use format::{Layout, Pattern, Section};
use tables::Table;
use tree_building_spec::Node;

// What is refused: a clash with its pair of constructors, or a tree that has too many nodes or does not fit.
#[derive(Clone, Copy)]
pub enum BuildError {
    Rejected(Rejection),
    NoTable(u32),
    Clashes(usize, usize),
    TooLarge,
}

impl From<Rejection> for BuildError {
    ghost from_gives = { λ rejection error. error ≡ Rejected rejection };

    fn from(rejection: Rejection) -> BuildError {
        BuildError::Rejected(rejection)
    }
}

// Two bytes, from a place on.
fn put_word(out: &mut [u8], at: usize, word: usize)
    requires at_in_bounds { at + 2 ≤ length out.old }
    requires word_bound { word < 65536 }
    ensures { PutsWord at word out.old out.new }
{
    out[at] = (word % 256) as u8;
    out[at + 1] = (word / 256) as u8;
}

fn put_place(out: &mut [u8], i: usize, place: usize)
    requires i_in_bounds { 4 * i + 6 ≤ length out.old }
    requires place_bound { place < 65536 }
    ensures { PutsPlace i place out.old out.new }
{
    put_word(out, 4 * i + 4, place);
}

fn put_node(out: &mut [u8], i: usize, kind: u8, bit: u8, place: usize)
    requires i_in_bounds { 4 * i + 6 ≤ length out.old }
    requires place_bound { place < 65536 }
    ensures { PutsNode i kind bit place out.old out.new }
{
    out[4 * i + 2] = kind;
    out[4 * i + 3] = bit;
    put_place(out, i, place);
}

// The nodes in their order. Until a test's zero side is written, its place holds the number of the last test before it that waits for
// its own, so that `waiting` and the bytes are all that has to be remembered.
fn write(desc: &[u8], constructors: Section, table: Table, count: usize, out: &mut [u8])
    requires ready { Ready desc.now constructors table }
    requires count_value { count ≡ size_of (tree_of table.first (patterns_in desc.now constructors table) table.count) }
    requires count_bound { (count ≤ 4095) × (2 + 4 * count ≤ length out.old) }
    ensures { PutsTree (tree_of table.first (patterns_in desc.now constructors table) table.count) out.old out.new }
{
    let mut p = Pattern {
        mask: 0,
        value: 0,
        contextmask: 0,
        contextvalue: 0,
    };
    let mut waiting = 0;
    for i in 0..count {
        match tree_nodes::node_at(desc, constructors, table, p) {
            Node::Test { kind, bit } => {
                put_node(out, i, kind, bit, waiting);
                waiting = i;
                p = tree_form::side_of(p, kind, bit, 0);
            }
            Node::Leaf(place) => {
                put_node(out, i, 0, 0, place);
                match tree_counting::turned(p) {
                    Some(next) => {
                        let outer = tree_form::place(out, waiting);
                        put_place(out, waiting, i + 1);
                        waiting = outer;
                        p = next;
                    }
                    None => {
                        return;
                    }
                }
            }
        }
    }
}

// How many nodes may be written into so many bytes.
fn most_nodes(room: usize) -> usize
    ensures { result ≡ most_in room }
{
    tree_spec::MOST_NODES.min(room.saturating_sub(2) / 4)
}

// A table without a clash. Nothing is written before its tree is known to fit.
fn build_clear(
    desc: &[u8],
    constructors: Section,
    table: Table,
    out: &mut [u8],
) -> Result<usize, BuildError>
    requires { Ready desc.now constructors table }
    ensures { Builds (Ok (tree_of table.first (patterns_in desc.now constructors table) table.count)) out.old result out.new }
{
    let most = most_nodes(out.len());
    let Some(nodes) = tree_counting::count(desc, constructors, table, most) else {
        return Err(BuildError::TooLarge);
    };
    put_word(out, 0, nodes);
    write(desc, constructors, table, nodes, out);
    Ok(2 + 4 * nodes)
}

// A table that is there.
fn build_for(desc: &[u8], layout: Layout, table: Table, out: &mut [u8]) -> Result<usize, BuildError>
    requires well_formed { WellFormed desc.now layout }
    requires count_bound { table.first + table.count ≤ layout.constructors.count }
    ensures { Builds (outcome_for (description desc.now layout) table.first table.count) out.old result out.new }
{
    match clash_check::first_clash(desc, layout, table) {
        Some((i, j)) => Err(BuildError::Clashes(table.first + i, table.first + j)),
        None => build_clear(desc, layout.constructors, table, out),
    }
}

fn build_in(desc: &[u8], layout: Layout, t: u32, out: &mut [u8]) -> Result<usize, BuildError>
    requires { WellFormed desc.now layout }
    ensures { Builds (outcome_in (description desc.now layout) t) out.old result out.new }
{
    let table = tables::table_of(desc, layout, t);
    if table.count == 0 {
        return Err(BuildError::NoTable(t));
    }
    build_for(desc, layout, table, out)
}

// The bytes written, for any bytes as the description, any table number and any room for the tree.
pub fn build(desc: &[u8], t: u32, out: &mut [u8]) -> Result<usize, BuildError>
    ensures value { result ≡ build_of desc.now t (length out.old) }
    ensures out_after { out.new ≡ build_after desc.now t out.old }
{
    let layout = acceptance::accept(desc)?;
    build_in(desc, layout, t, out)
}
