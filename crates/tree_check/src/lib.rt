// The check of a decision tree proposed for a table: its form, then its leaves by the rule on patterns.
#![tactic(auto)]

ghost use Rattle.std.specs.Prelude.{◌≡◌, ◌+◌, ◌-◌, ◌<◌, ◌≤◌, Ok};
ghost use Rattle.format.specs.Layout.{SectionsInBounds};
ghost use Rattle.format.specs.Check.{WellFormed};
ghost use Rattle.format.specs.Description.{description};
ghost use Rattle.choosing.specs.Patterns.{patterns_of};
ghost use Rattle.tree_spec.specs.Nodes.{count_of, kind_at};
ghost use Rattle.tree_spec.specs.Form.{form_of};
ghost use Rattle.tree_spec.specs.Verdicts.{VerdictFor};
ghost use Rattle.tree_theorems.specs.Path.{path_of};
ghost use Rattle.tree_rule.specs.Rule.{Says, example_word, example_context};
ghost use Rattle.tree_check.specs.Search.{Leaves, Sought, named_in};
ghost use Rattle.tree_check.specs.Entry.{ForRecords, ForTable, Answers};
ghost use Rattle.tree_check.specs.declared.TreeError.TheVariants.{Rejected};

use acceptance::Rejection;
use format::{Layout, Pattern};
use tables::Table;
use tree_spec::WrongLeaf;

// What is refused; a tree that is not well formed by its first bad node.
#[derive(Clone, Copy)]
pub enum TreeError {
    Rejected(Rejection),
    NoTable(u32),
    BadTree(usize),
}

impl From<Rejection> for TreeError {
    ghost from_gives = { λ rejection error. error ≡ Rejected rejection };

    fn from(rejection: Rejection) -> TreeError {
        TreeError::Rejected(rejection)
    }
}

// The path from node 0 to a leaf: the zero side of a test holds the nodes before its place.
fn path_to(tree: &[u8], table: Table, leaf: usize) -> Pattern
    requires tree_value { form_of table.first table.count tree.now ≡ Ok tt }
    requires leaf_bound { leaf < count_of tree.now }
    requires leaf_value { kind_at tree.now leaf ≡ 0 }
    ensures { result ≡ path_of tree.now leaf }
{
    let mut p = Pattern {
        mask: 0,
        value: 0,
        contextmask: 0,
        contextvalue: 0,
    };
    let mut t = 0;
    while t < leaf {
        let kind = tree_form::kind(tree, t);
        let bit = tree_form::bit(tree, t);
        let place = tree_form::place(tree, t);
        if leaf < place {
            p = tree_form::side_of(p, kind, bit, 0);
            t += 1;
        } else {
            p = tree_form::side_of(p, kind, bit, 1);
            t = place;
        }
    }
    p
}

// The pattern of the constructor that a leaf names, if it names one.
fn named_by(desc: &[u8], layout: Layout, table: Table, v: usize) -> Option<Pattern>
    requires sections_in_bounds { SectionsInBounds desc.now layout }
    requires count_bound { table.first + table.count ≤ layout.constructors.count }
    requires says { Says table.first table.count v }
    ensures { result ≡ named_in table.first (patterns_of desc.now layout table) v }
{
    if v == tree_spec::NO_PLACE {
        return None;
    }
    Some(choosing::row(desc, layout, table.first, v - table.first))
}

// The first wrong leaf, and the record of the table that shows it: leaf after leaf, each against the table's patterns, left at the
// first wrong one.
fn first_wrong(
    desc: &[u8],
    layout: Layout,
    table: Table,
    tree: &[u8],
    count: usize,
) -> Option<(usize, usize)>
    requires { Leaves desc.now layout table tree.now count }
    ensures { Sought (patterns_of desc.now layout table) table tree.now result }
{
    let mut found = None;
    'leaves: for i in 0..count {
        if tree_form::kind(tree, i) == 0 {
            let p = path_to(tree, table, i);
            let v = tree_form::place(tree, i);
            let named = named_by(desc, layout, table, v);
            for j in 0..table.count {
                let q = choosing::row(desc, layout, table.first, j);
                if tree_rule::shows_wrong(table.first + j == v, p, named, q) {
                    found = Some((i, j));
                    break 'leaves;
                }
            }
        }
    }
    found
}

// Eight bytes on path p that q decides: q's values, or against them where the leaf names q.
fn word_against(own: bool, p: Pattern, q: Pattern) -> u64
    ensures { result ≡ example_word own p q }
{
    if own {
        return tree_rule::filled_word(p.mask, p.value, q.mask, q.value ^ q.mask);
    }
    tree_rule::filled_word(p.mask, p.value, q.mask, q.value)
}

// The context to the same bytes.
fn context_against(own: bool, p: Pattern, q: Pattern) -> u32
    ensures { result ≡ example_context own p q }
{
    if own {
        return tree_rule::filled_context(
            p.contextmask,
            p.contextvalue,
            q.contextmask,
            q.contextvalue ^ q.contextmask,
        );
    }
    tree_rule::filled_context(p.contextmask, p.contextvalue, q.contextmask, q.contextvalue)
}

// Of a tree of good form the first wrong leaf, with an input that proves it.
fn judge(desc: &[u8], layout: Layout, table: Table, tree: &[u8], count: usize) -> Option<WrongLeaf>
    requires well_formed { WellFormed desc.now layout }
    requires leaves { Leaves desc.now layout table tree.now count }
    ensures { VerdictFor table.first (patterns_of desc.now layout table) table.count tree.now result }
{
    let (i, j) = first_wrong(desc, layout, table, tree, count)?;
    let p = path_to(tree, table, i);
    let v = tree_form::place(tree, i);
    let shown = choosing::row(desc, layout, table.first, j);
    let own = table.first + j == v;
    Some(WrongLeaf {
        node: i,
        word: word_against(own, p, shown),
        context: context_against(own, p, shown),
    })
}

// A table that is there.
fn tree_for(
    desc: &[u8],
    layout: Layout,
    table: Table,
    tree: &[u8],
) -> Result<Option<WrongLeaf>, TreeError>
    requires well_formed { WellFormed desc.now layout }
    requires count_bound { table.first + table.count ≤ layout.constructors.count }
    ensures { ForRecords (description desc.now layout) table.first table.count tree.now result }
{
    tree_form::form(tree, table.first, table.count).map_err(TreeError::BadTree)?;
    let count = format::word(tree, 0) as usize;
    Ok(judge(desc, layout, table, tree, count))
}

fn tree_in(desc: &[u8], layout: Layout, t: u32, tree: &[u8]) -> Result<Option<WrongLeaf>, TreeError>
    requires { WellFormed desc.now layout }
    ensures { ForTable (description desc.now layout) t tree.now result }
{
    let table = tables::table_of(desc, layout, t);
    if table.count == 0 {
        return Err(TreeError::NoTable(t));
    }
    tree_for(desc, layout, table, tree)
}

// The first wrong leaf of the tree, if there is one, for any bytes as the description and as the tree, and any table number.
pub fn tree_check(desc: &[u8], t: u32, tree: &[u8]) -> Result<Option<WrongLeaf>, TreeError>
    ensures { Answers desc.now t tree.now result }
{
    let layout = acceptance::accept(desc)?;
    tree_in(desc, layout, t, tree)
}
