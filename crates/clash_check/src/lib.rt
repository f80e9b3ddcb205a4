// The clash check of a table: pairs in order; only a pair that crosses looks for a third.
#![tactic(auto)]

ghost use Rattle.std.specs.Prelude.{true, ◌≡◌, ◌+◌, ◌<◌, ◌≤◌};
ghost use Rattle.format.specs.Layout.{SectionsInBounds};
ghost use Rattle.format.specs.Check.{WellFormed};
ghost use Rattle.format.specs.Description.{description};
ghost use Rattle.patterns.specs.Relations.{overlap};
ghost use Rattle.choosing_spec.specs.Clashing.{another, clashing, clash_of};
ghost use Rattle.choosing.specs.Patterns.{patterns_of};
ghost use Rattle.clash_check.specs.Entry.{clash_in, clash_answer};
ghost use Rattle.clash_check.specs.Partner.{partner_if};
ghost use Rattle.clash_check.specs.declared.ClashError.TheVariants.{Malformed};

use format::{Fault, Layout, Pattern};
use tables::Table;

#[derive(Clone, Copy)]
pub enum ClashError {
    Malformed(Fault),
    NoTable(u32),
}

impl From<Fault> for ClashError {
    ghost from_gives = { λ fault error. error ≡ Malformed fault };

    fn from(fault: Fault) -> ClashError {
        ClashError::Malformed(fault)
    }
}

// Whether a record of the table other than i and j has pattern p.
fn has_third(desc: &[u8], layout: Layout, table: Table, i: usize, j: usize, p: Pattern) -> bool
    requires sections_in_bounds { SectionsInBounds desc.now layout }
    requires count_bound { table.first + table.count ≤ layout.constructors.count }
    ensures { result ≡ another (patterns_of desc.now layout table) table.count i j p }
{
    for t in 0..table.count {
        let q = choosing::row(desc, layout, table.first, t);
        if (t != i) & (t != j) & patterns::same(q, p) {
            return true;
        }
    }
    false
}

// Whether records i and j, with overlapping patterns a and b, clash.
fn crosses(
    desc: &[u8],
    layout: Layout,
    table: Table,
    i: usize,
    j: usize,
    a: Pattern,
    b: Pattern,
) -> bool
    requires sections_in_bounds { SectionsInBounds desc.now layout }
    requires count_bound { table.first + table.count ≤ layout.constructors.count }
    requires a_value { a ≡ patterns_of desc.now layout table i }
    requires b_value { b ≡ patterns_of desc.now layout table j }
    requires b_value_2 { overlap a b ≡ true }
    ensures { result ≡ clashing (patterns_of desc.now layout table) table.count i j }
{
    if patterns::same(a, b) {
        return true;
    }
    if patterns::lies_inside(a, b) | patterns::lies_inside(b, a) {
        return false;
    }
    let p = patterns::joined(a, b);
    !has_third(desc, layout, table, i, j, p)
}

// Whether records i and j, with patterns a and b, clash. Most pairs of a table are apart, so that is tested first.
fn clashes(
    desc: &[u8],
    layout: Layout,
    table: Table,
    i: usize,
    j: usize,
    a: Pattern,
    b: Pattern,
) -> bool
    requires sections_in_bounds { SectionsInBounds desc.now layout }
    requires count_bound { table.first + table.count ≤ layout.constructors.count }
    requires a_value { a ≡ patterns_of desc.now layout table i }
    requires b_value { b ≡ patterns_of desc.now layout table j }
    ensures { result ≡ clashing (patterns_of desc.now layout table) table.count i j }
{
    if patterns::overlaps(a, b) {
        return crosses(desc, layout, table, i, j, a, b);
    }
    false
}

// The first record after i that clashes with it.
fn partner_of(desc: &[u8], layout: Layout, table: Table, i: usize) -> Option<usize>
    requires sections_in_bounds { SectionsInBounds desc.now layout }
    requires count_bound { table.first + table.count ≤ layout.constructors.count }
    requires i_lt_count { i < table.count }
    ensures { result ≡ partner_if (patterns_of desc.now layout table) table.count i }
{
    let a = choosing::row(desc, layout, table.first, i);
    for j in i + 1..table.count {
        let b = choosing::row(desc, layout, table.first, j);
        if clashes(desc, layout, table, i, j, a, b) {
            return Some(j);
        }
    }
    None
}

// The first pair of the table's records that clashes.
pub fn first_clash(desc: &[u8], layout: Layout, table: Table) -> Option<(usize, usize)>
    requires sections_in_bounds { SectionsInBounds desc.now layout }
    requires count_bound { table.first + table.count ≤ layout.constructors.count }
    ensures { result ≡ clash_of (patterns_of desc.now layout table) table.count }
{
    for i in 0..table.count {
        if let Some(j) = partner_of(desc, layout, table, i) {
            return Some((i, j));
        }
    }
    None
}

fn clash_in(desc: &[u8], layout: Layout, t: u32) -> Result<Option<(usize, usize)>, ClashError>
    requires { WellFormed desc.now layout }
    ensures { result ≡ clash_in (description desc.now layout) t }
{
    let table = tables::table_of(desc, layout, t);
    if table.count == 0 {
        return Err(ClashError::NoTable(t));
    }
    match first_clash(desc, layout, table) {
        Some((i, j)) => Ok(Some((table.first + i, table.first + j))),
        None => Ok(None),
    }
}

// The pair by its constructors, for any bytes as the description and any table number.
pub fn clash(desc: &[u8], t: u32) -> Result<Option<(usize, usize)>, ClashError>
    ensures { result ≡ clash_answer desc.now t }
{
    let layout = validation::check(desc)?;
    clash_in(desc, layout, t)
}
