// The tables of a well-formed description: the root, and where a table's constructors stand.
#![tactic(auto)]

ghost use Rattle.std.specs.Prelude.{◌&&◌, ◌≡◌, ◌<◌, ltb};
ghost use Rattle.format.specs.Layout.{SectionsInBounds};
ghost use Rattle.format.specs.Description.{description};
ghost use Rattle.format.specs.Check.{WellFormed};
ghost use Rattle.format.specs.Rules.{table_at};
ghost use Rattle.format.specs.Tables.{root_of, table_first, table_count};
ghost use Rattle.tables.specs.Starts.{table_starts};

use format::Layout;

// A table has a number below TABLES; one more than that has the section's count.
pub const STARTS: usize = (format::TABLES as usize) + 1;

// A table's constructors: so many records of section 3 from the first on.
#[derive(Clone, Copy)]
pub struct Table {
    pub first: usize,
    pub count: usize,
}

pub fn root(desc: &[u8], layout: Layout) -> u8
    requires { SectionsInBounds desc.now layout }
    ensures { result ≡ root_of (description desc.now layout) }
{
    let last = layout.constructors.count - 1;
    sections::table_at(desc, layout, last)
}

// The first constructor whose table is not below t, by halving: the tables never fall.
fn first_from(desc: &[u8], layout: Layout, t: usize) -> usize
    requires { WellFormed desc.now layout }
    ensures { result ≡ table_first (description desc.now layout) t }
{
    let mut low = 0;
    let mut high = layout.constructors.count;
    while low < high {
        let middle = low + (high - low) / 2;
        let table = sections::table_at(desc, layout, middle) as usize;
        if table < t {
            low = middle + 1;
        } else {
            high = middle;
        }
    }
    low
}

pub fn table_of(desc: &[u8], layout: Layout, t: u32) -> Table
    requires { WellFormed desc.now layout }
    ensures first_value { result.first ≡ table_first (description desc.now layout) t }
    ensures count_value { result.count ≡ table_count (description desc.now layout) t }
{
    let t = t as usize;
    let first = first_from(desc, layout, t);
    let end = first_from(desc, layout, t + 1);
    Table {
        first,
        count: end - first,
    }
}

// The root's constructors: they are the last ones, so one search finds them.
pub fn root_table(desc: &[u8], layout: Layout) -> Table
    requires { WellFormed desc.now layout }
    ensures first_value { result.first ≡ table_first (description desc.now layout) (root_of (description desc.now layout)) }
    ensures count_value { result.count ≡ table_count (description desc.now layout) (root_of (description desc.now layout)) }
{
    let first = first_from(desc, layout, root(desc, layout) as usize);
    Table {
        first,
        count: layout.constructors.count - first,
    }
}

fn is_below(desc: &[u8], layout: Layout, i: usize, t: usize) -> bool
    requires { SectionsInBounds desc.now layout }
    ensures { result ≡ (ltb i layout.constructors.count && ltb (table_at (description desc.now layout) i) t) }
{
    i < layout.constructors.count && (sections::table_at(desc, layout, i) as usize) < t
}

// The first constructor of every table, for those who ask many times: one pass over the constructors and the tables' numbers.
pub fn starts(desc: &[u8], layout: Layout) -> [usize; STARTS]
    requires { WellFormed desc.now layout }
    ensures { result ≡ table_starts (description desc.now layout) }
{
    let mut starts = [0usize; STARTS];
    let mut i = 0;
    for t in 0..STARTS {
        while is_below(desc, layout, i, t) {
            i += 1;
        }
        starts[t] = i;
    }
    starts
}
