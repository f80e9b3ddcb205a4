// Choosing in a table of a well-formed description: one pass over the table's patterns, on machine words.
#![tactic(auto)]

ghost use Rattle.std.specs.Prelude.{false, ◌≡◌, ◌+◌, ◌-◌, ◌<◌, ◌≤◌, ◌^◌};
ghost use Rattle.std.specs.Option.{ForSome};
ghost use Rattle.format.specs.Layout.{SectionsInBounds, inside};
ghost use Rattle.format.specs.Numbers.{constructor_bytes};
ghost use Rattle.format.specs.Description.{description};
ghost use Rattle.patterns.specs.Words.{words_agree};
ghost use Rattle.choosing_spec.specs.Choosing.{choose};
ghost use Rattle.choosing_spec.specs.Table.{pattern_from};
ghost use Rattle.choosing.specs.Patterns.{section_as, pattern_in, patterns_in};
ghost use Rattle.choosing.specs.Scan.{with_match, clears_all, Skips, ScanResult, Passed, ChoiceOf};

use choosing_spec::NotChosen;
use format::{Layout, Pattern, Section};
use patterns::Input;
use tables::Table;

// Of the records that match so far in a pass the one that lies inside the others, and whether that is in doubt.
#[derive(Clone, Copy)]
pub struct Best {
    pub unsure: bool,
    pub at: usize,
}

pub fn row(desc: &[u8], layout: Layout, first: usize, j: usize) -> Pattern
    requires sections_in_bounds { SectionsInBounds desc.now layout }
    requires j_bound { first + j < layout.constructors.count }
    ensures { result ≡ pattern_from (description desc.now layout) first j }
{
    sections::pattern_of(desc, layout, first + j)
}

// The same by the constructors' section alone: choosing asks for nothing else of a layout.
pub fn pattern_in(desc: &[u8], constructors: Section, first: usize, j: usize) -> Pattern
    requires inside { inside desc.now constructor_bytes constructors }
    requires j_bound { first + j < constructors.count }
    ensures { result ≡ pattern_in desc.now constructors first j }
{
    format::pattern_at(
        desc,
        constructors.start + (format::CONSTRUCTOR_BYTES as usize) * (first + j),
    )
}

// One more matching record, with its pattern.
fn with_match(
    desc: &[u8],
    constructors: Section,
    first: usize,
    best: Option<Best>,
    j: usize,
    p: Pattern,
) -> Best
    requires inside { inside desc.now constructor_bytes constructors }
    requires at_bound { ForSome best (λ b. first + b.at < constructors.count) }
    requires p_value { p ≡ pattern_in desc.now constructors first j }
    ensures { result ≡ with_match (pattern_in desc.now constructors first) best j }
{
    let Some(best) = best else {
        return Best {
            unsure: false,
            at: j,
        };
    };
    let q = pattern_in(desc, constructors, first, best.at);
    let outer = patterns::lies_inside(q, p);
    if patterns::lies_inside(p, q) {
        return Best {
            unsure: best.unsure | outer,
            at: j,
        };
    }
    Best {
        unsure: best.unsure | !outer,
        at: best.at,
    }
}

// Whether no masked bit of the bytes, which are all here, differs in record j.
fn may_agree(desc: &[u8], constructors: Section, table: Table, input: Input, j: usize) -> bool
    requires inside { inside desc.now constructor_bytes constructors }
    requires count_bound { table.first + table.count ≤ constructors.count }
    requires j_lt_count { (j < table.count) × (input.here ≡ 2 ^ 64 - 1) }
    ensures { result ≡ false → words_agree (patterns_in desc.now constructors table j) input ≡ false }
{
    let p = pattern_in(desc, constructors, table.first, j);
    (input.word ^ p.value) & p.mask == 0
}

// Past those of four records from one on that do not agree, where all bytes are here.
fn skip_four(desc: &[u8], constructors: Section, table: Table, input: Input, from: usize) -> usize
    requires inside { inside desc.now constructor_bytes constructors }
    requires count_bound { table.first + table.count ≤ constructors.count }
    requires from_bound { (from + 4 ≤ table.count) × (input.here ≡ 2 ^ 64 - 1) }
    ensures { Skips (patterns_in desc.now constructors table) input table.count from result × (result ≤ from + 4) }
{
    if may_agree(desc, constructors, table, input, from) {
        return from;
    }
    if may_agree(desc, constructors, table, input, from + 1) {
        return from + 1;
    }
    if may_agree(desc, constructors, table, input, from + 2) {
        return from + 2;
    }
    if may_agree(desc, constructors, table, input, from + 3) {
        return from + 3;
    }
    from + 4
}

fn skip_eight(desc: &[u8], constructors: Section, table: Table, input: Input, from: usize) -> usize
    requires inside { inside desc.now constructor_bytes constructors }
    requires count_bound { table.first + table.count ≤ constructors.count }
    requires from_bound { (from + 8 ≤ table.count) × (input.here ≡ 2 ^ 64 - 1) }
    ensures { Skips (patterns_in desc.now constructors table) input table.count from result × (result ≤ from + 8) }
{
    let j = skip_four(desc, constructors, table, input, from);
    if j < from + 4 {
        return j;
    }
    skip_four(desc, constructors, table, input, j)
}

// Past all from one on: singly until a multiple of eight is left, and then eight at a time.
fn skip_whole(desc: &[u8], constructors: Section, table: Table, input: Input, from: usize) -> usize
    requires inside { inside desc.now constructor_bytes constructors }
    requires count_bound { table.first + table.count ≤ constructors.count }
    requires from_le_count { (from ≤ table.count) × (input.here ≡ 2 ^ 64 - 1) }
    ensures { Skips (patterns_in desc.now constructors table) input table.count from result }
{
    let mut j = from;
    while (table.count - j) % 8 > 0 {
        if may_agree(desc, constructors, table, input, j) {
            return j;
        }
        j += 1;
    }
    while j < table.count {
        let next = skip_eight(desc, constructors, table, input, j);
        if next < j + 8 {
            return next;
        }
        j = next;
    }
    j
}

// Past the records from one on that do not agree. Most do not, so they have a loop of their own.
fn skip(desc: &[u8], constructors: Section, table: Table, input: Input, from: usize) -> usize
    requires inside { inside desc.now constructor_bytes constructors }
    requires count_bound { table.first + table.count ≤ constructors.count }
    requires from_le_count { from ≤ table.count }
    ensures { Skips (patterns_in desc.now constructors table) input table.count from result }
{
    if input.here == patterns::ALL {
        return skip_whole(desc, constructors, table, input, from);
    }
    from
}

// The best of the records that match, unless one is cut off.
fn scan(
    desc: &[u8],
    constructors: Section,
    table: Table,
    input: Input,
) -> Result<Option<Best>, NotChosen>
    requires inside { inside desc.now constructor_bytes constructors }
    requires count_bound { table.first + table.count ≤ constructors.count }
    ensures { ScanResult (patterns_in desc.now constructors table) input table.count result }
{
    let mut best = None;
    let mut next = 0;
    while next < table.count {
        let j = skip(desc, constructors, table, input, next);
        if j == table.count {
            return Ok(best);
        }
        next = j + 1;
        let p = pattern_in(desc, constructors, table.first, j);
        if patterns::agrees(p, input) {
            if patterns::whole(p, input) {
                best = Some(with_match(desc, constructors, table.first, best, j, p));
            } else {
                return Err(NotChosen::Short);
            }
        }
    }
    Ok(best)
}

fn clears_all(desc: &[u8], constructors: Section, table: Table, input: Input, t: usize) -> bool
    requires inside { inside desc.now constructor_bytes constructors }
    requires count_bound { table.first + table.count ≤ constructors.count }
    requires t_lt_count { t < table.count }
    ensures { result ≡ clears_all (patterns_in desc.now constructors table) input table.count t }
{
    let q = pattern_in(desc, constructors, table.first, t);
    for j in 0..table.count {
        let p = pattern_in(desc, constructors, table.first, j);
        let hit = patterns::agrees(p, input) & patterns::whole(p, input);
        let clear = (j == t) | !hit | (patterns::lies_inside(q, p) & !patterns::lies_inside(p, q));
        if !clear {
            return false;
        }
    }
    true
}

// Where the pass left no doubt, its record is taken; else every record is looked at once more.
fn settle(
    desc: &[u8],
    constructors: Section,
    table: Table,
    input: Input,
    best: Option<Best>,
) -> Result<usize, NotChosen>
    requires inside { inside desc.now constructor_bytes constructors }
    requires count_bound { table.first + table.count ≤ constructors.count }
    requires passed { Passed (patterns_in desc.now constructors table) input table.count best }
    ensures { ChoiceOf (patterns_in desc.now constructors table) input table.count result }
{
    let Some(best) = best else {
        return Err(NotChosen::NoMatch);
    };
    if best.unsure && !clears_all(desc, constructors, table, input, best.at) {
        return Err(NotChosen::Ambiguous);
    }
    Ok(best.at)
}

// The choice in a table, for the bytes of the code and a context: `count` records from `first` on, of the constructors' section. Plain
// numbers are handed over quicker than a layout.
pub fn choose_in(
    desc: &[u8],
    start: usize,
    records: usize,
    first: usize,
    count: usize,
    code: &[u8],
    context: u64,
) -> Result<usize, NotChosen>
    requires { inside desc.now constructor_bytes (section_as start records) × (first + count ≤ records) }
    ensures { result ≡ choose (pattern_in desc.now (section_as start records) first) count code.now context }
{
    let constructors = Section {
        start,
        count: records,
    };
    let table = Table { first, count };
    let input = patterns::input_of(code, context);
    let best = scan(desc, constructors, table, input)?;
    settle(desc, constructors, table, input, best)
}
