// What is fixed along a walk, behind one reference, and what is read through it.
#![tactic(auto)]

ghost use Rattle.std.specs.Prelude.{◌≡◌, ◌+◌, ◌<◌, ◌≤◌, length, get_or, take, drop};
ghost use Rattle.format.specs.Numbers.{tables};
ghost use Rattle.format.specs.Check.{WellFormed};
ghost use Rattle.format.specs.Description.{description, no_field, no_name, no_constructor, no_operand, no_piece};
ghost use Rattle.format.specs.Tables.{root_of};
ghost use Rattle.decoding_spec.specs.Walk.{choice_in};
ghost use Rattle.setting.specs.Fixed.{expression_start, fixed_of, setting_in, Fixed};
ghost use Rattle.setting.specs.Ranges.{RangeOf, chosen_among};

use choosing_spec::NotChosen;
use format::{Constructor, Field, Layout, Name, Operand, Piece};
use tables::Table;

// The description's sections, the input's length, and where each table's constructors start, if that was gathered.
#[derive(Clone, Copy)]
pub struct Prepared {
    pub layout: Layout,
    pub total: usize,
    pub starts: Option<[usize; tables::STARTS]>,
}

// For a description; whoever asks for tables many times has their first constructors gathered.
pub fn fill(desc: &[u8], layout: Layout, gather: bool) -> Prepared
    requires { WellFormed desc.now layout }
    ensures { result ≡ fixed_of (description desc.now layout) layout gather }
{
    let starts = if gather {
        Some(tables::starts(desc, layout))
    } else {
        None
    };
    Prepared {
        layout,
        total: 0,
        starts,
    }
}

pub fn field(desc: &[u8], fixed: &Prepared, i: usize) -> Field
    requires { Fixed desc.now fixed.now × (i < length (setting_in desc.now fixed.now).description.fields) }
    ensures { result ≡ get_or (setting_in desc.now fixed.now).description.fields i no_field }
{
    sections::field_at(desc, fixed.layout, i)
}

pub fn name(desc: &[u8], fixed: &Prepared, i: usize) -> Name
    requires { Fixed desc.now fixed.now × (i < length (setting_in desc.now fixed.now).description.names) }
    ensures { result ≡ get_or (setting_in desc.now fixed.now).description.names i no_name }
{
    sections::name_at(desc, fixed.layout, i)
}

pub fn constructor(desc: &[u8], fixed: &Prepared, i: usize) -> Constructor
    requires { Fixed desc.now fixed.now × (i < length (setting_in desc.now fixed.now).description.constructors) }
    ensures { result ≡ get_or (setting_in desc.now fixed.now).description.constructors i no_constructor }
{
    sections::constructor_at(desc, fixed.layout, i)
}

pub fn operand(desc: &[u8], fixed: &Prepared, i: usize) -> Operand
    requires { Fixed desc.now fixed.now × (i < length (setting_in desc.now fixed.now).description.operands) }
    ensures { result ≡ get_or (setting_in desc.now fixed.now).description.operands i no_operand }
{
    sections::operand_at(desc, fixed.layout, i)
}

pub fn piece(desc: &[u8], fixed: &Prepared, i: usize) -> Piece
    requires { Fixed desc.now fixed.now × (i < length (setting_in desc.now fixed.now).description.pieces) }
    ensures { result ≡ get_or (setting_in desc.now fixed.now).description.pieces i no_piece }
{
    sections::piece_at(desc, fixed.layout, i)
}

// Where an expression stands.
pub fn expression_place(desc: &[u8], fixed: &Prepared, i: usize) -> usize
    requires { Fixed desc.now fixed.now × (i < length (setting_in desc.now fixed.now).description.expressions) }
    ensures { result ≡ expression_start fixed.now i }
{
    sections::expression_place(desc, fixed.layout, i)
}

pub fn root(desc: &[u8], fixed: &Prepared) -> u8
    requires { Fixed desc.now fixed.now }
    ensures { result ≡ root_of (setting_in desc.now fixed.now).description }
{
    tables::root(desc, fixed.layout)
}

// A table's constructors, by the gathered numbers where there are any.
fn range_of(desc: &[u8], fixed: &Prepared, t: u8) -> Table
    requires { Fixed desc.now fixed.now × (t < tables) }
    ensures { RangeOf (setting_in desc.now fixed.now).description t result }
{
    if let Some(starts) = &fixed.starts {
        let at = usize::from(t);
        let first = starts[at];
        let end = starts[at + 1];
        return Table {
            first,
            count: end - first,
        };
    }
    tables::table_of(desc, fixed.layout, u32::from(t))
}

// The root's, which are the section's last ones.
fn root_range(desc: &[u8], fixed: &Prepared) -> Table
    requires { Fixed desc.now fixed.now }
    ensures { RangeOf (setting_in desc.now fixed.now).description (root_of (setting_in desc.now fixed.now).description) result }
{
    let layout = fixed.layout;
    if let Some(starts) = &fixed.starts {
        let root = tables::root(desc, layout);
        let first = starts[usize::from(root)];
        return Table {
            first,
            count: layout.constructors.count - first,
        };
    }
    tables::root_table(desc, layout)
}

// The choice among these constructors, by the number of the one taken.
fn choose_among(
    desc: &[u8],
    fixed: &Prepared,
    range: Table,
    code: &[u8],
    context: u64,
) -> Result<usize, NotChosen>
    requires { Fixed desc.now fixed.now × (range.first + range.count ≤ length (setting_in desc.now fixed.now).description.constructors) }
    ensures { result ≡ chosen_among (setting_in desc.now fixed.now).description range code.now context }
{
    let layout = fixed.layout;
    let within = choosing::choose_in(
        desc,
        layout.constructors.start,
        layout.constructors.count,
        range.first,
        range.count,
        code,
        context,
    )?;
    Ok(range.first + within)
}

// The choice in a table.
pub fn choose_at(
    desc: &[u8],
    fixed: &Prepared,
    table: u8,
    code: &[u8],
    context: u64,
) -> Result<usize, NotChosen>
    requires { Fixed desc.now fixed.now × (table < tables) }
    ensures { result ≡ choice_in (setting_in desc.now fixed.now).description table code.now context }
{
    let range = range_of(desc, fixed, table);
    choose_among(desc, fixed, range, code, context)
}

// The choice in the root. It has a function of its own, short enough to stand in each place that asks for it.
pub fn choose_root(
    desc: &[u8],
    fixed: &Prepared,
    code: &[u8],
    context: u64,
) -> Result<usize, NotChosen>
    requires { Fixed desc.now fixed.now }
    ensures { result ≡ choice_in (setting_in desc.now fixed.now).description (root_of (setting_in desc.now fixed.now).description) code.now context }
{
    let range = root_range(desc, fixed);
    choose_among(desc, fixed, range, code, context)
}

// So many bytes of the text section, from an offset on.
pub fn letters<'a>(desc: &'a [u8], fixed: &Prepared, offset: usize, n: usize) -> &'a [u8]
    requires { Fixed desc.now fixed.now × (offset + n ≤ length (setting_in desc.now fixed.now).description.text) }
    ensures { result.now ≡ take n (drop offset (setting_in desc.now fixed.now).description.text) }
{
    let from = fixed.layout.text.start + offset;
    let end = from + n;
    &desc[from..end]
}
