// Asking one table of any description.
#![tactic(auto)]

ghost use Rattle.std.specs.Prelude.{◌≡◌, ◌+◌, ◌<◌};
ghost use Rattle.format.specs.Layout.{SectionsInBounds};
ghost use Rattle.format.specs.Check.{WellFormed};
ghost use Rattle.format.specs.Description.{description};
ghost use Rattle.choosing.specs.Patterns.{patterns_of};
ghost use Rattle.table_query.specs.Asking.{taken_from, ask_in, ask_of};
ghost use Rattle.table_query.specs.declared.AskError.TheVariants.{Rejected};

use acceptance::Rejection;
use choosing_spec::NotChosen;
use format::Layout;
use tables::Table;

// The taken constructor, with its pattern's weight.
#[derive(Clone, Copy)]
pub struct Asked {
    pub constructor: usize,
    pub weight: u32,
}

#[derive(Clone, Copy)]
pub enum AskError {
    Rejected(Rejection),
    NoTable(u32),
    Short,
    NoMatch(u32),
    Ambiguous(u32),
}

impl From<Rejection> for AskError {
    ghost from_gives = { λ rejection error. error ≡ Rejected rejection };

    fn from(rejection: Rejection) -> AskError {
        AskError::Rejected(rejection)
    }
}

fn taken(desc: &[u8], layout: Layout, table: Table, j: usize) -> Asked
    requires sections_in_bounds { SectionsInBounds desc.now layout }
    requires j_bound { table.first + j < layout.constructors.count }
    ensures { result ≡ taken_from table.first (patterns_of desc.now layout table) j }
{
    let constructor = table.first + j;
    let p = sections::pattern_of(desc, layout, constructor);
    Asked {
        constructor,
        weight: patterns::weight_of(p),
    }
}

fn ask_in(desc: &[u8], layout: Layout, t: u32, context: u32, code: &[u8]) -> Result<Asked, AskError>
    requires { WellFormed desc.now layout }
    ensures { result ≡ ask_in (description desc.now layout) t context code.now }
{
    let table = tables::table_of(desc, layout, t);
    if table.count == 0 {
        return Err(AskError::NoTable(t));
    }
    let choice = choosing::choose_in(
        desc,
        layout.constructors.start,
        layout.constructors.count,
        table.first,
        table.count,
        code,
        context as u64,
    );
    match choice {
        Ok(j) => Ok(taken(desc, layout, table, j)),
        Err(NotChosen::Short) => Err(AskError::Short),
        Err(NotChosen::NoMatch) => Err(AskError::NoMatch(t)),
        Err(NotChosen::Ambiguous) => Err(AskError::Ambiguous(t)),
    }
}

// Any bytes as the description and as the code, any table number and context.
pub fn ask(desc: &[u8], t: u32, context: u32, code: &[u8]) -> Result<Asked, AskError>
    ensures { result ≡ ask_of desc.now t context code.now }
{
    let layout = acceptance::accept(desc)?;
    ask_in(desc, layout, t, context, code)
}
