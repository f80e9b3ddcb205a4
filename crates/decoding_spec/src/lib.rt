// What decoding one instruction means: the definitions are in specs/. The refusals, with their facts, and the walk's state are here.
#![tactic(auto)]

ghost use Rattle.std.specs.Prelude.{◌≡◌};
ghost use Rattle.decoding_spec.specs.Refusals.{refusal_number, refusal_place, refusal_table, is_short};

// Why there is no instruction: answers 2 to 8 and 13, each with its place, "no match" and "ambiguous" with their table too. The fields are
// narrow, so that a refusal stands beside the numbers of a done walk and not over them: they are copied one by one.
#[derive(Clone, Copy)]
pub enum Refusal {
    Short(u16),
    NoMatch { place: u16, table: u8 },
    Ambiguous { place: u16, table: u8 },
    Hole(u16),
    TooFar(u16),
    TooManyRows,
    RootLengthZero,
    ValueOutside(u16),
}

// What changes along a walk: the rows used so far, the context, and the constructor closed last, which at the end is the root's. The
// context is as wide as the others, so that all are copied whole.
#[derive(Clone, Copy)]
pub struct State {
    pub used: usize,
    pub context: u64,
    pub taken: usize,
}

impl Refusal {
    // The answer's number.
    pub fn number(self) -> u8
        ensures { result ≡ refusal_number self }
    {
        match self {
            Refusal::Short(_) => 2,
            Refusal::NoMatch { .. } => 3,
            Refusal::Ambiguous { .. } => 4,
            Refusal::Hole(_) => 5,
            Refusal::TooFar(_) => 6,
            Refusal::TooManyRows => 7,
            Refusal::RootLengthZero => 8,
            Refusal::ValueOutside(_) => 13,
        }
    }

    // Its first value.
    pub fn place(self) -> usize
        ensures { result ≡ refusal_place self }
    {
        match self {
            Refusal::Short(place)
            | Refusal::NoMatch { place, .. }
            | Refusal::Ambiguous { place, .. }
            | Refusal::Hole(place)
            | Refusal::TooFar(place)
            | Refusal::ValueOutside(place) => usize::from(place),
            Refusal::TooManyRows | Refusal::RootLengthZero => 0,
        }
    }

    // Its second value.
    pub fn table(self) -> u8
        ensures { result ≡ refusal_table self }
    {
        match self {
            Refusal::NoMatch { table, .. } | Refusal::Ambiguous { table, .. } => table,
            _ => 0,
        }
    }

    pub fn is_short(self) -> bool
        ensures { result ≡ is_short self }
    {
        matches!(self, Refusal::Short(_))
    }
}
