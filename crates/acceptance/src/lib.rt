// Whether bytes are a description that the entry points work with. What this refuses comes before everything else that they test.
#![tactic(auto)]

ghost use Rattle.std.specs.Prelude.{◌≡◌};
ghost use Rattle.acceptance.specs.Acceptance.{acceptance_of, rejection_of, rejection_number, first_value, second_value, third_value};

use format::{Fault, Layout};

// Why bytes are no such description: the first fault's section and record.
#[derive(Clone, Copy)]
pub struct Rejection {
    pub section: usize,
    pub number: usize,
}

impl From<Fault> for Rejection {
    ghost from_gives = { λ fault rejection. rejection ≡ rejection_of fault };

    fn from(fault: Fault) -> Rejection {
        Rejection {
            section: fault.section,
            number: fault.number,
        }
    }
}

pub fn accept(desc: &[u8]) -> Result<Layout, Rejection>
    ensures { result ≡ acceptance_of desc.now }
{
    let layout = validation::check(desc)?;
    Ok(layout)
}

// The answer's number and values, as every entry point reports a rejection.
impl Rejection {
    pub fn answer_number(self) -> u8
        ensures { result ≡ rejection_number self }
    {
        1
    }

    pub fn first_value(self) -> usize
        ensures { result ≡ first_value self }
    {
        self.section
    }

    pub fn second_value(self) -> usize
        ensures { result ≡ second_value self }
    {
        self.number
    }

    pub fn third_value(self) -> usize
        ensures { result ≡ third_value self }
    {
        0
    }
}
