// Why choosing in a table takes no record. The meaning is in specs/.
#![tactic(auto)]

#[derive(Clone, Copy)]
pub enum NotChosen {
    Short,
    NoMatch,
    Ambiguous,
}
