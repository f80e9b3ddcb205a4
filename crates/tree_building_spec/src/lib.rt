// What the rule for building a decision tree says at the end of a path. The meaning is in specs/.
#![tactic(auto)]

// A leaf with its place, or a test of a bit.
#[derive(Clone, Copy)]
pub enum Node {
    Leaf(usize),
    Test { kind: u8, bit: u8 },
}
