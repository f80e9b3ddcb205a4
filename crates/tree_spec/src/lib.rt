// What the check of a decision tree goes through and answers. The meaning is in specs/.
#![tactic(auto)]

// A subtree, read from its first node: the node behind it and the lowest node in it whose one side stands elsewhere, or
// NO_PLACE.
#[derive(Clone, Copy)]
pub struct Subtree {
    pub next: usize,
    pub side: usize,
}

// Why no subtree stands there: a bad node, or the nodes ran out.
#[derive(Clone, Copy)]
pub enum NoSubtree {
    Fault(usize),
    Out,
}

// The first wrong leaf of a tree of good form, with eight bytes, as a little-endian number, and a context that prove it wrong.
#[derive(Clone, Copy)]
pub struct WrongLeaf {
    pub node: usize,
    pub word: u64,
    pub context: u32,
}

pub const MOST_NODES: usize = 4095;

// No node, and at a leaf no constructor.
pub const NO_PLACE: usize = 65535;
