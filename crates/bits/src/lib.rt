// Definitions and laws only: the bits of a number, and what the machine's word operations do to them.
#![tactic(auto)]
