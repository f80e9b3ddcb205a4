// The leaves of a decision tree.
#![tactic(auto)]
