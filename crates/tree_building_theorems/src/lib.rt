// Theorems only: the rule for building trees decides every path of a clear table, and its tree passes the tree check.
#![tactic(auto)]
