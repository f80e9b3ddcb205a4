// Definitions and laws only: questions over the numbers below n, and lists made from a function of the index.
#![tactic(auto)]
