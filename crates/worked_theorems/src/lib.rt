// Theorems only: the worked cases of document 01 that are marked with a star.
#![tactic(auto)]
