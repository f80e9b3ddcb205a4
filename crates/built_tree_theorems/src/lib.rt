// Theorems only: what document 02 states about built trees, at the entry points `build` and `tree_check`.
#![tactic(auto)]
