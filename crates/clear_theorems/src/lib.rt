// Theorems only: what document 01 states about tables without a clash, at the entry points `clash` and `ask`.
#![tactic(auto)]
