// Theorems only: what document 01 states about choosing and about tables without a clash.
#![tactic(auto)]
