// Theorems only: a cursor that goes from record to record of a section finds its first bad one.
#![tactic(auto)]
