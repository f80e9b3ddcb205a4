// Theorems about decoding one instruction. What they say is in specs/, their proofs are in proofs/.
#![tactic(auto)]
