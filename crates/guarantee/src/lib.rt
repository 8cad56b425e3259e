// Demands 2 and 3 as theorems about every run and every call that reads, with no code. The statements are in specs/,
// their proofs in proofs/.

#![tactic(auto)]
