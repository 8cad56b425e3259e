#![tactic(auto)]

// The comparison of change request K7: a theorem about the model, with no code. It is in proofs/.
