#![tactic(auto)]

// What a move of the root leaves, when it is allowed, and that every run keeps what may be held: theorems about the
// model, with no code. They are in proofs/.
