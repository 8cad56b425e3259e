// A log that is fed in pieces gives the report of the whole log: laws about the report's calls, with no code. They are
// in proofs/.
#![tactic(auto)]
