// The outline of a sweep: definitions and proofs, and no code. What carries it from row to row is in
// the crates edge and flanks.
#![tactic(auto)]
