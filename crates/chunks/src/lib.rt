// A machine that is fed symbol by symbol, and calls that feed it in chunks: definitions and one theorem, over
// any machine; no code.
#![tactic(auto)]
