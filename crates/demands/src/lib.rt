// The three demands, said of every call that a host makes: definitions and theorems, no code.
#![tactic(auto)]
