// The language of W4's Gerber files, as a grammar, and that the scanner hears exactly it: definitions and
// theorems, no code.
#![tactic(auto)]
