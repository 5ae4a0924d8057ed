// A whole Gerber file as a drawing: definitions and theorems, no code.
#![tactic(auto)]
