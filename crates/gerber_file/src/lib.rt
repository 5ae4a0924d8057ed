// What a host's calls give of a whole Gerber file, in chunks of any length: definitions and theorems, no code.
#![tactic(auto)]
