// Plain laws of booleans, lists, sets as lists and rising lists, for all crates above; no code.
#![tactic(auto)]
