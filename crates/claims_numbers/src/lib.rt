// Instant numbers: what a stage manager may rely on, over the exported functions' contracts; theorems, no code.
#![tactic(auto)]
