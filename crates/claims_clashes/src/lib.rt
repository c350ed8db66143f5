// A clash: nothing goes to the drives, and old journals; over the exported functions' contracts; theorems, no code.
#![tactic(auto)]
