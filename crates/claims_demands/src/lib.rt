// Demands 2 and 3 whole, over the exported functions' contracts: theorems, no code.
#![tactic(auto)]
