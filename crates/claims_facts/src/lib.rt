// Standing facts, a rule without premises: what a rigger may rely on, over the exported functions' contracts; theorems, no code.
#![tactic(auto)]
