// Watched acts: what a show author and a rigger may rely on, over the exported functions' contracts; theorems, no code.
#![tactic(auto)]
