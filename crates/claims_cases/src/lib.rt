// The marked cases: one table and one proof over the definitions of all crates above; no code.
#![tactic(auto)]
