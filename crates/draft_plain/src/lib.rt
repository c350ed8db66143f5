// The plain score of a draft: the pairs that it is made of, and what it is; definitions and theorems, no bytes.
#![tactic(auto)]

use refusals::Refusal;

// What a translation comes to: how many bytes the plain score has.
pub type Reply = Result<usize, Refusal>;
