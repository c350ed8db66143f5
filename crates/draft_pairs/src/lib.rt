// Pairs of the translation: sets of tokens and pairs as numbers, in rising lists; a pair in memory (`row`).
#![tactic(auto)]

pub mod row;

pub use row::{Row, has_token, is_before, number_of, renumbered, row_of, token_count, with_token};
