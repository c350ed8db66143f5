// The language of scores: size limits and agents; all else of it is in `specs/`.
#![tactic(auto)]

// The most tokens, agents, procedures and rules that a score may have.
pub const MOST_TOKENS: usize = 256;

pub const MOST_AGENTS: usize = 1024;

pub const MOST_PROCEDURES: usize = 64;

pub const MOST_RULES: usize = 256;

// The agents of a score. Agents, tokens and procedures go by number.
#[derive(Clone, Copy)]
pub enum Agent {
    Skip,
    Abort,
    // The token told.
    Tell(usize),
    // The two halves.
    Parallel(usize, usize),
    // The token awaited, then the body.
    When(usize, usize),
    // The body.
    Next(usize),
    // The token watched for, then the body.
    Unless(usize, usize),
    // The procedure called.
    Call(usize),
}
