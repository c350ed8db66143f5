// Drafts, scores in which an agent may be a watch: their orders, chains and journals; definitions and theorems, no bytes.
#![tactic(auto)]

use tcc::Agent;

// An agent of a draft, as it is written there.
#[derive(Clone, Copy)]
pub enum DraftAgent {
    // An agent that a score may have.
    Plain(Agent),
    // The token watched for, then the body.
    Watch(usize, usize),
}
