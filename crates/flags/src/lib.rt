// Sets as flags: a flag for each token, and for each agent.
#![tactic(auto)]

pub type Tokens = [bool; 256];

pub type Agents = [bool; 1024];
