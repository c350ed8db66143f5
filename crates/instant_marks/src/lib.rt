// One pass of an instant over its agents, in which each live one has its effect on the marks.
#![tactic(auto)]

ghost use Rattle.format.specs.Decode.{decode};
ghost use Rattle.instant_marks.specs.Passed.{Passed};

use flags::{Agents, Tokens};
use instant_prepared::Prepared;
use tcc::Agent;

// One pass over the agents, from the highest on, in which each live agent has its effect: a body or half has a lower
// number than its agent, so that a mark goes all the way down. Says whether another pass may find more.
pub fn pass(prepared: &Prepared, live: &mut Agents, held: &mut Tokens) -> bool
    ensures { Passed (decode prepared.now.bytes.now) 0 live.old held.old live.new held.new result }
{
    // A copy, for speed: through the reference its fields are read again at each agent.
    let score = *prepared;
    let mut grew = false;
    for i in (0..score.agents()).rev() {
        if live[i] {
            match score.agent_at(i) {
                Agent::Tell(token) => {
                    if !held[token] {
                        held[token] = true;
                        grew = true;
                    }
                }
                Agent::Parallel(a, b) => {
                    live[a] = true;
                    live[b] = true;
                }
                Agent::When(token, body) => {
                    if held[token] {
                        live[body] = true;
                    }
                }
                Agent::Call(procedure) => {
                    let root = score.root_of(procedure);
                    if !live[root] {
                        live[root] = true;
                        grew = true;
                    }
                }
                _ => {}
            }
        }
    }
    grew
}
