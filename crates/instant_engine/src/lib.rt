// One instant of a playable score: agents and input tokens in; status, count, store and agents awake out.
#![tactic(auto)]

ghost use Rattle.std.specs.Prelude.{◌≡◌};
ghost use Rattle.tcc.specs.Instant.{instant};
ghost use Rattle.format.specs.Decode.{decode};
ghost use Rattle.flags.specs.Flags.{set_of};
ghost use Rattle.lent.specs.Lengths.{no_scratch};
ghost use Rattle.instant_engine.specs.Marks.{Fixed};
ghost use Rattle.instant_engine.specs.Outcome.{outcome_of, trial_of};

use flags::{Agents, Tokens};
use instant_prepared::Prepared;

// What the engine returns of an instant.
#[derive(Clone, Copy)]
pub struct Outcome {
    pub status: usize,
    pub count: usize,
    pub store: Tokens,
    pub awake: Agents,
}

// What it returns of an instant that aborts.
pub const ABORTED: Outcome = Outcome {
    status: 2,
    count: 0,
    store: [false; 256],
    awake: [false; 1024],
};

// One instant of a playable score, from the agents that are awake and the input tokens, in a scratch that is zero and is
// left so. The agents reduced are bits in it in between, and the count is taken from them.
pub fn play(prepared: &Prepared, agents: Agents, inputs: Tokens, scratch: &mut [u8]) -> Outcome
    requires { scratch.old ≡ no_scratch }
    ensures value { result ≡ outcome_of (instant (decode prepared.now.bytes.now) (set_of agents) (set_of inputs)) }
    ensures scratch_after { scratch.new ≡ no_scratch }
{
    let mut live = agents;
    let held = settle(prepared, &mut live, inputs);
    let end = instant_end::end_of(prepared, &live, &held, scratch);
    let count = instant_count::count_and_clear(scratch, 4 * prepared.agents().div_ceil(32));
    match end {
        Some(awake) => Outcome {
            status: usize::from(held[0]),
            count,
            store: held,
            awake,
        },
        None => ABORTED,
    }
}

// What a trial of an instant shows.
#[derive(Drop)]
pub struct Trial {
    pub status: usize,
    pub store: Tokens,
}

// Tries such an instant: its status and its store alone, without a scratch.
pub fn try_instant(prepared: &Prepared, agents: &Agents, inputs: &Tokens) -> Trial
    ensures { result ≡ trial_of (instant (decode prepared.now.bytes.now) (set_of agents.now) (set_of inputs.now)) }
{
    let mut live = *agents;
    let store = settle(prepared, &mut live, *inputs);
    if instant_end::any_aborts(prepared, &live) {
        return Trial {
            status: 2,
            store: [false; 256],
        };
    }
    Trial {
        status: usize::from(store[0]),
        store,
    }
}

// Passes until there is nothing to add; marks the agents that come alive, and returns the tokens held.
fn settle(prepared: &Prepared, live: &mut Agents, inputs: Tokens) -> Tokens
    ensures { Fixed (decode prepared.now.bytes.now) (set_of live.old) (set_of inputs) (set_of live.new) (set_of result) }
{
    let mut held = inputs;
    instant_store::closed(prepared, &mut held);
    while instant_marks::pass(prepared, live, &mut held) {
        instant_store::closed(prepared, &mut held);
    }
    held
}
