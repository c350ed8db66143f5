// Where a score stands between instants: read from a state, answered from, written to a state; what goes to the ports.
#![tactic(auto)]

ghost use Rattle.std.specs.Prelude.{◌≡◌, false, ◌&&◌, not, ◌++◌, ℕ, ◌<◌, ◌≤◌, eqb, leb, length, get_or, drop};
ghost use Rattle.tcc.specs.Instant.{output, answer};
ghost use Rattle.format.specs.Playable.{Playable};
ghost use Rattle.format.specs.Decode.{decode};
ghost use Rattle.flags.specs.Flags.{set_of, flags_of};
ghost use Rattle.instant_engine.specs.Outcome.{outcome_of};
ghost use Rattle.lent.specs.Lengths.{unnumbered_bytes, state_bytes, no_scratch};
ghost use Rattle.lent.specs.States.{as_bytes, numbered, LawfulState};
ghost use Rattle.instant_state.specs.Standing.{state_in, standing_in};

use flags::{Agents, Tokens};
use instant_engine::Outcome;
use instant_prepared::Prepared;

// Where a score stands between two instants.
#[derive(Clone, Copy)]
pub struct Standing {
    pub running: bool,
    pub awake: Agents,
}

// Where a score stands in a state.
pub fn standing_in(state: &[u8]) -> Standing
    requires { unnumbered_bytes ≤ length state.now }
    ensures { result ≡ standing_in state.now }
{
    let running = words::word_at(state, 0) != lent::ABORTED;
    let awake = lent::read_agents(state);
    Standing { running, awake }
}

// The answer from where a score stands: an aborted one stays aborted.
pub fn answer_from(
    prepared: &Prepared,
    standing: Standing,
    inputs: Tokens,
    scratch: &mut [u8],
) -> Outcome
    requires { scratch.old ≡ no_scratch }
    ensures value { result ≡ outcome_of (answer (decode prepared.now.bytes.now) (state_in standing) (set_of inputs)) }
    ensures scratch_after { scratch.new ≡ no_scratch }
{
    let awake = standing.awake;
    if standing.running {
        instant_engine::play(prepared, awake, inputs, scratch)
    } else {
        instant_engine::ABORTED
    }
}

// Where a score stands after an outcome.
pub fn standing_after(outcome: Outcome) -> Standing
    ensures { (result.running ≡ not (eqb outcome.status 2)) × (result.awake ≡ outcome.awake) }
{
    let awake = outcome.awake;
    Standing {
        running: outcome.status != 2,
        awake,
    }
}

// Writes the state that a score stands in, with its number.
pub fn write_standing(state: &mut [u8], agents: usize, standing: Standing, number: u32)
    requires state_len { length state.old ≡ state_bytes }
    requires lawful_state { LawfulState agents (state_in standing) }
    ensures { state.new ≡ numbered (state_in standing) number }
{
    write_unnumbered(state, agents, standing);
    lent::write_number(state, number);
}

// Writes the state that a score stands in, without its number.
pub fn write_unnumbered(state: &mut [u8], agents: usize, standing: Standing)
    requires unnumbered_bytes_in_bounds { unnumbered_bytes ≤ length state.old }
    requires lawful_state { LawfulState agents (state_in standing) }
    ensures { state.new ≡ as_bytes (state_in standing) ++ drop unnumbered_bytes state.old }
{
    let awake = standing.awake;
    if standing.running {
        lent::write_unnumbered(state, lent::RUNNING, agents, awake);
        return;
    }
    lent::write_unnumbered(state, lent::ABORTED, 0, [false; 1024]);
}

// What goes to the ports: the one place where outputs are read off. In a clash nothing does.
pub fn sent(score: &[u8], status: usize, store: Tokens) -> Tokens
    requires { Playable score.now }
    ensures { result ≡ flags_of 256 (output (decode score.now) status (set_of store)) }
{
    if status == 1 {
        return [false; 256];
    }
    let ports = words::word_at(score, 1);
    to_ports(
        store,
        format::number(ports, 0, 8),
        format::number(ports, 8, 8),
    )
}

// The tokens of a store from the lowest to the highest port.
fn to_ports(store: Tokens, lowest: usize, highest: usize) -> Tokens
    requires lowest_le_highest { lowest ≤ highest }
    requires highest_bound { highest < 256 }
    ensures by_index { (i : ℕ) → get_or result i false ≡ (leb lowest i && leb i highest && get_or store i false) }
    ensures result_len { length result ≡ 256 }
{
    let mut out = [false; 256];
    out[lowest..=highest].copy_from_slice(&store[lowest..=highest]);
    out
}
