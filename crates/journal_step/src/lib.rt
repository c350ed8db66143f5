// What a run and a journal check share: their replies, the start state, an instant from where a score stands.
#![tactic(auto)]

ghost use Rattle.std.specs.Prelude.{◌≡◌, false, ℕ, ◌≤◌, length, get_or};
ghost use Rattle.tcc.specs.Instant.{start_state, answer};
ghost use Rattle.format.specs.Decode.{sizes, decode};
ghost use Rattle.format.specs.Playable.{Playable};
ghost use Rattle.flags.specs.Flags.{set_of};
ghost use Rattle.lent.specs.Lengths.{state_bytes, no_scratch};
ghost use Rattle.lent.specs.States.{state_of, as_bytes, start_bytes, LawfulState};
ghost use Rattle.instant_state.specs.Standing.{state_in};
ghost use Rattle.journal_step.specs.Stepped.{Stepped};

use flags::Tokens;
use instant_prepared::Prepared;
use instant_state::Standing;
use refusals::Refusal;

// What a run or a journal check answers: the instants written, or read.
pub type Reply = Result<usize, Refusal>;

// One instant from where a score stands.
#[derive(Drop)]
pub struct Step {
    pub status: usize,
    // What goes to the ports.
    pub out: Tokens,
    // The next state would not be one of the score's.
    pub unlawful: bool,
    // Where the score stands after it.
    pub standing: Standing,
}

// Plays one instant from where a score stands.
pub fn step_from(prepared: &Prepared, standing: Standing, told: Tokens, scratch: &mut [u8]) -> Step
    requires lawful_state { LawfulState (sizes prepared.now.bytes.now).agents (state_in standing) }
    requires by_index { (t : ℕ) → (sizes prepared.now.bytes.now).tokens ≤ t → get_or told t false ≡ false }
    requires scratch_value { scratch.old ≡ no_scratch }
    ensures stepped { Stepped prepared.now.bytes.now (answer (decode prepared.now.bytes.now) (state_in standing) (set_of told)) result }
    ensures scratch_after { scratch.new ≡ no_scratch }
{
    let outcome = instant_state::answer_from(prepared, standing, told, scratch);
    let out = instant_state::sent(prepared.bytes, outcome.status, outcome.store);
    let unlawful = bits::any_from(&outcome.awake, prepared.agents());
    Step {
        status: outcome.status,
        out,
        unlawful,
        standing: instant_state::standing_after(outcome),
    }
}

// Where a score stands at the start: the root of procedure 0 is awake.
pub fn start(prepared: &Prepared) -> Standing
    ensures { state_in result ≡ state_of (as_bytes (start_state (decode prepared.now.bytes.now))) }
{
    let mut awake = [false; 1024];
    awake[prepared.root_of(0)] = true;
    Standing {
        running: true,
        awake,
    }
}

// Writes the start state of a score.
pub fn write_start(score: &[u8], state: &mut [u8])
    requires playable { Playable score.now }
    requires state_len { length state.old ≡ state_bytes }
    ensures { state.new ≡ start_bytes (decode score.now) }
{
    let prepared = instant_prepared::prepare(score);
    let standing = start(&prepared);
    instant_state::write_standing(state, prepared.agents(), standing, 0);
}
