// One instant over lent buffers, numbers 1 to 11 and 18.
#![tactic(auto)]

ghost use Rattle.std.specs.Prelude.{◌≡◌, length};
ghost use Rattle.tcc.specs.Instant.{answer};
ghost use Rattle.format.specs.Decode.{decode};
ghost use Rattle.flags.specs.Flags.{set_of};
ghost use Rattle.instant_engine.specs.Outcome.{outcome_of};
ghost use Rattle.lent.specs.Lengths.{state_bytes, no_scratch};
ghost use Rattle.lent.specs.States.{state_of};
ghost use Rattle.instant_call.specs.InstantCall.{lent, InstantCall};

use flags::Tokens;
use instant_engine::Outcome;
use instant_prepared::Prepared;
use refusals::Refusal;

// An answered instant.
#[derive(Clone, Copy)]
pub struct Settled {
    pub status: usize,
    pub count: usize,
}

// What an instant call answers.
pub type Reply = Result<Settled, Refusal>;

// One instant of a score over lent buffers.
pub fn call(
    score: &[u8],
    state: &mut [u8],
    input: &[u8],
    store: &mut [u8],
    output: &mut [u8],
    scratch: &mut [u8],
) -> Reply
    ensures { InstantCall score.now input.now (lent state.old store.old output.old scratch.old) (lent state.new store.new output.new scratch.new) result }
{
    check_score::check(score)?;
    if instant_buffers::wrong_length(
        state.len(),
        input.len(),
        store.len(),
        output.len(),
        scratch.len(),
    ) {
        return Err(Refusal::Lengths);
    }
    let prepared = instant_prepared::prepare(score);
    if lent::state_fault(state, prepared.agents()) {
        return Err(Refusal::State);
    }
    let inputs = lent_maps::read_map(input);
    if bits::any_from(&inputs, prepared.tokens()) {
        return Err(Refusal::Input);
    }
    let number = lent::number_in(state);
    if number == lent::LAST_NUMBER {
        return Err(Refusal::Last(0));
    }
    bits::clear(scratch);
    let outcome = answer_in(&prepared, state, inputs, scratch);
    let awake = outcome.awake;
    if bits::any_from(&awake, prepared.agents()) {
        return Err(Refusal::Next);
    }
    instant_buffers::hand_over(&prepared, outcome, number + 1, state, store, output);
    Ok(Settled {
        status: outcome.status,
        count: outcome.count,
    })
}

// The answer in a state.
fn answer_in(prepared: &Prepared, state: &[u8], inputs: Tokens, scratch: &mut [u8]) -> Outcome
    requires state_len { length state.now ≡ state_bytes }
    requires scratch_value { scratch.old ≡ no_scratch }
    ensures value { result ≡ outcome_of (answer (decode prepared.now.bytes.now) (state_of state.now) (set_of inputs)) }
    ensures scratch_after { scratch.new ≡ no_scratch }
{
    instant_state::answer_from(prepared, instant_state::standing_in(state), inputs, scratch)
}
