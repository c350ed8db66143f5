// The run over lent buffers, numbers 1 to 9, 12 and 13, then its instants.
#![tactic(auto)]

ghost use Rattle.std.specs.Prelude.{◌≡◌, false, cond, not, ◌||◌, eqb, length};
ghost use Rattle.format.specs.Decode.{sizes};
ghost use Rattle.lent.specs.Lengths.{state_bytes, scratch_bytes, no_scratch};
ghost use Rattle.lent.specs.States.{state_fault, numbered, LawfulState};
ghost use Rattle.instant_state.specs.Standing.{state_in};
ghost use Rattle.journal_form.specs.Form.{Good, form_of};
ghost use Rattle.journal_instants.specs.Instants.{input_lists};
ghost use Rattle.journal_run_list.specs.Run.{run_from};
ghost use Rattle.journal_run.specs.RunCall.{lent, ending, LeftBy, RunCall};

use instant_prepared::Prepared;
use journal_run_list::{Ended, Stop};
use journal_step::Reply;
use refusals::Refusal;

// Runs a score over an input list, with lent buffers.
pub fn call(
    score: &[u8],
    state: &mut [u8],
    inputs: &[u8],
    journal: &mut [u8],
    scratch: &mut [u8],
) -> Reply
    ensures { RunCall score.now inputs.now (lent state.old journal.old scratch.old) (lent state.new journal.new scratch.new) result }
{
    check_score::check(score)?;
    if wrong_length(state.len(), scratch.len()) {
        return Err(Refusal::Lengths);
    }
    let prepared = instant_prepared::prepare(score);
    if lent::state_fault(state, prepared.agents()) {
        return Err(Refusal::State);
    }
    journal_form::form_of(inputs, prepared.tokens(), false)?;
    bits::clear(scratch);
    run_from(&prepared, state, inputs, journal, scratch)
}

// Runs a list of good form from a lawful state.
fn run_from(
    prepared: &Prepared,
    state: &mut [u8],
    inputs: &[u8],
    journal: &mut [u8],
    scratch: &mut [u8],
) -> Reply
    requires state_len { length state.old ≡ state_bytes }
    requires state_value { state_fault (sizes prepared.now.bytes.now).agents state.old ≡ false }
    requires inputs_value { form_of false (sizes prepared.now.bytes.now).tokens inputs.now ≡ Good }
    requires scratch_value { scratch.old ≡ no_scratch }
    ensures left_by { LeftBy (run_from prepared.now.bytes.now state.old (length journal.old) (input_lists inputs.now)) journal.old state.new journal.new result }
    ensures scratch_after { scratch.new ≡ no_scratch }
{
    let standing = instant_state::standing_in(state);
    let number = lent::number_in(state);
    let ended = journal_run_list::run_list(prepared, standing, number, inputs, journal, scratch);
    keep(prepared, state, ended);
    reply_of(ended.stop, ended.instants)
}

// Whether a buffer has another length than it should.
fn wrong_length(state: usize, scratch: usize) -> bool
    ensures { result ≡ (not (eqb state state_bytes) || not (eqb scratch scratch_bytes)) }
{
    (state != lent::STATE_BYTES) | (scratch != lent::SCRATCH_BYTES)
}

// The reply by the reason for the stop.
fn reply_of(stop: Result<(), Stop>, instants: usize) -> Reply
    ensures { result ≡ ending stop instants }
{
    match stop {
        Ok(()) => Ok(instants),
        Err(Stop::Next) => Err(Refusal::Next),
        Err(Stop::Last) => Err(Refusal::Last(instants)),
        Err(Stop::Room) => Err(Refusal::Full(instants)),
    }
}

// Writes the state after a run that wrote an instant.
fn keep(prepared: &Prepared, state: &mut [u8], ended: Ended)
    requires state_len { length state.old ≡ state_bytes }
    requires lawful_state { LawfulState (sizes prepared.now.bytes.now).agents (state_in ended.standing) }
    ensures { state.new ≡ cond (eqb ended.instants 0) state.old (numbered (state_in ended.standing) ended.number) }
{
    if ended.instants == 0 {
        return;
    }
    instant_state::write_standing(state, prepared.agents(), ended.standing, ended.number);
}
