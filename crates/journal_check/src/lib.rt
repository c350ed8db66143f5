// The journal check over lent buffers, numbers 1 to 8 and 11 to 14.
#![tactic(auto)]

ghost use Rattle.std.specs.Prelude.{◌≡◌, false, true, not, ◌<◌, length};
ghost use Rattle.tcc.specs.Instant.{answer};
ghost use Rattle.words.specs.Word.{words};
ghost use Rattle.format.specs.Decode.{sizes, decode};
ghost use Rattle.flags.specs.Flags.{set_of};
ghost use Rattle.lent.specs.Lengths.{no_scratch};
ghost use Rattle.lent.specs.States.{LawfulState};
ghost use Rattle.instant_state.specs.Standing.{state_in};
ghost use Rattle.journal_form.specs.Form.{Good, form_of};
ghost use Rattle.journal_instants.specs.Instants.{inputs_in};
ghost use Rattle.journal_words.specs.History.{instant_words};
ghost use Rattle.journal_words.specs.Formed.{Formed};
ghost use Rattle.journal_check.specs.Check.{same};
ghost use Rattle.journal_check.specs.Held.{Held};
ghost use Rattle.journal_check.specs.JournalCheckCall.{checked, JournalCheckCall};

use instant_prepared::Prepared;
use instant_state::Standing;
use journal_step::Reply;
use refusals::Refusal;

// Why the words of an instant are not accepted.
#[derive(Clone, Copy)]
enum Mismatch {
    // The next state would not be one of the score's.
    Unlawful,
    // They are not those that the run writes.
    Differs,
}

// Checks a journal from the start state.
pub fn call(score: &[u8], journal: &[u8], scratch: &mut [u8]) -> Reply
    ensures { JournalCheckCall score.now journal.now scratch.old scratch.new result }
{
    check_score::check(score)?;
    if scratch.len() != lent::SCRATCH_BYTES {
        return Err(Refusal::Lengths);
    }
    let prepared = instant_prepared::prepare(score);
    journal_form::form_of(journal, prepared.tokens(), true)?;
    bits::clear(scratch);
    check_list(&prepared, journal, scratch)
}

// Reads the instants of a journal of good form until one is not what the run writes.
fn check_list(prepared: &Prepared, journal: &[u8], scratch: &mut [u8]) -> Reply
    requires journal_value { form_of true (sizes prepared.now.bytes.now).tokens journal.now ≡ Good }
    requires scratch_value { scratch.old ≡ no_scratch }
    ensures value { result ≡ checked prepared.now.bytes.now journal.now }
    ensures scratch_after { scratch.new ≡ no_scratch }
{
    let mut stands = journal_step::start(prepared);
    let mut instants = 0;
    let mut at = 0;
    while at < journal.len() {
        let here = journal_instants::part(journal, Ok(()), at);
        stands = match check_instant(prepared, stands, here, scratch) {
            Ok(after) => after,
            Err(Mismatch::Unlawful) => return Err(Refusal::Next),
            Err(Mismatch::Differs) => return Err(Refusal::Differs(instants)),
        };
        if instants == lent::LAST_NUMBER as usize {
            return Err(Refusal::Differs(instants));
        }
        instants += 1;
        at += here.len();
    }
    Ok(instants)
}

// Plays the instant that the words of a journal tell, and holds its words against them: where the score stands after it.
fn check_instant(
    prepared: &Prepared,
    standing: Standing,
    here: &[u8],
    scratch: &mut [u8],
) -> Result<Standing, Mismatch>
    requires lawful_state { LawfulState (sizes prepared.now.bytes.now).agents (state_in standing) }
    requires formed { Formed (sizes prepared.now.bytes.now).tokens (words here.now) }
    requires scratch_value { scratch.old ≡ no_scratch }
    ensures held { Held prepared.now.bytes.now (answer (decode prepared.now.bytes.now) (state_in standing) (inputs_in (words here.now))) (words here.now) result }
    ensures scratch_after { scratch.new ≡ no_scratch }
{
    let told = journal_instants::tokens_in(here, 13);
    let step = journal_step::step_from(prepared, standing, told, scratch);
    if step.unlawful {
        return Err(Mismatch::Unlawful);
    }
    if differs_from(here, step.status, &step.out) {
        return Err(Mismatch::Differs);
    }
    Ok(step.standing)
}

// Whether the words of an instant have another status or other outputs.
fn differs_from(here: &[u8], status: usize, out: &[bool]) -> bool
    requires formed { Formed 256 (words here.now) }
    requires status_bound { status < 3 }
    requires out_len { length out.now ≡ 256 }
    ensures { result ≡ not (same (words here.now) (instant_words status (inputs_in (words here.now)) (set_of out.now))) }
{
    let said = journal_instants::tokens_in(here, 14);
    format::number(words::word_at(here, 0), 0, 2) != status || said.as_slice() != out
}
