// The instants of a run, played and written one after the other; where it stops, numbers 11, 18 and 15.
#![tactic(auto)]

ghost use Rattle.std.specs.Prelude.{◌≡◌, false, List, ℕ, ◌≤◌, length, get_or};
ghost use Rattle.tcc.specs.Instant.{answer};
ghost use Rattle.format.specs.Decode.{sizes, decode};
ghost use Rattle.flags.specs.Flags.{set_of};
ghost use Rattle.lent.specs.Lengths.{no_scratch};
ghost use Rattle.lent.specs.States.{state_of, instant_number, LawfulState};
ghost use Rattle.instant_state.specs.Standing.{state_in};
ghost use Rattle.journal_form.specs.Form.{Good, form_of};
ghost use Rattle.journal_instants.specs.Instants.{input_lists};
ghost use Rattle.journal_words.specs.History.{entry};
ghost use Rattle.journal_run_list.specs.Run.{stop_by, run_from};
ghost use Rattle.journal_run_list.specs.Advance.{Advanced, RanTo};

use flags::Tokens;
use instant_prepared::Prepared;
use instant_state::Standing;

// Why an instant of a run is not written.
#[derive(Clone, Copy)]
pub enum Stop {
    // The next state would not be one of the score's.
    Next,
    // It is wanted at the last number.
    Last,
    // Its words exceed the journal bytes left.
    Room,
}

// An instant that is written: its bytes, and where the score stands after it.
#[derive(Drop)]
struct Taken {
    bytes: usize,
    standing: Standing,
}

// The end of a run: whether it stopped and why, the instants written, where the score stands, and at which number.
#[derive(Clone, Copy)]
pub struct Ended {
    pub stop: Result<(), Stop>,
    pub instants: usize,
    pub standing: Standing,
    pub number: u32,
}

// Plays the instants of a list of good form and writes each whole one that fits.
pub fn run_list(
    prepared: &Prepared,
    standing: Standing,
    number: u32,
    inputs: &[u8],
    journal: &mut [u8],
    scratch: &mut [u8],
) -> Ended
    requires lawful_state { LawfulState (sizes prepared.now.bytes.now).agents (state_in standing) }
    requires inputs_value { form_of false (sizes prepared.now.bytes.now).tokens inputs.now ≡ Good }
    requires scratch_value { scratch.old ≡ no_scratch }
    ensures by_index { (s : List ℕ) → state_of s ≡ state_in standing → instant_number s ≡ number → RanTo prepared.now.bytes.now s journal.old journal.new (run_from prepared.now.bytes.now s (length journal.old) (input_lists inputs.now)) result }
    ensures scratch_after { scratch.new ≡ no_scratch }
{
    let mut stands = standing;
    let mut reached = number;
    let mut instants = 0;
    let mut at = 0;
    let mut filled = 0;
    while at < inputs.len() {
        let here = journal_instants::part(inputs, Ok(()), at);
        let told = journal_instants::tokens_in(here, 13);
        let last = reached == lent::LAST_NUMBER;
        match advance(
            prepared,
            stands,
            last,
            told,
            &mut journal[filled..],
            scratch,
        ) {
            Ok(taken) => {
                stands = taken.standing;
                reached += 1;
                instants += 1;
                at += here.len();
                filled += taken.bytes;
            }
            Err(stop) => {
                return Ended {
                    stop: Err(stop),
                    instants,
                    standing: stands,
                    number: reached,
                };
            }
        }
    }
    Ended {
        stop: Ok(()),
        instants,
        standing: stands,
        number: reached,
    }
}

// Plays one instant and writes it at the front of a journal buffer, if it can be written.
fn advance(
    prepared: &Prepared,
    standing: Standing,
    last: bool,
    told: Tokens,
    journal: &mut [u8],
    scratch: &mut [u8],
) -> Result<Taken, Stop>
    requires lawful_state { LawfulState (sizes prepared.now.bytes.now).agents (state_in standing) }
    requires by_index { (t : ℕ) → (sizes prepared.now.bytes.now).tokens ≤ t → get_or told t false ≡ false }
    requires scratch_value { scratch.old ≡ no_scratch }
    ensures advanced { Advanced prepared.now.bytes.now last (answer (decode prepared.now.bytes.now) (state_in standing) (set_of told)) (entry (decode prepared.now.bytes.now) (set_of told) (answer (decode prepared.now.bytes.now) (state_in standing) (set_of told))) journal.old journal.new result }
    ensures scratch_after { scratch.new ≡ no_scratch }
{
    let step = journal_step::step_from(prepared, standing, told, scratch);
    let bytes = journal_words::size(prepared.tokens(), &told, &step.out);
    stop_by(step.unlawful, last, bytes, journal.len())?;
    journal_words::write(journal, step.status, prepared.tokens(), &told, &step.out);
    Ok(Taken {
        bytes,
        standing: step.standing,
    })
}

// Why an instant is not written: the one place where a run decides to stop.
fn stop_by(unlawful: bool, last: bool, needed: usize, room: usize) -> Result<(), Stop>
    ensures { result ≡ stop_by unlawful last needed room }
{
    if unlawful {
        return Err(Stop::Next);
    }
    if last {
        return Err(Stop::Last);
    }
    if needed <= room {
        Ok(())
    } else {
        Err(Stop::Room)
    }
}
