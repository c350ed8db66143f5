// The functions exported to C: those of score, with the same contracts.
#![tactic(auto)]

ghost use Rattle.instant_call.specs.InstantCall.{lent};
ghost use Rattle.journal_run.specs.RunCall.{lent as lent_to_run};
ghost use Rattle.score.specs.CheckCall.{CheckCall};
ghost use Rattle.score.specs.ScoreInstant.{ScoreInstant};
ghost use Rattle.score.specs.ScoreRun.{ScoreRun};
ghost use Rattle.score.specs.ScoreJournalCheck.{ScoreJournalCheck};
ghost use Rattle.score.specs.ScoreSettings.{ScoreSettings};
ghost use Rattle.score.specs.ScoreTranslate.{ScoreTranslate};

// Checks a score.
#[unsafe(no_mangle)]
pub extern "C" fn score_check(score: &[u8]) -> u64
    ensures { CheckCall score.now result }
{
    score::score_check(score)
}

// Plays one instant of a score.
#[unsafe(no_mangle)]
pub extern "C" fn score_instant(
    score: &[u8],
    state: &mut [u8],
    input: &[u8],
    store: &mut [u8],
    output: &mut [u8],
    scratch: &mut [u8],
) -> u64
    ensures { ScoreInstant score.now input.now (lent state.old store.old output.old scratch.old) (lent state.new store.new output.new scratch.new) result }
{
    score::score_instant(score, state, input, store, output, scratch)
}

// Runs a score over an input list.
#[unsafe(no_mangle)]
pub extern "C" fn score_run(
    score: &[u8],
    state: &mut [u8],
    inputs: &[u8],
    journal: &mut [u8],
    scratch: &mut [u8],
) -> u64
    ensures { ScoreRun score.now inputs.now (lent_to_run state.old journal.old scratch.old) (lent_to_run state.new journal.new scratch.new) result }
{
    score::score_run(score, state, inputs, journal, scratch)
}

// Checks a journal from the start state.
#[unsafe(no_mangle)]
pub extern "C" fn score_journal_check(score: &[u8], journal: &[u8], scratch: &mut [u8]) -> u64
    ensures { ScoreJournalCheck score.now journal.now scratch.old scratch.new result }
{
    score::score_journal_check(score, journal, scratch)
}

// Counts how the settings of exactly k switches end, each tried from the same state.
#[unsafe(no_mangle)]
pub extern "C" fn score_settings(score: &[u8], state: &[u8], switches: &[u8], k: u32) -> u64
    ensures { ScoreSettings score.now state.now switches.now k result }
{
    score::score_settings(score, state, switches, k)
}

// Translates a draft to a plain score.
#[unsafe(no_mangle)]
pub extern "C" fn score_translate(draft: &[u8], plain: &mut [u8]) -> u64
    ensures { ScoreTranslate draft.now plain.old plain.new result }
{
    score::score_translate(draft, plain)
}
