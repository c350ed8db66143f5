// The functions of the library, as score_c exports them to C.
#![tactic(auto)]

ghost use Rattle.instant_call.specs.InstantCall.{lent};
ghost use Rattle.journal_run.specs.RunCall.{lent as lent_to_run};
ghost use Rattle.score.specs.CheckCall.{CheckCall};
ghost use Rattle.score.specs.ScoreInstant.{ScoreInstant};
ghost use Rattle.score.specs.ScoreRun.{ScoreRun};
ghost use Rattle.score.specs.ScoreJournalCheck.{ScoreJournalCheck};
ghost use Rattle.score.specs.ScoreSettings.{ScoreSettings};
ghost use Rattle.score.specs.ScoreTranslate.{ScoreTranslate};

// Checks a score.
pub fn score_check(score: &[u8]) -> u64
    ensures { CheckCall score.now result }
{
    score_answer::of_verdict(check_score::check(score))
}

// Plays one instant of a score.
pub fn score_instant(
    score: &[u8],
    state: &mut [u8],
    input: &[u8],
    store: &mut [u8],
    output: &mut [u8],
    scratch: &mut [u8],
) -> u64
    ensures { ScoreInstant score.now input.now (lent state.old store.old output.old scratch.old) (lent state.new store.new output.new scratch.new) result }
{
    score_answer::of_reply(instant_call::call(score, state, input, store, output, scratch))
}

// Runs a score over an input list.
pub fn score_run(
    score: &[u8],
    state: &mut [u8],
    inputs: &[u8],
    journal: &mut [u8],
    scratch: &mut [u8],
) -> u64
    ensures { ScoreRun score.now inputs.now (lent_to_run state.old journal.old scratch.old) (lent_to_run state.new journal.new scratch.new) result }
{
    score_answer::of_run_reply(journal_run::call(score, state, inputs, journal, scratch))
}

// Checks a journal from the start state.
pub fn score_journal_check(score: &[u8], journal: &[u8], scratch: &mut [u8]) -> u64
    ensures { ScoreJournalCheck score.now journal.now scratch.old scratch.new result }
{
    score_answer::of_run_reply(journal_check::call(score, journal, scratch))
}

// Counts how the settings of exactly k switches end, each tried from the same state.
pub fn score_settings(score: &[u8], state: &[u8], switches: &[u8], k: u32) -> u64
    ensures { ScoreSettings score.now state.now switches.now k result }
{
    score_answer::of_settings(settings_call::call(score, state, switches, k))
}

// Translates a draft to a plain score.
pub fn score_translate(draft: &[u8], plain: &mut [u8]) -> u64
    ensures { ScoreTranslate draft.now plain.old plain.new result }
{
    score_answer::of_translation(draft_call::call(draft, plain))
}
