// A run from the start state, and its number.
#![tactic(auto)]

ghost use Rattle.std.specs.Prelude.{◌≡◌, length};
ghost use Rattle.format.specs.Decode.{decode};
ghost use Rattle.check_verdicts.specs.Verdicts.{verdict_number};
ghost use Rattle.check_score.specs.Check.{verdict};
ghost use Rattle.lent.specs.Lengths.{state_bytes};
ghost use Rattle.lent.specs.States.{start_bytes};
ghost use Rattle.score_answer.specs.Answer.{number_in};
ghost use Rattle.runner_run.specs.Played.{Played};

// Runs a score over a list from the start state, and says by which number it is turned down, or 0.
pub fn play(score: &[u8], inputs: &[u8], journal: &mut [u8]) -> u64
    ensures { Played score.now inputs.now journal.old journal.new result }
{
    let mut state = start(score);
    let mut scratch = [0u8; lent::SCRATCH_BYTES];
    number_in(score::score_run(score, &mut state, inputs, journal, &mut scratch))
}

// The start state, if the score is accepted.
fn start(score: &[u8]) -> [u8; lent::STATE_BYTES]
    ensures state_bytes_value { state_bytes ≡ length result }
    ensures value { verdict_number (verdict score.now) ≡ 0 → result ≡ start_bytes (decode score.now) }
{
    let mut state = [0u8; lent::STATE_BYTES];
    let accepted = check_score::check(score).is_ok();
    if accepted {
        journal_step::write_start(score, &mut state);
    }
    state
}

// The table's number in an answer.
#[tactic(auto, unfolding(score_answer::specs::Answer::number_in))]
fn number_in(answer: u64) -> u64
    ensures { result ≡ number_in answer }
{
    let layout = answer / 0x2000_0000_0000_0000;
    match layout {
        0 | 5 => 0,
        1 => answer % 256,
        _ => layout + 11,
    }
}
