// An answer as a number: what each call found, packed, and what a caller reads off it.
#![tactic(auto, unfolding(crate::specs::Answer::packed))]

ghost use Rattle.std.specs.Prelude.{◌≡◌, false, true, ◌<◌, ◌≤◌, ◌^◌};
ghost use Rattle.score_answer.specs.Answer.{refused, settled, counted, packed, is_wide, Fits};
ghost use Rattle.score_answer.specs.Replies.{of_verdict, of_refusal, of_reply, of_run_reply, of_translation, of_settings};

use check_verdicts::Verdict;
use instant_call::Reply;
use refusals::Refusal;
use settings_tried::Counts;

// A verdict as an answer.
pub fn of_verdict(verdict: Verdict) -> u64
    requires { Fits (of_verdict verdict) }
    ensures { result ≡ packed (of_verdict verdict) }
{
    match verdict {
        Ok(()) => 0,
        Err(fault) => of_refusal(Refusal::Score(fault)),
    }
}

// The reply of an instant call as an answer.
pub fn of_reply(reply: Reply) -> u64
    requires { Fits (of_reply reply) }
    ensures { result ≡ packed (of_reply reply) }
{
    match reply {
        Ok(settled) => settling(settled.status, settled.count),
        Err(why) => of_refusal(why),
    }
}

// The reply of a run or a journal check as an answer.
pub fn of_run_reply(reply: journal_step::Reply) -> u64
    requires { Fits (of_run_reply reply) }
    ensures { result ≡ packed (of_run_reply reply) }
{
    match reply {
        Ok(instants) => instants as u64,
        Err(why) => of_refusal(why),
    }
}

// The reply of a translation as an answer.
pub fn of_translation(reply: draft_plain::Reply) -> u64
    requires { Fits (of_translation reply) }
    ensures { result ≡ packed (of_translation reply) }
{
    match reply {
        Ok(bytes) => bytes as u64,
        Err(why) => of_refusal(why),
    }
}

// The reply of a count of settings as an answer.
pub fn of_settings(reply: settings_call::Reply) -> u64
    requires { Fits (of_settings reply) }
    ensures { result ≡ packed (of_settings reply) }
{
    match reply {
        Ok(counts) => of_counts(counts),
        Err(why) => of_refusal(why),
    }
}

// A refusal as an answer.
fn of_refusal(why: Refusal) -> u64
    requires { Fits (of_refusal why) }
    ensures { result ≡ packed (of_refusal why) }
{
    match why {
        Refusal::Score(fault) => {
            let verdict = Err(fault);
            refusal(
                check_verdicts::number_of(verdict),
                check_verdicts::value_of(verdict),
            )
        }
        Refusal::Lengths => refusal(8, 0),
        Refusal::State => refusal(9, 0),
        Refusal::Input => refusal(10, 0),
        Refusal::Next => refusal(11, 0),
        Refusal::Bytes => refusal(12, 0),
        Refusal::Word(word) => wide(13, word),
        Refusal::Differs(instant) => wide(14, instant),
        Refusal::Full(instants) => wide(15, instants),
        Refusal::Large => refusal(16, 0),
        Refusal::Switches => refusal(17, 0),
        Refusal::Last(instants) => wide(18, instants),
    }
}

// An answer whose number may have a large value.
fn wide(number: usize, value: usize) -> u64
    requires le_number { 13 ≤ number }
    requires number_bound { number ≤ 18 }
    requires number_value { is_wide number ≡ true }
    requires value_bound { value < 2 ^ 61 }
    ensures { result ≡ packed (refused number value) }
{
    (number as u64 - 11) * 0x2000_0000_0000_0000 + value as u64
}

// An answer whose number has a small value.
fn refusal(number: usize, value: usize) -> u64
    requires number_bound { number < 2 ^ 8 }
    requires number_value { is_wide number ≡ false }
    requires value_bound { value < 2 ^ 24 }
    ensures { result ≡ packed (refused number value) }
{
    0x2000_0000_0000_0000 + value as u64 * 256 + number as u64
}

// The answer of an accepted instant.
fn settling(status: usize, count: usize) -> u64
    requires status_bound { status < 4 }
    requires count_bound { count < 2 ^ 11 }
    ensures { result ≡ packed (settled status count) }
{
    0x2000_0000_0000_0000 + status as u64 * 0x1_0000_0000 + count as u64 * 0x4_0000_0000
}

// The answer of settings that were counted.
fn of_counts(counts: Counts) -> u64
    requires quiet_bound { counts.quiet < 2 ^ 14 }
    requires clashed_bound { counts.clashed < 2 ^ 14 }
    requires aborted_bound { counts.aborted < 2 ^ 14 }
    ensures { result ≡ packed (counted counts.quiet counts.clashed counts.aborted) }
{
    0xA000_0000_0000_0000
        + counts.aborted as u64 * 0x1000_0000
        + counts.clashed as u64 * 0x4000
        + counts.quiet as u64
}
