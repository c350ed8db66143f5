// Rows 1 to 6 of the score check, over all bytes.
#![tactic(auto)]

ghost use Rattle.std.specs.Prelude.{◌≡◌, ◌≤◌, drop};
ghost use Rattle.tcc.specs.Limits.{most_agents, most_procedures};
ghost use Rattle.words.specs.Word.{words};
ghost use Rattle.check_faults.specs.Faults.{length_verdict, head_verdict, count_verdict, word_verdict, first_fault};

use check_verdicts::{Fault, Verdict};
use format::Sizes;

// Row 1: the number of bytes.
pub fn length_verdict(length: usize) -> Verdict
    ensures { result ≡ length_verdict length }
{
    if length == 0 || length % 4 != 0 || format::MOST_BYTES < length {
        return Err(Fault::Length);
    }
    Ok(())
}

// Row 2: word 0.
pub fn head_verdict(w: u32) -> Verdict
    ensures { result ≡ head_verdict w }
{
    if !format::is_word(w, 1, 24) {
        return Err(Fault::Head);
    }
    Ok(())
}

// Row 3: the number of words.
pub fn count_verdict(sizes: Sizes, count: usize) -> Verdict
    requires agents_le_most_agents { sizes.agents ≤ most_agents }
    requires procedures_le_most_procedures { sizes.procedures ≤ most_procedures }
    ensures { result ≡ count_verdict sizes count }
{
    let least = 2 + sizes.agents + sizes.procedures;
    if count < least || least + tcc::MOST_RULES < count {
        return Err(Fault::Count);
    }
    Ok(())
}

// Rows 4 to 6: the lowest word that is not as its place asks.
#[tactic(auto, using(crate::proofs::Faults::fault_step, crate::proofs::Faults::fault_end))]
pub fn first_fault(s: &[u8], sizes: Sizes) -> Verdict
    requires agents_le_most_agents { sizes.agents ≤ most_agents }
    requires procedures_le_most_procedures { sizes.procedures ≤ most_procedures }
    ensures { result ≡ first_fault sizes 1 (drop 1 (words s.now)) }
{
    for k in 1..words::word_count(s) {
        word_verdict(sizes, k, words::word_at(s, k))?;
    }
    Ok(())
}

// Word k, judged by its place.
#[tactic(auto, unfolding(crate::specs::Faults::word_verdict))]
fn word_verdict(sizes: Sizes, k: usize, w: u32) -> Verdict
    requires agents_le_most_agents { sizes.agents ≤ most_agents }
    requires procedures_le_most_procedures { sizes.procedures ≤ most_procedures }
    ensures { result ≡ word_verdict sizes k w }
{
    let first_root = 2 + sizes.agents;
    if k < 2 {
        check_words::ports_verdict(sizes, k, w)
    } else if k < first_root {
        check_words::agent_verdict(sizes, k - 2, format::decode_agent(w))
    } else if k < first_root + sizes.procedures {
        check_words::root_verdict(sizes, k, w)
    } else {
        check_words::rule_verdict(sizes, k, w)
    }
}
