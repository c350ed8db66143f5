// The bytes of a draft: its check, and its agents.
#![tactic(auto)]

ghost use Rattle.std.specs.Prelude.{◌≡◌, ◌+◌, ◌<◌, ◌≤◌, length, take};
ghost use Rattle.tcc.specs.Limits.{most_agents};
ghost use Rattle.words.specs.Word.{words};
ghost use Rattle.format.specs.Decode.{sizes};
ghost use Rattle.draft_language.specs.Draft.{draft_agent_at};
ghost use Rattle.draft_format.specs.DraftFile.{when_byte, as_whens, draft_verdict, draft_agent_of, decode_draft};

use check_verdicts::{Fault, Verdict};
use draft_language::DraftAgent;
use tcc::Agent;

// Checks a draft: as a score in which each watch is a when.
pub fn check(draft: &[u8]) -> Verdict
    ensures { result ≡ draft_verdict draft.now }
{
    let count = draft.len();
    if count < 4 {
        return Err(Fault::Length);
    }
    if format::MOST_BYTES < count {
        return Err(Fault::Length);
    }
    let mut whens = [0u8; format::MOST_BYTES];
    let sizes = format::sizes_of(words::word_at(draft, 0));
    read_as_whens(draft, sizes.agents, &mut whens);
    check_score::check(&whens[..count])
}

// Copies a draft, with each watch as a when.
fn read_as_whens(draft: &[u8], agents: usize, whens: &mut [u8])
    requires agents_value { agents ≡ (sizes draft.now).agents }
    requires agents_le_most_agents { agents ≤ most_agents }
    requires draft_in_bounds { length draft.now ≤ length whens.old }
    ensures { take (length draft.now) whens.new ≡ as_whens draft.now }
{
    for (n, b) in draft.iter().enumerate() {
        whens[n] = when_byte(agents, n, *b);
    }
}

// Byte n, with kind 15 as kind 7 where it is the highest byte of an agent word.
fn when_byte(agents: usize, n: usize, b: u8) -> u8
    requires { agents ≤ most_agents }
    ensures { result ≡ when_byte agents n b }
{
    if n % 4 == 3 && 8 <= n && n < 8 + 4 * agents && 240 <= b {
        b - 128
    } else {
        b
    }
}

// An agent word of a draft.
pub fn draft_agent_of(w: u32) -> DraftAgent
    ensures { result ≡ draft_agent_of w }
{
    if words::bits(w, 28, 4) == 15 {
        return DraftAgent::Watch(format::number(w, 10, 8), format::number(w, 0, 10));
    }
    DraftAgent::Plain(format::decode_agent(w).unwrap_or(Agent::Skip))
}

// Agent i of a draft whose words are all there.
pub fn draft_agent_at(draft: &[u8], i: usize) -> DraftAgent
    requires i_in_bounds { 2 + i < length (words draft.now) }
    requires i_bound { i < (sizes draft.now).agents }
    ensures { result ≡ draft_agent_at (decode_draft draft.now) i }
{
    draft_agent_of(words::word_at(draft, 2 + i))
}
