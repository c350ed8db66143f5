// The words of a score: fields, agents and rules read from them.
#![tactic(auto)]

ghost use Rattle.std.specs.Prelude.{◌≡◌, ◌+◌, ◌<◌, length};
ghost use Rattle.tcc.specs.Score.{agent_at, root_of};
ghost use Rattle.words.specs.Word.{words, field};
ghost use Rattle.format.specs.Format.{clear, is_word, sizes_of, formed, decode_agent, is_fact, is_rule};
ghost use Rattle.format.specs.Decode.{sizes, decode};

use tcc::Agent;

// The most bytes that a score may have.
pub const MOST_BYTES: usize = 4 * (2 + tcc::MOST_AGENTS + tcc::MOST_PROCEDURES + tcc::MOST_RULES);

// How many tokens, agents and procedures a score has.
#[derive(Clone, Copy)]
pub struct Sizes {
    pub tokens: usize,
    pub agents: usize,
    pub procedures: usize,
}

// A field of a word: a token, an agent or a procedure.
pub fn number(w: u32, lowest: u32, width: u32) -> usize
    requires lowest_bound { lowest < 32 }
    requires width_bound { width < 32 }
    ensures { result ≡ field w lowest width }
{
    words::bits(w, lowest, width) as usize
}

// Whether no bit below a word's kind is set but its lowest, named ones.
fn is_clear(w: u32, named: u32) -> bool
    requires { named < 28 }
    ensures { result ≡ clear named w }
{
    words::bits(w, named, 28 - named) == 0
}

// Whether a word is of a kind, with no unnamed bit set.
#[tactic(auto, unfolding(crate::specs::Format::is_word))]
pub fn is_word(w: u32, kind: u32, named: u32) -> bool
    requires { named < 28 }
    ensures { result ≡ is_word kind named w }
{
    words::bits(w, 28, 4) == kind && is_clear(w, named)
}

// Whether a rule word says a standing fact: a rule with no premise.
pub fn is_fact(w: u32) -> bool
    ensures { result ≡ is_fact w }
{
    words::bits(w, 27, 1) == 1
}

// Whether a word is a rule, with no unnamed bit set; a fact has no bits for premises.
#[tactic(auto, unfolding(crate::specs::Format::is_rule))]
pub fn is_rule(w: u32) -> bool
    ensures { result ≡ is_rule w }
{
    if is_fact(w) {
        words::bits(w, 28, 4) == 2 && words::bits(w, 8, 19) == 0
    } else {
        is_word(w, 2, 24)
    }
}

// The sizes that a head says.
#[tactic(auto, using(words::proofs::Field::field_below))]
pub fn sizes_of(w: u32) -> Sizes
    ensures { result ≡ sizes_of w }
{
    Sizes {
        tokens: number(w, 0, 8) + 1,
        agents: number(w, 8, 10) + 1,
        procedures: number(w, 18, 6) + 1,
    }
}

// An agent, if its word has no unnamed bit set.
fn if_clear(w: u32, named: u32, agent: Agent) -> Option<Agent>
    requires { named < 28 }
    ensures { result ≡ formed w named agent }
{
    is_clear(w, named).then_some(agent)
}

// The agent of a word, if some agent has this form.
#[tactic(auto, unfolding(crate::specs::Format::decode_agent))]
pub fn decode_agent(w: u32) -> Option<Agent>
    ensures { result ≡ decode_agent w }
{
    match words::bits(w, 28, 4) {
        4 if words::bits(w, 0, 1) == 0 => if_clear(w, 1, Agent::Skip),
        4 => if_clear(w, 1, Agent::Abort),
        5 => if_clear(w, 8, Agent::Tell(number(w, 0, 8))),
        6 => if_clear(w, 20, Agent::Parallel(number(w, 0, 10), number(w, 10, 10))),
        7 => if_clear(w, 18, Agent::When(number(w, 10, 8), number(w, 0, 10))),
        8 => if_clear(w, 10, Agent::Next(number(w, 0, 10))),
        9 => if_clear(w, 18, Agent::Unless(number(w, 10, 8), number(w, 0, 10))),
        10 => if_clear(w, 6, Agent::Call(number(w, 0, 6))),
        _ => None,
    }
}

// Agent i of a score whose words are all there.
#[tactic(auto, using(words::proofs::Words::words_length, crate::proofs::Decode::decode_agent_lem))]
pub fn agent_at(s: &[u8], i: usize) -> Agent
    requires i_in_bounds { 2 + i < length (words s.now) }
    requires i_bound { i < (sizes s.now).agents }
    ensures { result ≡ agent_at (decode s.now) i }
{
    decode_agent(words::word_at(s, 2 + i)).unwrap_or(Agent::Skip)
}

// The root agent of procedure p of a score whose words are all there.
#[tactic(auto, using(words::proofs::Words::words_length, crate::proofs::Decode::decode_root))]
pub fn root_of(s: &[u8], agents: usize, p: usize) -> usize
    requires p_in_bounds { 2 + agents + p < length (words s.now) }
    requires agents_value { agents ≡ (sizes s.now).agents }
    requires p_bound { p < (sizes s.now).procedures }
    ensures { result ≡ root_of (decode s.now) p }
{
    number(words::word_at(s, 2 + agents + p), 0, 10)
}
