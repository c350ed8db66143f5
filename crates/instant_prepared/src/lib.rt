// What a call works out of an accepted score, once, and hands to each of its instants.
#![tactic(auto)]

ghost use Rattle.std.specs.Prelude.{◌≡◌, ◌<◌};
ghost use Rattle.tcc.specs.Score.{agent_at, root_of};
ghost use Rattle.format.specs.Decode.{sizes, decode};
ghost use Rattle.format.specs.Playable.{Playable};

use format::Sizes;
use tcc::Agent;

// A score that an engine may play: its bytes, and how many tokens, agents and procedures they say.
#[derive(Clone, Copy)]
pub struct Prepared<'a> {
    pub bytes: &'a [u8],
    pub head: Sizes,
    ghost playable: { Playable bytes.now },
    ghost sized: { head ≡ sizes bytes.now },
}

// Works it out.
pub fn prepare(s: &[u8]) -> Prepared
    requires { Playable s.now }
    ensures { result.bytes.now ≡ s.now }
{
    let head = format::sizes_of(words::word_at(s, 0));
    Prepared { bytes: s, head }
}

impl Prepared<'_> {
    pub fn tokens(&self) -> usize
        ensures { result ≡ (sizes self.now.bytes.now).tokens }
    {
        self.head.tokens
    }

    pub fn agents(&self) -> usize
        ensures { result ≡ (sizes self.now.bytes.now).agents }
    {
        self.head.agents
    }

    pub fn procedures(&self) -> usize
        ensures { result ≡ (sizes self.now.bytes.now).procedures }
    {
        self.head.procedures
    }

    // Agent i.
    pub fn agent_at(&self, i: usize) -> Agent
        requires { i < (sizes self.now.bytes.now).agents }
        ensures { result ≡ agent_at (decode self.now.bytes.now) i }
    {
        format::agent_at(self.bytes, i)
    }

    // The root agent of procedure p.
    pub fn root_of(&self, p: usize) -> usize
        requires { p < (sizes self.now.bytes.now).procedures }
        ensures { result ≡ root_of (decode self.now.bytes.now) p }
    {
        format::root_of(self.bytes, self.agents(), p)
    }
}
