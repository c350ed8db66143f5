// What the caller lends: its lengths; states as bytes, read to flags and written from them, and their numbers.
#![tactic(auto)]

ghost use Rattle.std.specs.Prelude.{◌≡◌, false, [], ◌∷◌, ◌++◌, ℕ, ◌≤◌, length, get_or, take, drop, leb};
ghost use Rattle.laws.specs.Sets.{any};
ghost use Rattle.flags.specs.Flags.{set_of, flags_of};
ghost use Rattle.bits.specs.Bits.{bytes_of};
ghost use Rattle.lent.specs.Lengths.{unnumbered_bytes, state_bytes};
ghost use Rattle.lent.specs.States.{agents_in, state_fault, agent_words, instant_number};

use flags::Agents;

// The bytes of a state, of a map and of the scratch.
pub const STATE_BYTES: usize = 136;

pub const MAP_BYTES: usize = 32;

pub const SCRATCH_BYTES: usize = 128;

// Word 0 of a state.
pub const RUNNING: u32 = 0xF000_0000;

pub const ABORTED: u32 = 0xF000_0001;

// The instant number at which no instant is played.
pub const LAST_NUMBER: u32 = 0xFFFF_FFFF;

// The agents awake in a state, as flags.
#[tactic(auto, using(words::proofs::Words::words_length))]
pub fn read_agents(state: &[u8]) -> Agents
    requires { unnumbered_bytes ≤ length state.now }
    ensures { result ≡ flags_of 1024 (agents_in state.now) }
{
    let mut flags = [false; 1024];
    for k in 0..32 {
        let w = words::word_at(state, 1 + k);
        if w != 0 {
            bits::spread(&mut flags, 32 * k, w, 32);
        }
    }
    flags
}

// How many instants were run since the start, by a state.
#[tactic(auto, using(words::proofs::Words::words_length), unfolding(crate::specs::States::instant_number))]
pub fn number_in(state: &[u8]) -> u32
    requires { length state.now ≡ state_bytes }
    ensures { result ≡ instant_number state.now }
{
    words::word_at(state, 33)
}

// Writes a state: its first word, the agents awake, all of them below `agents`, and its number.
pub fn write_state(state: &mut [u8], first: u32, agents: usize, awake: Agents, number: u32)
    requires state_len { length state.old ≡ state_bytes }
    requires by_index { (i : ℕ) → agents ≤ i → get_or awake i false ≡ false }
    ensures { state.new ≡ bytes_of ((first ∷ agent_words (set_of awake)) ++ number ∷ []) }
{
    write_unnumbered(state, first, agents, awake);
    write_number(state, number);
}

// Writes a state without its number: its first word and the agents awake, all of them below `agents`.
pub fn write_unnumbered(state: &mut [u8], first: u32, agents: usize, awake: Agents)
    requires unnumbered_bytes_in_bounds { unnumbered_bytes ≤ length state.old }
    requires by_index { (i : ℕ) → agents ≤ i → get_or awake i false ≡ false }
    ensures { state.new ≡ bytes_of (first ∷ agent_words (set_of awake)) ++ drop unnumbered_bytes state.old }
{
    bits::put_word(state, 0, first);
    for k in 0..32 {
        let w = bits::gather(&awake, agents, 32 * k, 32);
        bits::put_word(state, 1 + k, w);
    }
}

// Writes the number of a state.
pub fn write_number(state: &mut [u8], number: u32)
    requires { length state.old ≡ state_bytes }
    ensures { state.new ≡ take unnumbered_bytes state.old ++ bytes_of (number ∷ []) }
{
    bits::put_word(state, 33, number);
}

// Whether bytes are no state of a score with so many agents.
#[tactic(auto, using(words::proofs::Words::words_length))]
pub fn state_fault(state: &[u8], agents: usize) -> bool
    requires { unnumbered_bytes ≤ length state.now }
    ensures { result ≡ state_fault agents state.now }
{
    match words::word_at(state, 0) {
        RUNNING => agent_from(state, agents),
        ABORTED => agent_from(state, 0),
        _ => true,
    }
}

// Whether an agent from a number on is awake in a state.
#[tactic(auto, using(words::proofs::Words::words_length))]
fn agent_from(state: &[u8], from: usize) -> bool
    requires { unnumbered_bytes ≤ length state.now }
    ensures { result ≡ any (λ i. leb from i) (agents_in state.now) }
{
    let mut found = false;
    for k in 0..32 {
        let word = words::word_at(state, 1 + k);
        found |= bits::bit_from(word, 32 * k, from);
    }
    found
}
