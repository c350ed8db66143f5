// 32-bit little-endian words in a byte slice, fields of a word by shift and mask, token maps.
#![tactic(auto)]

ghost use Rattle.std.specs.Prelude.{◌≡◌, ◌+◌, ◌*◌, ◌/◌, ◌<◌, length};
ghost use Rattle.words.specs.Word.{words, word_at, field};

// How many whole words a slice of bytes has.
#[tactic(auto, using(crate::proofs::Words::words_length))]
pub fn word_count(s: &[u8]) -> usize
    ensures { result ≡ length (words s.now) }
{
    s.len() / 4
}

// Word i of a slice of bytes.
#[tactic(auto, using(crate::proofs::Words::words_length, crate::proofs::Words::word_joined))]
pub fn word_at(s: &[u8], i: usize) -> u32
    requires { i < length (words s.now) }
    ensures { result ≡ word_at s.now i }
{
    let at = i * 4;
    u32::from_le_bytes([s[at], s[at + 1], s[at + 2], s[at + 3]])
}

// The bits of a word from a lowest one on.
pub fn bits(w: u32, lowest: u32, width: u32) -> u32
    requires lowest_bound { lowest < 32 }
    requires width_bound { width < 32 }
    ensures { result ≡ field w lowest width }
{
    w >> lowest & ((1 << width) - 1)
}
