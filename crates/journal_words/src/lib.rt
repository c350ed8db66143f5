// The words of an instant in a journal, counted and written.
#![tactic(auto)]

ghost use Rattle.std.specs.Prelude.{◌≡◌, false, map, ◌++◌, ℕ, ◌+◌, ◌*◌, ◌^◌, ◌≤◌, ◌<◌, length, get_or, take, drop};
ghost use Rattle.tcc.specs.Limits.{most_tokens};
ghost use Rattle.flags.specs.Flags.{set_of};
ghost use Rattle.bits.specs.Bits.{bytes_of};
ghost use Rattle.journal_words.specs.History.{instant_words};

// How many bytes the words of an instant take.
pub fn size(tokens: usize, inputs: &[bool], outputs: &[bool]) -> usize
    requires tokens_le_most_tokens { tokens ≤ most_tokens }
    requires tokens_in_bounds { tokens ≤ length inputs.now }
    requires tokens_in_bounds_2 { tokens ≤ length outputs.now }
    requires by_index { (i : ℕ) → tokens ≤ i → get_or inputs.now i false ≡ false }
    requires by_index_2 { (i : ℕ) → tokens ≤ i → get_or outputs.now i false ≡ false }
    ensures by_index_3 { (status : ℕ) → result ≡ 4 * length (instant_words status (set_of inputs.now) (set_of outputs.now)) }
    ensures upper_bound { result ≤ 4 * 513 }
{
    4 * (1 + count(tokens, inputs) + count(tokens, outputs))
}

// How many tokens a set has, all of them below `tokens`.
// A sum without a branch, for speed: `filter` and `count` do not vectorise.
fn count(tokens: usize, set: &[bool]) -> usize
    requires tokens_in_bounds { tokens ≤ length set.now }
    requires by_index { (i : ℕ) → tokens ≤ i → get_or set.now i false ≡ false }
    ensures value { result ≡ length (set_of set.now) }
    ensures upper_bound { result ≤ tokens }
{
    let mut n = 0;
    for x in &set[..tokens] {
        n += usize::from(*x);
    }
    n
}

// Writes the words of an instant at the front of a journal that has room for them.
pub fn write(journal: &mut [u8], status: usize, tokens: usize, inputs: &[bool], outputs: &[bool])
    requires status_bound { status < 4 }
    requires tokens_le_most_tokens { tokens ≤ most_tokens }
    requires tokens_in_bounds { tokens ≤ length inputs.now }
    requires tokens_in_bounds_2 { tokens ≤ length outputs.now }
    requires by_index { (i : ℕ) → tokens ≤ i → get_or inputs.now i false ≡ false }
    requires by_index_2 { (i : ℕ) → tokens ≤ i → get_or outputs.now i false ≡ false }
    requires outputs_in_bounds { 4 * length (instant_words status (set_of inputs.now) (set_of outputs.now)) ≤ length journal.old }
    ensures { journal.new ≡ bytes_of (instant_words status (set_of inputs.now) (set_of outputs.now)) ++ drop (4 * length (instant_words status (set_of inputs.now) (set_of outputs.now))) journal.old }
{
    let first = word_of(12, status);
    bits::put_word(journal, 0, first);
    let middle = put_tokens(journal, 1, 13, tokens, inputs);
    put_tokens(journal, middle, 14, tokens, outputs);
}

// Writes a word of a kind for each token of a set, from word `from` on, and says which word comes next.
fn put_tokens(journal: &mut [u8], from: usize, kind: u32, tokens: usize, set: &[bool]) -> usize
    requires kind_bound { kind < 16 }
    requires tokens_le_most_tokens { tokens ≤ most_tokens }
    requires by_index { (i : ℕ) → tokens ≤ i → get_or set.now i false ≡ false }
    requires tokens_in_bounds { tokens ≤ length set.now }
    requires set_in_bounds { 4 * (from + length (set_of set.now)) ≤ length journal.old }
    ensures journal_after { journal.new ≡ take (4 * from) journal.old ++ bytes_of (map (λ t. kind * 2 ^ 28 + t) (set_of set.now)) ++ drop (4 * (from + length (set_of set.now))) journal.old }
    ensures value { result ≡ from + length (set_of set.now) }
{
    let mut at = from;
    for token in 0..tokens {
        if set[token] {
            bits::put_word(journal, at, word_of(kind, token));
            at += 1;
        }
    }
    at
}

// A word of a kind, with a value in its lowest bits.
fn word_of(kind: u32, value: usize) -> u32
    requires kind_bound { kind < 16 }
    requires value_bound { value < 2 ^ 28 }
    ensures { result ≡ kind * 2 ^ 28 + value }
{
    kind << 28 | value as u32
}
