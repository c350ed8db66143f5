// A pair in memory, as five numbers: its set asked and added to, pairs compared.
ghost use Rattle.std.specs.Prelude.{◌≡◌, true, ℕ, ◌<◌, ◌≤◌, ltb, length};
ghost use Rattle.draft_pairs.specs.TokenSets.{holds, with, members};
ghost use Rattle.draft_pairs.specs.Pairs.{pair, number_in, set_in};
ghost use Rattle.draft_pairs.specs.Rows.{row_value};

// A pair as five numbers, the highest first: the number of an agent or procedure, and the four parts of its set.
pub type Row = [u64; 5];

// An agent or procedure under no token.
pub fn row_of(number: usize) -> Row
    ensures { row_value result ≡ pair number 0 }
{
    [number as u64, 0, 0, 0, 0]
}

// The number of a pair.
pub fn number_of(row: Row) -> usize
    ensures { result ≡ number_in (row_value row) }
{
    row[0] as usize
}

// Another number under the same set.
pub fn renumbered(mut row: Row, number: usize) -> Row
    ensures { row_value result ≡ pair number (set_in (row_value row)) }
{
    row[0] = number as u64;
    row
}

// Whether a token is in a pair's set.
pub fn has_token(row: Row, token: usize) -> bool
    requires { token < 256 }
    ensures { result ≡ holds (set_in (row_value row)) token }
{
    let part = row[4 - token / 64];
    (part >> (token % 64)) % 2 == 1
}

// The pair with a token added to its set.
pub fn with_token(mut row: Row, token: usize) -> Row
    requires { token < 256 }
    ensures { row_value result ≡ pair (number_in (row_value row)) (with token (set_in (row_value row))) }
{
    if has_token(row, token) {
        return row;
    }
    row[4 - token / 64] += 1 << (token % 64);
    row
}

// Whether a pair stands before another.
pub fn is_before(a: Row, b: Row) -> bool
    ensures { result ≡ ltb (row_value a) (row_value b) }
{
    // Not by `<`, for speed: the order of arrays goes by an `Option<Ordering>` at each number.
    for k in 0..5 {
        if a[k] != b[k] {
            return a[k] < b[k];
        }
    }
    false
}

// How many tokens a pair's set has, all of them below `tokens`.
pub fn token_count(row: Row, tokens: usize) -> usize
    requires tokens_bound { tokens ≤ 256 }
    requires by_index { (t : ℕ) → holds (set_in (row_value row)) t ≡ true → t < tokens }
    ensures value { result ≡ length (members (set_in (row_value row))) }
    ensures upper_bound { result ≤ tokens }
{
    // A sum, for speed: the closure of `filter` copies the pair at each token.
    let mut n = 0;
    for t in 0..tokens {
        n += usize::from(has_token(row, t));
    }
    n
}
