// The form of input lists and journals, numbers 12 and 13.
#![tactic(auto)]

ghost use Rattle.std.specs.Prelude.{◌≡◌, cond, ◌&&◌, ltb};
ghost use Rattle.format.specs.Format.{is_word};
ghost use Rattle.journal_form.specs.Form.{token_of, status_in, is_instant, rises, may_follow, form_of};
ghost use Rattle.journal_form.specs.Refusals.{refusal_of};

use refusals::Refusal;

// The form of a list or journal: good, or what is against it.
pub type Form = Result<(), Misform>;

// What in a list or journal is against its form.
#[derive(Clone, Copy)]
pub enum Misform {
    // Not a multiple of 4 bytes.
    Bytes,
    // The lowest word against its form.
    Word(usize),
}

impl From<Misform> for Refusal {
    ghost from_gives = { λ m r. r ≡ refusal_of m };

    fn from(misform: Misform) -> Refusal {
        match misform {
            Misform::Bytes => Refusal::Bytes,
            Misform::Word(word) => Refusal::Word(word),
        }
    }
}

// The form of a list, or of a journal, of a score with so many tokens: numbers 12 and 13. Which of the two is a bool, as in
// the definition `form_of`, which theorems cite.
pub fn form_of(bytes: &[u8], tokens: usize, journal: bool) -> Form
    ensures { result ≡ form_of journal tokens bytes.now }
{
    if bytes.len() % 4 != 0 {
        return Err(Misform::Bytes);
    }
    let mut last = 0;
    for k in 0..words::word_count(bytes) {
        let w = words::word_at(bytes, k);
        if !may_follow(journal, tokens, last, w) {
            return Err(Misform::Word(k));
        }
        last = w;
    }
    Ok(())
}

// Whether a word has its form after the word before it.
fn may_follow(journal: bool, tokens: usize, last: u32, w: u32) -> bool
    ensures { result ≡ may_follow journal tokens last w }
{
    let first = is_instant(last);
    let input = words::bits(last, 28, 4) == 13;
    starts(w, statuses(journal))
        | has_token(w, 13, tokens) & (first | rises(13, last, w))
        | journal & has_token(w, 14, tokens) & (first | input | rises(14, last, w))
}

// Whether a word is of kind 12: an instant starts with it.
pub fn is_instant(w: u32) -> bool
    ensures { result ≡ is_instant w }
{
    words::bits(w, 28, 4) == 12
}

// How many statuses an instant word can have, in a journal or in a list.
fn statuses(journal: bool) -> u32
    ensures { result ≡ cond journal 3 1 }
{
    if journal { 3 } else { 1 }
}

// Whether a word has the form of an instant word, its status one of so many.
fn starts(w: u32, statuses: u32) -> bool
    ensures { result ≡ (is_word 12 2 w && ltb (status_in w) statuses) }
{
    format::is_word(w, 12, 2) & (words::bits(w, 0, 2) < statuses)
}

// Whether a word has the form of a kind with a token of the score.
fn has_token(w: u32, kind: u32, tokens: usize) -> bool
    ensures { result ≡ (is_word kind 8 w && ltb (token_of w) tokens) }
{
    format::is_word(w, kind, 8) & (format::number(w, 0, 8) < tokens)
}

// Whether the word before is of a kind too and has a lower token.
fn rises(kind: u32, last: u32, w: u32) -> bool
    ensures { result ≡ rises kind last w }
{
    (words::bits(last, 28, 4) == kind) & (format::number(last, 0, 8) < format::number(w, 0, 8))
}
