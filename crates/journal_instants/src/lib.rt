// The instants in an input list or journal, as parts of its own bytes, and their tokens.
#![tactic(auto)]

ghost use Rattle.std.specs.Prelude.{◌≡◌, ◌*◌};
ghost use Rattle.words.specs.Word.{words};
ghost use Rattle.flags.specs.Flags.{flags_of};
ghost use Rattle.journal_instants.specs.Instants.{tokens_of};
ghost use Rattle.journal_instants.specs.Parts.{span, part_at};

use flags::Tokens;
use journal_form::Form;

// The part of a journal's bytes from a position to the next instant word or the end; empty where the form is against it.
pub fn part(bytes: &[u8], form: Form, at: usize) -> &[u8]
    ensures { result.now ≡ part_at form bytes.now at }
{
    match (form, bytes.get(at..)) {
        (Ok(()), Some(rest)) if at % 4 == 0 => &rest[..span_of(rest)],
        _ => &[],
    }
}

// How many bytes the first part of bytes has.
fn span_of(bytes: &[u8]) -> usize
    ensures { result ≡ 4 * span (words bytes.now) }
{
    let count = words::word_count(bytes);
    for k in 1..count {
        if journal_form::is_instant(words::word_at(bytes, k)) {
            return 4 * k;
        }
    }
    4 * count
}

// The tokens of the words of a kind, as flags.
pub fn tokens_in(bytes: &[u8], kind: u32) -> Tokens
    ensures { result ≡ flags_of 256 (tokens_of kind (words bytes.now)) }
{
    let mut flags = [false; 256];
    for k in 0..words::word_count(bytes) {
        let w = words::word_at(bytes, k);
        if words::bits(w, 28, 4) == kind {
            flags[format::number(w, 0, 8)] = true;
        }
    }
    flags
}
