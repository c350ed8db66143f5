// What the runner prints, as text: which words of a journal, and the line of a word.
#![tactic(auto)]

ghost use Rattle.std.specs.Prelude.{◌≡◌, ◌<◌, length};
ghost use Rattle.words.specs.Word.{words};
ghost use Rattle.runner_text.specs.Shown.{shown};
ghost use Rattle.runner_text.specs.Text.{digit_at, line};

// How many words stand before the first zero: no word of a journal is zero.
#[tactic(auto, using(crate::proofs::Shown::shown_here, crate::proofs::Shown::shown_more, crate::proofs::Shown::shown_end))]
pub fn shown_words(journal: &[u8]) -> usize
    ensures { result ≡ length (shown (words journal.now)) }
{
    let count = words::word_count(journal);
    for k in 0..count {
        if words::word_at(journal, k) == 0 {
            return k;
        }
    }
    count
}

// The line of a word: eight capital hex digits and a line feed. No loop: the bytes stand as the definition has them.
pub fn line(w: u32) -> [u8; 9]
    ensures { result ≡ line w }
{
    [
        digit_at(w, 28),
        digit_at(w, 24),
        digit_at(w, 20),
        digit_at(w, 16),
        digit_at(w, 12),
        digit_at(w, 8),
        digit_at(w, 4),
        digit_at(w, 0),
        b'\n',
    ]
}

// The hex digit of four bits of a word.
#[tactic(auto, using(words::proofs::Field::field_below))]
fn digit_at(w: u32, lowest: u32) -> u8
    requires { lowest < 32 }
    ensures { result ≡ digit_at w lowest }
{
    let d = words::bits(w, lowest, 4) as u8;
    if d < 10 { b'0' + d } else { b'A' + d - 10 }
}
