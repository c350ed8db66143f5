// Where the instants of a journal stand in its bytes: where a reader starts, what it shows at a position, the position so many
// instants further on.
#![tactic(auto)]

ghost use Rattle.std.specs.Prelude.{◌≡◌, true, take, drop};
ghost use Rattle.journal_form.specs.Form.{form_of};
ghost use Rattle.journal_positions.specs.Positions.{start_by, size_at, place_after};

use journal_form::Form;

// The form of a journal: by which number a reader of it turns it down. It is `journal_form::form_of` for a journal.
pub fn form_of(journal: &[u8], tokens: usize) -> Form
    ensures { result ≡ form_of true tokens journal.now }
{
    journal_form::form_of(journal, tokens, true)
}

// Where a reader starts, by the form: at the first instant, or past the last where the journal is against its form.
pub fn start_of(journal: &[u8], form: Form) -> usize
    ensures { result ≡ start_by form journal.now }
{
    match form {
        Ok(()) => 0,
        Err(_) => journal.len(),
    }
}

// The part at a position: up to the next instant word or the end.
pub fn part_at(journal: &[u8], at: usize) -> &[u8]
    ensures { result.now ≡ take (size_at journal.now at) (drop at journal.now) }
{
    journal_instants::part(journal, Ok(()), at)
}

// The position so many instants further on.
pub fn after(journal: &[u8], at: usize, instants: usize) -> usize
    ensures { result ≡ place_after instants journal.now at }
{
    let mut place = at;
    for _ in 0..instants {
        let size = part_at(journal, place).len();
        if size == 0 {
            return place;
        }
        place += size;
    }
    place
}
