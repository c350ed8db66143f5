// A reader of journals. Who sees an empty part asks for the journal's form, by `form` of a reader, and beside `instant`
// `journal_positions::form_of` tells: `Ok` is past the last instant, `Misform::Bytes` turned down by 12,
// `Misform::Word(k)` turned down by 13 at word k.
#![tactic(auto)]

ghost use Rattle.std.specs.Prelude.{◌≡◌, take, drop};
ghost use Rattle.journal_positions.specs.Positions.{size_at, place_of};
ghost use Rattle.journal_reader.specs.Reading.{made, moved_by};

use journal_form::Form;

// A journal, the position of the instant that is shown next, and the journal's form.
#[derive(Clone, Copy)]
pub struct Reader<'a> {
    journal: &'a [u8],
    at: usize,
    form: Form,
}

impl<'a> Reader<'a> {
    // A reader of a journal, of a score with so many tokens.
    pub fn new(journal: &'a [u8], tokens: usize) -> Self
        ensures { result ≡ made tokens journal.entry }
    {
        let form = journal_positions::form_of(journal, tokens);
        let at = journal_positions::start_of(journal, form);
        Self { journal, at, form }
    }

    // The words of the next instant, as a part of the journal's bytes; none past the last.
    pub fn shown(self) -> &'a [u8]
        ensures { result.now ≡ take (size_at self.entry.journal.now self.entry.at) (drop self.entry.at self.entry.journal.now) }
    {
        journal_positions::part_at(self.journal, self.at)
    }

    // The reader, so many instants further on.
    pub fn moved(self, instants: usize) -> Self
        ensures { result ≡ moved_by instants self.entry }
    {
        let at = journal_positions::after(self.journal, self.at, instants);
        Self { at, ..self }
    }

    // The form of a reader's journal, however far the reader was moved on: by which number it turns the journal down.
    pub fn form(self) -> Form
        ensures { result ≡ self.entry.form }
    {
        self.form
    }
}

// The words of instant `k` of a journal; none past the last, or where the journal is against its form:
// `journal_positions::form_of` tells which.
pub fn instant(journal: &[u8], tokens: usize, k: usize) -> &[u8]
    ensures { result.now ≡ take (size_at journal.now (place_of tokens k journal.now)) (drop (place_of tokens k journal.now) journal.now) }
{
    Reader::new(journal, tokens).moved(k).shown()
}
