// Why a call turns down what it is handed, or stops: numbers 1 to 18 of the table.
#![tactic(auto)]

ghost use Rattle.std.specs.Prelude.{◌≡◌};
ghost use Rattle.refusals.specs.declared.Refusal.{Refusal};

use check_verdicts::Fault;

// Why a call turns down what it is handed, or stops.
#[derive(Clone, Copy)]
pub enum Refusal {
    // The score, or draft, is turned down, 1 to 7.
    Score(Fault),
    // 8: a buffer of another length.
    Lengths,
    // 9: the state is not one of the score's.
    State,
    // 10: the input names a token that the score does not have.
    Input,
    // 11: the next state would not be one of the score's.
    Next,
    // 12: the list or journal is not made of whole words.
    Bytes,
    // 13: the lowest word of the list or journal against its form.
    Word(usize),
    // 14: the first instant of the journal that is not what the run writes.
    Differs(usize),
    // 15: the next instant's words exceed the journal bytes left: the instants written.
    Full(usize),
    // 16: the plain score would pass a size limit.
    Large,
    // 17: too many switches, one listed twice, one that the score does not have, or more to press than there are.
    Switches,
    // 18: an instant is wanted at the last number: the instants written before it.
    Last(usize),
}

impl From<Fault> for Refusal {
    ghost from_gives = { λ f r. r ≡ Refusal.Score f };

    fn from(fault: Fault) -> Refusal {
        Refusal::Score(fault)
    }
}
