// What the score check finds: verdicts, their numbers and values, the first of two.
#![tactic(auto)]

ghost use Rattle.std.specs.Prelude.{◌≡◌};
ghost use Rattle.check_verdicts.specs.Verdicts.{verdict_number, verdict_value};

// What is wrong with a score.
#[derive(Clone, Copy)]
pub enum Fault {
    // The bytes are none, no multiple of 4, or too many.
    Length,
    // Word 0 is no head.
    Head,
    // The words are too few or too many for the head.
    Count,
    // The word that is not of the kind of its place, or has an unnamed bit set.
    Form(usize),
    // The word that names a token that the score does not have.
    Token(usize),
    // The word that refers out of range.
    Reference(usize),
    // The lowest procedure from which unguarded calls lead back to itself.
    Circle(usize),
}

// What the score check finds: nothing, or the first fault.
pub type Verdict = Result<(), Fault>;

// The table's number for a verdict.
pub fn number_of(v: Verdict) -> usize
    ensures { result ≡ verdict_number v }
{
    match v {
        Ok(()) => 0,
        Err(Fault::Length) => 1,
        Err(Fault::Head) => 2,
        Err(Fault::Count) => 3,
        Err(Fault::Form(_)) => 4,
        Err(Fault::Token(_)) => 5,
        Err(Fault::Reference(_)) => 6,
        Err(Fault::Circle(_)) => 7,
    }
}

// The word or procedure that a verdict speaks of; 0 where it speaks of none.
pub fn value_of(v: Verdict) -> usize
    ensures { result ≡ verdict_value v }
{
    match v {
        Ok(()) | Err(Fault::Length | Fault::Head | Fault::Count) => 0,
        Err(
            Fault::Form(place)
            | Fault::Token(place)
            | Fault::Reference(place)
            | Fault::Circle(place),
        ) => place,
    }
}
