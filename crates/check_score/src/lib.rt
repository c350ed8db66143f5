// The score check, rows 1 to 7 in their order; an accepted score is lawful.
#![tactic(auto)]

ghost use Rattle.std.specs.Prelude.{◌≡◌};
ghost use Rattle.check_score.specs.Check.{verdict};

use check_verdicts::Verdict;

// Checks a score.
#[tactic(auto, using(crate::proofs::Passed::passed_tests), unfolding(crate::specs::Check::verdict))]
pub fn check(s: &[u8]) -> Verdict
    ensures { result ≡ verdict s.now }
{
    check_faults::length_verdict(s.len())?;
    let head = words::word_at(s, 0);
    check_faults::head_verdict(head)?;
    let sizes = format::sizes_of(head);
    check_faults::count_verdict(sizes, words::word_count(s))?;
    check_faults::first_fault(s, sizes)?;
    check_circles::lowest_circle(s, sizes)
}
