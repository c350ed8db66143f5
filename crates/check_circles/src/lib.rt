// Row 7: the lowest procedure on a circle of unguarded calls.
#![tactic(auto)]

ghost use Rattle.std.specs.Prelude.{◌≡◌, ◌≤◌, length};
ghost use Rattle.tcc.specs.Limits.{most_agents};
ghost use Rattle.format.specs.Decode.{sizes, decode};
ghost use Rattle.check_faults.specs.Faultless.{Faultless};
ghost use Rattle.check_calls.specs.Calls.{Gathered, Direct, Exactly};
ghost use Rattle.check_circles.specs.Circles.{circle_from};
ghost use Rattle.check_circles.specs.Lowest.{UnguardedCall, LowestCircular};

use check_verdicts::{Fault, Verdict};
use format::Sizes;

// The lowest procedure from which unguarded calls lead back to itself.
pub fn lowest_circle(s: &[u8], head: Sizes) -> Verdict
    requires head_value { head ≡ sizes s.now }
    requires faultless { Faultless s.now }
    ensures { result ≡ circle_from (decode s.now) 0 (length (decode s.now).roots) }
{
    match circle_by_size(s, head) {
        Some(p) => Err(Fault::Circle(p)),
        None => Ok(()),
    }
}

// The number of that procedure, if one lies on a circle. A small score has a small table to clear.
fn circle_by_size(s: &[u8], head: Sizes) -> Option<usize>
    requires head_value { head ≡ sizes s.now }
    requires faultless { Faultless s.now }
    ensures { LowestCircular (decode s.now) result }
{
    if head.agents <= 16 {
        circle_in::<16>(s, head)
    } else if head.agents <= 128 {
        circle_in::<128>(s, head)
    } else {
        circle_in::<1024>(s, head)
    }
}

// The same of a score of at most N agents, with a table of as many sets of procedures.
fn circle_in<const N: usize>(s: &[u8], head: Sizes) -> Option<usize>
    requires head_value { head ≡ sizes s.now }
    requires faultless { Faultless s.now }
    requires agents_in_bounds { head.agents ≤ N }
    requires table_bound { N ≤ most_agents }
    ensures { LowestCircular (decode s.now) result }
{
    let mut sets = [0u64; N];
    circle_among(s, head, &mut sets)
}

// The same, in the table that is given. Where no procedure calls one unguarded there is no circle, and no rows are
// cleared to find one.
fn circle_among(s: &[u8], head: Sizes, sets: &mut [u64]) -> Option<usize>
    requires head_value { head ≡ sizes s.now }
    requires faultless { Faultless s.now }
    requires agents_in_bounds { head.agents ≤ length sets.old }
    ensures { LowestCircular (decode s.now) result }
{
    gather(s, head, sets);
    if !calls_any(s, head, sets) {
        return None;
    }
    circle_in_rows(s, head, sets)
}

// Whether some procedure calls one unguarded.
fn calls_any(s: &[u8], head: Sizes, sets: &[u64]) -> bool
    requires head_value { head ≡ sizes s.now }
    requires faultless { Faultless s.now }
    requires gathered { Gathered (decode s.now) head.agents sets.now }
    requires agents_in_bounds { head.agents ≤ length sets.now }
    ensures { Exactly result (UnguardedCall (decode s.now)) }
{
    (0..head.procedures).any(|caller| sets[format::root_of(s, head.agents, caller)] != 0)
}

// The same, read off the closed rows.
fn circle_in_rows(s: &[u8], head: Sizes, sets: &[u64]) -> Option<usize>
    requires head_value { head ≡ sizes s.now }
    requires faultless { Faultless s.now }
    requires gathered { Gathered (decode s.now) head.agents sets.now }
    requires agents_in_bounds { head.agents ≤ length sets.now }
    ensures { LowestCircular (decode s.now) result }
{
    let mut rows = [[false; 64]; 64];
    mark_direct(s, head, sets, &mut rows);
    check_calls::close(head.procedures, &mut rows);
    (0..head.procedures).find(|&p| rows[p][p])
}

// The set of procedures that each agent leads to, from the lowest agent on: a body has a lower number than its agent.
fn gather(s: &[u8], head: Sizes, sets: &mut [u64])
    requires head_value { head ≡ sizes s.now }
    requires faultless { Faultless s.now }
    requires agents_in_bounds { head.agents ≤ length sets.old }
    ensures { Gathered (decode s.now) head.agents sets.new }
{
    for i in 0..head.agents {
        sets[i] = check_calls::leads_to(format::agent_at(s, i), sets);
    }
}

// Marks in row p the procedures that p calls unguarded.
fn mark_direct(s: &[u8], head: Sizes, sets: &[u64], rows: &mut check_calls::Rows)
    requires head_value { head ≡ sizes s.now }
    requires faultless { Faultless s.now }
    requires gathered { Gathered (decode s.now) head.agents sets.now }
    requires agents_in_bounds { head.agents ≤ length sets.now }
    requires rows_len { length rows.old ≡ 64 }
    ensures { Direct (decode s.now) rows.new }
{
    for (p, row) in rows[..head.procedures].iter_mut().enumerate() {
        *row = check_calls::row_of(sets[format::root_of(s, head.agents, p)]);
    }
}
