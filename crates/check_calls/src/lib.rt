// Tables of unguarded calls: a set of procedures for each agent, and a row of flags for each procedure.
#![tactic(auto)]

ghost use Rattle.std.specs.Prelude.{◌≡◌, false, ◌||◌, ℕ, ◌<◌, ◌≤◌, length, get_or};
ghost use mathlib.Core.List.{Memᴰ};
ghost use Rattle.tcc.specs.Limits.{most_procedures};
ghost use Rattle.tcc.specs.Score.{parts_of, procedures_of};
ghost use Rattle.check_calls.specs.Calls.{in_set, leads_by, Stepped, Closed};

use tcc::Agent;

// A flag for each procedure, and a row for each.
pub type Row = [bool; 64];

pub type Rows = [Row; 64];

// The set of procedures that an agent leads to, by the sets of the agents below it.
pub fn leads_to(agent: Agent, sets: &[u64]) -> u64
    requires by_index { (b : ℕ) → Memᴰ b (parts_of agent) → b < length sets.now }
    requires by_index_2 { (p : ℕ) → Memᴰ p (procedures_of agent) → p < most_procedures }
    ensures { (q : ℕ) → q < 64 → in_set result q ≡ leads_by agent sets.now q }
{
    match agent {
        Agent::Skip | Agent::Abort | Agent::Tell(_) | Agent::Next(_) | Agent::Unless(_, _) => 0,
        Agent::Parallel(first, second) => sets[first] | sets[second],
        Agent::When(_, body) => sets[body],
        Agent::Call(procedure) => 1 << procedure,
    }
}

// A set of procedures as a row of flags.
pub fn row_of(set: u64) -> Row
    ensures { (q : ℕ) → q < 64 → get_or result q false ≡ in_set set q }
{
    let mut row = [false; 64];
    let mut rest = set;
    for mark in &mut row {
        if rest == 0 {
            break;
        }
        *mark = rest % 2 == 1;
        rest /= 2;
    }
    row
}

// Closes the rows step by step: whatever a procedure leads to leads on.
pub fn close(procedures: usize, rows: &mut Rows)
    requires procedures_le_most_procedures { procedures ≤ most_procedures }
    requires rows_len { length rows.old ≡ 64 }
    ensures { Closed procedures rows.old rows.new }
{
    for k in 0..procedures {
        close_through(k, procedures, rows);
    }
}

// Each row that marks k takes over what row k marks.
fn close_through(k: usize, procedures: usize, rows: &mut Rows)
    requires k_lt_procedures { k < procedures }
    requires procedures_le_most_procedures { procedures ≤ most_procedures }
    requires rows_len { length rows.old ≡ 64 }
    ensures { Stepped procedures k rows.old rows.new }
{
    let onward = rows[k];
    for row in &mut rows[..procedures] {
        if row[k] {
            *row = joined(*row, onward);
        }
    }
}

// What either row marks.
fn joined(a: Row, b: Row) -> Row
    ensures { (q : ℕ) → q < 64 → get_or result q false ≡ (get_or a q false || get_or b q false) }
{
    let mut row = a;
    for (q, mark) in row.iter_mut().enumerate() {
        *mark |= b[q];
    }
    row
}
