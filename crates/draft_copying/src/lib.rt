// The pairs of a draft, copied; what its references lead to (`targets`).
#![tactic(auto)]

pub mod targets;

ghost use Rattle.std.specs.Prelude.{◌≡◌, ℕ, ◌<◌, ◌≤◌, length};
ghost use mathlib.Core.List.{Memᴰ};
ghost use Rattle.laws.specs.Rising.{Rising};
ghost use Rattle.format.specs.Decode.{sizes};
ghost use Rattle.draft_pairs.specs.Pairs.{most_pairs, pair, set_in};
ghost use Rattle.draft_pairs.specs.Rows.{row_value};
ghost use Rattle.draft_table.specs.Tables.{keys};
ghost use Rattle.draft_plain.specs.Places.{procedure_at};
ghost use Rattle.draft_plain.specs.Places as places;
ghost use Rattle.draft_plain.specs.Led.{Led};
ghost use Rattle.draft_format.specs.DraftFile.{decode_draft};
ghost use Rattle.draft_format.specs.Translatable.{Translatable};
ghost use Rattle.draft_copying.specs.Copied.{CopiedTo, PlacesIn};

use crate::targets::References;
use draft_pairs::Row;
use draft_table::Table;

// Copies all that the start of a draft leads to, and says how many pairs there are; none where there is no room for them.
pub fn copy_draft(draft: &[u8], agents: usize, table: &mut Table) -> Option<usize>
    requires translatable { Translatable draft.now }
    requires agents_value { agents ≡ (sizes draft.now).agents }
    requires table_len { length table.old ≡ most_pairs }
    ensures { PlacesIn (decode_draft draft.now) result table.new }
{
    copy_procedure(draft, agents, 0, draft_pairs::row_of(0), table, 0)
}

// Copies a procedure under a set, and all that it leads to, and says how many pairs there then are; none where there is
// no room for them.
#[cycle(copy_agent_copy_procedure)]
fn copy_procedure(
    draft: &[u8],
    agents: usize,
    procedure: usize,
    under: Row,
    table: &mut Table,
    count: usize,
) -> Option<usize>
    requires translatable { Translatable draft.now }
    requires agents_value { agents ≡ (sizes draft.now).agents }
    requires procedure_bound { procedure < (sizes draft.now).procedures }
    requires led { Led (decode_draft draft.now) (pair (procedure_at procedure) (set_in (row_value under))) }
    requires table_len { length table.old ≡ most_pairs }
    requires count_le_most_pairs { count ≤ most_pairs }
    requires rising { Rising (keys count table.old) }
    requires by_index { (k : ℕ) → Memᴰ k (keys count table.old) → Led (decode_draft draft.now) k }
    ensures { CopiedTo (decode_draft draft.now) (pair (procedure_at procedure) (set_in (row_value under))) count table.old result table.new }
{
    let row = draft_pairs::renumbered(under, draft_table::PROCEDURES + procedure);
    let pairs = draft_table::enter(table, count, row)?;
    if pairs == count {
        return Some(count);
    }
    let root = format::root_of(draft, agents, procedure);
    copy_agent(draft, agents, root, row, table, pairs)
}

// Copies the agent that a reference leads to under a set, and all that it leads to, and says how many pairs there then
// are; none where there is no room for them.
#[cycle(copy_agent_copy_procedure)]
fn copy_agent(
    draft: &[u8],
    agents: usize,
    reference: usize,
    under: Row,
    table: &mut Table,
    count: usize,
) -> Option<usize>
    requires translatable { Translatable draft.now }
    requires agents_value { agents ≡ (sizes draft.now).agents }
    requires reference_bound { reference < (sizes draft.now).agents }
    requires led { Led (decode_draft draft.now) (places.target (decode_draft draft.now) reference (set_in (row_value under))) }
    requires table_len { length table.old ≡ most_pairs }
    requires count_le_most_pairs { count ≤ most_pairs }
    requires rising { Rising (keys count table.old) }
    requires by_index { (k : ℕ) → Memᴰ k (keys count table.old) → Led (decode_draft draft.now) k }
    ensures { CopiedTo (decode_draft draft.now) (places.target (decode_draft draft.now) reference (set_in (row_value under))) count table.old result table.new }
{
    let row = targets::target(draft, reference, under);
    let entered = draft_table::enter(table, count, row)?;
    if entered == count {
        return Some(count);
    }
    match targets::references_of(draft_format::draft_agent_at(draft, draft_pairs::number_of(row))) {
        References::Nothing => Some(entered),
        References::Body(body) => copy_agent(draft, agents, body, row, table, entered),
        References::Halves(first, second) => {
            let half = copy_agent(draft, agents, first, row, table, entered)?;
            copy_agent(draft, agents, second, row, table, half)
        }
        References::Procedure(p) => copy_procedure(draft, agents, p, row, table, entered),
    }
}
