// A table of pairs in rising order.
#![tactic(auto)]

ghost use Rattle.std.specs.Prelude.{◌≡◌, ◌+◌, ◌<◌, ◌≤◌, length};
ghost use Rattle.laws.specs.Rising.{Rising};
ghost use Rattle.draft_pairs.specs.Pairs.{most_pairs};
ghost use Rattle.draft_pairs.specs.Rows.{row_value};
ghost use Rattle.draft_table.specs.Tables.{keys, Placed, Entered};

use draft_pairs::Row;

// Pairs in rising order, each once; those in use come first.
pub type Table = [Row; MOST];

// The most pairs that a plain score can have.
pub const MOST: usize = tcc::MOST_AGENTS + tcc::MOST_PROCEDURES;

// The number of procedure 0 in a pair: procedures come after the agents.
pub const PROCEDURES: usize = tcc::MOST_AGENTS;

// How many of the pairs in use stand before a pair.
pub fn place(table: &Table, count: usize, row: Row) -> usize
    requires table_len { length table.now ≡ most_pairs }
    requires count_le_most_pairs { count ≤ most_pairs }
    requires rising { Rising (keys count table.now) }
    ensures { Placed (keys count table.now) (row_value row) result }
{
    table[..count].partition_point(|r| draft_pairs::is_before(*r, row))
}

// Enters a pair, and says how many there then are: as many as before where it is there already, and none where there is
// no room.
pub fn enter(table: &mut Table, count: usize, row: Row) -> Option<usize>
    requires table_len { length table.old ≡ most_pairs }
    requires count_le_most_pairs { count ≤ most_pairs }
    requires rising { Rising (keys count table.old) }
    ensures { Entered (row_value row) count table.old table.new result }
{
    let at = place(table, count, row);
    // Not by `==`: it was tried, and from it nothing follows of the two rows' values.
    if at < count && !draft_pairs::is_before(row, table[at]) {
        return Some(count);
    }
    if count == MOST {
        return None;
    }
    table.copy_within(at..count, at + 1);
    table[at] = row;
    Some(count + 1)
}
