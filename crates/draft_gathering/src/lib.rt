// The pairs and the asked sets (`asked`) of a draft, gathered in two tables.
#![tactic(auto)]

pub mod asked;

ghost use Rattle.std.specs.Prelude.{◌≡◌, length};
ghost use Rattle.check_verdicts.specs.Verdict.{Accepted};
ghost use Rattle.draft_pairs.specs.Pairs.{most_pairs};
ghost use Rattle.draft_format.specs.DraftFile.{draft_verdict};
ghost use Rattle.draft_gathering.specs.Gathered.{Gathered};
ghost use Rattle.draft_gathering.specs.Gathering.{PairsFit, GatheredBy};

use draft_table::Table;
use format::Sizes;

// A draft, and its pairs and asked sets in two tables.
#[derive(Clone, Copy)]
pub struct Source<'a> {
    pub draft: &'a [u8],
    pub table: &'a Table,
    pub sets: &'a Table,
    pub n: Counts,
    ghost gathered: { Gathered draft.now n table.now sets.now },
}

// How many there are: the draft's tokens, agents, procedures and words; its pairs, of them copied agents; its asked sets.
#[derive(Clone, Copy)]
pub struct Counts {
    pub tokens: usize,
    pub agents: usize,
    pub procedures: usize,
    pub words: usize,
    pub pairs: usize,
    pub copied: usize,
    pub sets: usize,
}

// Gathers the pairs and the asked sets of an accepted draft in two tables; none where the plain score would pass a size
// limit.
pub fn gather(draft: &[u8], table: &mut Table, sets: &mut Table) -> Option<Counts>
    requires draft_value { draft_verdict draft.now ≡ Accepted }
    requires table_len { length table.old ≡ most_pairs }
    requires sets_len { length sets.old ≡ most_pairs }
    ensures { GatheredBy draft.now table.new sets.new result }
{
    let head = format::sizes_of(words::word_at(draft, 0));
    let pairs = draft_copying::copy_draft(draft, head.agents, table)?;
    let copied = draft_table::place(table, pairs, draft_pairs::row_of(draft_table::PROCEDURES));
    if tcc::MOST_AGENTS < copied || tcc::MOST_PROCEDURES < pairs - copied {
        return None;
    }
    gather_sets(draft, head, table, sets, pairs, copied)
}

// Gathers the asked sets, where the pairs fit; none where the plain score would pass a size limit.
fn gather_sets(
    draft: &[u8],
    head: Sizes,
    table: &Table,
    sets: &mut Table,
    pairs: usize,
    copied: usize,
) -> Option<Counts>
    requires pairs_fit { PairsFit draft.now head table.now pairs copied }
    requires sets_len { length sets.old ≡ most_pairs }
    ensures { GatheredBy draft.now table.now sets.new result }
{
    let count = asked::enter_asked(draft, head.tokens, table, copied, sets);
    if tcc::MOST_TOKENS < head.tokens + count {
        return None;
    }
    let words = words::word_count(draft);
    let rules = words - (2 + head.agents + head.procedures);
    if tcc::MOST_RULES < rules + asked::member_count(sets, count, head.tokens) {
        return None;
    }
    Some(Counts {
        tokens: head.tokens,
        agents: head.agents,
        procedures: head.procedures,
        words,
        pairs,
        copied,
        sets: count,
    })
}
