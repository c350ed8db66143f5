// The agents (`agents`) and procedures of a plain score, written.
#![tactic(auto)]

pub mod agents;

ghost use Rattle.std.specs.Prelude.{◌≡◌, ◌+◌, ◌*◌, ◌-◌, ◌≤◌, length};
ghost use mathlib.Core.List.{map, Memᴰ};
ghost use Rattle.tcc.specs.Limits.{most_agents};
ghost use Rattle.draft_language.specs.Draft.{root_of};
ghost use Rattle.draft_pairs.specs.Pairs.{number_in, set_in, index_of};
ghost use Rattle.draft_pairs.specs.Rows.{row_value};
ghost use Rattle.draft_plain.specs.Places as places;
ghost use Rattle.draft_plain.specs.Plain.{plain_of};
ghost use Rattle.encoding.specs.Encode.{agent_word, root_word};
ghost use Rattle.bits.specs.Put.{put};
ghost use Rattle.draft_format.specs.DraftFile.{decode_draft};
ghost use Rattle.draft_gathering.specs.Gathered.{agents_in, procedures_in};

use draft_gathering::Source;
use draft_pairs::Row;

// Writes the words of the agents.
pub fn put_agents(plain: &mut [u8], source: Source)
    requires copied_in_bounds { 4 * (2 + source.n.copied) ≤ length plain.old }
    ensures { plain.new ≡ put 2 (map agent_word (plain_of (decode_draft source.entry.draft.now)).agents) plain.old }
{
    let Source { table, n, .. } = source;
    for (k, row) in table[..n.copied].iter().enumerate() {
        let w = encoding::agent_word(agents::plain_agent(source, *row));
        bits::put_word(plain, 2 + k, w);
    }
}

// Writes the words of the procedures.
pub fn put_procedures(plain: &mut [u8], source: Source)
    requires pairs_in_bounds { 4 * (2 + source.n.pairs) ≤ length plain.old }
    ensures { plain.new ≡ put (2 + source.entry.n.copied) (map root_word (plain_of (decode_draft source.entry.draft.now)).roots) plain.old }
{
    let Source { table, n, .. } = source;
    for (k, row) in table[n.copied..n.pairs].iter().enumerate() {
        let w = encoding::root_word(root_at(source, *row));
        bits::put_word(plain, 2 + n.copied + k, w);
    }
}

// Where the root of a pair's procedure stands, under the pair's set.
fn root_at(source: Source, row: Row) -> usize
    requires fact { Memᴰ (row_value row) (procedures_in source.draft.now) }
    ensures { result ≡ index_of (places.target (decode_draft source.entry.draft.now) (root_of (decode_draft source.entry.draft.now) (number_in (row_value row) - most_agents)) (set_in (row_value row))) (agents_in source.entry.draft.now) }
{
    let root = format::root_of(
        source.draft,
        source.n.agents,
        draft_pairs::number_of(row) - draft_table::PROCEDURES,
    );
    agents::stands_at(source, row, root)
}
