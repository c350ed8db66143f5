// The sets that agents of a draft ask for at quiet.
ghost use Rattle.std.specs.Prelude.{◌≡◌, true, ℕ, ◌<◌, ◌≤◌, length, get_or};
ghost use mathlib.Core.List.{Memᴰ};
ghost use Rattle.laws.specs.Rising.{Rising};
ghost use Rattle.tcc.specs.Limits.{most_tokens, most_agents};
ghost use Rattle.format.specs.Decode.{sizes};
ghost use Rattle.draft_pairs.specs.TokenSets.{holds, members, several};
ghost use Rattle.draft_pairs.specs.Pairs.{most_pairs, set_in};
ghost use Rattle.draft_pairs.specs.Rows.{row_value};
ghost use Rattle.draft_table.specs.Tables.{keys};
ghost use Rattle.draft_plain.specs.Places.{places, agent_places};
ghost use Rattle.draft_plain.specs.Plain.{asked_sets, asked_token, member_rules};
ghost use Rattle.draft_format.specs.DraftFile.{decode_draft};
ghost use Rattle.draft_format.specs.Translatable.{Translatable};
ghost use Rattle.draft_gathering.specs.Asking.{tokens_named, asked_by, TokensBelow};

use draft_language::DraftAgent;
use draft_pairs::Row;
use draft_table::Table;
use tcc::Agent;

// The set that an agent under the set of a pair asks for at quiet, as a pair of number 0; the empty set where it asks for none.
pub fn asked_by(written: DraftAgent, row: Row) -> Row
    requires { (t : ℕ) → Memᴰ t (tokens_named written) → t < most_tokens }
    ensures { row_value result ≡ asked_by (set_in (row_value row)) written }
{
    let DraftAgent::Plain(agent) = written else {
        return draft_pairs::row_of(0);
    };
    match agent {
        Agent::Next(_) => draft_pairs::renumbered(row, 0),
        Agent::Unless(token, _) => {
            let own = draft_pairs::with_token(row, token);
            draft_pairs::renumbered(own, 0)
        }
        _ => draft_pairs::row_of(0),
    }
}

// Enters the asked sets of two tokens or more, and says how many there are.
pub fn enter_asked(
    draft: &[u8],
    tokens: usize,
    table: &Table,
    agents: usize,
    sets: &mut Table,
) -> usize
    requires translatable { Translatable draft.now }
    requires tokens_value { tokens ≡ (sizes draft.now).tokens }
    requires table_len { length table.now ≡ most_pairs }
    requires sets_len { length sets.old ≡ most_pairs }
    requires agents_le_most_agents { agents ≤ most_agents }
    requires table_value { keys agents table.now ≡ agent_places (places (decode_draft draft.now)) }
    ensures sets_after { keys result sets.new ≡ asked_sets (decode_draft draft.now) (agent_places (places (decode_draft draft.now))) }
    ensures upper_bound { result ≤ agents }
    ensures sets_len_2 { length sets.new ≡ most_pairs }
{
    let mut count = 0;
    for row in &table[..agents] {
        let agent = draft_format::draft_agent_at(draft, draft_pairs::number_of(*row));
        let asked = asked_by(agent, *row);
        if 1 < draft_pairs::token_count(asked, tokens) {
            count = draft_table::enter(sets, count, asked).unwrap();
        }
    }
    count
}

// How many tokens the sets have in sum.
pub fn member_count(sets: &Table, count: usize, tokens: usize) -> usize
    requires sets_len { length sets.now ≡ most_pairs }
    requires count_le_most_pairs { count ≤ most_pairs }
    requires tokens_le_most_tokens { tokens ≤ most_tokens }
    requires tokens_below { TokensBelow tokens (keys count sets.now) }
    ensures value { result ≡ length (member_rules tokens (keys count sets.now)) }
    ensures upper_bound { result ≤ 278528 }
{
    let mut n = 0;
    for set in &sets[..count] {
        n += draft_pairs::token_count(*set, tokens);
    }
    n
}

// The token that stands for a set that is not empty: its own where it has one, a new one where it has more.
pub fn asked_token(set: Row, tokens: usize, sets: &Table, count: usize) -> usize
    requires tokens_le_most_tokens { tokens ≤ most_tokens }
    requires by_index { (t : ℕ) → holds (set_in (row_value set)) t ≡ true → t < tokens }
    requires sets_len { length sets.now ≡ most_pairs }
    requires count_le_most_pairs { count ≤ most_pairs }
    requires rising { Rising (keys count sets.now) }
    requires fact { several (set_in (row_value set)) ≡ true → Memᴰ (set_in (row_value set)) (keys count sets.now) }
    ensures { result ≡ asked_token tokens (keys count sets.now) (set_in (row_value set)) }
{
    if 1 < draft_pairs::token_count(set, tokens) {
        let key = draft_pairs::renumbered(set, 0);
        tokens + draft_table::place(sets, count, key)
    } else {
        lowest(set, tokens)
    }
}

// The lowest token of a set; 0 where it has none.
fn lowest(set: Row, tokens: usize) -> usize
    requires tokens_le_most_tokens { tokens ≤ most_tokens }
    requires by_index { (t : ℕ) → holds (set_in (row_value set)) t ≡ true → t < tokens }
    ensures { result ≡ get_or (members (set_in (row_value set))) 0 0 }
{
    // Not by `find`, for speed: its closure copies the pair at each token.
    for t in 0..tokens {
        if draft_pairs::has_token(set, t) {
            return t;
        }
    }
    0
}
