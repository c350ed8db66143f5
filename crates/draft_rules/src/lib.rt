// The rules of a plain score, written.
#![tactic(auto)]

ghost use Rattle.std.specs.Prelude.{◌≡◌, ℕ, ◌+◌, ◌*◌, ◌<◌, ◌≤◌, length};
ghost use mathlib.Core.List.{map, Memᴰ};
ghost use Rattle.tcc.specs.Limits.{most_tokens};
ghost use Rattle.format.specs.Limits.{most_bytes};
ghost use Rattle.draft_pairs.specs.TokenSets.{members};
ghost use Rattle.draft_pairs.specs.Pairs.{set_in};
ghost use Rattle.draft_pairs.specs.Rows.{row_value};
ghost use Rattle.draft_plain.specs.Plain.{member_rules};
ghost use Rattle.encoding.specs.Encode.{rule_word};
ghost use Rattle.bits.specs.Put.{put};
ghost use Rattle.draft_format.specs.DraftFile.{decode_draft};
ghost use Rattle.draft_gathering.specs.Gathered.{sets_in};
ghost use Rattle.draft_rules.specs.SetRules.{set_rules};

use draft_gathering::Source;
use draft_pairs::Row;

// Copies the words of the rules.
pub fn put_rules(plain: &mut [u8], source: Source)
    requires draft_in_bounds { 4 * (2 + source.n.pairs + length (decode_draft source.draft.now).rules) ≤ length plain.old }
    ensures { plain.new ≡ put (2 + source.entry.n.pairs) (map rule_word (decode_draft source.entry.draft.now).rules) plain.old }
{
    let Source { draft, n, .. } = source;
    let from = 2 + n.agents + n.procedures;
    for k in 0..n.words - from {
        bits::put_word(plain, 2 + n.pairs + k, words::word_at(draft, from + k));
    }
}

// Writes the words of the rules from the members of the asked sets, from a word on, and says which word comes next.
pub fn put_members(plain: &mut [u8], from: usize, source: Source) -> usize
    requires draft_in_bounds { 4 * (from + length (member_rules source.n.tokens (sets_in source.draft.now))) ≤ length plain.old }
    requires plain_len_bound { length plain.old ≤ most_bytes }
    ensures plain_after { plain.new ≡ put from (map rule_word (member_rules source.entry.n.tokens (sets_in source.entry.draft.now))) plain.old }
    ensures value { result ≡ from + length (member_rules source.entry.n.tokens (sets_in source.entry.draft.now)) }
{
    let Source { sets, n, .. } = source;
    let mut at = from;
    for (k, set) in sets[..n.sets].iter().enumerate() {
        at = put_set(plain, at, *set, n.tokens, n.tokens + k);
    }
    at
}

// Writes a rule from each member of a set, from a word on, and says which word comes next.
fn put_set(plain: &mut [u8], from: usize, set: Row, tokens: usize, conclusion: usize) -> usize
    requires tokens_le_most_tokens { tokens ≤ most_tokens }
    requires conclusion_lt_most_tokens { conclusion < most_tokens }
    requires by_index { (t : ℕ) → Memᴰ t (members (set_in (row_value set))) → t < tokens }
    requires set_in_bounds { 4 * (from + length (members (set_in (row_value set)))) ≤ length plain.old }
    requires plain_len_bound { length plain.old ≤ most_bytes }
    ensures plain_after { plain.new ≡ put from (map rule_word (set_rules conclusion (set_in (row_value set)))) plain.old }
    ensures value { result ≡ from + length (members (set_in (row_value set))) }
{
    let mut at = from;
    for token in 0..tokens {
        if draft_pairs::has_token(set, token) {
            bits::put_word(plain, at, encoding::member_word(conclusion, token));
            at += 1;
        }
    }
    at
}
