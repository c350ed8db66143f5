// The translation of a draft over lent buffers.
#![tactic(auto)]

ghost use Rattle.std.specs.Prelude.{◌≡◌, ◌++◌, length, drop};
ghost use Rattle.format.specs.Limits.{most_bytes};
ghost use Rattle.check_verdicts.specs.Verdict.{Accepted};
ghost use Rattle.draft_plain.specs.Plain.{plain_of};
ghost use Rattle.encoding.specs.Encode.{score_bytes};
ghost use Rattle.draft_format.specs.DraftFile.{draft_verdict, decode_draft};
ghost use Rattle.draft_call.specs.TranslateCall.{TranslateCall, LeftBy};

use draft_gathering::Source;
use draft_plain::Reply;
use refusals::Refusal;

// Translates a draft to a plain score, into a lent buffer.
pub fn call(draft: &[u8], plain: &mut [u8]) -> Reply
    ensures { TranslateCall draft.now plain.old plain.new result }
{
    draft_format::check(draft)?;
    if plain.len() != format::MOST_BYTES {
        return Err(Refusal::Lengths);
    }
    translate(draft, plain)
}

// Translates an accepted draft.
fn translate(draft: &[u8], plain: &mut [u8]) -> Reply
    requires draft_value { draft_verdict draft.now ≡ Accepted }
    requires plain_len { length plain.old ≡ most_bytes }
    ensures { LeftBy (decode_draft draft.now) plain.old plain.new result }
{
    let mut table = [[0u64; 5]; draft_table::MOST];
    let mut sets = [[0u64; 5]; draft_table::MOST];
    match draft_gathering::gather(draft, &mut table, &mut sets) {
        Some(n) => {
            let source = Source {
                draft,
                table: &table,
                sets: &sets,
                n,
            };
            Ok(write(source, plain))
        }
        None => Err(Refusal::Large),
    }
}

// Writes the plain score, and says how many bytes it has.
fn write(source: Source, plain: &mut [u8]) -> usize
    requires plain_len { length plain.old ≡ most_bytes }
    ensures plain_after { plain.new ≡ score_bytes (plain_of (decode_draft source.entry.draft.now)) ++ drop (length (score_bytes (plain_of (decode_draft source.entry.draft.now)))) plain.old }
    ensures value { result ≡ length (score_bytes (plain_of (decode_draft source.entry.draft.now))) }
{
    let Source { draft, n, .. } = source;
    bits::put_word(
        plain,
        0,
        encoding::head_word(n.tokens + n.sets, n.copied, n.pairs - n.copied),
    );
    bits::put_word(plain, 1, words::word_at(draft, 1));
    draft_words::put_agents(plain, source);
    draft_words::put_procedures(plain, source);
    draft_rules::put_rules(plain, source);
    let rules = n.words - (2 + n.agents + n.procedures);
    4 * draft_rules::put_members(plain, 2 + n.pairs + rules, source)
}
