// What a reference of a draft leads to, through watches, and what an agent refers to.
ghost use Rattle.std.specs.Prelude.{◌≡◌, ◌<◌};
ghost use Rattle.format.specs.Decode.{sizes};
ghost use Rattle.draft_pairs.specs.Pairs.{set_in};
ghost use Rattle.draft_pairs.specs.Rows.{row_value};
ghost use Rattle.draft_plain.specs.Places as places;
ghost use Rattle.draft_format.specs.DraftFile.{decode_draft};
ghost use Rattle.draft_format.specs.Translatable.{Translatable};
ghost use Rattle.draft_copying.specs.Referring.{references_of};

use draft_language::DraftAgent;
use draft_pairs::Row;
use tcc::Agent;

// What an agent refers to.
#[derive(Clone, Copy)]
pub enum References {
    Nothing,
    Body(usize),
    Halves(usize, usize),
    Procedure(usize),
}

// The pair that a reference leads to under the set of a pair: through watches, each of which adds its token.
pub fn target(draft: &[u8], reference: usize, under: Row) -> Row
    requires translatable { Translatable draft.now }
    requires reference_bound { reference < (sizes draft.now).agents }
    ensures { row_value result ≡ places.target (decode_draft draft.now) reference (set_in (row_value under)) }
{
    let mut i = reference;
    let mut row = under;
    while let DraftAgent::Watch(token, body) = draft_format::draft_agent_at(draft, i) {
        // By a local: a call's result in the place of an array that the loop keeps gets no proof.
        let added = draft_pairs::with_token(row, token);
        row = added;
        i = body;
    }
    draft_pairs::renumbered(row, i)
}

// What an agent that is no watch refers to.
pub fn references_of(written: DraftAgent) -> References
    ensures { result ≡ references_of written }
{
    let DraftAgent::Plain(agent) = written else {
        return References::Nothing;
    };
    match agent {
        Agent::Skip | Agent::Abort | Agent::Tell(_) => References::Nothing,
        Agent::Parallel(first, second) => References::Halves(first, second),
        Agent::When(_, body) | Agent::Next(body) | Agent::Unless(_, body) => References::Body(body),
        Agent::Call(procedure) => References::Procedure(procedure),
    }
}
