// The agents of a plain score.
ghost use Rattle.std.specs.Prelude.{◌≡◌, ◌<◌};
ghost use mathlib.Core.List.{Memᴰ};
ghost use Rattle.tcc.specs.declared.Agent.TheVariants.{Next, Unless, Call};
ghost use Rattle.draft_language.specs.Draft.{draft_agent_at};
ghost use Rattle.draft_language.specs.declared.DraftAgent.TheVariants.{Plain};
ghost use Rattle.draft_pairs.specs.Pairs.{number_in, set_in, index_of};
ghost use Rattle.draft_pairs.specs.Rows.{row_value};
ghost use Rattle.draft_plain.specs.Places as places;
ghost use Rattle.draft_plain.specs.Plain.{agent_in, plain_agent};
ghost use Rattle.draft_format.specs.DraftFile.{decode_draft};
ghost use Rattle.draft_gathering.specs.Gathered.{agents_in, procedures_in, sets_in};

use draft_gathering::Source;
use draft_language::DraftAgent;
use draft_pairs::Row;
use tcc::Agent;

// Where the agent stands that a reference leads to under the set of a pair.
pub fn stands_at(source: Source, row: Row, reference: usize) -> usize
    requires reference_lt_agents { reference < source.n.agents }
    requires fact { Memᴰ (places.target (decode_draft source.draft.now) reference (set_in (row_value row))) (agents_in source.draft.now) }
    ensures { result ≡ index_of (places.target (decode_draft source.entry.draft.now) reference (set_in (row_value row))) (agents_in source.entry.draft.now) }
{
    let Source {
        draft,
        table,
        n,
        ..
    } = source;
    draft_table::place(
        table,
        n.pairs,
        draft_copying::targets::target(draft, reference, row),
    )
}

// The agent of a pair.
pub fn plain_agent(source: Source, row: Row) -> Agent
    requires fact { Memᴰ (row_value row) (agents_in source.draft.now) }
    ensures { result ≡ plain_agent (decode_draft source.entry.draft.now) (agents_in source.entry.draft.now) (procedures_in source.entry.draft.now) (sets_in source.entry.draft.now) (set_in (row_value row)) (agent_in (decode_draft source.entry.draft.now) (row_value row)) }
{
    let DraftAgent::Plain(agent) = draft_format::draft_agent_at(
        source.draft,
        draft_pairs::number_of(row),
    ) else {
        return Agent::Skip;
    };
    match agent {
        Agent::Skip => Agent::Skip,
        Agent::Abort => Agent::Abort,
        Agent::Tell(token) => Agent::Tell(token),
        Agent::Parallel(first, second) => {
            let a = stands_at(source, row, first);
            let b = stands_at(source, row, second);
            Agent::Parallel(a, b)
        }
        Agent::When(token, body) => Agent::When(token, stands_at(source, row, body)),
        Agent::Next(body) => plain_next(source, row, body),
        Agent::Unless(token, body) => plain_unless(source, row, token, body),
        Agent::Call(procedure) => plain_call(source, row, procedure),
    }
}

// A next of a pair: an unless where the pair has tokens.
fn plain_next(source: Source, row: Row, body: usize) -> Agent
    requires fact { Memᴰ (row_value row) (agents_in source.draft.now) }
    requires row_value { draft_agent_at (decode_draft source.draft.now) (number_in (row_value row)) ≡ Plain (Next body) }
    ensures { result ≡ plain_agent (decode_draft source.entry.draft.now) (agents_in source.entry.draft.now) (procedures_in source.entry.draft.now) (sets_in source.entry.draft.now) (set_in (row_value row)) (Next body) }
{
    let Source { sets, n, .. } = source;
    let b = stands_at(source, row, body);
    let under_no_set = draft_pairs::token_count(row, n.tokens) == 0;
    if under_no_set {
        return Agent::Next(b);
    }
    Agent::Unless(
        draft_gathering::asked::asked_token(row, n.tokens, sets, n.sets),
        b,
    )
}

// An unless of a pair: it asks for its own token together with those of the pair.
fn plain_unless(source: Source, row: Row, token: usize, body: usize) -> Agent
    requires fact { Memᴰ (row_value row) (agents_in source.draft.now) }
    requires row_value { draft_agent_at (decode_draft source.draft.now) (number_in (row_value row)) ≡ Plain (Unless token body) }
    ensures { result ≡ plain_agent (decode_draft source.entry.draft.now) (agents_in source.entry.draft.now) (procedures_in source.entry.draft.now) (sets_in source.entry.draft.now) (set_in (row_value row)) (Unless token body) }
{
    let Source { sets, n, .. } = source;
    let b = stands_at(source, row, body);
    let asked = draft_pairs::with_token(row, token);
    Agent::Unless(
        draft_gathering::asked::asked_token(asked, n.tokens, sets, n.sets),
        b,
    )
}

// A call of a pair: of the procedure under the same set.
fn plain_call(source: Source, row: Row, procedure: usize) -> Agent
    requires fact { Memᴰ (row_value row) (agents_in source.draft.now) }
    requires row_value { draft_agent_at (decode_draft source.draft.now) (number_in (row_value row)) ≡ Plain (Call procedure) }
    ensures { result ≡ plain_agent (decode_draft source.entry.draft.now) (agents_in source.entry.draft.now) (procedures_in source.entry.draft.now) (sets_in source.entry.draft.now) (set_in (row_value row)) (Call procedure) }
{
    let Source { table, n, .. } = source;
    let called = draft_pairs::renumbered(row, draft_table::PROCEDURES + procedure);
    Agent::Call(draft_table::place(table, n.pairs, called) - n.copied)
}
