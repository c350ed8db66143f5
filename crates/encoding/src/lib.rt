// A score written: the words of its head, its agents, its procedures and its rules, built by shifts.
#![tactic(auto)]

ghost use Rattle.std.specs.Prelude.{◌≡◌, ℕ, ◌+◌, ◌*◌, ◌^◌, ◌<◌, ◌≤◌};
ghost use mathlib.Core.List.{Memᴰ, [], ◌∷◌};
ghost use Rattle.tcc.specs.Limits.{most_tokens, most_agents, most_procedures};
ghost use Rattle.tcc.specs.Score.{tokens_of, parts_of, procedures_of};
ghost use Rattle.encoding.specs.Encode.{head_word, agent_word, root_word, rule_word};

use tcc::Agent;

// A word of a kind, with a value in its lowest bits and one from bit `at` on.
fn word_of(kind: u32, low: usize, at: u32, high: usize) -> u32
    requires kind_bound { kind < 16 }
    requires at_bound { at < 28 }
    requires low_bound { low < 2 ^ at }
    requires at_bound_2 { low + high * 2 ^ at < 2 ^ 28 }
    ensures { result ≡ kind * 2 ^ 28 + low + high * 2 ^ at }
{
    low as u32 | (high as u32) << at | kind << 28
}

// The head: the sizes less one, from the bits 0, 8 and 18 on.
pub fn head_word(tokens: usize, agents: usize, procedures: usize) -> u32
    requires le_tokens { 1 ≤ tokens }
    requires tokens_le_most_tokens { tokens ≤ most_tokens }
    requires le_agents { 1 ≤ agents }
    requires agents_le_most_agents { agents ≤ most_agents }
    requires le_procedures { 1 ≤ procedures }
    requires procedures_le_most_procedures { procedures ≤ most_procedures }
    ensures { result ≡ head_word tokens agents procedures }
{
    word_of(1, tokens - 1, 8, agents - 1 + (procedures - 1) * 1024)
}

// The word of an agent.
pub fn agent_word(agent: Agent) -> u32
    requires by_index { (t : ℕ) → Memᴰ t (tokens_of agent) → t < most_tokens }
    requires by_index_2 { (b : ℕ) → Memᴰ b (parts_of agent) → b < most_agents }
    requires by_index_3 { (p : ℕ) → Memᴰ p (procedures_of agent) → p < most_procedures }
    ensures { result ≡ agent_word agent }
{
    match agent {
        Agent::Skip => word_of(4, 0, 10, 0),
        Agent::Abort => word_of(4, 1, 10, 0),
        Agent::Tell(token) => word_of(5, token, 10, 0),
        Agent::Parallel(first, second) => word_of(6, first, 10, second),
        Agent::When(token, body) => word_of(7, body, 10, token),
        Agent::Next(body) => word_of(8, body, 10, 0),
        Agent::Unless(token, body) => word_of(9, body, 10, token),
        Agent::Call(procedure) => word_of(10, procedure, 10, 0),
    }
}

// The word of a procedure.
pub fn root_word(root: usize) -> u32
    requires { root < most_agents }
    ensures { result ≡ root_word root }
{
    word_of(3, root, 10, 0)
}

// The word of a rule with two premises.
pub fn rule_word(conclusion: usize, first: usize, second: usize) -> u32
    requires conclusion_lt_most_tokens { conclusion < most_tokens }
    requires first_lt_most_tokens { first < most_tokens }
    requires second_lt_most_tokens { second < most_tokens }
    ensures { result ≡ rule_word (record { premises = first ∷ second ∷ []; conclusion = conclusion }) }
{
    word_of(2, conclusion, 8, first + second * 256)
}

// The word of a rule with one premise, which stands in both fields.
pub fn member_word(conclusion: usize, member: usize) -> u32
    requires conclusion_lt_most_tokens { conclusion < most_tokens }
    requires member_lt_most_tokens { member < most_tokens }
    ensures { result ≡ rule_word (record { premises = member ∷ member ∷ []; conclusion = conclusion }) }
{
    rule_word(conclusion, member, member)
}

// The word of a fact, a rule without premises: bit 27 is set.
pub fn fact_word(conclusion: usize) -> u32
    requires { conclusion < most_tokens }
    ensures { result ≡ rule_word (record { premises = []; conclusion = conclusion }) }
{
    word_of(2, conclusion, 27, 1)
}
