// Rows 4 to 6 of the score check at one word.
#![tactic(auto)]

ghost use Rattle.std.specs.Prelude.{◌≡◌, ◌+◌, ◌<◌, cond, leb};
ghost use Rattle.tcc.specs.Limits.{most_agents};
ghost use Rattle.check_verdicts.specs.Verdict.{Accepted, Token, Reference};
ghost use Rattle.check_words.specs.WordFaults.{ports_verdict, agent_verdict, root_verdict, rule_verdict};

use check_verdicts::{Fault, Verdict};
use format::Sizes;
use tcc::Agent;

// Word k, as the ports.
pub fn ports_verdict(sizes: Sizes, k: usize, w: u32) -> Verdict
    ensures { result ≡ ports_verdict sizes k w }
{
    if !format::is_word(w, 11, 16) {
        return Err(Fault::Form(k));
    }
    let lowest = format::number(w, 0, 8);
    let highest = format::number(w, 8, 8);
    token_verdict(sizes, k, lowest)?;
    token_verdict(sizes, k, highest)?;
    if highest < lowest {
        return Err(Fault::Reference(k));
    }
    Ok(())
}

// Agent i, its word taken apart.
pub fn agent_verdict(sizes: Sizes, i: usize, decoded: Option<Agent>) -> Verdict
    requires { i < most_agents }
    ensures { result ≡ agent_verdict sizes i decoded }
{
    let k = 2 + i;
    match decoded.ok_or(Fault::Form(k))? {
        Agent::Skip | Agent::Abort => Ok(()),
        Agent::Tell(token) => token_verdict(sizes, k, token),
        Agent::Parallel(first, second) => {
            reference_verdict(k, first, i)?;
            reference_verdict(k, second, i)
        }
        Agent::When(token, body) | Agent::Unless(token, body) => {
            token_verdict(sizes, k, token)?;
            reference_verdict(k, body, i)
        }
        Agent::Next(body) => reference_verdict(k, body, i),
        Agent::Call(procedure) => reference_verdict(k, procedure, sizes.procedures),
    }
}

// Word k, as a procedure.
pub fn root_verdict(sizes: Sizes, k: usize, w: u32) -> Verdict
    ensures { result ≡ root_verdict sizes k w }
{
    if !format::is_word(w, 3, 10) {
        return Err(Fault::Form(k));
    }
    reference_verdict(k, format::number(w, 0, 10), sizes.agents)
}

// Word k, as a rule.
pub fn rule_verdict(sizes: Sizes, k: usize, w: u32) -> Verdict
    ensures { result ≡ rule_verdict sizes k w }
{
    if !format::is_rule(w) {
        return Err(Fault::Form(k));
    }
    token_verdict(sizes, k, format::number(w, 0, 8))?;
    if format::is_fact(w) {
        return Ok(());
    }
    token_verdict(sizes, k, format::number(w, 8, 8))?;
    token_verdict(sizes, k, format::number(w, 16, 8))
}

// Word k, which names a token.
fn token_verdict(sizes: Sizes, k: usize, token: usize) -> Verdict
    ensures { result ≡ cond (leb sizes.tokens token) (Token k) Accepted }
{
    if token < sizes.tokens {
        Ok(())
    } else {
        Err(Fault::Token(k))
    }
}

// Word k, which refers to one of so many agents or procedures.
fn reference_verdict(k: usize, number: usize, count: usize) -> Verdict
    ensures { result ≡ cond (leb count number) (Reference k) Accepted }
{
    if number < count {
        Ok(())
    } else {
        Err(Fault::Reference(k))
    }
}
