// The store of an instant as 256 flags: closed under the rules and the clash, in at most 257 passes.
#![tactic(auto)]

ghost use Rattle.std.specs.Prelude.{◌≡◌, false, ◌≤◌};
ghost use Rattle.tcc.specs.Store.{closure};
ghost use Rattle.format.specs.Decode.{decode};
ghost use Rattle.flags.specs.Flags.{set_of, flags_of};
ghost use Rattle.instant_store.specs.PassBound.{PassCount};
ghost use Rattle.instant_store.specs.Passes.{HasFacts, adds, Passed, Repeated, Flooded};

use flags::Tokens;
use instant_prepared::Prepared;

// Closes a store under the rules and the clash; returns how many passes over the rules there were.
pub fn closed(prepared: &Prepared, store: &mut Tokens) -> u16
    ensures closes { store.new ≡ flags_of 256 (closure (decode prepared.now.bytes.now) (set_of store.old)) }
    ensures counts { PassCount (decode prepared.now.bytes.now).rules store.old result }
{
    let passes = close_rules(prepared, store);
    if store[0] {
        flood(prepared.tokens(), store);
    }
    passes
}

// Passes over the rules until one adds nothing; returns how many there were. The first takes up the standing facts, so that
// the others need not look for them.
fn close_rules(prepared: &Prepared, store: &mut Tokens) -> u16
    ensures { Repeated (decode prepared.now.bytes.now) store.old store.new result }
{
    let mut passes: u16 = 0;
    loop {
        let added = rule_pass(prepared, passes == 0, store);
        passes += 1;
        if added == 0 {
            break;
        }
    }
    passes
}

// One pass over the rules; returns how many tokens it added. Where facts are not looked for, they are in already.
fn rule_pass(prepared: &Prepared, facts: bool, store: &mut Tokens) -> usize
    requires { facts ≡ false → HasFacts (decode prepared.now.bytes.now) store.old }
    ensures { Passed (decode prepared.now.bytes.now) store.old store.new result }
{
    let s = prepared.bytes;
    let from = 2 + prepared.agents() + prepared.procedures();
    let count = words::word_count(s);
    let mut added = 0;
    for k in from..count {
        let w = words::word_at(s, k);
        if adds_token(store, w, facts) {
            let token = format::number(w, 0, 8);
            store[token] = true;
            added += 1;
        }
    }
    added
}

// Whether a word adds its conclusion to a store, read as a rule with two premises or, if facts are looked for, as a fact.
fn adds_token(store: &Tokens, w: u32, facts: bool) -> bool
    ensures { result ≡ adds store.now w facts }
{
    let token = format::number(w, 0, 8);
    if store[token] {
        return false;
    }
    let first = format::number(w, 8, 8);
    if store[first] {
        let second = format::number(w, 16, 8);
        if store[second] {
            return true;
        }
    }
    facts & format::is_fact(w)
}

// Sets the first flags of a store.
fn flood(tokens: usize, store: &mut Tokens)
    requires { tokens ≤ 256 }
    ensures { Flooded tokens store.old store.new }
{
    store[..tokens].fill(true);
}
