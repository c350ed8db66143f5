// What an instant comes to, read off its marks: whether it aborts, the agents reduced, in the scratch, and those awake next.
#![tactic(auto)]

ghost use Rattle.std.specs.Prelude.{◌≡◌, ◌*◌, ◌<◌};
ghost use Rattle.laws.specs.Sets.{any};
ghost use Rattle.tcc.specs.Score.{agent_at};
ghost use Rattle.tcc.specs.Instant.{is_abort, leaves};
ghost use Rattle.format.specs.Decode.{sizes, decode};
ghost use Rattle.flags.specs.Flags.{set_of};
ghost use Rattle.lent.specs.Lengths.{no_scratch};
ghost use Rattle.instant_end.specs.Ended.{fate_of, flagged, Read, Parted, Ended};

use flags::{Agents, Tokens};
use instant_prepared::Prepared;
use tcc::Agent;

// What a live agent comes to.
#[derive(Clone, Copy)]
enum Fate {
    Aborts,
    Reduced,
    Stays,
}

// Reads the live agents once nothing can be added, and leaves a bit in the scratch for each that is reduced. Returns the
// agents awake next; none where one aborts.
pub fn end_of(
    prepared: &Prepared,
    live: &Agents,
    held: &Tokens,
    scratch: &mut [u8],
) -> Option<Agents>
    requires { scratch.old ≡ no_scratch }
    ensures { Ended (decode prepared.now.bytes.now) (set_of live.now) (set_of held.now) scratch.new result }
{
    let mut awake = [false; 1024];
    for k in 0..prepared.agents().div_ceil(32) {
        let reduced = part_of(prepared, live, held, k, &mut awake)?;
        bits::put_word(scratch, k, reduced);
    }
    Some(awake)
}

// Reads the live agents among the 32 from agent 32 k on. Returns a bit for each that is reduced; none where one aborts.
fn part_of(
    prepared: &Prepared,
    live: &Agents,
    held: &Tokens,
    k: usize,
    awake: &mut Agents,
) -> Option<u32>
    requires k_bound { 32 * k < (sizes prepared.now.bytes.now).agents }
    requires read { Read (decode prepared.now.bytes.now) (set_of live.now) (set_of held.now) (32 * k) awake.old }
    ensures { Parted (decode prepared.now.bytes.now) (set_of live.now) (set_of held.now) k awake.new result }
{
    // A copy, for speed: through the reference its fields are read again at each agent.
    let score = *prepared;
    let from = 32 * k;
    let few = (score.agents() - from).min(32);
    let mut reduced: u32 = 0;
    for j in 0..few {
        if live[from + j] {
            match fate_of(&score, from + j, held, awake) {
                Fate::Aborts => return None,
                Fate::Reduced => reduced |= 1 << j,
                Fate::Stays => {}
            }
        }
    }
    Some(reduced)
}

// What live agent i comes to; the body that it leaves is awake.
fn fate_of(prepared: &Prepared, i: usize, held: &Tokens, awake: &mut Agents) -> Fate
    requires { i < (sizes prepared.now.bytes.now).agents }
    ensures value { result ≡ fate_of (set_of held.now) (agent_at (decode prepared.now.bytes.now) i) }
    ensures awake_after { awake.new ≡ flagged (leaves (set_of held.now) (agent_at (decode prepared.now.bytes.now) i)) awake.old }
{
    match prepared.agent_at(i) {
        Agent::Abort => Fate::Aborts,
        Agent::When(awaited, _) => {
            if held[awaited] {
                Fate::Reduced
            } else {
                Fate::Stays
            }
        }
        Agent::Next(body) => {
            awake[body] = true;
            Fate::Stays
        }
        Agent::Unless(token, next) => {
            if held[token] {
                Fate::Reduced
            } else {
                awake[next] = true;
                Fate::Stays
            }
        }
        _ => Fate::Reduced,
    }
}

// Whether a live agent aborts.
pub fn any_aborts(prepared: &Prepared, live: &Agents) -> bool
    ensures { result ≡ any (λ i. is_abort (agent_at (decode prepared.now.bytes.now) i)) (set_of live.now) }
{
    // A copy, for speed: through the reference its fields are read again at each agent.
    let score = *prepared;
    for i in (0..score.agents()).rev() {
        if live[i] && aborts(&score, i) {
            return true;
        }
    }
    false
}

// Whether agent i aborts.
fn aborts(prepared: &Prepared, i: usize) -> bool
    requires { i < (sizes prepared.now.bytes.now).agents }
    ensures { result ≡ is_abort (agent_at (decode prepared.now.bytes.now) i) }
{
    matches!(prepared.agent_at(i), Agent::Abort)
}
