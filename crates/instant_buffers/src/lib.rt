// The buffers of an instant call: their lengths, and an answer handed over to them.
#![tactic(auto)]

ghost use Rattle.std.specs.Prelude.{◌≡◌, cond, ◌||◌, not, eqb};
ghost use Rattle.format.specs.Decode.{sizes, decode};
ghost use Rattle.lent.specs.Lengths.{state_bytes, map_bytes, scratch_bytes};
ghost use Rattle.lent.specs.States.{running_word, aborted_word};
ghost use Rattle.instant_buffers.specs.HandedOver.{Buffers, Known, HandedOver};

use instant_engine::Outcome;
use instant_prepared::Prepared;

// Whether a buffer has another length than it should.
pub fn wrong_length(state: usize, input: usize, store: usize, output: usize, scratch: usize) -> bool
    ensures { result ≡ (not (eqb state state_bytes) || not (eqb input map_bytes) || not (eqb store map_bytes) || not (eqb output map_bytes) || not (eqb scratch scratch_bytes)) }
{
    (state != lent::STATE_BYTES)
        | (input != lent::MAP_BYTES)
        | (store != lent::MAP_BYTES)
        | (output != lent::MAP_BYTES)
        | (scratch != lent::SCRATCH_BYTES)
}

// Writes an answer: the next state with its number, the store and what goes to the ports.
pub fn hand_over(
    prepared: &Prepared,
    outcome: Outcome,
    number: u32,
    state: &mut [u8],
    store: &mut [u8],
    output: &mut [u8],
)
    requires buffers { Buffers state.old store.old output.old }
    requires known { Known (sizes prepared.now.bytes.now) outcome }
    ensures { HandedOver (decode prepared.now.bytes.now) outcome number state.new store.new output.new }
{
    let held = outcome.store;
    let awake = outcome.awake;
    let first = first_word(outcome.status);
    lent::write_state(state, first, prepared.agents(), awake, number);
    lent_maps::write_map(store, prepared.tokens(), held);
    let out = instant_state::sent(prepared.bytes, outcome.status, held);
    lent_maps::write_map(output, prepared.tokens(), out);
}

// Word 0 of the state after an answer.
fn first_word(status: usize) -> u32
    ensures { result ≡ cond (eqb status 2) aborted_word running_word }
{
    if status == 2 {
        lent::ABORTED
    } else {
        lent::RUNNING
    }
}
