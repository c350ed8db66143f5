// The count of settings over lent buffers, numbers 1 to 9 and 17.
#![tactic(auto)]

ghost use Rattle.settings_call.specs.SettingsCall.{SettingsCall};

use instant_state::Standing;
use refusals::Refusal;
use settings_tried::Counts;

// What a call that counts settings answers: how many settings end with each status.
pub type Reply = Result<Counts, Refusal>;

// Counts how the settings of exactly k switches end, each tried from the same state.
pub fn call(score: &[u8], state: &[u8], switches: &[u8], k: u32) -> Reply
    ensures { SettingsCall score.now state.now switches.now k result }
{
    check_score::check(score)?;
    if state.len() != lent::STATE_BYTES {
        return Err(Refusal::Lengths);
    }
    let prepared = instant_prepared::prepare(score);
    if lent::state_fault(state, prepared.agents()) {
        return Err(Refusal::State);
    }
    let pressed = k as usize;
    if settings_switches::switch_fault(switches, prepared.tokens()) || switches.len() < pressed {
        return Err(Refusal::Switches);
    }
    let Standing { running, awake } = instant_state::standing_in(state);
    let mut chosen = [false; 256];
    Ok(settings_tried::try_settings(&prepared, running, &awake, &mut chosen, switches, pressed))
}
