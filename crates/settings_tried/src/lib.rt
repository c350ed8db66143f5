// The settings of switches, tried from one state: how many end with each status.
#![tactic(auto)]

ghost use Rattle.std.specs.Prelude.{◌≡◌, [], ◌∷◌, ◌++◌, map, ◌≤◌, length};
ghost use Rattle.tcc.specs.Instant.{answer};
ghost use Rattle.format.specs.Decode.{decode};
ghost use Rattle.flags.specs.Flags.{set_of};
ghost use Rattle.settings_switches.specs.Switches.{most_switches};
ghost use Rattle.settings_tried.specs.Settings.{settings, counts};
ghost use Rattle.settings_tried.specs.Sums.{plus, AllFit};
ghost use Rattle.settings_tried.specs.Standing.{state_from};

use flags::{Agents, Tokens};
use instant_prepared::Prepared;
use std::ops::Add;

// How many settings end with each status: 0, 1 and 2.
#[derive(Clone, Copy, Default)]
pub struct Counts {
    pub quiet: usize,
    pub clashed: usize,
    pub aborted: usize,
}

impl Add for Counts {
    type Output = Counts;

    ghost can_add = { λ a b. AllFit (plus a b) };

    ghost add_gives = { λ a b sum. sum ≡ plus a b };

    fn add(self, rhs: Counts) -> Counts {
        Counts {
            quiet: self.quiet + rhs.quiet,
            clashed: self.clashed + rhs.clashed,
            aborted: self.aborted + rhs.aborted,
        }
    }
}

// Tries the settings in which the switches that are chosen already and exactly k of those left are pressed: those with the
// first one left, then those without it.
pub fn try_settings(
    prepared: &Prepared,
    running: bool,
    awake: &Agents,
    chosen: &mut Tokens,
    left: &[u8],
    k: usize,
) -> Counts
    requires { length left.now ≤ most_switches }
    ensures value { result ≡ counts (decode prepared.now.bytes.now) (state_from running awake.now) (map (λ s. set_of chosen.old ++ s) (settings k left.now)) }
    ensures chosen_unchanged { chosen.new ≡ chosen.old }
{
    if k == 0 {
        return try_setting(prepared, running, awake, chosen);
    }
    match left.split_first() {
        Some((first, others)) if k <= left.len() => {
            let token = usize::from(*first);
            let was = chosen[token];
            chosen[token] = true;
            let with = try_settings(prepared, running, awake, chosen, others, k - 1);
            chosen[token] = was;
            let without = try_settings(prepared, running, awake, chosen, others, k);
            with + without
        }
        _ => Counts::default(),
    }
}

// Tries one setting.
fn try_setting(prepared: &Prepared, running: bool, awake: &Agents, pressed: &Tokens) -> Counts
    ensures { result ≡ counts (decode prepared.now.bytes.now) (state_from running awake.now) (set_of pressed.now ∷ []) }
{
    let status = status_in(prepared, running, awake, pressed);
    Counts {
        quiet: usize::from(status == 0),
        clashed: usize::from(status == 1),
        aborted: usize::from(status == 2),
    }
}

// The status with which a setting ends: an aborted score stays aborted.
fn status_in(prepared: &Prepared, running: bool, awake: &Agents, pressed: &Tokens) -> usize
    ensures { result ≡ (answer (decode prepared.now.bytes.now) (state_from running awake.now) (set_of pressed.now)).status }
{
    if running {
        instant_engine::try_instant(prepared, awake, pressed).status
    } else {
        2
    }
}
