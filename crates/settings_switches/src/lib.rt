// A list of switches, number 17.
#![tactic(auto)]

ghost use Rattle.std.specs.Prelude.{◌≡◌};
ghost use Rattle.settings_switches.specs.Switches.{switch_fault};

// The most switches that may be listed.
pub const MOST: usize = 16;

// Whether there are too many switches, one is listed twice, or one is no token of the score.
pub fn switch_fault(switches: &[u8], tokens: usize) -> bool
    ensures { result ≡ switch_fault tokens switches.now }
{
    if MOST < switches.len() {
        return true;
    }
    let mut found = false;
    for (i, token) in switches.iter().enumerate() {
        found |= tokens <= usize::from(*token) || switches[i + 1..].contains(token);
    }
    found
}
