// The bits of the agents reduced, in the scratch: counted and cleared.
#![tactic(auto)]

ghost use Rattle.std.specs.Prelude.{◌≡◌, ℕ, ◌≤◌, length, get_or};
ghost use Rattle.lent.specs.Lengths.{scratch_bytes};
ghost use Rattle.instant_count.specs.Tallied.{Tallied};

// How many agents have their bit in the scratch, which is cleared; no bit is set in the bytes from `used` on.
pub fn count_and_clear(scratch: &mut [u8], used: usize) -> usize
    requires scratch_len { length scratch.old ≡ scratch_bytes }
    requires used_le_scratch_bytes { used ≤ scratch_bytes }
    requires by_index { (k : ℕ) → used ≤ k → get_or scratch.old k 0 ≡ 0 }
    ensures { Tallied scratch.old scratch.new result }
{
    let mut count: u16 = 0;
    for byte in &mut scratch[..used] {
        count += byte.count_ones() as u16;
        *byte = 0;
    }
    usize::from(count)
}
