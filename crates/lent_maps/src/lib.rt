// Token maps as bytes, read to flags and written from them.
#![tactic(auto)]

ghost use Rattle.std.specs.Prelude.{◌≡◌, false, ℕ, ◌≤◌, length, get_or};
ghost use Rattle.flags.specs.Flags.{set_of, flags_of};
ghost use Rattle.lent.specs.Lengths.{map_bytes};
ghost use Rattle.lent_maps.specs.Maps.{tokens_in, map_of};

use flags::Tokens;

// The tokens in a map, as flags. Its likes in `lent` go over words behind a first one: what they share is in `bits`, and one
// function for both would be handed the width, the offset and how to read.
pub fn read_map(map: &[u8]) -> Tokens
    requires { length map.now ≡ map_bytes }
    ensures { result ≡ flags_of 256 (tokens_in map.now) }
{
    let mut flags = [false; 256];
    for (k, byte) in map.iter().enumerate() {
        if *byte != 0 {
            bits::spread(&mut flags, 8 * k, u32::from(*byte), 8);
        }
    }
    flags
}

// Writes a map: the tokens of a set, all of them below `tokens`.
pub fn write_map(map: &mut [u8], tokens: usize, set: Tokens)
    requires map_len { length map.old ≡ map_bytes }
    requires by_index { (i : ℕ) → tokens ≤ i → get_or set i false ≡ false }
    ensures { map.new ≡ map_of (set_of set) }
{
    // By a count that is known, which is unrolled: over `map.iter_mut()` a call takes 560 instructions more.
    for k in 0..32 {
        map[k] = bits::gather(&set, tokens, 8 * k, 8) as u8;
    }
}
