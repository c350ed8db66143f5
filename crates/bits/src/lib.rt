// Bits as flags: spread from a word, gathered to one, looked at from a number on; a word put into bytes.
#![tactic(auto)]

ghost use Rattle.std.specs.Prelude.{◌≡◌, false, not, [], ◌∷◌, ◌++◌, ℕ, ◌+◌, ◌*◌, ◌-◌, ◌/◌, ◌^◌, ◌≤◌, length, replicate, get_or, take, drop, eqb, leb};
ghost use Rattle.laws.specs.Sets.{any};
ghost use Rattle.flags.specs.Flags.{set_of};
ghost use Rattle.bits.specs.Bits.{bits_value, bytes_of};
ghost use Rattle.bits.specs.Spread.{Spread};

// Clears a buffer.
pub fn clear(bytes: &mut [u8])
    ensures { bytes.new ≡ replicate (length bytes.old) 0 }
{
    bytes.fill(0);
}

// Spreads the lowest bits of a word over the flags from a base on.
pub fn spread(flags: &mut [bool], base: usize, w: u32, count: usize)
    requires count_bound { count ≤ 32 }
    requires count_in_bounds { base + count ≤ length flags.old }
    ensures { Spread base count w flags.old flags.new }
{
    for (j, flag) in flags[base..base + count].iter_mut().enumerate() {
        *flag = words::bits(w, j as u32, 1) == 1;
    }
}

// The number whose bits are the flags from a base on; no flag is set from `bound` on.
pub fn gather(flags: &[bool], bound: usize, base: usize, count: usize) -> u32
    requires count_bound { count ≤ 32 }
    requires count_in_bounds { base + count ≤ length flags.now }
    requires by_index { (i : ℕ) → bound ≤ i → get_or flags.now i false ≡ false }
    ensures { result ≡ bits_value (λ j. get_or flags.now (base + j) false) count }
{
    if bound <= base {
        return 0;
    }
    let mut w: u32 = 0;
    for (j, flag) in flags[base..base + count].iter().enumerate() {
        w |= u32::from(*flag) << j;
    }
    w
}

// Puts word i of a slice of bytes.
pub fn put_word(bytes: &mut [u8], i: usize, w: u32)
    requires { 4 * i + 4 ≤ length bytes.old }
    ensures { bytes.new ≡ take (4 * i) bytes.old ++ bytes_of (w ∷ []) ++ drop (4 * i + 4) bytes.old }
{
    let at = 4 * i;
    bytes[at..at + 4].copy_from_slice(&w.to_le_bytes());
}

// Whether a word has a bit from a number on, its own bits being numbered from a base on.
pub fn bit_from(w: u32, base: usize, from: usize) -> bool
    ensures { result ≡ not (eqb (w / 2 ^ (from - base)) 0) }
{
    let lowest = from.saturating_sub(base);
    lowest < 32 && w >> lowest != 0
}

// Whether a flag from a number on is set.
pub fn any_from(flags: &[bool], from: usize) -> bool
    ensures { result ≡ any (λ i. leb from i) (set_of flags.now) }
{
    let mut found = false;
    if let Some(rest) = flags.get(from..) {
        for flag in rest {
            found |= *flag;
        }
    }
    found
}
