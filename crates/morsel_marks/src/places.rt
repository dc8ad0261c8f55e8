//! The places of the bits of a number that are set, written one after the other.
ghost use Rattle.std.specs.Prelude.{◌≡◌, ◌+◌, ◌<◌, ◌≤◌, ◌++◌, ℕ, length, take};
ghost use Rattle.morsel_marks.specs.Marks.{set_places};

/// How many places are written before the count of what is left is looked at again.
const GROUP: usize = 6;

/// Writes the place of the lowest bit that is set, and gives the others; without one, what is written says nothing.
#[inline(always)]
fn put_lowest(out: &mut [u32], to: usize, at: usize, bits: u64) -> u64
    requires room { to < length out.now }
    requires fits { at + 64 < 4294967296 }
    ensures kept { length out.new ≡ length out.old }
    ensures some { 0 < bits → take (to + 1) out.new ++ set_places 64 at result ≡ take to out.old ++ set_places 64 at bits }
    ensures none { bits ≡ 0 → result ≡ 0 }
    ensures front { (n : ℕ) → n ≤ to → take n out.new ≡ take n out.old }
{
    out[to] = at as u32 + bits.trailing_zeros();
    bits & bits.wrapping_sub(1)
}

/// Writes the places of the bits that are set after the first `count` places, and gives the new count.
///
/// They are written in groups: what stands after the new count says nothing.
#[inline(always)]
pub fn put_places(out: &mut [u32], count: usize, at: usize, bits: u64) -> usize
    requires room { count + 72 ≤ length out.now }
    requires fits { at + 64 < 4294967296 }
    ensures within { result ≤ count + 64 }
    ensures kept { length out.new ≡ length out.old }
    ensures places { take result out.new ≡ take count out.old ++ set_places 64 at bits }
{
    let next = count + bits.count_ones() as usize;
    let mut left = bits;
    let mut to = count;
    while to < next {
        for i in 0..GROUP {
            left = put_lowest(out, to + i, at, left);
        }
        to += GROUP;
    }
    next
}
