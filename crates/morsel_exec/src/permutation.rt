//! The numbers below a length, each once, in an order that a generator draws.
ghost use Rattle.std.specs.Prelude.{◌≡◌, ◌+◌, ◌*◌, ◌/◌, ◌%◌, ◌^◌, ◌<◌, ◌≤◌, [], ◌∷◌, MatchOption};
ghost use Rattle.std.specs.Iterator.{YieldsFirst, item_count};
ghost use Rattle.morsel_exec.specs.Permutation.{HasEachOnce, IsDrawn, IsLeastWidth, IsPlanned, four_drawn, mixed, moved_on, numbers_from, shift_of};

use rand_core::Rng;
use std::marker::Model;

/// What fixes the numbers: how many there are, that `2 ^ width` places are tried, and what was drawn.
#[derive(Clone, Copy)]
struct Plan {
    len: u32,
    width: u32,
    displace: u32,
    odd1: u32,
    odd2: u32,
    first: u32,
}

/// The numbers below a length that are still to come.
#[derive(Drop)]
pub struct Permutation {
    plan: Plan,
    place: u32,
}

impl Model for Permutation {
    ghost use Rattle.std.specs.Prelude.{ℕ, List};
    ghost use Rattle.morsel_exec.specs.Permutation.{IsPlanned, numbers_from};

    ghost Value = { List ℕ };

    ghost view = { λ p. numbers_from p.plan p.place };

    ghost invariant = { λ p. IsPlanned p.plan p.place };
}

/// The numbers below `len` in an order that four words of the generator fix.
pub fn random_permutation<R: Rng>(len: u32, rng: &mut R) -> Permutation
    requires { len ≤ 2 ^ 31 }
    ensures numbers { IsDrawn len (R.stream rng.old) result }
    ensures each_once { HasEachOnce len result }
    ensures drawn { R.stream rng.new ≡ four_drawn (R.stream rng.old) }
{
    let width = least_width(len);
    let displace = rng.next_u32();
    let odd1 = rng.next_u32() | 1;
    let odd2 = rng.next_u32() | 1;
    let first = part_of(len, rng.next_u32());
    Permutation {
        plan: Plan {
            len,
            width,
            displace,
            odd1,
            odd2,
            first,
        },
        place: 0,
    }
}

impl Iterator for Permutation {
    type Item = u32;

    ghost next_gives = { YieldsFirst (λ numbers. numbers) };

    ghost remaining = { item_count (λ numbers. numbers) };

    fn next(&mut self) -> Option<u32> {
        next_number(self.plan, &mut self.place)
    }
}

/// The next number, and the place after its own.
fn next_number(plan: Plan, place: &mut u32) -> Option<u32>
    requires planned { IsPlanned plan place.old }
    ensures planned { IsPlanned plan place.new }
    ensures number { MatchOption result
        ((numbers_from plan place.old ≡ []) × (numbers_from plan place.new ≡ []))
        (λ number. numbers_from plan place.old ≡ number ∷ numbers_from plan place.new) }
{
    let end = places(plan.width);
    for at in *place..end {
        let number = mix(plan, at);
        if number < plan.len {
            *place = at + 1;
            return Some(move_on(plan, number));
        }
    }
    *place = end;
    None
}

/// The number below `2 ^ width` to which a place goes.
fn mix(plan: Plan, place: u32) -> u32
    requires { plan.width ≤ 31 }
    ensures { result ≡ mixed plan place }
{
    let sum = place.wrapping_add(plan.displace);
    let product = sum.wrapping_mul(plan.odd1);
    let folded = product ^ (low_bits(product, plan.width) >> shift(plan.width));
    low_bits(folded.wrapping_mul(plan.odd2), plan.width)
}

/// A number below the length, moved on by what was drawn.
fn move_on(plan: Plan, number: u32) -> u32
    requires below { number < plan.len }
    requires short { plan.len ≤ 2 ^ 31 }
    requires moves_within { plan.first ≤ plan.len }
    ensures { result ≡ moved_on plan number }
{
    let sum = number + plan.first;
    if sum >= plan.len { sum - plan.len } else { sum }
}

/// The low bits of a word, as many as are asked.
fn low_bits(word: u32, width: u32) -> u32
    requires { width ≤ 31 }
    ensures { result ≡ word % 2 ^ width }
{
    word & (places(width) - 1)
}

/// The power of two that is so wide.
fn places(width: u32) -> u32
    requires { width ≤ 31 }
    ensures { result ≡ 2 ^ width }
{
    1 << width
}

/// By how many bits a place is shifted: half of them, and at least one, since a place shifted by none would be lost.
fn shift(width: u32) -> u32
    ensures { result ≡ shift_of width }
{
    (width / 2).max(1)
}

/// How many bits follow the first in the least power of two that is at least `len`.
fn least_width(len: u32) -> u32
    requires { len ≤ 2 ^ 31 }
    ensures least { IsLeastWidth len result }
    ensures narrow { result ≤ 31 }
{
    if len <= 1 {
        return 0;
    }
    (len - 1).ilog2() + 1
}

/// The part of `len` that a word is of 2^32, rounded down.
fn part_of(len: u32, word: u32) -> u32
    ensures part { result ≡ word * len / 2 ^ 32 }
    ensures within { result ≤ len }
{
    ((u64::from(word) * u64::from(len)) >> 32) as u32
}
