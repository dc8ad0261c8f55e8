//! The greatest of the values that are held.
ghost use Rattle.std.specs.Prelude.{◌≡◌, IfSome, IsNone, None, slice_set};
ghost use Rattle.morsel_merge.specs.Merging.{AreNone, IsGreatest};

use std::cmp::Ordering;

/// The lane that holds the greatest value, and the value.
fn greatest<T: Ord>(held: &[Option<T>]) -> Option<(usize, &T)>
    ensures greatest { IfSome result (λ found. IsGreatest T.cmp held.now found.0 found.1.now) }
    ensures none { IsNone result → AreNone held.now }
{
    let mut best: Option<(usize, &T)> = None;
    for (lane, held) in held.iter().enumerate() {
        if let Some(value) = held {
            match best {
                Some((_, most)) if value.cmp(most) != Ordering::Greater => {}
                _ => best = Some((lane, value)),
            }
        }
    }
    best
}

/// Takes the greatest value that is held, with its lane.
pub fn take_greatest<T: Ord + Drop>(held: &mut [Option<T>]) -> Option<(usize, T)>
    ensures greatest { IfSome result (λ found. IsGreatest T.cmp held.old found.0 found.1) }
    ensures taken { IfSome result (λ found. held.new ≡ slice_set held.old found.0 None) }
    ensures none { IsNone result → AreNone held.old }
    ensures same { IsNone result → held.new ≡ held.old }
{
    let (lane, _) = greatest(held)?;
    let value = held[lane].take()?;
    Some((lane, value))
}
