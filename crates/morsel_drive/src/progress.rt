//! How far a run has come, and when it is given up.
ghost use Rattle.std.specs.Prelude.{◌≡◌, ℕ, ◌+◌, ◌*◌, ◌<◌, ◌≤◌};
ghost use Rattle.morsel_drive.specs.Sweeping.{counted_rows};

use crate::written::Written;

/// How many sweeps in a row may bring a run no further.
pub const IDLE_SWEEPS: u64 = 512;

/// What brings a run further.
#[derive(Clone, Copy, Debug, PartialEq, Eq)]
pub enum Progress {
    /// A byte more was given, or has all its rows written.
    Bytes,
    /// That, or a row more was written: where a byte may give very many rows, as that of a row that finds many in a join.
    Rows,
}

/// How far a run has come, and how many sweeps ago.
#[derive(Clone, Copy, Debug)]
pub struct Reached {
    /// The furthest place: how many bytes were given, how many of those have all rows written, and, where they count, how many rows
    /// were written, together.
    pub furthest: u64,
    /// How many sweeps in a row did not bring the run further.
    pub idle: u64,
}

/// How far a run has come that was given so many bytes.
pub fn place_reached(progress: Progress, given: u64, written: &Written) -> u64
    ensures at_most { result ≤ given + written.now.next + counted_rows progress written.now.rows }
{
    let bytes = given.saturating_add(written.next);
    match progress {
        Progress::Bytes => bytes,
        Progress::Rows => bytes.saturating_add(written.rows),
    }
}

/// How far a run has come after a sweep more, which brought it to this place.
pub fn after_sweep(place: u64, before: Reached) -> Reached
    requires going_on { before.idle < 512 }
    ensures counted { 512 * before.furthest + before.idle + 1 ≤ 512 * result.furthest + result.idle }
    ensures idle { result.idle ≤ 512 }
    ensures within { (size : ℕ) → place ≤ size → before.furthest ≤ size → result.furthest ≤ size }
{
    if place > before.furthest {
        return Reached {
            furthest: place,
            idle: 0,
        };
    }
    Reached {
        furthest: before.furthest,
        idle: before.idle + 1,
    }
}
