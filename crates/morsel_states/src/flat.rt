//! What is kept for many groups, in one vector.
ghost use Rattle.std.specs.Prelude.{◌≡◌};
ghost use Rattle.morsel_states.specs.Numbers.{number_or_null};

use crate::bounds::BoundState;
use crate::lens::LenState;
use crate::picks::PickState;
use crate::sums::SumState;
use morsel_keys::Acc;
use morsel_meaning::{ComputeKind, Fault, QUERY_FILE, Value};

/// The most values that a group may have.
pub const LEN_LIMIT: u64 = 9_223_372_036_854_775_807;

/// What is kept for each group, at its number.
#[derive(Drop)]
pub enum Flat {
    Lens(Vec<LenState>),
    Sums(Vec<SumState>),
    /// The least or the greatest numbers.
    Bounds(Vec<BoundState>),
    /// The first or the last numbers.
    Picks(Vec<PickState>),
    Others(Vec<Acc>),
}

/// A group has too many values.
pub fn too_long() -> Fault
    ensures { result ≡ Fault.ComputeError ComputeKind.LenTooLarge 4294967295 0 }
{
    Fault::ComputeError {
        kind: ComputeKind::LenTooLarge,
        file: QUERY_FILE,
        at: 0,
    }
}

/// A number as a value, and null where there is none.
pub fn number_or_null(number: Option<i64>) -> Value
    ensures { result ≡ number_or_null number }
{
    match number {
        Some(number) => Value::Int(number),
        None => Value::Null,
    }
}
