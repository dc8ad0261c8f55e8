//! What is kept of values for one reduction, and how more is put to it.
ghost use Rattle.std.specs.Prelude.{◌≡◌, ◌+◌, ◌<◌, ◌≤◌, ℕ, nat_lt, OnOk, OnErr, IfOk, IsOkUnless, Some};
ghost use Rattle.morsel_meaning.specs.Values.{IsOfType};
ghost use Rattle.morsel_frame.specs.Cells.{value_of};
ghost use Rattle.morsel_frame.specs.Refusals.{Refuses};
ghost use Rattle.morsel_keys.specs.Accs.{op_of, kept_entry, kept_if, KeepsKind};
ghost use Rattle.morsel_keys.specs.Groups.{both_parts};
ghost use Rattle.morsel_keys.specs.Reductions.{input_place, one_entry, plus_entries, sum_fault, len_limit};

use crate::Reduction;
use crate::cells::{added, is_greater, is_less, lent, owned};
use morsel_frame::Cell;
use morsel_meaning::{ColType, ComputeKind, Fault, QUERY_FILE, Value};
use std::alloc::Global;

/// What is kept of values for one reduction, beside how many there are.
#[derive(Drop)]
pub enum Kept {
    Len,
    /// The total. So many numbers of 64 bits as are counted do not pass 128.
    Sum(i128),
    Min(Value),
    Max(Value),
    /// The two parts of the value's place, and the value.
    First(u64, u64, Value),
    Last(u64, u64, Value),
}

/// What is kept of no values.
pub fn blank(op: Reduction, kind: ColType) -> Kept
    requires { op ≡ Reduction.Sum → kind ≡ ColType.Int }
    ensures op { op_of result ≡ op }
    ensures fits { KeepsKind kind 0 result }
{
    match op {
        Reduction::Len => Kept::Len,
        Reduction::Sum => Kept::Sum(0),
        Reduction::Min => Kept::Min(Value::Null),
        Reduction::Max => Kept::Max(Value::Null),
        Reduction::First => Kept::First(0, 0, Value::Null),
        Reduction::Last => Kept::Last(0, 0, Value::Null),
    }
}

/// Puts a value to what is kept of `len` others.
pub fn keep(
    alloc: Global,
    kind: ColType,
    len: u64,
    kept: &mut Kept,
    value: Cell<'_>,
    place: (u64, u64),
) -> Result<(), Fault>
    requires within { len < len_limit }
    requires fits { KeepsKind kind len kept.old }
    requires of_type { IsOfType kind (value_of value) }
    ensures op { op_of kept.new ≡ op_of kept.old }
    ensures fits { OnOk result (KeepsKind kind (len + 1) kept.new) }
    ensures ok { OnOk result (Some (kept_entry (len + 1) kept.new) ≡ both_parts (plus_entries (op_of kept.old)) (kept_if len kept.old) (Some (one_entry (op_of kept.old) (record { at = input_place place.0 place.1; value = value_of value.entry })))) }
    ensures err { OnErr result (kept.new ≡ kept.old) }
    ensures out_of_memory { IsOkUnless result Fault.OutOfMemory }
{
    match kept {
        Kept::Len => {}
        Kept::Sum(total) => *total += i128::from(added(value)),
        Kept::Min(least) => {
            if is_less(kind, value, least) {
                *least = owned(alloc, value)?;
            }
        }
        Kept::Max(greatest) => {
            if is_greater(kind, value, greatest) {
                *greatest = owned(alloc, value)?;
            }
        }
        Kept::First(number, arrival, first) => {
            if len == 0 || is_earlier(place, (*number, *arrival)) {
                *first = owned(alloc, value)?;
                *number = place.0;
                *arrival = place.1;
            }
        }
        Kept::Last(number, arrival, last) => {
            if len == 0 || !is_earlier(place, (*number, *arrival)) {
                *last = owned(alloc, value)?;
                *number = place.0;
                *arrival = place.1;
            }
        }
    }
    Ok(())
}

/// Whether a place comes before another.
fn is_earlier(place: (u64, u64), than: (u64, u64)) -> bool
    ensures { result ≡ nat_lt (input_place place.0 place.1) (input_place than.0 than.1) }
{
    place.0 < than.0 || place.0 == than.0 && place.1 < than.1
}

/// Puts what is kept of `more` values to what is kept of `len` others.
pub fn join(kind: ColType, len: u64, kept: &mut Kept, more: u64, other: Kept)
    requires within { len + more ≤ len_limit }
    requires some { 0 < len }
    requires more { 0 < more }
    requires same_op { op_of kept.old ≡ op_of other }
    requires fits { KeepsKind kind len kept.old }
    requires other_fits { KeepsKind kind more other }
    ensures op { op_of kept.new ≡ op_of kept.old }
    ensures fits { KeepsKind kind (len + more) kept.new }
    ensures entry { kept_entry (len + more) kept.new ≡ plus_entries (op_of kept.old) (kept_entry len kept.old) (kept_entry more other) }
{
    match kept {
        Kept::Len => {}
        Kept::Sum(total) => match other {
            Kept::Sum(added) => *total += added,
            _ => unreachable!(),
        },
        Kept::Min(least) => match other {
            Kept::Min(value) => {
                if is_less(kind, lent(&value), least) {
                    *least = value;
                }
            }
            _ => unreachable!(),
        },
        Kept::Max(greatest) => match other {
            Kept::Max(value) => {
                if is_greater(kind, lent(&value), greatest) {
                    *greatest = value;
                }
            }
            _ => unreachable!(),
        },
        Kept::First(number, arrival, first) => match other {
            Kept::First(by, at, value) => {
                if is_earlier((by, at), (*number, *arrival)) {
                    *first = value;
                    *number = by;
                    *arrival = at;
                }
            }
            _ => unreachable!(),
        },
        Kept::Last(number, arrival, last) => match other {
            Kept::Last(by, at, value) => {
                if !is_earlier((by, at), (*number, *arrival)) {
                    *last = value;
                    *number = by;
                    *arrival = at;
                }
            }
            _ => unreachable!(),
        },
    }
}

/// A total as a value, where it is within 64 bits.
pub fn whole(total: i128) -> Result<Value, Fault>
    ensures ok { IfOk result (λ value. value ≡ Value.Int total) }
    ensures refused { Refuses (sum_fault total) result }
    ensures too_large { IsOkUnless result (Fault.ComputeError ComputeKind.SumTooLarge 4294967295 0) }
{
    match i64::try_from(total) {
        Ok(number) => Ok(Value::Int(number)),
        Err(_) => Err(Fault::ComputeError {
            kind: ComputeKind::SumTooLarge,
            file: QUERY_FILE,
            at: 0,
        }),
    }
}
