//! Accumulators: what a reduction says of values that come in parts.
ghost use Rattle.std.specs.Prelude.{◌≡◌, ◌+◌, ℕ, OnOk, OnErr, IfOk, IsOkUnless, Some, None};
ghost use Rattle.morsel_meaning.specs.Values.{IsOfType};
ghost use Rattle.morsel_frame.specs.Cells.{value_of};
ghost use Rattle.morsel_frame.specs.Refusals.{Refuses};
ghost use Rattle.morsel_keys.specs.Groups.{both_parts};
ghost use Rattle.morsel_keys.specs.Reductions.{input_place, one_entry, plus_entries, finished, entry_len, len_fault, total_fault, reduced_kind};
ghost use Rattle.morsel_keys.specs.Accs.{op_of, kept_if, KeepsValues};

use crate::Reduction;
use crate::kept::{Kept, blank, join, keep, whole};
use morsel_frame::Cell;
use morsel_meaning::{ColType, ComputeKind, Fault, QUERY_FILE, Value};
use std::alloc::Global;
use std::marker::Model;

/// The most values that a group may have.
const LEN_LIMIT: u64 = 9_223_372_036_854_775_807;

/// What a reduction has of values so far. They may come in any order, each with its place in the input: the number of its morsel, and the
/// number of its arrival there. No two values of one group have one place.
#[derive(Drop)]
pub struct Acc {
    alloc: Global,
    kind: ColType,
    len: u64,
    kept: Kept,
}

impl Model for Acc {
    ghost use Rattle.morsel_keys.specs.Reductions.{Reducing};

    ghost Value = { Reducing };

    ghost use Rattle.morsel_keys.specs.Accs.{op_of, kept_if, KeepsValues};

    ghost view = { λ acc. record { op = op_of acc.kept; kind = acc.kind; entry = kept_if acc.len acc.kept } };

    ghost invariant = { λ acc. KeepsValues acc.kind acc.len acc.kept };
}

impl Acc {
    /// No values of this type. A sum is of numbers.
    pub fn new(alloc: Global, op: Reduction, kind: ColType) -> Acc
        requires { op ≡ Reduction.Sum → kind ≡ ColType.Int }
        ensures { result ≡ record { op = op; kind = kind; entry = None } }
    {
        Acc {
            alloc,
            kind,
            len: 0,
            kept: blank(op, kind),
        }
    }

    /// One value more. A group of more than `i64::MAX` values is refused.
    pub fn update(&mut self, value: Cell<'_>, place: (u64, u64)) -> Result<(), Fault>
        requires { IsOfType self.old.kind (value_of value) }
        ensures ok { OnOk result (self.new ≡ record self.old { entry = both_parts (plus_entries self.old.op) self.old.entry (Some (one_entry self.old.op (record { at = input_place place.0 place.1; value = value_of value.entry }))) }) }
        ensures refused { Refuses (len_fault (entry_len self.old.entry + 1)) result }
        ensures err { OnErr result (self.new ≡ self.old) }
    {
        if self.len >= LEN_LIMIT {
            return Err(too_long());
        }
        keep(
            self.alloc,
            self.kind,
            self.len,
            &mut self.kept,
            value,
            place,
        )?;
        self.len += 1;
        Ok(())
    }

    /// The other's values too. A group of more than `i64::MAX` values is refused. It takes no memory.
    pub fn combine(&mut self, other: Acc) -> Result<(), Fault>
        requires same_op { other.op ≡ self.old.op }
        requires same_kind { other.kind ≡ self.old.kind }
        ensures ok { OnOk result (self.new ≡ record self.old { entry = both_parts (plus_entries self.old.op) self.old.entry other.entry }) }
        ensures refused { Refuses (len_fault (entry_len self.old.entry + entry_len other.entry)) result }
        ensures too_long { IsOkUnless result (Fault.ComputeError ComputeKind.LenTooLarge 4294967295 0) }
        ensures err { OnErr result (self.new ≡ self.old) }
    {
        let (more, kept) = other.into_parts();
        if more > LEN_LIMIT - self.len {
            return Err(too_long());
        }
        if more == 0 {
            return Ok(());
        }
        if self.len == 0 {
            self.kept = kept;
            self.len = more;
            return Ok(());
        }
        join(self.kind, self.len, &mut self.kept, more, kept);
        self.len += more;
        Ok(())
    }

    /// What the reduction says of the values. A sum is refused where the whole total is outside 64 bits. It takes no memory.
    pub fn finish(self) -> Result<Value, Fault>
        ensures ok { IfOk result (λ value. value ≡ finished self.op self.entry) }
        ensures of_type { IfOk result (λ value. IsOfType (reduced_kind self.op self.kind) value) }
        ensures refused { Refuses (total_fault self.op self.entry) result }
        ensures too_large { IsOkUnless result (Fault.ComputeError ComputeKind.SumTooLarge 4294967295 0) }
    {
        match self.kept {
            Kept::Len => Ok(Value::Int(self.len as i64)),
            Kept::Sum(total) => whole(total),
            Kept::Min(value) => Ok(value),
            Kept::Max(value) => Ok(value),
            Kept::First(_, _, value) => Ok(value),
            Kept::Last(_, _, value) => Ok(value),
        }
    }

    fn into_parts(self) -> (u64, Kept)
        ensures op { op_of result.1 ≡ self.op }
        ensures entry { kept_if result.0 result.1 ≡ self.entry }
        ensures kept { KeepsValues self.kind result.0 result.1 }
    {
        (self.len, self.kept)
    }
}

/// A group has too many values.
fn too_long() -> Fault
    ensures { result ≡ Fault.ComputeError ComputeKind.LenTooLarge 4294967295 0 }
{
    Fault::ComputeError {
        kind: ComputeKind::LenTooLarge,
        file: QUERY_FILE,
        at: 0,
    }
}
