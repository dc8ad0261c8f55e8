//! The columns of a join's rows, by what is asked of it.
ghost use Rattle.std.specs.Prelude.{◌≡◌, ◌<◌, ◌++◌, length, IfOk, IsOkUnless};
ghost use Rattle.morsel_meaning.specs.Values.{names_of};
ghost use Rattle.morsel_frame.specs.Refusals.{Refuses, repeat_fault};
ghost use Rattle.morsel_join.specs.Payloads.{FitKeys, left_names, right_names, named_fields, key_places, merged_keys, pairs_of_places, join_fields, join_flaw};

use crate::key_columns::{KeyColumns, key_columns};
use crate::payload::{
    JoinArgs, Payload, check_suffixes, left_names, merges_keys, put_fields, right_names,
};
use morsel_frame::Schema;
use morsel_meaning::{Fault, Name};
use std::alloc::Global;

/// The columns of a join's rows, and those of its keys.
#[derive(Debug, Drop)]
pub struct Selection {
    /// The columns by name.
    pub payload: Payload,
    /// The columns of the rows.
    pub output: Schema,
    /// The columns of the keys.
    pub keys: KeyColumns,
}

/// The columns of a join's rows. It is refused with the first of these, in their order: `Duplicate` for a right column whose name with the
/// suffix is the name of a left column, and for a name that two columns of the rows have; `ColumnNotFound` for a key that is no column, the left
/// ones first; `SchemaMismatch` for the left key of a pair whose types differ.
pub fn payload_select(
    alloc: Global,
    left: &Schema,
    right: &Schema,
    left_keys: &[Name],
    right_keys: &[Name],
    args: &JoinArgs,
) -> Result<Payload, Fault>
    requires count { length left_keys.now ≡ length right_keys.now }
    requires some { 0 < length left_keys.now }
    ensures left { IfOk result (λ payload. payload.left.items ≡ left_names args.now left_keys.now left.now) }
    ensures right { IfOk result (λ payload. payload.right.items ≡ right_names args.now right_keys.now (names_of left.now) right.now) }
    ensures merged { IfOk result (λ payload. payload.merged.items ≡ merged_keys args.now (key_places left.now left_keys.now) (key_places right.now right_keys.now)) }
    ensures refused { Refuses (join_flaw args.now left.now right.now left_keys.now right_keys.now) result }
{
    Ok(select(alloc, left, right, left_keys, right_keys, args)?.payload)
}

/// The same, with the columns of the rows and of the keys.
pub fn select(
    alloc: Global,
    left: &Schema,
    right: &Schema,
    left_keys: &[Name],
    right_keys: &[Name],
    args: &JoinArgs,
) -> Result<Selection, Fault>
    requires count { length left_keys.now ≡ length right_keys.now }
    ensures left { IfOk result (λ chosen. chosen.payload.left.items ≡ left_names args.now left_keys.now left.now) }
    ensures right { IfOk result (λ chosen. chosen.payload.right.items ≡ right_names args.now right_keys.now (names_of left.now) right.now) }
    ensures merged { IfOk result (λ chosen. chosen.payload.merged.items ≡ merged_keys args.now (key_places left.now left_keys.now) (key_places right.now right_keys.now)) }
    ensures output { IfOk result (λ chosen. chosen.output ≡ join_fields args.now left.now right.now left_keys.now right_keys.now) }
    ensures left_keys { IfOk result (λ chosen. chosen.keys.left.items ≡ key_places left.now left_keys.now) }
    ensures right_keys { IfOk result (λ chosen. chosen.keys.right.items ≡ key_places right.now right_keys.now) }
    ensures keys { IfOk result (λ chosen. FitKeys left.now right.now chosen.keys.left.items chosen.keys.right.items chosen.keys.kinds.items) }
    ensures len { IfOk result (λ chosen. length chosen.keys.kinds.items ≡ length left_keys.now) }
    ensures refused { Refuses (join_flaw args.now left.now right.now left_keys.now right_keys.now) result }
{
    check_suffixes(alloc, args, right_keys, left.fields(), right.fields())?;
    let lefts = left_names(alloc, args, left_keys, left.fields())?;
    let rights = right_names(alloc, args, right_keys, left.fields(), right.fields())?;
    let output = output_columns(alloc, &lefts, &rights, left, right)?;
    let keys = key_columns(alloc, left, right, left_keys, right_keys)?;
    let merged = merged_keys(alloc, args, &keys.left, &keys.right)?;
    let payload = Payload {
        left: lefts,
        right: rights,
        merged,
    };
    Ok(Selection {
        payload,
        output,
        keys,
    })
}

/// The columns that have names, the left ones and then the right ones; `Duplicate` for a name that occurs before it.
fn output_columns(
    alloc: Global,
    lefts: &[Option<Name>],
    rights: &[Option<Name>],
    left: &Schema,
    right: &Schema,
) -> Result<Schema, Fault>
    requires lefts { length lefts.now ≡ length left.now }
    requires rights { length rights.now ≡ length right.now }
    ensures ok { IfOk result (λ output. output ≡ named_fields lefts.now left.now ++ named_fields rights.now right.now) }
    ensures refused { Refuses (repeat_fault (named_fields lefts.now left.now ++ named_fields rights.now right.now)) result }
{
    let mut fields = Vec::new(alloc);
    put_fields(alloc, &mut fields, lefts, left.fields())?;
    put_fields(alloc, &mut fields, rights, right.fields())?;
    Schema::new(alloc, fields)
}

/// The pairs of keys of which a coalesced row has the first that is no null.
fn merged_keys(
    alloc: Global,
    args: &JoinArgs,
    lefts: &[usize],
    rights: &[usize],
) -> Result<Vec<(u32, u32)>, Fault>
    requires count { length lefts.now ≡ length rights.now }
    ensures ok { IfOk result (λ pairs. pairs.items ≡ merged_keys args.now lefts.now rights.now) }
    ensures out_of_memory { IsOkUnless result Fault.OutOfMemory }
{
    if args.coalesce && merges_keys(args.how) {
        return pairs_of_places(alloc, lefts, rights);
    }
    Ok(Vec::new(alloc))
}

/// Places side by side.
fn pairs_of_places(
    alloc: Global,
    lefts: &[usize],
    rights: &[usize],
) -> Result<Vec<(u32, u32)>, Fault>
    requires count { length lefts.now ≡ length rights.now }
    ensures ok { IfOk result (λ pairs. pairs.items ≡ pairs_of_places lefts.now rights.now) }
    ensures out_of_memory { IsOkUnless result Fault.OutOfMemory }
{
    let mut pairs = Vec::with_capacity(alloc, lefts.len())?;
    for at in 0..lefts.len() {
        pairs.push((column_number(lefts[at])?, column_number(rights[at])?))?;
    }
    Ok(pairs)
}

/// A column's place as a payload has it; out of memory past 32 bits, since there is none for so many columns.
fn column_number(at: usize) -> Result<u32, Fault>
    ensures ok { IfOk result (λ number. number ≡ at) }
    ensures out_of_memory { IsOkUnless result Fault.OutOfMemory }
{
    match u32::try_from(at) {
        Ok(number) => Ok(number),
        Err(_) => Err(Fault::OutOfMemory),
    }
}
