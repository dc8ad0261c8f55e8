//! Which rows of two sides a join has, by their numbers.
ghost use Rattle.std.specs.Prelude.{◌≡◌, ◌<◌, ◌^◌, ◌++◌, [], length, map, IfOk, OnOk, IsOkUnless};
ghost use Rattle.std.specs.List.{All};
ghost use Rattle.morsel_meaning.specs.Values.{kinds_of};
ghost use Rattle.morsel_frame.specs.Tables.{cells_at, fields_at};
ghost use Rattle.morsel_join.specs.Items.{left_items, right_items};
ghost use Rattle.morsel_keys.specs.Slots.{AreLookedUp};
ghost use Rattle.morsel_join.specs.Chains.{HasSeen, same_number};
ghost use Rattle.morsel_join.specs.Probes.{PutsItems};
ghost use Rattle.morsel_join.specs.Rows.{rows_match};

use crate::build::keyed_rows;
use crate::probe::{mark_seen, probe, put_lone};
use morsel_frame::Frame;
use morsel_meaning::{ColType, Fault};
use morsel_row_keys::RowKeys;
use std::alloc::Global;

/// The row numbers of the items of a join, by the rows that are looked up and then by the kept ones, lone kept rows last; `u32::MAX` where an
/// item has no row of a side.
pub fn join_rows(
    alloc: Global,
    asked: &Frame,
    kept: &Frame,
    asked_keys: &[usize],
    kept_keys: &[usize],
    kinds: &[ColType],
    nulls: bool,
    lone_asked: bool,
    lone_kept: bool,
) -> Result<(Vec<u32>, Vec<u32>), Fault>
    requires asked_within { All (λ at. at < length asked.now.schema) asked_keys.now }
    requires kept_within { All (λ at. at < length kept.now.schema) kept_keys.now }
    requires asked_kinds { kinds_of (fields_at asked.now.schema asked_keys.now) ≡ kinds.now }
    requires kept_kinds { kinds_of (fields_at kept.now.schema kept_keys.now) ≡ kinds.now }
    requires some { 0 < length kinds.now }
    requires asked_short { length asked.now.rows < 2 ^ 32 }
    requires kept_short { length kept.now.rows < 2 ^ 32 }
    ensures ok { IfOk result (λ found. PutsItems (left_items (rows_match nulls asked_keys.now kept_keys.now) lone_asked 0 asked.now.rows kept.now.rows ++ right_items (rows_match nulls asked_keys.now kept_keys.now) lone_kept asked.now.rows kept.now.rows) [] [] found.0.items found.1.items) }
    ensures out_of_memory { IsOkUnless result Fault.OutOfMemory }
{
    let keyed = keyed_rows(alloc, kept, kept_keys, kinds, nulls)?;
    let numbers = found_numbers(alloc, &keyed.keys, asked, asked_keys)?;
    let mut lefts = Vec::new(alloc);
    let mut rights = Vec::new(alloc);
    probe(
        &keyed.first,
        &keyed.next,
        &numbers,
        lone_asked,
        &mut lefts,
        &mut rights,
    )?;
    put_unpaired(
        alloc,
        keyed.keys.len(),
        &numbers,
        &keyed.numbers,
        lone_kept,
        &mut lefts,
        &mut rights,
    )?;
    Ok((lefts, rights))
}

/// Puts those rows last alone whose keys have none of these numbers, where they are wanted.
fn put_unpaired(
    alloc: Global,
    keys: usize,
    numbers: &[u32],
    kept: &[u32],
    wanted: bool,
    lefts: &mut Vec<u32>,
    rights: &mut Vec<u32>,
) -> Result<(), Fault>
    requires short { length kept.now < 2 ^ 32 }
    ensures ok { OnOk result (PutsItems (right_items (same_number keys) wanted numbers.now kept.now) lefts.old.items rights.old.items lefts.new.items rights.new.items) }
    ensures out_of_memory { IsOkUnless result Fault.OutOfMemory }
{
    if !wanted {
        return Ok(());
    }
    let seen = seen_keys(alloc, keys, numbers)?;
    put_lone(&seen, kept, lefts, rights)?;
    Ok(())
}

/// Which of so many keys have one of these numbers.
fn seen_keys(alloc: Global, keys: usize, numbers: &[u32]) -> Result<Vec<bool>, Fault>
    ensures ok { IfOk result (λ seen. HasSeen keys numbers.now seen.items) }
    ensures out_of_memory { IsOkUnless result Fault.OutOfMemory }
{
    let mut seen = vec![in alloc; false; keys]?;
    mark_seen(&mut seen, numbers);
    Ok(seen)
}

/// The numbers of rows' keys among those that are kept, and `u32::MAX` where there is no such key.
pub fn found_numbers(
    alloc: Global,
    keys: &RowKeys,
    frame: &Frame,
    columns: &[usize],
) -> Result<Vec<u32>, Fault>
    requires columns { All (λ at. at < length frame.now.schema) columns.now }
    requires kinds { kinds_of (fields_at frame.now.schema columns.now) ≡ keys.now.kinds }
    ensures ok { IfOk result (λ numbers. AreLookedUp keys.now.keys (map (cells_at columns.now) frame.now.rows) numbers.items) }
    ensures out_of_memory { IsOkUnless result Fault.OutOfMemory }
{
    let mut numbers = vec![in alloc; 0u32; frame.height()]?;
    keys.look_up(frame, columns, &mut numbers)?;
    Ok(numbers)
}
