//! Groups of rows, and how more rows and the groups of others come to them.
ghost use Rattle.std.specs.Prelude.{◌≡◌, ◌++◌, ◌+◌, List, Some, length, OnOk, IfOk, IfErr, IsOkUnless};
ghost use Rattle.std.specs.List.{range_with_len};
ghost use Rattle.morsel_keys.specs.Reductions.{input_place};
ghost use Rattle.morsel_group.specs.Grouping.{RowAt};
ghost use Rattle.morsel_group.specs.Takes.{placed_rows};
ghost use Rattle.morsel_group.specs.Locals.{held_in, AreGroups, AreSameGroupBy, HasGroupedRows, IsGroupFault};

use crate::counts::{count_others, count_rows};
use crate::fresh::take_keys;
use crate::part::{AggStates, merge_parts, update_parts};
use crate::table::GroupKeys;
use morsel_frame::{Frame, Schema};
use morsel_keys::Reduction;
use morsel_meaning::{ColType, Fault};
use morsel_states::States;
use std::alloc::Global;
use std::mem;

/// Keys in order of arrival, and what each reduction has of each.
#[derive(Drop)]
pub struct Groups {
    pub alloc: Global,
    /// The columns of the rows that come.
    pub input: Schema,
    /// The places of the keys.
    pub keys: Vec<usize>,
    /// The columns of the reductions.
    pub reduced: Schema,
    pub table: GroupKeys,
    /// The keys as rows, in order of arrival.
    pub key_rows: Frame,
    /// How many rows each key has.
    pub counts: States,
    pub parts: Vec<AggStates>,
    /// How many rows came.
    pub took: u64,
}

/// Puts the rows of a frame to groups, which are those of the morsel of this number. After a fault the groups are of no use.
pub fn put_rows(groups: &mut Groups, frame: &Frame, number: u64) -> Result<(), Fault>
    requires groups { AreGroups groups.old }
    requires columns { frame.now.schema ≡ groups.old.input }
    ensures groups { OnOk result (AreGroups groups.new) }
    ensures same { OnOk result (AreSameGroupBy (Some (held_in groups.old)) (Some (held_in groups.new))) }
    ensures rows { (rows : List RowAt) → HasGroupedRows (held_in groups.old) rows → OnOk result (HasGroupedRows (held_in groups.new) (rows ++ placed_rows (input_place number (length rows)) frame.now.rows)) }
    ensures refused { (rows : List RowAt) → HasGroupedRows (held_in groups.old) rows → IfErr result (IsGroupFault (held_in groups.old).shape (rows ++ placed_rows (input_place number (length rows)) frame.now.rows)) }
{
    let height = frame.height();
    let Some(took) = groups.took.checked_add(height as u64) else {
        return Err(Fault::OutOfMemory);
    };
    let mut numbers = vec![in groups.alloc; 0u32; height]?;
    match put_numbered(groups, frame, &mut numbers, number, took) {
        Ok(()) => Ok(()),
        Err(fault) => Err(fault),
    }
}

/// Puts the rows of a frame to groups, with a place for the number of each row, and how many rows there are then.
fn put_numbered(
    groups: &mut Groups,
    frame: &Frame,
    numbers: &mut [u32],
    number: u64,
    took: u64,
) -> Result<(), Fault>
    requires groups { AreGroups groups.old }
    requires columns { frame.now.schema ≡ groups.old.input }
    requires len { length numbers.old ≡ length frame.now.rows }
    requires took { took ≡ groups.old.took + length frame.now.rows }
    ensures groups { OnOk result (AreGroups groups.new) }
    ensures same { OnOk result (AreSameGroupBy (Some (held_in groups.old)) (Some (held_in groups.new))) }
    ensures rows { (rows : List RowAt) → HasGroupedRows (held_in groups.old) rows → OnOk result (HasGroupedRows (held_in groups.new) (rows ++ placed_rows (input_place number (length rows)) frame.now.rows)) }
    ensures refused { (rows : List RowAt) → HasGroupedRows (held_in groups.old) rows → IfErr result (IsGroupFault (held_in groups.old).shape (rows ++ placed_rows (input_place number (length rows)) frame.now.rows)) }
{
    let count = match take_keys(
        groups.alloc,
        &mut groups.table,
        &mut groups.key_rows,
        frame,
        &groups.keys,
        numbers,
    ) {
        Ok(count) => count,
        Err(fault) => return Err(fault),
    };
    match count_rows(&mut groups.counts, numbers, count) {
        Ok(()) => {}
        Err(fault) => return Err(fault),
    }
    match update_parts(
        &mut groups.parts,
        frame,
        numbers,
        count,
        (number, groups.took),
    ) {
        Ok(()) => {}
        Err(fault) => return Err(fault),
    }
    groups.took = took;
    Ok(())
}

/// Puts the rows of another group-by of the same to groups. After a fault the groups are of no use.
pub fn put_groups(groups: &mut Groups, other: &mut Groups) -> Result<(), Fault>
    requires groups { AreGroups groups.old }
    requires other { AreGroups other.old }
    requires alike { AreSameGroupBy (Some (held_in groups.old)) (Some (held_in other.old)) }
    ensures groups { OnOk result (AreGroups groups.new) }
    ensures same { OnOk result (AreSameGroupBy (Some (held_in groups.old)) (Some (held_in groups.new))) }
    ensures rows { (rows more : List RowAt) → HasGroupedRows (held_in groups.old) rows → HasGroupedRows (held_in other.old) more → OnOk result (HasGroupedRows (held_in groups.new) (rows ++ more)) }
    ensures refused { (rows more : List RowAt) → HasGroupedRows (held_in groups.old) rows → HasGroupedRows (held_in other.old) more → IfErr result (IsGroupFault (held_in groups.old).shape (rows ++ more)) }
{
    let Some(took) = groups.took.checked_add(other.took) else {
        return Err(Fault::OutOfMemory);
    };
    let places = first_places(groups.alloc, groups.keys.len())?;
    let mut numbers = vec![in groups.alloc; 0u32; other.key_rows.height()]?;
    match join_numbered(groups, other, &places, &mut numbers, took) {
        Ok(()) => Ok(()),
        Err(fault) => Err(fault),
    }
}

/// Puts the rows of another group-by of the same to groups, with the places of the keys in its own, a place for the number of each, and how many
/// rows there are then.
fn join_numbered(
    groups: &mut Groups,
    other: &mut Groups,
    places: &[usize],
    numbers: &mut [u32],
    took: u64,
) -> Result<(), Fault>
    requires groups { AreGroups groups.old }
    requires other { AreGroups other.old }
    requires alike { AreSameGroupBy (Some (held_in groups.old)) (Some (held_in other.old)) }
    requires places { places.now ≡ range_with_len 0 (length groups.old.keys.items) }
    requires len { length numbers.old ≡ length other.old.key_rows.rows }
    requires took { took ≡ groups.old.took + other.old.took }
    ensures groups { OnOk result (AreGroups groups.new) }
    ensures same { OnOk result (AreSameGroupBy (Some (held_in groups.old)) (Some (held_in groups.new))) }
    ensures rows { (rows more : List RowAt) → HasGroupedRows (held_in groups.old) rows → HasGroupedRows (held_in other.old) more → OnOk result (HasGroupedRows (held_in groups.new) (rows ++ more)) }
    ensures refused { (rows more : List RowAt) → HasGroupedRows (held_in groups.old) rows → HasGroupedRows (held_in other.old) more → IfErr result (IsGroupFault (held_in groups.old).shape (rows ++ more)) }
{
    let count = match take_keys(
        groups.alloc,
        &mut groups.table,
        &mut groups.key_rows,
        &other.key_rows,
        places,
        numbers,
    ) {
        Ok(count) => count,
        Err(fault) => return Err(fault),
    };
    let blank = States::new(groups.alloc, Reduction::Len, ColType::Int);
    let counts = mem::replace(&mut other.counts, blank);
    match count_others(&mut groups.counts, counts, numbers, count) {
        Ok(()) => {}
        Err(fault) => return Err(fault),
    }
    let parts = mem::replace(&mut other.parts, Vec::new(groups.alloc));
    match merge_parts(&mut groups.parts, parts, numbers, count) {
        Ok(()) => {}
        Err(fault) => return Err(fault),
    }
    groups.took = took;
    Ok(())
}

/// The first so many places.
fn first_places(alloc: Global, count: usize) -> Result<Vec<usize>, Fault>
    ensures ok { IfOk result (λ places. places.items ≡ range_with_len 0 count) }
    ensures out_of_memory { IsOkUnless result Fault.OutOfMemory }
{
    let mut places = Vec::new(alloc);
    for at in 0..count {
        places.push(at)?;
    }
    Ok(places)
}
