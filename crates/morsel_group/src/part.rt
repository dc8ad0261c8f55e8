//! What each reduction has of each group.
ghost use Rattle.std.specs.Prelude.{◌≡◌, ◌<◌, ◌≤◌, ◌+◌, ◌^◌, ◌⊎◌, ℕ, List, length, map, take, get_or, OnOk, IfOk, IfErr, IsOkUnless};
ghost use Rattle.std.specs.List.{All};
ghost use Rattle.morsel_keys.specs.Reductions.{input_place, reduced_kind};
ghost use Rattle.morsel_keys.specs.Slots.{no_number};
ghost use Rattle.morsel_states.specs.GroupRows.{group_rows, PutsGroupRows};
ghost use Rattle.morsel_group.specs.Grouping.{value_in};
ghost use Rattle.morsel_group.specs.Parts.{ReadsColumn, AreSameReduction, updated_part, joined_part, joined_parts, finished_values, RefusesGroup, RefusesSome, RefusesNone};
ghost use Rattle.morsel_group.specs.declared.part.AggStates.{AggStates as PartView};

use morsel_frame::{Column, Frame};
use morsel_meaning::{ColType, Fault};
use morsel_states::States;
use std::alloc::Global;

/// What a reduction has of each group, the place of the column that it reads, none where rows are counted, and the type of what it says.
#[derive(Drop)]
pub struct AggStates {
    pub column: Option<usize>,
    pub kind: ColType,
    pub states: States,
}

/// Puts the rows of a frame to their groups, of which there are so many. A group that has too many rows was refused before.
pub fn update_parts(
    parts: &mut [AggStates],
    frame: &Frame,
    numbers: &[u32],
    count: usize,
    place: (u64, u64),
) -> Result<(), Fault>
    requires reads { All (λ part. ReadsColumn frame.now.schema part.states part.column) parts.old }
    requires few { All (λ part. length part.states.entries ≤ count) parts.old }
    requires len { length numbers.now ≡ length frame.now.rows }
    requires within { All (λ number. number < count) numbers.now }
    requires places { place.1 + length numbers.now ≤ 2 ^ 64 }
    ensures ok { OnOk result (parts.new ≡ map (updated_part count (input_place place.0 place.1) numbers.now frame.now.rows) parts.old) }
    ensures out_of_memory { IsOkUnless result Fault.OutOfMemory }
{
    for i in 0..parts.len() {
        update_part(&mut parts[i], frame, numbers, count, place)?;
    }
    Ok(())
}

/// Puts the rows of a frame to their groups, of which there are so many. A group that has too many rows was refused before.
fn update_part(
    part: &mut AggStates,
    frame: &Frame,
    numbers: &[u32],
    count: usize,
    place: (u64, u64),
) -> Result<(), Fault>
    requires reads { ReadsColumn frame.now.schema part.old.states part.old.column }
    requires few { length part.old.states.entries ≤ count }
    requires len { length numbers.now ≡ length frame.now.rows }
    requires within { All (λ number. number < count) numbers.now }
    requires places { place.1 + length numbers.now ≤ 2 ^ 64 }
    ensures ok { OnOk result (part.new ≡ updated_part count (input_place place.0 place.1) numbers.now frame.now.rows part.old) }
    ensures out_of_memory { IsOkUnless result Fault.OutOfMemory }
{
    part.states.grow(count)?;
    match put_rows(&mut part.states, part.column, frame, numbers, place) {
        Ok(()) => Ok(()),
        Err(_) => Err(Fault::OutOfMemory),
    }
}

/// Puts the rows of a frame to their groups.
fn put_rows(
    states: &mut States,
    column: Option<usize>,
    frame: &Frame,
    numbers: &[u32],
    place: (u64, u64),
) -> Result<(), Fault>
    requires reads { ReadsColumn frame.now.schema states.old column }
    requires len { length numbers.now ≡ length frame.now.rows }
    requires within { All (λ number. number < length states.old.entries) numbers.now }
    requires places { place.1 + length numbers.now ≤ 2 ^ 64 }
    ensures op { states.new.op ≡ states.old.op }
    ensures kind { states.new.kind ≡ states.old.kind }
    ensures rows { PutsGroupRows states.old.op states.old.entries (group_rows (input_place place.0 place.1) numbers.now (map (value_in column) frame.now.rows)) states.new.entries result }
{
    match column {
        Some(at) => states.update(numbers, frame.column(at), place),
        None => states.count(numbers),
    }
}

/// Puts what others have of their groups to these groups, of which there are so many, each to the one at its place. A group that has too many
/// rows was refused before.
pub fn merge_parts(
    parts: &mut [AggStates],
    others: Vec<AggStates>,
    numbers: &[u32],
    count: usize,
) -> Result<(), Fault>
    requires len { length others.items ≡ length parts.old }
    requires same { (k : ℕ) (p o : PartView) → k < length parts.old → AreSameReduction (get_or parts.old k p) (get_or others.items k o) }
    requires few { All (λ part. length part.states.entries ≤ count) parts.old }
    requires numbers { All (λ part. length numbers.now ≡ length part.states.entries) others.items }
    requires within { All (λ number. number < count) numbers.now }
    ensures ok { OnOk result (parts.new ≡ joined_parts count numbers.now parts.old others.items) }
    ensures out_of_memory { IsOkUnless result Fault.OutOfMemory }
{
    let mut at = 0;
    for other in others {
        merge_part(&mut parts[at], other, numbers, count)?;
        at += 1;
    }
    Ok(())
}

/// Puts what another has of its groups to these groups, of which there are so many. A group that has too many rows was refused before.
fn merge_part(
    part: &mut AggStates,
    other: AggStates,
    numbers: &[u32],
    count: usize,
) -> Result<(), Fault>
    requires op { other.states.op ≡ part.old.states.op }
    requires kind { other.states.kind ≡ part.old.states.kind }
    requires few { length part.old.states.entries ≤ count }
    requires len { length numbers.now ≡ length other.states.entries }
    requires within { All (λ number. number < count) numbers.now }
    ensures ok { OnOk result (part.new ≡ joined_part count numbers.now other part.old) }
    ensures out_of_memory { IsOkUnless result Fault.OutOfMemory }
{
    part.states.grow(count)?;
    match part.states.merge(numbers, other.states) {
        Ok(()) => Ok(()),
        Err(_) => Err(Fault::OutOfMemory),
    }
}

/// What each reduction says of each group, of which there are so many: a column for each.
pub fn finished_columns(
    alloc: Global,
    parts: Vec<AggStates>,
    count: usize,
) -> Result<Vec<Column>, Fault>
    requires kind { All (λ part. part.kind ≡ reduced_kind part.states.op part.states.kind) parts.items }
    requires count { All (λ part. length part.states.entries ≡ count) parts.items }
    requires few { count ≤ no_number }
    ensures ok { IfOk result (λ columns. columns.items ≡ map finished_values parts.items) }
    ensures fits { OnOk result (All RefusesNone parts.items) }
    ensures refused { IfErr result (λ fault. (fault ≡ Fault.OutOfMemory) ⊎ RefusesSome parts.items fault) }
{
    let mut columns = Vec::new(alloc);
    for part in parts {
        match finished_column(alloc, part, count) {
            Ok(column) => columns.push(column)?,
            Err(fault) => return Err(fault),
        }
    }
    Ok(columns)
}

/// What a reduction says of each group.
fn finished_column(alloc: Global, part: AggStates, count: usize) -> Result<Column, Fault>
    requires kind { part.kind ≡ reduced_kind part.states.op part.states.kind }
    requires count { length part.states.entries ≡ count }
    requires few { count ≤ no_number }
    ensures ok { IfOk result (λ column. column ≡ finished_values part) }
    ensures fits { OnOk result (RefusesNone part) }
    ensures refused { IfErr result (λ fault. (fault ≡ Fault.OutOfMemory) ⊎ RefusesGroup part fault) }
{
    let mut column = Column::new(alloc, part.kind);
    let mut states = part.states;
    for group in 0..count {
        match states.finish(group as u32) {
            Ok(value) => column.push(value)?,
            Err(fault) => return Err(fault),
        }
    }
    Ok(column)
}
