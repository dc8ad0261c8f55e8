//! Local groups: what a group-by has of the rows that came to it, and the merge of several.
ghost use Rattle.std.specs.Prelude.{◌≡◌, ◌<◌, ◌≤◌, ◌++◌, ℕ, Option, List, get_or, None, Some, Err, [], length, option_map, IfOk, IfErr, IsSome, OnOk, OnErr, IsOkUnless};
ghost use Rattle.std.specs.List.{flat_map};
ghost use Rattle.morsel_keys.specs.Reductions.{input_place};
ghost use Rattle.morsel_group.specs.Asked.{GroupShape, HaveColumns};
ghost use Rattle.morsel_group.specs.GroupFlaws.{group_flaw};
ghost use Rattle.morsel_group.specs.Grouping.{RowAt, Grouped, in_order};
ghost use Rattle.morsel_group.specs.Takes.{placed_rows};
ghost use Rattle.morsel_group.specs.Locals.{HeldGroups, held_in, AreGroups, AreGroupsIfAny, HasGroupedRows, HaveRowsIfAny, HasTakenRows, HaveTaken, IsGroupBy, TakesColumns, AreSameGroupBy, StaysGroupBy, HasShape, HasOutput, HasSums, IsGroupFault, IsSumFault};

use crate::GroupSpec;
use crate::blank::no_groups;
use crate::finish::finished;
use crate::groups::{Groups, put_groups, put_rows};
use morsel_frame::{Frame, Schema};
use morsel_meaning::Fault;
use morsel_pipe::MorselSeq;
use std::alloc::Global;
use std::marker::Model;

/// The keys of the rows that came so far, each once, and what each reduction has of the rows of each key.
///
/// After a fault it has no rows, and each further call answers that it is out of memory.
#[derive(Drop)]
pub struct LocalGroups {
    groups: Option<Groups>,
}

impl Model for LocalGroups {
    ghost use Rattle.std.specs.Prelude.{Option, option_map};
    ghost use Rattle.morsel_group.specs.Locals.{HeldGroups, held_in, AreGroupsIfAny};

    ghost Value = { Option HeldGroups };

    ghost view = { λ local. option_map held_in local.groups };

    ghost invariant = { λ local. AreGroupsIfAny local.groups };
}

impl LocalGroups {
    /// No rows yet, of a group-by that `group_schema` does not refuse.
    pub fn new(alloc: Global, input: &Schema, spec: &GroupSpec) -> Result<LocalGroups, Fault>
        requires columns { HaveColumns spec.now.aggs }
        requires sound { group_flaw input.now spec.now ≡ None }
        ensures group_by { IfOk result (λ local. IsGroupBy input.now spec.now local) }
        ensures empty { IfOk result (λ local. HasTakenRows local []) }
        ensures out_of_memory { IsOkUnless result Fault.OutOfMemory }
    {
        Ok(LocalGroups {
            groups: Some(no_groups(alloc, input, spec)?),
        })
    }

    /// Takes the rows of a frame, which are those of the morsel of this number.
    ///
    /// Their places in the input are this number, and how many rows came before them. After a fault there are no rows, and each further call
    /// answers that it is out of memory.
    pub fn insert(&mut self, frame: &Frame, seq: MorselSeq) -> Result<(), Fault>
        requires columns { TakesColumns frame.now.schema self.old }
        ensures same { OnOk result (StaysGroupBy self.old self.new) }
        ensures rows { (rows : List RowAt) → HasTakenRows self.old rows → OnOk result (HasTakenRows self.new (rows ++ placed_rows (input_place seq (length rows)) frame.now.rows)) }
        ensures refused { (rows : List RowAt) (shape : GroupShape) → HasTakenRows self.old rows → HasShape self.old shape → IfErr result (IsGroupFault shape (rows ++ placed_rows (input_place seq (length rows)) frame.now.rows)) }
        ensures err { OnErr result (self.new ≡ None) }
        ensures ended { self.old ≡ None → result ≡ Err Fault.OutOfMemory }
    {
        insert_rows(&mut self.groups, frame, seq.to_u64())
    }

    /// All rows of these, one at least, which are one group-by. Where one of them had a fault it answers one.
    pub fn combine(locals: Vec<LocalGroups>) -> Result<LocalGroups, Fault>
        requires some { 0 < length locals.items }
        requires alike { (i j : ℕ) → i < length locals.items → j < length locals.items → AreSameGroupBy (get_or locals.items i None) (get_or locals.items j None) }
        ensures same { IfOk result (λ local. StaysGroupBy (get_or locals.items 0 None) local) }
        ensures rows { (rows : List (List RowAt)) → HaveTaken locals.items rows → IfOk result (λ local. HasTakenRows local (flat_map (λ own. own) rows)) }
        ensures refused { (rows : List (List RowAt)) (shape : GroupShape) → HaveTaken locals.items rows → HasShape (get_or locals.items 0 None) shape → IfErr result (IsGroupFault shape (flat_map (λ own. own) rows)) }
        ensures ended { (at : ℕ) → at < length locals.items → get_or locals.items at None ≡ None → IfOk result (λ local. ⊥) }
    {
        let mut whole = None;
        for local in locals {
            match joined(whole, local.groups) {
                Ok(groups) => whole = Some(groups),
                Err(fault) => return Err(fault),
            }
        }
        Ok(LocalGroups { groups: whole })
    }

    /// One row for each key, with what the reductions say of the rows of this key in the order of the input. A sum is refused where the whole
    /// total of a key is outside 64 bits.
    pub fn into_frame(self) -> Result<Frame, Fault>
        ensures schema { IfOk result (λ frame. HasOutput self frame.schema) }
        ensures rows { (rows : List RowAt) (shape : GroupShape) → HasTakenRows self rows → HasShape self shape → IfOk result (λ frame. Grouped shape (in_order rows) frame.rows) }
        ensures fits { (rows : List RowAt) (shape : GroupShape) → HasTakenRows self rows → HasShape self shape → OnOk result (HasSums shape rows) }
        ensures few { (rows : List RowAt) → HasTakenRows self rows → IfOk result (λ frame. length frame.rows ≤ length rows) }
        ensures refused { (rows : List RowAt) (shape : GroupShape) → HasTakenRows self rows → HasShape self shape → IfErr result (IsSumFault shape rows) }
        ensures ended { self ≡ None → result ≡ Err Fault.OutOfMemory }
    {
        finished_if_any(self.groups)
    }
}

/// Puts the rows of a frame, which are those of the morsel of this number, to groups that there may be. After a fault there are none.
fn insert_rows(groups: &mut Option<Groups>, frame: &Frame, number: u64) -> Result<(), Fault>
    requires groups { AreGroupsIfAny groups.old }
    requires columns { TakesColumns frame.now.schema (option_map held_in groups.old) }
    ensures groups { AreGroupsIfAny groups.new }
    ensures same { OnOk result (StaysGroupBy (option_map held_in groups.old) (option_map held_in groups.new)) }
    ensures rows { (rows : List RowAt) → HasTakenRows (option_map held_in groups.old) rows → OnOk result (HasTakenRows (option_map held_in groups.new) (rows ++ placed_rows (input_place number (length rows)) frame.now.rows)) }
    ensures refused { (rows : List RowAt) (shape : GroupShape) → HasTakenRows (option_map held_in groups.old) rows → HasShape (option_map held_in groups.old) shape → IfErr result (IsGroupFault shape (rows ++ placed_rows (input_place number (length rows)) frame.now.rows)) }
    ensures err { OnErr result (option_map held_in groups.new ≡ None) }
    ensures ended { option_map held_in groups.old ≡ None → result ≡ Err Fault.OutOfMemory }
{
    let taken = groups.take();
    match with_rows_if_any(taken, frame, number) {
        Ok(held) => {
            *groups = Some(held);
            Ok(())
        }
        Err(fault) => Err(fault),
    }
}

/// The groups, if there are any, with the rows of a frame.
fn with_rows_if_any(groups: Option<Groups>, frame: &Frame, number: u64) -> Result<Groups, Fault>
    requires groups { AreGroupsIfAny groups }
    requires columns { TakesColumns frame.now.schema (option_map held_in groups) }
    ensures groups { IfOk result AreGroups }
    ensures same { IfOk result (λ next. StaysGroupBy (option_map held_in groups) (Some (held_in next))) }
    ensures rows { (rows : List RowAt) → HasTakenRows (option_map held_in groups) rows → IfOk result (λ next. HasGroupedRows (held_in next) (rows ++ placed_rows (input_place number (length rows)) frame.now.rows)) }
    ensures refused { (rows : List RowAt) (shape : GroupShape) → HasTakenRows (option_map held_in groups) rows → HasShape (option_map held_in groups) shape → IfErr result (IsGroupFault shape (rows ++ placed_rows (input_place number (length rows)) frame.now.rows)) }
    ensures ended { option_map held_in groups ≡ None → result ≡ Err Fault.OutOfMemory }
{
    match groups {
        None => Err(Fault::OutOfMemory),
        Some(groups) => with_rows(groups, frame, number),
    }
}

/// The groups with the rows of a frame.
fn with_rows(groups: Groups, frame: &Frame, number: u64) -> Result<Groups, Fault>
    requires groups { AreGroups groups }
    requires columns { frame.now.schema ≡ groups.input }
    ensures groups { IfOk result AreGroups }
    ensures same { IfOk result (λ next. StaysGroupBy (Some (held_in groups)) (Some (held_in next))) }
    ensures rows { (rows : List RowAt) → HasGroupedRows (held_in groups) rows → IfOk result (λ next. HasGroupedRows (held_in next) (rows ++ placed_rows (input_place number (length rows)) frame.now.rows)) }
    ensures refused { (rows : List RowAt) → HasGroupedRows (held_in groups) rows → IfErr result (IsGroupFault (held_in groups).shape (rows ++ placed_rows (input_place number (length rows)) frame.now.rows)) }
{
    let mut whole = groups;
    match put_rows(&mut whole, frame, number) {
        Ok(()) => Ok(whole),
        Err(fault) => Err(fault),
    }
}

/// The rows of the groups, if there are any.
fn finished_if_any(groups: Option<Groups>) -> Result<Frame, Fault>
    requires { AreGroupsIfAny groups }
    ensures schema { IfOk result (λ frame. HasOutput (option_map held_in groups) frame.schema) }
    ensures rows { (rows : List RowAt) (shape : GroupShape) → HasTakenRows (option_map held_in groups) rows → HasShape (option_map held_in groups) shape → IfOk result (λ frame. Grouped shape (in_order rows) frame.rows) }
    ensures fits { (rows : List RowAt) (shape : GroupShape) → HasTakenRows (option_map held_in groups) rows → HasShape (option_map held_in groups) shape → OnOk result (HasSums shape rows) }
    ensures few { (rows : List RowAt) → HasTakenRows (option_map held_in groups) rows → IfOk result (λ frame. length frame.rows ≤ length rows) }
    ensures refused { (rows : List RowAt) (shape : GroupShape) → HasTakenRows (option_map held_in groups) rows → HasShape (option_map held_in groups) shape → IfErr result (IsSumFault shape rows) }
    ensures ended { option_map held_in groups ≡ None → result ≡ Err Fault.OutOfMemory }
{
    match groups {
        None => Err(Fault::OutOfMemory),
        Some(groups) => finished(groups),
    }
}

/// The rows of both, of which the first may have none yet.
fn joined(groups: Option<Groups>, other: Option<Groups>) -> Result<Groups, Fault>
    requires groups { AreGroupsIfAny groups }
    requires other { AreGroupsIfAny other }
    requires alike { AreSameGroupBy (option_map held_in groups) (option_map held_in other) }
    ensures groups { IfOk result AreGroups }
    ensures alike { (held : Option HeldGroups) → AreSameGroupBy (option_map held_in other) held → IfOk result (λ next. AreSameGroupBy (Some (held_in next)) held) }
    ensures rows { (rows more : List RowAt) → HaveRowsIfAny groups rows → HasTakenRows (option_map held_in other) more → IfOk result (λ next. HasGroupedRows (held_in next) (rows ++ more)) }
    ensures some { OnOk result (IsSome (option_map held_in other)) }
    ensures refused { (rows more : List RowAt) (shape : GroupShape) → HaveRowsIfAny groups rows → HasTakenRows (option_map held_in other) more → HasShape (option_map held_in other) shape → IfErr result (IsGroupFault shape (rows ++ more)) }
{
    match (groups, other) {
        (_, None) => Err(Fault::OutOfMemory),
        (None, Some(other)) => Ok(other),
        (Some(groups), Some(other)) => joined_both(groups, other),
    }
}

/// The rows of both, which are one group-by.
fn joined_both(groups: Groups, other: Groups) -> Result<Groups, Fault>
    requires groups { AreGroups groups }
    requires other { AreGroups other }
    requires alike { AreSameGroupBy (Some (held_in groups)) (Some (held_in other)) }
    ensures groups { IfOk result AreGroups }
    ensures alike { (held : Option HeldGroups) → AreSameGroupBy (Some (held_in other)) held → IfOk result (λ next. AreSameGroupBy (Some (held_in next)) held) }
    ensures rows { (rows more : List RowAt) → HasGroupedRows (held_in groups) rows → HasGroupedRows (held_in other) more → IfOk result (λ next. HasGroupedRows (held_in next) (rows ++ more)) }
    ensures refused { (rows more : List RowAt) → HasGroupedRows (held_in groups) rows → HasGroupedRows (held_in other) more → IfErr result (IsGroupFault (held_in groups).shape (rows ++ more)) }
{
    let mut whole = groups;
    let mut other = other;
    match put_groups(&mut whole, &mut other) {
        Ok(()) => Ok(whole),
        Err(fault) => Err(fault),
    }
}
