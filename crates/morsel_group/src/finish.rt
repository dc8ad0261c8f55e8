//! The rows of groups.
ghost use Rattle.std.specs.Prelude.{◌≡◌, ◌≤◌, ◌⊎◌, List, length, map, IfOk, IfErr, OnOk};
ghost use Rattle.std.specs.List.{All};
ghost use Rattle.morsel_meaning.specs.Values.{kinds_of};
ghost use Rattle.morsel_frame.specs.Frames.{rows_of};
ghost use Rattle.morsel_keys.specs.Reductions.{reduced_kind};
ghost use Rattle.morsel_keys.specs.Slots.{no_number};
ghost use Rattle.morsel_group.specs.Grouping.{RowAt, Grouped, in_order};
ghost use Rattle.morsel_group.specs.Parts.{finished_values, RefusesSome, RefusesNone};
ghost use Rattle.morsel_group.specs.Locals.{held_in, AreGroups, HasGroupedRows, HasSums, IsSumFault};

use crate::groups::Groups;
use crate::part::{AggStates, finished_columns};
use crate::table::count_keys;
use morsel_frame::{Frame, Schema};
use morsel_meaning::Fault;
use std::alloc::Global;

/// One row for each key, with what the reductions say of the rows of this key in the order of the input. A sum is refused where the whole total
/// of a key is outside 64 bits.
pub fn finished(groups: Groups) -> Result<Frame, Fault>
    requires { AreGroups groups }
    ensures schema { IfOk result (λ frame. (held_in groups).output ≡ frame.schema) }
    ensures rows { (rows : List RowAt) → HasGroupedRows (held_in groups) rows → IfOk result (λ frame. Grouped (held_in groups).shape (in_order rows) frame.rows) }
    ensures fits { (rows : List RowAt) → HasGroupedRows (held_in groups) rows → OnOk result (HasSums (held_in groups).shape rows) }
    ensures few { (rows : List RowAt) → HasGroupedRows (held_in groups) rows → IfOk result (λ frame. length frame.rows ≤ length rows) }
    ensures refused { (rows : List RowAt) → HasGroupedRows (held_in groups) rows → IfErr result (IsSumFault (held_in groups).shape rows) }
{
    let count = count_keys(&groups.table);
    let Groups {
        alloc,
        reduced,
        key_rows,
        parts,
        ..
    } = groups;
    let others = match finished_rows(alloc, reduced, parts, count) {
        Ok(others) => others,
        Err(fault) => return Err(fault),
    };
    match key_rows.hstack(alloc, others) {
        Ok(frame) => Ok(frame),
        Err(_) => Err(Fault::OutOfMemory),
    }
}

/// What each reduction says of each group, of which there are so many, as rows.
fn finished_rows(
    alloc: Global,
    reduced: Schema,
    parts: Vec<AggStates>,
    count: usize,
) -> Result<Frame, Fault>
    requires kind { All (λ part. part.kind ≡ reduced_kind part.states.op part.states.kind) parts.items }
    requires count { All (λ part. length part.states.entries ≡ count) parts.items }
    requires few { count ≤ no_number }
    requires kinds { kinds_of reduced ≡ map (λ part. part.kind) parts.items }
    ensures ok { IfOk result (λ frame. frame ≡ record { schema = reduced; rows = rows_of count (map finished_values parts.items) }) }
    ensures len { IfOk result (λ frame. length frame.rows ≡ count) }
    ensures fits { OnOk result (All RefusesNone parts.items) }
    ensures refused { IfErr result (λ fault. (fault ≡ Fault.OutOfMemory) ⊎ RefusesSome parts.items fault) }
{
    let columns = match finished_columns(alloc, parts, count) {
        Ok(columns) => columns,
        Err(fault) => return Err(fault),
    };
    Ok(Frame::new(alloc, reduced, columns, count))
}
