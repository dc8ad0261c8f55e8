//! What a node finds of its scan before it decodes: its filter, and which columns are used and kept.
ghost use Rattle.std.specs.Prelude.{◌≡◌, ◌++◌, length, map, false, IfOk, IsOkUnless};
ghost use Rattle.morsel_frame.specs.Refusals.{Refuses};
ghost use Rattle.morsel_scan.specs.ScanColumns.{used_columns};
ghost use Rattle.morsel_scan.specs.ScanFlaws.{scan_flaw};
ghost use Rattle.morsel_scan.specs.Decoding.{step_fields, step_mask, true_places};
ghost use Rattle.morsel_scan.specs.Nodes.{node_of, filter_fields, IsPrepared};

use crate::source_fields::{check_scan, step_schema};
use crate::source_marks::{kept_places, used_columns};
use crate::{FileScanOptions, FilterStep};
use morsel_expr::Pred;
use morsel_frame::Schema;
use morsel_meaning::Fault;
use std::alloc::Global;

/// Which columns are used and kept.
struct ColumnMarks {
    /// Which columns of the files are used.
    used: Vec<bool>,
    /// None of them.
    unused: Vec<bool>,
    /// The places of those that are kept, among the columns that a piece's rows are made of.
    kept: Vec<usize>,
    /// The columns that a piece's rows are made of.
    step: Schema,
}

/// What a node finds of its scan.
pub struct SourceColumns {
    /// The filter, over the columns that a piece's rows are made of.
    pub step: Option<FilterStep>,
    /// Which columns of the files are used.
    pub used: Vec<bool>,
    /// None of them.
    pub unused: Vec<bool>,
    /// The places of those that are kept, among the columns that a piece's rows are made of.
    pub kept: Vec<usize>,
}

/// Finds which columns are used and kept.
fn marks_of(
    alloc: Global,
    schema: &Schema,
    asked: &FileScanOptions,
    filter: &Option<Pred>,
) -> Result<ColumnMarks, Fault>
    ensures used { IfOk result (λ marks. marks.used.items ≡ used_columns (record { fields = schema.now; asked = asked.now; filter = filter.now })) }
    ensures unused { IfOk result (λ marks. marks.unused.items ≡ map (λ field. false) schema.now) }
    ensures kept { IfOk result (λ marks. marks.kept.items ≡ true_places 0 (step_mask (record { fields = schema.now; asked = asked.now; filter = filter.now }))) }
    ensures step { IfOk result (λ marks. marks.step ≡ step_fields (record { fields = schema.now; asked = asked.now; filter = filter.now })) }
    ensures out_of_memory { IsOkUnless result Fault.OutOfMemory }
{
    let used = used_columns(alloc, schema, asked, filter)?;
    let unused = vec![in alloc; false; schema.len()]?;
    let kept = kept_places(alloc, schema, asked, used.as_slice())?;
    let step = step_schema(alloc, schema, asked, used.as_slice())?;
    Ok(ColumnMarks {
        used,
        unused,
        kept,
        step,
    })
}

/// The filter over these columns, where there is one.
fn filter_step(
    alloc: Global,
    filter: Option<Pred>,
    fields: &Schema,
) -> Result<Option<FilterStep>, Fault>
    ensures node { IfOk result (λ step. node_of step ≡ filter) }
    ensures over { IfOk result (λ step. filter_fields fields.now step ≡ fields.now) }
    ensures out_of_memory { IsOkUnless result Fault.OutOfMemory }
{
    let Some(pred) = filter else {
        return Ok(None);
    };
    // The filter fits all columns of the scan, and each that it speaks of is one of these: what refuses it is out of memory.
    let Ok(step) = FilterStep::new(alloc, pred, fields) else {
        return Err(Fault::OutOfMemory);
    };
    Ok(Some(step))
}

/// What a node finds of its scan, or the fault that there is no such scan.
pub fn source_columns(
    alloc: Global,
    schema: &Schema,
    asked: &FileScanOptions,
    filter: Option<Pred>,
) -> Result<SourceColumns, Fault>
    ensures ok { IfOk result (λ found. IsPrepared (record { fields = schema.now; asked = asked.now; filter = filter })
        found.step found.used.items found.unused.items found.kept.items) }
    ensures filter { IfOk result (λ found. node_of found.step ≡ filter) }
    ensures refused { Refuses (scan_flaw (record { fields = schema.now; asked = asked.now; filter = filter })) result }
{
    check_scan(alloc, schema, asked, &filter)?;
    match marks_of(alloc, schema, asked, &filter) {
        Ok(marks) => {
            let ColumnMarks {
                used,
                unused,
                kept,
                step,
            } = marks;
            match filter_step(alloc, filter, &step) {
                Ok(step) => Ok(SourceColumns {
                    step,
                    used,
                    unused,
                    kept,
                }),
                Err(fault) => Err(fault),
            }
        }
        Err(fault) => Err(fault),
    }
}
