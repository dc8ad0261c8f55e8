//! What a line of CSV pieces is for.
ghost use Rattle.morsel_grammar.specs.Dialect.{IsDialect};
ghost use Rattle.morsel_drive.specs.Lines.{IsSoundAxis};
ghost use Rattle.morsel_line.specs.Jobs.{Job};
ghost use Rattle.morsel_line.specs.ScanJobs.{job_axis};

use crate::row_stage::RowStage;
use morsel_drive::LineJob;
use morsel_meaning::Name;
use morsel_scan::CsvSourceNode;
use std::marker::Model;

/// A scan, what its files contain, and what becomes of its rows: what a line is for.
///
/// Contracts alone see it, and speak of each; no value of it is ever made.
#[derive(Drop)]
pub struct ScanJob {
    /// The scan.
    pub node: CsvSourceNode,
    /// The number of its first source within the query.
    pub first: u32,
    /// The names of its sources.
    pub names: Vec<Name>,
    /// Their numbers as they were opened.
    pub opened: Vec<usize>,
    /// Their bytes.
    pub files: Vec<Vec<u8>>,
    /// What the rows are that come out.
    pub stage: RowStage,
}

impl Model for ScanJob {
    ghost use Rattle.std.specs.Prelude.{map};
    ghost use Rattle.morsel_line.specs.Jobs.{Job};

    ghost Value = { Job };

    ghost use Rattle.morsel_expr.specs.contracts.node.PredNode as tree;
    ghost use Rattle.std.specs.Coded.{codes};

    ghost coded = { Prim.hlevel (codes, tree.the_row.coded) };

    ghost view = { λ job. record {
      scan = job.node;
      first = job.first;
      names = job.names.items;
      opened = job.opened.items;
      files = map (λ file. file.items) job.files.items;
      stage = job.stage;
    } };
}

impl LineJob for ScanJob {
    ghost use Rattle.morsel_line.specs.ScanJobs.{job_axis, IsJobPiece, IsJobEnd, IsJobFault};

    ghost axis = { job_axis };

    ghost is_piece = { IsJobPiece };

    ghost is_end = { IsJobEnd };

    ghost is_due = { IsJobFault };
}

/// The texts of a scan's rows are one after the other, and places of its files at which no row ends are of one record at most.
pub fn a_scan_has_a_sound_axis()
    ensures { (job : Job) → IsDialect job.scan.options → IsSoundAxis (job_axis job) }
{}
