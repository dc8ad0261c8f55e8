//! What the lanes of a scan are for.
ghost use Rattle.std.specs.Prelude.{◌≡◌};

use crate::at_home::AtHome;
use morsel_line::RowStage;
use morsel_load::{LoadJob, LoadKind};
use morsel_outside::Io;
use morsel_read::ScanReader;
use morsel_scan::CsvSourceNode;
use std::marker::Model;
use std::snapshot::Snapshot;

/// What a lane of a scan is for: loads of one kind, for the rows of this scan, or for what becomes of them. It takes no bytes but
/// those of the kind.
///
/// Contracts alone see the rest: the reader of the scan's files and the outside, both before anything was read, which tell what the
/// files contain; a group, of whose board the tokens are that rows may hold; and what the rows are.
#[derive(Drop)]
pub struct LaneJob<G: AtHome, H: Io> {
    kind: LoadKind,
    scan: Snapshot<CsvSourceNode>,
    reader: Snapshot<ScanReader>,
    outside: Snapshot<H>,
    group: Snapshot<G>,
    stage: Snapshot<RowStage>,
}

impl<G: AtHome, H: Io> Model for LaneJob<G, H> {
    ghost use Rattle.morsel_scan_units.specs.LaneJobs.{LaneFor};

    ghost Value = { LaneFor };

    ghost use Rattle.morsel_expr.specs.contracts.node.PredNode as tree;
    ghost use Rattle.std.specs.Coded.{codes};

    ghost coded = { Prim.hlevel (codes, tree.the_row.coded) };

    ghost view = { λ job. record {
      kind = job.kind;
      scan = job.scan.value;
      reader = job.reader.value;
      outside = H.seen job.outside.value;
      tokens = G.home job.group.value;
      stage = job.stage.value;
    } };
}

impl<G: AtHome, H: Io> LaneJob<G, H> {
    /// For loads of this kind, for these rows of the node's scan, whose files this reader is to read from this outside, with tokens of
    /// the group's board.
    pub fn new(
        kind: LoadKind,
        node: &CsvSourceNode,
        reader: &ScanReader,
        io: &H,
        group: &G,
        stage: &RowStage,
    ) -> LaneJob<G, H>
        ensures { result ≡ record { kind = kind; scan = node.now; reader = reader.now; outside = H.seen io.now; tokens = G.home group.now; stage = stage.now } }
    {
        LaneJob {
            kind,
            scan: Snapshot::of(node),
            reader: Snapshot::of(reader),
            outside: Snapshot::of(io),
            group: Snapshot::of(group),
            stage: Snapshot::of(stage),
        }
    }

    /// The same, for rows of another stage.
    pub fn with_stage(self, stage: &RowStage) -> LaneJob<G, H>
        ensures { result ≡ record self { stage = stage.now } }
    {
        let LaneJob {
            kind,
            scan,
            reader,
            outside,
            group,
            ..
        } = self;
        LaneJob {
            kind,
            scan,
            reader,
            outside,
            group,
            stage: Snapshot::of(stage),
        }
    }
}

impl<K: AtHome, G: AtHome, H: Io> LoadJob<K> for LaneJob<G, H> {
    ghost use Rattle.std.specs.Prelude.{◌≡◌};
    ghost use Rattle.morsel_scan_units.specs.LaneJobs.{SuitsLane};

    ghost suits = { SuitsLane };

    ghost holds = { λ job token. K.home token ≡ job.tokens };
}
