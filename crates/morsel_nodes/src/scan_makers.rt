//! The source and the sink of a scan, as what gives units their makers.
ghost use Rattle.std.specs.Prelude.{◌≡◌};
ghost use Rattle.std.specs.Arc.{arc_value};

use crate::load_makers::{LoadMakers, Role};
use morsel_load::SourceToken;
use morsel_meaning::Fault;
use morsel_outside::Io;
use morsel_scan::CsvSourceNode;
use morsel_scan_units::{AtHome, FrameEncoder, LaneJob, PieceDecoder};
use morsel_sink::NDJsonSinkNode;
use std::alloc::Global;
use std::sync::Arc;

/// The source of a scan of CSV files, whose units decode its pieces. They share it, and each has a token of its own by which
/// whoever takes its rows may stop it.
#[derive(Drop)]
pub struct CsvSourceMakers {
    node: Arc<CsvSourceNode, Global>,
}

impl CsvSourceMakers {
    /// Those of this node.
    pub fn new(node: Arc<CsvSourceNode, Global>) -> CsvSourceMakers
        ensures { arc_value result.node ≡ arc_value node }
    {
        CsvSourceMakers { node }
    }
}

impl<K: AtHome + Drop, G: AtHome, H: Io> LoadMakers<K, LaneJob<G, H>> for CsvSourceMakers {
    ghost use Rattle.std.specs.Prelude.{codes};
    ghost use Rattle.std.specs.Arc.{arc_value};
    ghost use Rattle.morsel_scan_units.specs.LaneJobs.{DecodesBetween};
    ghost use Rattle.morsel_nodes.specs.declared.load_makers.Role.TheVariants.{Source};

    type Maker = PieceDecoder;

    ghost named = { λ makers. codes "csv_source" };

    ghost role_of = { λ makers. Source };

    ghost joins = { λ makers. DecodesBetween (arc_value makers.node) };

    fn name(&self) -> &str {
        "csv_source"
    }

    fn role(&self) -> Role {
        Role::Source
    }

    fn maker(&self, alloc: Global) -> Result<PieceDecoder, Fault> {
        let node = self.node.clone()?;
        Ok(PieceDecoder::new(alloc, node, SourceToken::new(alloc)?))
    }
}

/// The sink of rows as NDJSON, whose units encode them. They share it.
#[derive(Drop)]
pub struct NDJsonSinkMakers {
    node: Arc<NDJsonSinkNode, Global>,
}

impl NDJsonSinkMakers {
    /// Those of this node.
    pub fn new(node: Arc<NDJsonSinkNode, Global>) -> NDJsonSinkMakers
        ensures { arc_value result.node ≡ arc_value node }
    {
        NDJsonSinkMakers { node }
    }
}

impl<K: AtHome + Drop, G: AtHome, H: Io> LoadMakers<K, LaneJob<G, H>> for NDJsonSinkMakers {
    ghost use Rattle.std.specs.Prelude.{codes};
    ghost use Rattle.std.specs.Arc.{arc_value};
    ghost use Rattle.morsel_scan_units.specs.LaneJobs.{EncodesBetween};
    ghost use Rattle.morsel_nodes.specs.declared.load_makers.Role.TheVariants.{Sink};

    type Maker = FrameEncoder;

    ghost named = { λ makers. codes "ndjson_sink" };

    ghost role_of = { λ makers. Sink };

    ghost joins = { λ makers. EncodesBetween (arc_value makers.node) };

    fn name(&self) -> &str {
        "ndjson_sink"
    }

    fn role(&self) -> Role {
        Role::Sink
    }

    fn maker(&self, alloc: Global) -> Result<FrameEncoder, Fault> {
        Ok(FrameEncoder::new(alloc, self.node.clone()?))
    }
}
