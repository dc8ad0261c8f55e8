//! What a sink's unit makes: parts of its text, of rows.
ghost use Rattle.std.specs.Prelude.{◌≡◌, IfOk, IsOkUnless};
ghost use Rattle.std.specs.Arc.{arc_value};
ghost use Rattle.morsel_meaning.specs.Values.{names_of};
ghost use Rattle.morsel_meaning.specs.declared.fault.Fault.TheVariants.{OutOfMemory};
ghost use Rattle.morsel_scan_units.specs.LaneJobs.{EncodesFor};

use crate::at_home::AtHome;
use crate::lane_job::LaneJob;
use morsel_frame::Frame;
use morsel_load::{Load, Stretch};
use morsel_meaning::Fault;
use morsel_outside::Io;
use morsel_pipe::Encoded;
use morsel_sink::NDJsonSinkNode;
use morsel_units::LoadMaker;
use std::alloc::Global;
use std::sync::Arc;

/// Makes a part of NDJSON of each morsel, also where it has no rows.
#[derive(Drop)]
pub struct FrameEncoder {
    node: Arc<NDJsonSinkNode, Global>,
    alloc: Global,
}

impl FrameEncoder {
    /// One for rows of the columns of this node.
    pub fn new(alloc: Global, node: Arc<NDJsonSinkNode, Global>) -> FrameEncoder
        ensures { arc_value result.node ≡ arc_value node }
    {
        FrameEncoder { node, alloc }
    }

    /// The text of the rows of a frame, for their stretch.
    fn part_of(&self, frame: &Frame, stretch: Stretch) -> Result<Encoded, Fault>
        requires schema { frame.now.schema ≡ arc_value self.now.node }
        ensures part { IfOk result (EncodesFor (names_of (arc_value self.now.node)) frame.now.rows stretch) }
        ensures out_of_memory { IsOkUnless result OutOfMemory }
    {
        let mut part = self.node.encode(self.alloc, frame)?;
        part.from = stretch.from;
        part.to = stretch.to;
        part.skip = stretch.skip;
        part.last = stretch.last;
        Ok(part)
    }
}

impl<K: AtHome + Drop, G: AtHome, H: Io> LoadMaker<K, LaneJob<G, H>> for FrameEncoder {
    ghost use Rattle.std.specs.Prelude.{◌≡◌, None, IfOk, IfErr};
    ghost use Rattle.std.specs.Arc.{arc_value};
    ghost use Rattle.morsel_load.specs.Loads.{held_token, load_seen};
    ghost use Rattle.morsel_lane_pipe.specs.Stretches.{ends_of};
    ghost use Rattle.morsel_scan_units.specs.LaneJobs.{AreRowsOf, EncodesBetween, IsUnitFault, LaneFor, SuitsLane};
    ghost use Rattle.morsel_scan_units.specs.LaneLaws.{takes_rows};

    ghost joins = { λ encoder. EncodesBetween (arc_value encoder.node) };

    ghost takes = { λ encoder load. AreRowsOf (arc_value encoder.node) load };

    ghost may_fail = { IsUnitFault };

    fn make(&mut self, load: Load<K, LaneJob<G, H>>) -> Result<Load<K, LaneJob<G, H>>, Fault>
        requires takes { AreRowsOf (arc_value self.old.node) (load_seen load) }
        requires free { held_token load ≡ None }
        ensures joins { (from to : LaneFor) → EncodesBetween (arc_value self.old.node) from to → EncodesBetween (arc_value self.new.node) from to }
        ensures suits { IfOk result (λ made. (from to : LaneFor) → EncodesBetween (arc_value self.old.node) from to → SuitsLane from (load_seen load) → SuitsLane to (load_seen made)) }
        ensures free { IfOk result (λ made. held_token made ≡ None) }
        ensures stretch { IfOk result (λ made. ends_of (load_seen made) ≡ ends_of (load_seen load)) }
        ensures failed { IfErr result (λ fault. (from to : LaneFor) → EncodesBetween (arc_value self.old.node) from to → SuitsLane from (load_seen load) → IsUnitFault from fault) }
    {
        match load {
            Load::Morsel(morsel) => {
                let seq = morsel.seq();
                match self.part_of(morsel.df(), morsel.stretch()) {
                    Ok(part) => Ok(Load::Part(seq, part)),
                    Err(fault) => Err(fault),
                }
            }
            _ => unreachable!(),
        }
    }

    ghost takes_suiting = { λ encoder from to seen joins suits. takes_rows (arc_value encoder.node) from.scan from to seen joins.0 joins.1 suits };
}
