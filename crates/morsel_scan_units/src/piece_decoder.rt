//! What a source's unit makes: rows of pieces.
ghost use Rattle.std.specs.Prelude.{◌≡◌};
ghost use Rattle.std.specs.Arc.{arc_value};
ghost use Rattle.morsel_scan.specs.CsvScans.{FitsScan, Decodes};
ghost use Rattle.morsel_scan_units.specs.LaneJobs.{DecodesPiece};

use crate::at_home::AtHome;
use crate::lane_job::LaneJob;
use morsel_line::piece_fault;
use morsel_load::{Load, Morsel, SourceToken, Stretch};
use morsel_meaning::Fault;
use morsel_outside::Io;
use morsel_pipe::RawPiece;
use morsel_scan::CsvSourceNode;
use morsel_text::ReadRoom;
use morsel_units::LoadMaker;
use std::alloc::Global;
use std::sync::Arc;

/// Makes a morsel of each piece of a scan, also where no row of it stays.
#[derive(Drop)]
pub struct PieceDecoder {
    node: Arc<CsvSourceNode, Global>,
    source: SourceToken,
    // For the next piece.
    room: ReadRoom,
    alloc: Global,
}

impl PieceDecoder {
    /// One for the scan of this node, with a token of its source.
    pub fn new(alloc: Global, node: Arc<CsvSourceNode, Global>, source: SourceToken) -> PieceDecoder
        ensures { arc_value result.node ≡ arc_value node }
    {
        PieceDecoder {
            node,
            source,
            room: ReadRoom::new(alloc),
            alloc,
        }
    }

    /// The rows of the scan that a piece has, for its stretch.
    fn morsel_of<K, J>(&mut self, piece: RawPiece) -> Result<Morsel<K, J>, Fault>
        requires fits { FitsScan piece }
        ensures decodes { DecodesPiece (arc_value self.old.node) piece result }
        ensures same { arc_value self.new.node ≡ arc_value self.old.node }
    {
        let stretch = Stretch {
            from: piece.from,
            to: piece.to,
            skip: 0,
            last: true,
        };
        let seq = piece.seq;
        match self.node.decode_with(self.alloc, piece, &mut self.room) {
            Ok(frame) => {
                let mut morsel = Morsel::new(frame, seq, self.source.again()?);
                morsel.set_stretch(stretch);
                Ok(morsel)
            }
            Err(fault) => Err(piece_fault(fault)),
        }
    }
}

impl<K: AtHome + Drop, G: AtHome, H: Io> LoadMaker<K, LaneJob<G, H>> for PieceDecoder {
    ghost use Rattle.std.specs.Prelude.{◌≡◌, None, IfOk, IfErr};
    ghost use Rattle.std.specs.Arc.{arc_value};
    ghost use Rattle.morsel_load.specs.Loads.{held_token, load_seen};
    ghost use Rattle.morsel_lane_pipe.specs.Stretches.{ends_of};
    ghost use Rattle.morsel_scan_units.specs.LaneJobs.{DecodesBetween, IsFittingPiece, IsUnitFault, LaneFor, SuitsLane};
    ghost use Rattle.morsel_scan_units.specs.LaneLaws.{takes_piece};

    ghost joins = { λ decoder. DecodesBetween (arc_value decoder.node) };

    ghost takes = { λ decoder load. IsFittingPiece load };

    ghost may_fail = { IsUnitFault };

    fn make(&mut self, load: Load<K, LaneJob<G, H>>) -> Result<Load<K, LaneJob<G, H>>, Fault>
        requires takes { IsFittingPiece (load_seen load) }
        requires free { held_token load ≡ None }
        ensures joins { (from to : LaneFor) → DecodesBetween (arc_value self.old.node) from to → DecodesBetween (arc_value self.new.node) from to }
        ensures suits { IfOk result (λ made. (from to : LaneFor) → DecodesBetween (arc_value self.old.node) from to → SuitsLane from (load_seen load) → SuitsLane to (load_seen made)) }
        ensures free { IfOk result (λ made. held_token made ≡ None) }
        ensures stretch { IfOk result (λ made. ends_of (load_seen made) ≡ ends_of (load_seen load)) }
        ensures failed { IfErr result (λ fault. (from to : LaneFor) → DecodesBetween (arc_value self.old.node) from to → SuitsLane from (load_seen load) → IsUnitFault from fault) }
    {
        match load {
            Load::Piece(piece) => match self.morsel_of(piece) {
                Ok(morsel) => Ok(Load::Morsel(morsel)),
                Err(fault) => Err(fault),
            },
            _ => unreachable!(),
        }
    }

    ghost takes_suiting = { λ decoder from to seen joins suits. takes_piece (arc_value decoder.node) from to seen joins.1 suits };
}
