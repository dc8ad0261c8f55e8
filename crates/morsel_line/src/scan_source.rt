//! The reader of a scan's files as what a line is fed from.
ghost use Rattle.std.specs.Prelude.{◌≡◌};

use crate::job::ScanJob;
use morsel_drive::PieceSource;
use morsel_meaning::Fault;
use morsel_outside::Io;
use morsel_pipe::RawPiece;
use morsel_read::ScanReader;
use std::marker::Model;

/// The pieces of a scan's files, for a line.
#[derive(Debug, Drop)]
pub struct ScanSource {
    reader: ScanReader,
}

impl Model for ScanSource {
    ghost use Rattle.morsel_read.specs.ScanReads.{PiecesRead};

    ghost Value = { PiecesRead };

    ghost view = { λ source. source.reader };
}

impl ScanSource {
    /// The pieces that this reader gives.
    pub fn new(reader: ScanReader) -> ScanSource
        ensures { result ≡ reader }
    {
        ScanSource { reader }
    }
}

impl<H: Io> PieceSource<H, ScanJob> for ScanSource {
    ghost use Rattle.std.specs.Prelude.{◌≡◌, Some, None};
    ghost use Rattle.std.specs.List.{sum_by};
    ghost use Rattle.morsel_read.specs.ScanReads.{asked_to, sizes_in, SuitsPieces, IsPiecesFaultOf};
    ghost use Rattle.morsel_read.specs.PieceReads.{HasGivenAll};
    ghost use Rattle.morsel_line.specs.ScanSources.{DidRead, ReadsJob};
    ghost use Rattle.morsel_line.specs.SourceLaws.{suits_on, reads_on, did_nothing, did_on};

    ghost suits = { λ source o. SuitsPieces o source };

    ghost reads = { ReadsJob };

    ghost given = { λ source. source.given };

    ghost asked = { asked_to };

    ghost size = { λ source sizes. sum_by (λ n. n) (sizes_in sizes source.sources.files) };

    ghost chunk = { λ source. source.sources.chunk };

    ghost did = { DidRead };

    ghost ended = { λ source. HasGivenAll source × (source.fault ≡ None) };

    ghost failed = { λ source fault. (source.fault ≡ Some fault) × IsPiecesFaultOf source.sources fault };

    fn next(&mut self, io: &mut H) -> Result<Option<RawPiece>, Fault> {
        self.reader.next(io)
    }

    fn given(&self) -> u64 {
        self.reader.given()
    }

    ghost suits_on = { suits_on };

    ghost reads_on = { reads_on };

    ghost did_nothing = { did_nothing };

    ghost did_on = { did_on };
}
