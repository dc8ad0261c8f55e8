//! What the caller asks of a reader and of a line of tasks.
//!
//! What contracts say of the rows, they say for each job: what a line is for, given what the files contain. Where nothing tells
//! that, there is no job that a reader reads, and they say nothing.
ghost use Rattle.std.specs.Prelude.{◌≡◌};

use morsel_local::Steps;
use morsel_meaning::Fault;
use morsel_outside::{Gate, Io};
use morsel_pipe::{Encoded, RawPiece};
use std::sync::ledger::Ledger;

/// What a line has to take out.
#[derive(Debug, Drop)]
pub enum Taken {
    /// The next part of the text.
    Part(Encoded),
    /// There is none yet.
    Empty,
    /// All was taken, and no more comes.
    Whole,
}

/// What a line is for: the input that it is fed, and what each place of it gives at the end of the line. Contracts alone see it.
pub trait LineJob {
    ghost use Rattle.std.specs.Prelude.{ℕ};
    ghost use Rattle.morsel_meaning.specs.declared.fault.Fault.{Fault};
    ghost use Rattle.morsel_pipe.specs.Pieces.{Piece};
    ghost use Rattle.morsel_scan.specs.Ahead.{Axis};

    /// What each place of the input gives at the end of the line.
    ghost axis: { Self → Axis };

    /// The piece is one of the input.
    ghost is_piece: { Self → Piece → Type 0 };

    /// No place after this one gives a row, where so many bytes of the input were asked.
    ghost is_end: { Self → ℕ → ℕ → Type 0 };

    /// The fault is due: by a record, or a row, or by what the files are.
    ghost is_due: { Self → Fault → Type 0 };
}

/// A line of tasks, from the pieces of a scan to the text of rows.
pub trait Line {
    ghost use Rattle.std.specs.Prelude.{◌≡◌, ◌+◌, IfErr, OnOk};
    ghost use Rattle.morsel_meaning.specs.declared.fault.Fault.{Fault};
    ghost use Rattle.morsel_scan.specs.CsvScans.{FitsScan};
    ghost use Rattle.morsel_drive.specs.Lines.{IfPart, OnWhole, SuitsPart, IsDue};

    /// What a line is for.
    type Job: LineJob;

    /// The line is for this job, and all that it was fed is of its input.
    ghost serves: { Self → Self.Job → Type 0 };

    /// The line was told of this job when it was made, and asks that each piece be one of its input.
    ghost told: { Self → Self.Job → Type 0 };

    /// The line has ended with this fault.
    ghost broke: { Self → Fault → Type 0 };

    /// All that came out of it was taken, and no more comes.
    ghost is_whole: { Self → Type 0 };

    /// Nothing that a task of it has ended with is left to be looked at.
    ghost is_joined: { Self → Type 0 };

    /// What it keeps of what it was: as it was, and as it is.
    ghost stays: { Self → Self → Type 0 };

    /// Feeds a piece, or hands it back where there is no room.
    fn feed(&mut self, piece: RawPiece) -> Result<(), RawPiece>
        requires fits { FitsScan piece }
        requires told { (job : Self.Job) → told self.old job → Self.Job.is_piece job piece }
        ensures serves { (job : Self.Job) → serves self.old job → Self.Job.is_piece job piece → serves self.new job }
        ensures told { (job : Self.Job) → told self.new job → told self.old job }
        ensures joined { is_joined self.old → is_joined self.new }
        ensures stays { (begun : Self) → stays begun self.old → stays begun self.new }
        ensures back { IfErr result (λ back. back ≡ piece) };

    /// Says that no piece follows.
    fn close(&mut self)
        ensures serves { (job : Self.Job) → serves self.old job → serves self.new job }
        ensures told { (job : Self.Job) → told self.new job → told self.old job }
        ensures joined { is_joined self.old → is_joined self.new }
        ensures stays { (begun : Self) → stays begun self.old → stays begun self.new };

    /// Lets each task that can run do so, between the gate's `enter` and `left`: a sweep. Once a task has ended with a fault, or
    /// with a cut, no sweep follows.
    fn step<G: Gate, Y: Ledger>(&mut self, gate: &G, steps: &mut Steps<Y>) -> Result<(), Fault>
        requires joined { is_joined self.old }
        ensures joined { OnOk result (is_joined self.new) }
        ensures counted { steps.new ≡ steps.old + 1 }
        ensures serves { (job : Self.Job) → serves self.old job → OnOk result (serves self.new job) }
        ensures told { (job : Self.Job) → told self.new job → told self.old job }
        ensures stays { (begun : Self) → stays begun self.old → stays begun self.new }
        ensures broke { IfErr result (broke self.new) }
        ensures due { (job : Self.Job) → serves self.old job → IfErr result (IsDue (Self.Job.is_due job)) };

    /// Takes a part out.
    fn take(&mut self) -> Taken
        ensures serves { (job : Self.Job) → serves self.old job → serves self.new job }
        ensures told { (job : Self.Job) → told self.new job → told self.old job }
        ensures joined { is_joined self.old → is_joined self.new }
        ensures stays { (begun : Self) → stays begun self.old → stays begun self.new }
        ensures suits { (job : Self.Job) → serves self.old job → IfPart result (SuitsPart (Self.Job.axis job)) }
        ensures whole { OnWhole result (is_whole self.new) };
}

/// The reader of the pieces of a scan that go into a line.
pub trait PieceSource<H: Io, J: LineJob> {
    ghost use Rattle.std.specs.Prelude.{◌≡◌, ℕ, ◌≤◌, List, [], ◌++◌, None, OnOk, IfOk, IfErr};
    ghost use Rattle.morsel_meaning.specs.declared.fault.Fault.{Fault};
    ghost use Rattle.morsel_outside.specs.Outside.{Outside};
    ghost use Rattle.morsel_outside.specs.Actions.{Action};
    ghost use Rattle.morsel_drive.specs.Lines.{GivesFitting, GivesNext, SeeksFor, ReadsFor};

    /// The reader is one of this outside, between two calls.
    ghost suits: { Self → Outside → Type 0 };

    /// What the files contain is told, the reader reads the input of this job, and gave what its places before `given` give.
    ghost reads: { Self → J → Outside → Type 0 };

    /// The place where the last piece's stretch ends.
    ghost given: { Self → ℕ };

    /// How many bytes of the sources were asked.
    ghost asked: { Self → ℕ };

    /// How many bytes the sources have, where the opened files have these sizes.
    ghost size: { Self → List ℕ → ℕ };

    /// How many bytes a read asks at most.
    ghost chunk: { Self → ℕ };

    /// Calls that took the reader from one state to another, over files of these sizes, did this.
    ghost did: { Self → Self → List ℕ → List Action → Type 0 };

    /// The reader has come to the end of its input.
    ghost ended: { Self → Type 0 };

    /// The reader answered this fault.
    ghost failed: { Self → Fault → Type 0 };

    /// The next piece; `None` at the end.
    fn next(&mut self, io: &mut H) -> Result<Option<RawPiece>, Fault>
        requires suits { suits self.old (H.seen io.old) }
        ensures suits { OnOk result (suits self.new (H.seen io.new)) }
        ensures same { chunk self.new ≡ chunk self.old }
        ensures same_size { (sizes : List ℕ) → size self.new sizes ≡ size self.old sizes }
        ensures within { OnOk result (given self.new ≤ size self.old (H.seen io.old).sizes) }
        ensures fits { GivesFitting result }
        ensures failed { IfErr result (failed self.new) }
        ensures ended { IfOk result (λ found. found ≡ None → ended self.new) }
        ensures reads { ReadsFor (did self.old self.new (H.seen io.old).sizes) (λ events. (job : J) → reads self.old job (H.seen io.old)
            → SeeksFor (J.axis job) (chunk self.old) (given self.old) (asked self.old) result (asked self.new) events) (H.seen io.old) (H.seen io.new) }
        ensures piece { (job : J) → reads self.old job (H.seen io.old)
            → GivesNext (J.is_piece job) (J.is_due job) (J.is_end job) (reads self.new job (H.seen io.new)) (given self.old) result (given self.new) (asked self.new) };

    /// The place where the last piece's stretch ends.
    fn given(&self) -> u64
        ensures { result ≡ given self.now };

    /// Neither counts of faults nor sinks are its matter.
    ghost suits_on: { (reader : Self) (old new : Outside) → new.sizes ≡ old.sizes → suits reader old → suits reader new };

    /// It reads on over the same files.
    ghost reads_on: { (reader : Self) (job : J) (old new : Outside) → new.sizes ≡ old.sizes → new.held ≡ old.held → reads reader job old → reads reader job new };

    /// No call did nothing.
    ghost did_nothing: { (reader : Self) (sizes : List ℕ) → did reader reader sizes [] };

    /// Calls after others did what these did, and then their own.
    ghost did_on: { (first between last : Self) (sizes : List ℕ) (old more : List Action) → did first between sizes old → did between last sizes more → did first last sizes (old ++ more) };
}
