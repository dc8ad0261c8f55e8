//! The caller's loop.
ghost use Rattle.std.specs.Prelude.{◌≡◌, true, ℕ, ◌+◌, ◌*◌, ◌^◌, ◌<◌, ◌≤◌, List, ◌++◌, length, OnOk, IfErr, IfOk};
ghost use Rattle.morsel_outside.specs.Actions.{Action};
ghost use Rattle.morsel_scan.specs.Ahead.{EndsEachRow};
ghost use Rattle.morsel_drive.specs.Lines.{IsSoundAxis, ReadsFor};
ghost use Rattle.morsel_scan.specs.StretchRows.{before_fault};
ghost use Rattle.morsel_drive.specs.Sweeping.{SweepsFew};
ghost use Rattle.morsel_drive.specs.Driving.{IsAfter, WritesPart, WritesOn, KeepsOrStops, KeepsText, HoldsFitting, HoldsPieceOf, HasEnded, FitsInput, GivesInput, ReadsInTime, EndsWith, DrivesAxis, Drives};

use crate::line::{Line, LineJob, PieceSource, Taken};
use crate::progress::{IDLE_SWEEPS, Progress, Reached, after_sweep, place_reached};
use crate::written::Written;
use morsel_local::Steps;
use morsel_meaning::Fault;
use morsel_outside::{Gate, Io};
use morsel_pipe::{Encoded, RawPiece};
use morsel_sink::SinkWriter;
use std::sync::ledger::Ledger;

/// What the caller holds of the input.
#[derive(Debug, Drop)]
pub enum Input {
    /// Nothing: the next piece is to be read.
    Reading,
    /// A piece that the line had no room for.
    Holding(RawPiece),
    /// Nothing: all was read.
    Ended,
}

/// Writes a part where it begins at the place where the text ends, and ends within the bytes that were given.
fn write_part<H: Io>(
    io: &mut H,
    writer: &mut SinkWriter,
    part: Encoded,
    given: u64,
    written: &mut Written,
) -> Result<(), Fault>
    requires made { 0 < (H.seen io.old).sinks }
    requires rows { writer.old.rows ≡ written.old.rows }
    ensures writes { WritesPart (H.seen io.old) part written.old result (H.seen io.new) written.new }
    ensures rows { OnOk result (writer.new.rows ≡ written.new.rows) }
    ensures within { (size : ℕ) → given ≤ size → written.old.next ≤ size → written.new.next ≤ size }
    ensures more { written.old.rows ≤ written.new.rows }
    ensures small { written.old.rows < 2 ^ 64 → written.new.rows < 2 ^ 64 }
{
    // The parts come in order, so these tests never fail. With them nothing has to be known of what goes on in the line.
    if part.from != written.next || part.skip != written.rows - written.begun || part.to > given {
        return Err(Fault::OutOfMemory);
    }
    let Some(rows) = written.rows.checked_add(part.rows) else {
        return Err(Fault::OutOfMemory);
    };
    let then = after(*written, &part, rows);
    match writer.put(io, part) {
        Ok(()) => {
            *written = then;
            Ok(())
        }
        Err(fault) => Err(fault),
    }
}

/// How far the text is after a part, of so many rows in all.
fn after(written: Written, part: &Encoded, rows: u64) -> Written
    requires { rows ≡ written.rows + part.now.rows }
    ensures { IsAfter part.now written result }
{
    if part.last {
        return Written {
            next: part.to,
            begun: rows,
            rows,
        };
    }
    Written {
        next: written.next,
        begun: written.begun,
        rows,
    }
}

/// Takes parts out and writes them until none is there; answers whether the line has ended.
pub fn write_on<H: Io, L: Line>(
    io: &mut H,
    line: &mut L,
    writer: &mut SinkWriter,
    given: u64,
    written: &mut Written,
) -> Result<bool, Fault>
    requires made { 0 < (H.seen io.old).sinks }
    requires rows { writer.old.rows ≡ written.old.rows }
    ensures writes { WritesOn (λ writes. (job : L.Job) → L.serves line.old job → IsSoundAxis (L.Job.axis job)
        → OnOk result (L.serves line.new job) × ((w chunk : ℕ) (before : List Action) → KeepsText (L.Job.axis job) w chunk before written.old
        → KeepsOrStops (L.Job.axis job) w chunk (before ++ writes) result written.new)) (H.seen io.old) result (H.seen io.new) }
    ensures told { (job : L.Job) → L.told line.new job → L.told line.old job }
    ensures whole { IfOk result (λ whole. whole ≡ true → L.is_whole line.new) }
    ensures rows { OnOk result (writer.new.rows ≡ written.new.rows) }
    ensures joined { L.is_joined line.old → L.is_joined line.new }
    ensures stays { (begun : L) → L.stays begun line.old → L.stays begun line.new }
    ensures within { (size : ℕ) → given ≤ size → written.old.next ≤ size → written.new.next ≤ size }
    ensures more { written.old.rows ≤ written.new.rows }
    ensures small { written.old.rows < 2 ^ 64 → written.new.rows < 2 ^ 64 }
{
    'parts: for _ in 0..u64::MAX {
        match line.take() {
            Taken::Empty => return Ok(false),
            Taken::Whole => return Ok(true),
            Taken::Part(part) => {
                if let Err(fault) = write_part(io, writer, part, given, written) {
                    return Err(fault);
                }
            }
        }
    }
    Ok(false)
}

/// Reads a piece where none is held and fewer than `bound` bytes were given and are not written.
pub fn read_on<H: Io, J: LineJob, S: PieceSource<H, J>>(
    io: &mut H,
    reader: &mut S,
    written: &Written,
    bound: u64,
    input: Input,
) -> Result<Input, Fault>
    requires suits { S.suits reader.old (H.seen io.old) }
    requires fits { HoldsFitting input }
    requires ended { HasEnded input → S.ended reader.old }
    requires within { S.given reader.old ≤ S.size reader.old (H.seen io.old).sizes }
    ensures suits { OnOk result (S.suits reader.new (H.seen io.new)) }
    ensures chunk { S.chunk reader.new ≡ S.chunk reader.old }
    ensures same_size { (sizes : List ℕ) → S.size reader.new sizes ≡ S.size reader.old sizes }
    ensures within { OnOk result (S.given reader.new ≤ S.size reader.old (H.seen io.old).sizes) }
    ensures fits { IfOk result HoldsFitting }
    ensures ended { IfOk result (λ held. HasEnded held → S.ended reader.new) }
    ensures failed { IfErr result (S.failed reader.new) }
    ensures reads { ReadsFor (S.did reader.old reader.new (H.seen io.old).sizes) (λ events. (job : J) → S.reads reader.old job (H.seen io.old) → EndsEachRow (J.axis job)
        → ReadsInTime (J.axis job) (bound + (J.axis job).longest) (S.chunk reader.old) (S.asked reader.old) written.now.next result (S.asked reader.new) events) (H.seen io.old) (H.seen io.new) }
    ensures input { (job : J) → S.reads reader.old job (H.seen io.old) → FitsInput (J.is_piece job) (J.is_end job) (S.given reader.old) (S.asked reader.old) input
        → GivesInput (J.is_piece job) (J.is_due job) (J.is_end job) (S.reads reader.new job (H.seen io.new)) (S.given reader.new) (S.asked reader.new) result }
{
    let Input::Reading = input else {
        return Ok(input);
    };
    if reader.given().saturating_sub(written.next) >= bound {
        return Ok(Input::Reading);
    }
    match reader.next(io) {
        Err(fault) => Err(fault),
        Ok(None) => Ok(Input::Ended),
        Ok(Some(piece)) => Ok(Input::Holding(piece)),
    }
}

/// Feeds the piece that is held, where the line has room; closes the line at the end of the input.
pub fn feed_on<L: Line>(line: &mut L, input: Input) -> Input
    requires fits { HoldsFitting input }
    requires told { (job : L.Job) → L.told line.old job → HoldsPieceOf (L.Job.is_piece job) input }
    ensures told { (job : L.Job) → L.told line.new job → L.told line.old job }
    ensures joined { L.is_joined line.old → L.is_joined line.new }
    ensures stays { (begun : L) → L.stays begun line.old → L.stays begun line.new }
    ensures fits { HoldsFitting result }
    ensures ended { HasEnded result → HasEnded input }
    ensures input { (job : L.Job) → L.serves line.old job → (given asked : ℕ) → FitsInput (L.Job.is_piece job) (L.Job.is_end job) given asked input
        → L.serves line.new job × FitsInput (L.Job.is_piece job) (L.Job.is_end job) given asked result }
{
    match input {
        Input::Reading => Input::Reading,
        Input::Ended => {
            line.close();
            Input::Ended
        }
        Input::Holding(piece) => match line.feed(piece) {
            Ok(()) => Input::Reading,
            Err(piece) => Input::Holding(piece),
        },
    }
}

/// Ends the text where the line has ended: the answer is the number of rows that were written, where they are those of all the
/// input and no others.
fn end<H: Io>(
    io: &mut H,
    writer: SinkWriter,
    given: u64,
    input: &Input,
    written: &Written,
) -> Result<u64, Fault>
    requires rows { writer.rows ≡ written.now.rows }
    ensures answer { EndsWith given input.now written.now result }
    ensures same { H.seen io.new ≡ H.seen io.old }
{
    match input {
        Input::Ended if written.next == given && written.begun == written.rows => writer.finish(io),
        _ => Err(Fault::OutOfMemory),
    }
}

/// Reads the input of a line, feeds it, and writes what comes out; answers how many rows were written.
///
/// The sink is made, what comes before its first row is written, and the writer has written no row. No read is made while `bound`
/// bytes or more were given and are not written. It gives up where many sweeps in a row bring it no further, so it makes few sweeps
/// for each byte, and for each row where rows count as progress, and always returns. After a fault of the line it makes no further
/// sweep.
pub fn drive<H: Io, L: Line, S: PieceSource<H, <L as Line>::Job>, G: Gate, Y: Ledger>(
    io: &mut H,
    reader: &mut S,
    line: &mut L,
    mut writer: SinkWriter,
    bound: u64,
    progress: Progress,
    gate: &G,
    steps: &mut Steps<Y>,
) -> Result<u64, Fault>
    requires made { 0 < (H.seen io.old).sinks }
    requires none_written { writer.rows ≡ 0 }
    requires suits { S.suits reader.old (H.seen io.old) }
    requires given { S.given reader.old ≡ 0 }
    requires asked { S.asked reader.old ≡ 0 }
    requires told { (job : L.Job) → L.told line.old job → S.reads reader.old job (H.seen io.old) × L.serves line.old job × IsSoundAxis (L.Job.axis job) }
    requires joined { L.is_joined line.old }
    ensures sweeps { SweepsFew progress (S.size reader.old (H.seen io.old).sizes) steps.old steps.new (λ rows. (job : L.Job)
        → S.reads reader.old job (H.seen io.old) → L.serves line.old job → IsSoundAxis (L.Job.axis job) → rows ≤ length (before_fault (L.Job.axis job).gives)) }
    ensures whole { OnOk result (L.is_whole line.new) }
    ensures stays { (begun : L) → L.stays begun line.old → L.stays begun line.new }
    ensures drives { Drives (S.did reader.old reader.new (H.seen io.old).sizes) (S.failed reader.new) (L.broke line.new) (S.ended reader.new × S.suits reader.new (H.seen io.new)) (λ actions. (job : L.Job)
        → S.reads reader.old job (H.seen io.old) → L.serves line.old job → IsSoundAxis (L.Job.axis job)
        → DrivesAxis (L.Job.axis job) (L.Job.is_due job) (L.Job.is_end job) (S.given reader.new) (S.reads reader.new job (H.seen io.new)) (bound + (L.Job.axis job).longest) (S.chunk reader.old) actions result)
        (H.seen io.old) result (H.seen io.new) }
{
    let mut written = Written {
        next: 0,
        begun: 0,
        rows: 0,
    };
    let mut input = Input::Reading;
    let mut reached = Reached {
        furthest: 0,
        idle: 0,
    };
    'turns: for _ in 0..u64::MAX {
        // No run comes so far: a piece goes through the line in a few sweeps.
        if reached.idle >= IDLE_SWEEPS {
            return Err(Fault::OutOfMemory);
        }
        input = match read_on(io, reader, &written, bound, input) {
            Ok(input) => input,
            Err(fault) => return Err(fault),
        };
        input = feed_on(line, input);
        if let Err(fault) = line.step(gate, steps) {
            return Err(fault);
        }
        let given = reader.given();
        let whole = match write_on(io, line, &mut writer, given, &mut written) {
            Ok(whole) => whole,
            Err(fault) => return Err(fault),
        };
        if whole {
            return end(io, writer, given, &input, &written);
        }
        reached = after_sweep(place_reached(progress, given, &written), reached);
    }
    // No run makes so many turns.
    Err(Fault::OutOfMemory)
}
