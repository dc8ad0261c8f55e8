//! The caller's loop for a line that gives no text.
ghost use Rattle.std.specs.Prelude.{◌≡◌, ◌⊎◌, ℕ, ◌+◌, ◌*◌, ◌<◌, ◌≤◌, List, OnOk, IfErr, IfOk};
ghost use Rattle.morsel_scan.specs.Ahead.{asked_up_to};
ghost use Rattle.morsel_drive.specs.Lines.{ReadsFor};
ghost use Rattle.morsel_drive.specs.Driving.{HoldsFitting, HasEnded, FitsInput, GivesInput};
ghost use Rattle.morsel_drain.specs.Draining.{EndsInput, DrainsAxis, Drains};
ghost use Rattle.morsel_drain.specs.Finding.{HoldsRowsTo, IsRowsEnd, SweepsFinding};

use morsel_drive::{
    IDLE_SWEEPS, Input, Line, LineJob, PieceSource, Reached, Taken, after_sweep, feed_on,
};
use morsel_local::Steps;
use morsel_meaning::Fault;
use morsel_outside::{Gate, Io};
use std::sync::ledger::Ledger;

/// How many sweeps rows may still bring that find many.
#[derive(Clone, Copy, Debug)]
struct Finding {
    /// The position behind the last row of the pieces that were read.
    rows: u64,
    /// How many sweeps those rows may still bring with no byte more that is given.
    spare: u64,
}

/// Reads the input of a line that gives no text, feeds it, and lets the line go on until it is whole; answers how many bytes were
/// given.
///
/// What the rows become is kept by the nodes at the end of the line. A piece is read where none is held, so only while the line has
/// room. It gives up where many sweeps in a row bring no byte more that was given, so it makes few sweeps for each byte and always
/// returns. After a fault of the line it makes no further sweep.
///
/// Behind a join `per_row` is how many rows a row of a piece may find, which may be very many of one byte; so many times more sweeps
/// may bring no byte more. Where the rows themselves are kept it is 0.
pub fn drain<H: Io, L: Line, S: PieceSource<H, <L as Line>::Job>, G: Gate, Y: Ledger>(
    io: &mut H,
    reader: &mut S,
    line: &mut L,
    gate: &G,
    per_row: u64,
    steps: &mut Steps<Y>,
) -> Result<u64, Fault>
    requires suits { S.suits reader.old (H.seen io.old) }
    requires given { S.given reader.old ≡ 0 }
    requires asked { S.asked reader.old ≡ 0 }
    requires told { (job : L.Job) → L.told line.old job → S.reads reader.old job (H.seen io.old) × L.serves line.old job }
    requires joined { L.is_joined line.old }
    ensures sweeps { SweepsFinding (S.size reader.old (H.seen io.old).sizes) per_row steps.old steps.new (λ rows. (job : L.Job) → S.reads reader.old job (H.seen io.old) → L.serves line.old job → IsRowsEnd (L.Job.is_piece job) rows) }
    ensures whole { OnOk result (L.is_whole line.new) }
    ensures joined { OnOk result (L.is_joined line.new) }
    ensures stays { (begun : L) → L.stays begun line.old → L.stays begun line.new }
    ensures given { IfOk result (λ n. n ≡ S.given reader.new) }
    ensures drains { Drains (S.did reader.old reader.new (H.seen io.old).sizes) (S.failed reader.new) (L.broke line.new) (S.ended reader.new × S.suits reader.new (H.seen io.new)) (λ events. (job : L.Job)
        → S.reads reader.old job (H.seen io.old) → L.serves line.old job
        → DrainsAxis (L.Job.axis job) (L.Job.is_due job) (L.Job.is_end job) (S.reads reader.new job (H.seen io.new)) (L.serves line.new job) events result)
        (H.seen io.old) result (H.seen io.new) }
{
    let mut input = Input::Reading;
    let mut reached = Reached {
        furthest: 0,
        idle: 0,
    };
    let mut finding = Finding { rows: 0, spare: 0 };
    'turns: for _ in 0..u64::MAX {
        // No run comes so far: a piece goes through the line in a few sweeps.
        if reached.idle >= IDLE_SWEEPS {
            return Err(Fault::OutOfMemory);
        }
        input = match read_next(io, reader, input) {
            Ok(input) => input,
            Err(fault) => return Err(fault),
        };
        let held = rows_held(&input);
        finding = see_rows(held, per_row, finding);
        input = feed_on(line, input);
        if let Err(fault) = line.step(gate, steps) {
            return Err(fault);
        }
        let given = reader.given();
        match line.take() {
            Taken::Empty => {}
            Taken::Whole => return end(given, &input),
            // A line that gives no text gives no part, so this never comes. A part is not let go, since its rows would be missing.
            Taken::Part(_) => return Err(Fault::OutOfMemory),
        }
        let after = after_finding(given, reached, finding);
        reached = after.0;
        finding = after.1;
    }
    // No run makes so many turns.
    Err(Fault::OutOfMemory)
}

/// Reads a piece where none is held and the input has not ended.
fn read_next<H: Io, J: LineJob, S: PieceSource<H, J>>(
    io: &mut H,
    reader: &mut S,
    input: Input,
) -> Result<Input, Fault>
    requires suits { S.suits reader.old (H.seen io.old) }
    requires fits { HoldsFitting input }
    requires ended { HasEnded input → S.ended reader.old }
    requires within { S.given reader.old ≤ S.size reader.old (H.seen io.old).sizes }
    ensures suits { OnOk result (S.suits reader.new (H.seen io.new)) }
    ensures same_size { (sizes : List ℕ) → S.size reader.new sizes ≡ S.size reader.old sizes }
    ensures within { OnOk result (S.given reader.new ≤ S.size reader.old (H.seen io.old).sizes) }
    ensures fits { IfOk result HoldsFitting }
    ensures ended { IfOk result (λ held. HasEnded held → S.ended reader.new) }
    ensures failed { IfErr result (S.failed reader.new) }
    ensures reads { ReadsFor (S.did reader.old reader.new (H.seen io.old).sizes) (λ events. (job : J) → S.reads reader.old job (H.seen io.old)
        → OnOk result (asked_up_to (J.axis job) (S.asked reader.old) events ≡ S.asked reader.new)) (H.seen io.old) (H.seen io.new) }
    ensures input { (job : J) → S.reads reader.old job (H.seen io.old) → FitsInput (J.is_piece job) (J.is_end job) (S.given reader.old) (S.asked reader.old) input
        → GivesInput (J.is_piece job) (J.is_due job) (J.is_end job) (S.reads reader.new job (H.seen io.new)) (S.given reader.new) (S.asked reader.new) result }
{
    let Input::Reading = input else {
        return Ok(input);
    };
    match reader.next(io) {
        Err(fault) => Err(fault),
        Ok(None) => Ok(Input::Ended),
        Ok(Some(piece)) => Ok(Input::Holding(piece)),
    }
}

/// The position behind the last row of the piece that is held.
fn rows_held(input: &Input) -> u64
    requires fits { HoldsFitting input.now }
    ensures rows { (result ≡ 0) ⊎ HoldsRowsTo input.now result }
    ensures small { result ≤ 4294967295 }
{
    match input {
        Input::Holding(piece) => piece.first_row + piece.rows as u64,
        _ => 0,
    }
}

/// The sweeps that rows may still bring, up to those before this position.
fn see_rows(rows: u64, per_row: u64, finding: Finding) -> Finding
    ensures rows { (result.rows ≡ finding.rows) ⊎ (result.rows ≡ rows) }
    ensures small { rows ≤ 4294967295 → finding.rows ≤ 4294967295 → result.rows ≤ 4294967295 }
    ensures spare { result.spare + 512 * (per_row * finding.rows) ≤ finding.spare + 512 * (per_row * result.rows) }
{
    if rows <= finding.rows {
        return finding;
    }
    let more = sweeps_of(per_row, rows - finding.rows);
    Finding {
        rows,
        spare: finding.spare.saturating_add(more),
    }
}

/// How many sweeps so many rows may bring.
fn sweeps_of(per_row: u64, rows: u64) -> u64
    ensures at_most { result ≤ 512 * (per_row * rows) }
{
    per_row.saturating_mul(rows).saturating_mul(512)
}

/// How far a run has come after a sweep more: one that brings no byte more is idle once the sweeps that rows may bring are used up.
fn after_finding(given: u64, reached: Reached, finding: Finding) -> (Reached, Finding)
    requires going_on { reached.idle < 512 }
    ensures counted { result.1.spare + 512 * reached.furthest + reached.idle + 1 ≤ finding.spare + 512 * result.0.furthest + result.0.idle }
    ensures rows { result.1.rows ≡ finding.rows }
    ensures idle { result.0.idle ≤ 512 }
    ensures within { (size : ℕ) → given ≤ size → reached.furthest ≤ size → result.0.furthest ≤ size }
{
    if given > reached.furthest || finding.spare == 0 {
        return (after_sweep(given, reached), finding);
    }
    (
        reached,
        Finding {
            rows: finding.rows,
            spare: finding.spare - 1,
        },
    )
}

/// What is answered where the line is whole: how many bytes were given, where the input has ended.
fn end(given: u64, input: &Input) -> Result<u64, Fault>
    ensures { EndsInput given input.now result }
{
    match input {
        Input::Ended => Ok(given),
        _ => Err(Fault::OutOfMemory),
    }
}
