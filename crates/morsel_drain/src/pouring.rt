//! The caller's loop for a line that is fed nothing.
ghost use Rattle.std.specs.Prelude.{◌≡◌, ◌<◌, ◌≤◌, length, OnOk};
ghost use Rattle.morsel_scan.specs.StretchRows.{before_fault};
ghost use Rattle.morsel_drive.specs.Lines.{IsSoundAxis};
ghost use Rattle.morsel_drive.specs.Sweeping.{SweepsFew};
ghost use Rattle.morsel_drive.specs.declared.progress.Progress.TheVariants.{Rows};
ghost use Rattle.morsel_drive.specs.Driving.{EndsWith};
ghost use Rattle.morsel_drive.specs.declared.caller.Input.TheVariants.{Ended};
ghost use Rattle.morsel_drain.specs.Pouring.{PoursAxis, Pours};

use morsel_drive::{IDLE_SWEEPS, Line, Reached, Written, after_sweep, write_on};
use morsel_local::Steps;
use morsel_meaning::Fault;
use morsel_outside::{Gate, Io};
use morsel_sink::SinkWriter;
use std::sync::ledger::Ledger;

/// Lets a line that is fed nothing go on until it is whole, and writes what comes out; answers how many rows were written.
///
/// What comes out is of one place: all rows are of the stretch from 0 to 1. The sink is made, what comes before its first row is
/// written, and the writer has written no row. It gives up where many sweeps in a row bring no row more, so it makes few sweeps for
/// each row and always returns. After a fault of the line it makes no further sweep.
pub fn pour<H: Io, L: Line, G: Gate, Y: Ledger>(
    io: &mut H,
    line: &mut L,
    mut writer: SinkWriter,
    gate: &G,
    steps: &mut Steps<Y>,
) -> Result<u64, Fault>
    requires made { 0 < (H.seen io.old).sinks }
    requires none_written { writer.rows ≡ 0 }
    requires joined { L.is_joined line.old }
    ensures sweeps { SweepsFew Rows 1 steps.old steps.new (λ rows. (job : L.Job) → L.serves line.old job → IsSoundAxis (L.Job.axis job) → rows ≤ length (before_fault (L.Job.axis job).gives)) }
    ensures whole { OnOk result (L.is_whole line.new) }
    ensures stays { (begun : L) → L.stays begun line.old → L.stays begun line.new }
    ensures pours { Pours (L.broke line.new) (λ actions. (job : L.Job) → L.serves line.old job → IsSoundAxis (L.Job.axis job)
        → PoursAxis (L.Job.axis job) (L.Job.is_due job) actions result) (H.seen io.old) result (H.seen io.new) }
{
    let mut written = Written {
        next: 0,
        begun: 0,
        rows: 0,
    };
    let mut reached = Reached {
        furthest: 0,
        idle: 0,
    };
    line.close();
    'turns: for _ in 0..u64::MAX {
        // No run comes so far: rows go through the line in a few sweeps.
        if reached.idle >= IDLE_SWEEPS {
            return Err(Fault::OutOfMemory);
        }
        if let Err(fault) = line.step(gate, steps) {
            return Err(fault);
        }
        let whole = match write_on(io, line, &mut writer, 1, &mut written) {
            Ok(whole) => whole,
            Err(fault) => return Err(fault),
        };
        if whole {
            return end(io, writer, &written);
        }
        reached = after_sweep(written.rows, reached);
    }
    // No run makes so many turns.
    Err(Fault::OutOfMemory)
}

/// Ends the text where the line has ended: the answer is the number of rows that were written, where they are those of the one
/// place and no others.
fn end<H: Io>(io: &mut H, writer: SinkWriter, written: &Written) -> Result<u64, Fault>
    requires rows { writer.rows ≡ written.now.rows }
    ensures answer { EndsWith 1 Ended written.now result }
    ensures same { H.seen io.new ≡ H.seen io.old }
{
    if written.next == 1 && written.begun == written.rows {
        return writer.finish(io);
    }
    Err(Fault::OutOfMemory)
}
