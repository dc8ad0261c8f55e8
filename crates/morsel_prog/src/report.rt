//! How an answer is told: one line on standard output, and the status.
ghost use Rattle.std.specs.Prelude.{◌≡◌, IfOk, IsOkUnless};
ghost use Rattle.std.specs.String.{string_bytes};
ghost use Rattle.morsel_meaning.specs.Faults.{fault_line, fault_status};
ghost use Rattle.morsel_prog.specs.Program.{PrintsCount, ReportsFault, ReportsCount, Reports};

use morsel_meaning::Fault;
use morsel_outside::{Io, IoErr};
use std::alloc::{AllocError, Global};

/// The status of success.
const SUCCESS: u8 = 0;

/// The status of a fault is its number and this.
const FAULT_BASE: u8 = 10;

/// The status that tells a fault.
pub fn status_of(fault: &Fault) -> u8
    ensures { result ≡ fault_status fault.now }
{
    FAULT_BASE + fault.number()
}

/// The line that tells a fault.
fn line_of(alloc: Global, fault: &Fault) -> Result<String, AllocError>
    ensures { IfOk result (λ line. string_bytes line ≡ fault_line fault.now) }
{
    let number = fault.number();
    format!(in alloc; "error {number}: {fault}")
}

/// Prints the fault's line, and answers the status.
fn report_fault<H: Io>(alloc: Global, io: &mut H, fault: &Fault) -> u8
    ensures { ReportsFault (H.seen io.old) fault.now result (H.seen io.new) }
{
    let Ok(line) = line_of(alloc, fault) else {
        return status_of(&Fault::OutOfMemory);
    };
    match io.print(line.as_str()) {
        Err(IoErr::OutOfMemory) => status_of(&Fault::OutOfMemory),
        Ok(()) | Err(IoErr::Failed) => status_of(fault),
    }
}

/// Prints the count on a line of its own.
fn print_count<H: Io>(alloc: Global, io: &mut H, count: u64) -> Result<(), Fault>
    ensures { PrintsCount (H.seen io.old) count result (H.seen io.new) }
{
    let Ok(line) = count.to_string(alloc) else {
        return Err(Fault::OutOfMemory);
    };
    match io.print(line.as_str()) {
        Ok(()) => Ok(()),
        Err(IoErr::OutOfMemory) => Err(Fault::OutOfMemory),
        Err(IoErr::Failed) => Err(Fault::WriteFault),
    }
}

/// Prints the count; where that fails, tells the fault.
fn report_count<H: Io>(alloc: Global, io: &mut H, count: u64) -> u8
    ensures { ReportsCount (H.seen io.old) count result (H.seen io.new) }
{
    match print_count(alloc, io, count) {
        Ok(()) => SUCCESS,
        Err(fault) => report_fault(alloc, io, &fault),
    }
}

/// Tells the answer of a run, and gives the status.
pub fn report<H: Io>(alloc: Global, io: &mut H, answer: Result<u64, Fault>) -> u8
    ensures { Reports (H.seen io.old) answer result (H.seen io.new) }
{
    match answer {
        Ok(count) => report_count(alloc, io, count),
        Err(fault) => report_fault(alloc, io, &fault),
    }
}
