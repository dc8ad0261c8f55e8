//! The faults of pieces.
ghost use Rattle.std.specs.Prelude.{◌≡◌, ◌⊎◌};
ghost use Rattle.morsel_meaning.specs.declared.fault.Fault.TheVariants.{OutOfMemory};
ghost use Rattle.morsel_line.specs.ScanJobs.{IsPieceKind};

use morsel_meaning::{ComputeKind, Fault};

/// The fault, which is of a record, of a row, or of memory. Decoding answers no other, so the last arm is never taken.
pub fn piece_fault(fault: Fault) -> Fault
    ensures kind { IsPieceKind result }
    ensures same { (result ≡ fault) ⊎ (result ≡ OutOfMemory) }
{
    match fault {
        Fault::OutOfMemory
        | Fault::Malformed { .. }
        | Fault::ComputeError {
            kind: ComputeKind::NotUtf8 | ComputeKind::IllTyped | ComputeKind::IndexTooLarge,
            ..
        } => fault,
        _ => Fault::OutOfMemory,
    }
}
