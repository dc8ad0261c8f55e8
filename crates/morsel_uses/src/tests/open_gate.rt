//! The gate that lets every poll through.
use morsel_meaning::TaskNo;
use morsel_outside::{Gate, OpenGate};

#[test]
fn every_poll_passes() {
    OpenGate.enter(TaskNo(1));
    OpenGate.left(TaskNo(1));
}
