//! Two threads with a connector between them.
use crate::across::{Handover, hand_over};
use std::test::Fail;

#[test]
fn two_threads_hand_over_each_number_once_and_in_order(rt: HostRuntime) -> Result<(), Fail> {
    for count in [0, 1, 2, 1000, 1000000] {
        let told = Handover {
            count,
            in_order: true,
            whole: true,
        };
        assert_eq!(rt; hand_over(&rt, rt.alloc(), count)?, told, "{count} numbers");
    }
    Ok(())
}
