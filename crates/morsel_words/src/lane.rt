//! A new lane between threads.
ghost use Rattle.std.specs.Prelude.{◌≡◌, [], None, IfOk, IfErr};
ghost use Rattle.morsel_meaning.specs.declared.fault.Fault.TheVariants.{OutOfMemory};

use crate::receiver::WordReceiver;
use crate::sender::WordSender;
use crate::view::LaneView;
use atomic_table::{Split, Table};
use morsel_meaning::Fault;
use morsel_prims::Message;
use std::alloc::Global;
use std::sync::Arc;

/// The seat of both ends is parted.
pub(crate) struct PartEnds;

impl<T, J> Split<LaneView<T, J>> for PartEnds {
    ghost use Rattle.morsel_words.specs.Steps.{sender_part, receiver_part};

    ghost left = { sender_part };

    ghost right = { receiver_part };
}

/// A lane between threads for this job, with room for one value: its two ends.
pub fn word_lane<T: Message>(
    alloc: Global,
    job: &T::Job,
) -> Result<(WordSender<T>, WordReceiver<T>), Fault>
    ensures lane { IfOk result (λ ends. ends.1.table ≡ ends.0.table) }
    ensures job { IfOk result (λ ends. (ends.0.job ≡ job.now) × (ends.1.job ≡ job.now)) }
    ensures empty { IfOk result (λ ends. (ends.0.sent ≡ []) × (ends.1.taken ≡ []) × (ends.1.ended ≡ None)) }
    ensures out_of_memory { IfErr result (λ fault. fault ≡ OutOfMemory) }
{
    let (table, mut seat) = Table::vacant(alloc, &[0, 0, 0], 1, job)?;
    let taking = table.shared.split_seat::<PartEnds>(&mut seat);
    let table = Arc::new(alloc, table)?;
    let again = Arc::try_clone(&table)?;
    let sender = WordSender { table, seat };
    let receiver = WordReceiver {
        table: again,
        seat: taking,
        ended: None,
    };
    Ok((sender, receiver))
}
