//! A new lane between threads.
ghost use Rattle.std.specs.Prelude.{◌≡◌, [], None, IfOk, IfErr};
ghost use Rattle.morsel_meaning.specs.declared.fault.Fault.TheVariants.{OutOfMemory};

use crate::receiver::Receiver;
use crate::sender::Sender;
use morsel_meaning::Fault;
use morsel_prims::Message;
use morsel_words::word_lane;
use std::alloc::Global;

/// A lane between threads for this job, with room for one value: its two ends.
pub fn connector<T: Message>(alloc: Global, job: &T::Job) -> Result<(Sender<T>, Receiver<T>), Fault>
    ensures lane { IfOk result (λ ends. ends.1.table ≡ ends.0.table) }
    ensures job { IfOk result (λ ends. (ends.0.job ≡ job.now) × (ends.1.job ≡ job.now)) }
    ensures empty { IfOk result (λ ends. (ends.0.sent ≡ []) × (ends.1.taken ≡ []) × (ends.1.ended ≡ None)) }
    ensures out_of_memory { IfErr result (λ fault. fault ≡ OutOfMemory) }
{
    let (sender, receiver) = word_lane(alloc, job)?;
    Ok((Sender { end: sender }, Receiver { end: receiver }))
}
