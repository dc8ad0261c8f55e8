//! What a task ends with.
ghost use Rattle.std.specs.Prelude.{◌≡◌, ◌≤◌, [], ◌∷◌, IsOkUnless, vec_capacity};
ghost use Rattle.morsel_meaning.specs.declared.fault.Fault.TheVariants.{OutOfMemory};

use morsel_load::Load;
use morsel_meaning::Fault;
use morsel_prims::{LaneReceiver, LaneSender, Lanes, Tokens};
use std::alloc::Global;

/// What a lane carries, with the lanes' own tokens.
pub type LoadOf<L, J> = Load<<L as Tokens>::Token, J>;

/// What tells that a lane ended whole, and what its receiver took.
pub type TakenOf<L, J> = <<L as Lanes<LoadOf<L, J>>>::Receiver as LaneReceiver<
    LoadOf<L, J>,
    <L as Tokens>::Board,
>>::Receipt;

/// What tells that a lane was finished, and what was sent through it.
pub type SentOf<L, J> = <<L as Lanes<LoadOf<L, J>>>::Sender as LaneSender<
    LoadOf<L, J>,
    <L as Tokens>::Board,
>>::Receipt;

/// The receipts of the ends of a task, each list in order of lanes.
#[derive(Drop)]
pub struct Receipts<R, S> {
    /// Of its receiving ends.
    pub taken: Vec<R>,
    /// Of its sending ends.
    pub sent: Vec<S>,
}

/// The receipts of a task between lanes.
pub type ReceiptsOf<L, J> = Receipts<TakenOf<L, J>, SentOf<L, J>>;

/// What a task of a pipe ends with.
#[derive(Debug, Drop)]
pub enum PipeOut<R> {
    /// All lanes ended whole, and all loads went on.
    Whole(R),
    /// An end was closed or cut, and its other ends are cut now.
    Cut,
    /// Memory was out, and its ends are cut.
    OutOfMemory,
    /// It had this fault, and its ends are cut. Only what makes one load of another has one.
    Failed(Fault),
}

/// Room for one receipt, so that a task takes no memory where it ends.
#[derive(Drop)]
pub struct Room<R> {
    receipts: Vec<R>,
    ghost empty: { receipts.items ≡ [] },
    ghost room: { 1 ≤ vec_capacity receipts },
}

impl<R: Drop> Room<R> {
    /// Room that is empty.
    pub fn new(alloc: Global) -> Result<Room<R>, Fault>
        ensures out_of_memory { IsOkUnless result OutOfMemory }
    {
        Ok(Room {
            receipts: Vec::with_capacity(alloc, 1)?,
        })
    }

    /// The receipt alone, as a list.
    pub fn filled(self, receipt: R) -> Vec<R>
        ensures { result.items ≡ receipt ∷ [] }
    {
        let Room { mut receipts } = self;
        receipts.push_reserved(receipt);
        receipts
    }
}
