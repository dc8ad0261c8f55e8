//! A node of a phase.
ghost use Rattle.std.specs.Prelude.{◌≡◌, ◌++◌, ◌∷◌, [], ℕ, All, List, IfErr, IfOk, IsOkUnless, length};
ghost use Rattle.morsel_meaning.specs.declared.fault.Fault.TheVariants.{OutOfMemory};
ghost use Rattle.morsel_merge.specs.Ends.{IsNewReceiver, IsNewSender};
ghost use Rattle.morsel_lane_pipe.specs.Tasks.{HoldsTokensOf};
ghost use Rattle.morsel_phase.specs.Lines.{IsLineNode};
ghost use Rattle.morsel_phase.specs.Stages.{HasOut};
ghost use Rattle.morsel_phase.specs.Told.{TellsUnit};

use morsel_load::{Load, LoadJob};
use morsel_meaning::Fault;
use morsel_ports::{ComputeNode, Ends};
use morsel_prims::{Ended, Lanes, Task, Tokens};
use std::alloc::Global;
use std::snapshot::Snapshot;

/// A node of one receiving port whose units were taken.
#[derive(Drop)]
pub struct NodeStage<N, J> {
    pub(crate) node: N,
    // The node before its units were taken, and the job of its receiving port: as it may fail then, so may its units.
    pub(crate) begun: Snapshot<N>,
    pub(crate) job: Snapshot<J>,
}

impl<N, J> NodeStage<N, J> {
    /// Takes back what a unit has ended with: how its lanes ended, or its fault.
    pub(crate) fn give_back<L>(
        &mut self,
        alloc: Global,
        out: <<N as ComputeNode<L, J>>::Unit as Task<<L as Tokens>::Board>>::Out,
    ) -> Result<Ended, Fault>
    where
        L: Tokens + Lanes<Load<<L as Tokens>::Token, J>>,
        J: LoadJob<<L as Tokens>::Token>,
        N: ComputeNode<L, J>,
        requires owed { (before after : List N.Unit) × (unit : N.Unit) × HasOut (N.seen self.old.node).units (N.is_unit self.old.node) N.unit_fails (N.fails self.old.begun.value (self.old.job.value ∷ [])) (before ++ unit ∷ after) × N.Unit.gives unit out }
        ensures owed { (before after : List N.Unit) (unit : N.Unit) → HasOut (N.seen self.old.node).units (N.is_unit self.old.node) N.unit_fails (N.fails self.old.begun.value (self.old.job.value ∷ [])) (before ++ unit ∷ after) → N.Unit.gives unit out
            → HasOut (N.seen self.new.node).units (N.is_unit self.new.node) N.unit_fails (N.fails self.new.begun.value (self.new.job.value ∷ [])) (before ++ after) }
        ensures told { TellsUnit (N.end_of out) result }
        ensures fault { IfErr result (N.fails self.old.begun.value (self.old.job.value ∷ [])) }
        ensures same_faults { (self.new.begun ≡ self.old.begun) × (self.new.job ≡ self.old.job) }
        ensures stays { (begun : N) → N.stays begun self.old.node → N.stays begun self.new.node }
    {
        let receipts = self.node.give_back(alloc, out)?;
        if receipts.taken.is_empty() && receipts.sent.is_empty() {
            return Ok(Ended::Cut);
        }
        Ok(Ended::Whole)
    }
}

/// The ends that a node of a line gets, in order of lanes, and what their lanes are for.
#[derive(Drop)]
pub struct NodeEnds<'a, R, S, J> {
    /// From which its units take.
    pub from: Vec<R>,
    /// Through which they send.
    pub to: Vec<S>,
    /// What the lanes are for from which they take.
    pub from_job: &'a J,
    /// What the lanes are for through which they send.
    pub to_job: &'a J,
}

/// The units of a node between these ends.
fn take_units<L, J, N>(
    alloc: Global,
    board: &mut L::Board,
    node: &mut N,
    ends: NodeEnds<'_, L::Receiver, L::Sender, J>,
) -> Result<Vec<N::Unit>, Fault>
where
    L: Tokens + Lanes<Load<<L as Tokens>::Token, J>>,
    J: LoadJob<<L as Tokens>::Token>,
    N: ComputeNode<L, J>,
    requires node { IsLineNode (length ends.from.items) (N.seen node.old) }
    requires as_many { length ends.to.items ≡ length ends.from.items }
    requires fits { N.fits node.old (ends.from_job.now ∷ []) (ends.to_job.now ∷ []) }
    requires from { All (IsNewReceiver L.Receiver.home L.Receiver.job L.Receiver.taken L.Receiver.is_whole L.Receiver.is_cut (L.Board.id board.old).lane_table ends.from_job.now) ends.from.items }
    requires to { All (λ end. (room : ℕ) × IsNewSender L.Sender.home L.Sender.job L.Sender.room L.Sender.sent (L.Board.id board.old).lane_table ends.to_job.now room end) ends.to.items }
    requires tokens { HoldsTokensOf J.holds L.token_home ends.from_job.now (L.Board.id board.old).group_table }
    ensures len { IfOk result (λ units. length units.items ≡ length ends.entry.from.items) }
    ensures can_poll { IfOk result (λ units. All (N.Unit.can_poll (L.Board.id board.old)) units.items) }
    ensures out { IfOk result (λ units. HasOut (N.seen node.new).units (N.is_unit node.new) N.unit_fails (N.fails node.old (ends.entry.from_job.now ∷ [])) units.items) }
    ensures out_of_memory { IsOkUnless result OutOfMemory }
    ensures same_board { L.Board.id board.new ≡ L.Board.id board.old }
{
    let NodeEnds { from, to, .. } = ends;
    let mut recv = Vec::new(alloc);
    recv.push(Ends::Parallel(from))?;
    let mut send = Vec::new(alloc);
    send.push(Ends::Parallel(to))?;
    let units = node.take_tasks(alloc, board, &mut recv, &mut send)?;
    Ok(units)
}

/// A node, and its units between these ends.
pub fn open_node<L, J, N>(
    alloc: Global,
    board: &mut L::Board,
    mut node: N,
    ends: NodeEnds<'_, L::Receiver, L::Sender, J>,
) -> Result<(NodeStage<N, J>, Vec<N::Unit>), Fault>
where
    L: Tokens + Lanes<Load<<L as Tokens>::Token, J>>,
    J: LoadJob<<L as Tokens>::Token>,
    N: ComputeNode<L, J> + Drop,
    requires node { IsLineNode (length ends.from.items) (N.seen node) }
    requires as_many { length ends.to.items ≡ length ends.from.items }
    requires fits { N.fits node (ends.from_job.now ∷ []) (ends.to_job.now ∷ []) }
    requires from { All (IsNewReceiver L.Receiver.home L.Receiver.job L.Receiver.taken L.Receiver.is_whole L.Receiver.is_cut (L.Board.id board.old).lane_table ends.from_job.now) ends.from.items }
    requires to { All (λ end. (room : ℕ) × IsNewSender L.Sender.home L.Sender.job L.Sender.room L.Sender.sent (L.Board.id board.old).lane_table ends.to_job.now room end) ends.to.items }
    requires tokens { HoldsTokensOf J.holds L.token_home ends.from_job.now (L.Board.id board.old).group_table }
    ensures len { IfOk result (λ opened. length opened.1.items ≡ length ends.entry.from.items) }
    ensures can_poll { IfOk result (λ opened. All (N.Unit.can_poll (L.Board.id board.old)) opened.1.items) }
    ensures out { IfOk result (λ opened. HasOut (N.seen opened.0.node).units (N.is_unit opened.0.node) N.unit_fails (N.fails opened.0.begun.value (opened.0.job.value ∷ [])) opened.1.items) }
    ensures begun { IfOk result (λ opened. (opened.0.begun.value ≡ node) × (opened.0.job.value ≡ ends.entry.from_job.now)) }
    ensures out_of_memory { IsOkUnless result OutOfMemory }
    ensures same_board { L.Board.id board.new ≡ L.Board.id board.old }
{
    let begun = Snapshot::of(&node);
    let job = Snapshot::of(ends.from_job);
    let units = take_units::<L, J, N>(alloc, board, &mut node, ends)?;
    Ok((NodeStage { node, begun, job }, units))
}
