//! The units of a node between its ends.
ghost use Rattle.std.specs.Prelude.{◌≡◌, [], ◌∷◌, All, map, IfOk, IsOkUnless};
ghost use Rattle.morsel_meaning.specs.declared.fault.Fault.{Fault};
ghost use Rattle.morsel_meaning.specs.declared.fault.Fault.TheVariants.{OutOfMemory};
ghost use Rattle.atomic_table.specs.Seated.{TableId};
ghost use Rattle.morsel_prims.specs.Polled.{BoardId};
ghost use Rattle.morsel_lane_pipe.specs.Tasks.{HoldsTokensOf};
ghost use Rattle.morsel_ports.specs.Joining.{MayJoin};
ghost use Rattle.morsel_ports.specs.Nodes.{lanes_of_task};
ghost use Rattle.morsel_nodes.specs.MakerNodes.{CanJoin, MayFail, UnitFails, lanes_of_pairs};

use crate::load_makers::LoadMakers;
use morsel_lane_pipe::{Stepping, Stepwise};
use morsel_load::{Load, LoadJob};
use morsel_meaning::Fault;
use morsel_prims::{LaneReceiver, LaneSender, Lanes, Task, Tokens};
use morsel_units::{LoadMaker, NodeUnit};
use std::alloc::Global;

/// A unit of a node that gives its units their makers.
pub type MakerUnit<L, J, W> = Stepping<
    NodeUnit<L, J, <W as LoadMakers<<L as Tokens>::Token, J>>::Maker>,
>;

/// The unit between two ends.
fn unit_of<L, J, W>(
    alloc: Global,
    makers: &W,
    from: L::Receiver,
    to: L::Sender,
) -> Result<MakerUnit<L, J, W>, Fault>
where
    L: Tokens + Lanes<Load<<L as Tokens>::Token, J>>,
    J: LoadJob<<L as Tokens>::Token>,
    W: LoadMakers<<L as Tokens>::Token, J>,
    requires pair { CanJoin L.Receiver.home L.Receiver.job L.Receiver.taken L.Sender.home L.Sender.job L.Sender.sent (W.joins makers.now) from to }
    ensures can_poll { (id : BoardId) → L.Receiver.home from ≡ id.lane_table → HoldsTokensOf J.holds L.token_home (L.Receiver.job from) id.group_table → IfOk result (⟦<MakerUnit<L, J, W> as Task<L::Board>>⟧.can_poll id) }
    ensures lanes { (table : TableId) → L.Receiver.home from ≡ table → IfOk result (λ unit. lanes_of_task ⟦<NodeUnit<L, J, <W as LoadMakers<<L as Tokens>::Token, J>>::Maker> as Stepwise<L::Board>>⟧.seen unit.task ≡ record { home = table; from = L.Receiver.lane from ∷ []; to = L.Sender.lane to ∷ [] }) }
    ensures fails { (job : J) → L.Receiver.job from ≡ job → IfOk result (λ unit. (fault : Fault) → UnitFails ⟦<NodeUnit<L, J, <W as LoadMakers<<L as Tokens>::Token, J>>::Maker> as Stepwise<L::Board>>⟧.fails unit.task fault → MayFail W.Maker.may_fail job fault) }
    ensures out_of_memory { IsOkUnless result OutOfMemory }
{
    let maker = makers.maker(alloc)?;
    Ok(Stepping::new(NodeUnit::new(alloc, maker, from, to)?))
}

/// A unit between each pair of ends, in order.
pub fn units_of<L, J, W>(
    alloc: Global,
    makers: &W,
    froms: Vec<L::Receiver>,
    tos: Vec<L::Sender>,
) -> Result<Vec<MakerUnit<L, J, W>>, Fault>
where
    L: Tokens + Lanes<Load<<L as Tokens>::Token, J>>,
    J: LoadJob<<L as Tokens>::Token>,
    W: LoadMakers<<L as Tokens>::Token, J>,
    requires pairs { MayJoin (CanJoin L.Receiver.home L.Receiver.job L.Receiver.taken L.Sender.home L.Sender.job L.Sender.sent (W.joins makers.now)) froms.items tos.items }
    ensures can_poll { (id : BoardId) → All (λ from. (L.Receiver.home from ≡ id.lane_table) × HoldsTokensOf J.holds L.token_home (L.Receiver.job from) id.group_table) froms.items → IfOk result (λ units. All (⟦<MakerUnit<L, J, W> as Task<L::Board>>⟧.can_poll id) units.items) }
    ensures lanes { (table : TableId) → All (λ from. L.Receiver.home from ≡ table) froms.items → IfOk result (λ units. map (λ unit. lanes_of_task ⟦<NodeUnit<L, J, <W as LoadMakers<<L as Tokens>::Token, J>>::Maker> as Stepwise<L::Board>>⟧.seen unit.task) units.items ≡ lanes_of_pairs table (map L.Receiver.lane froms.items) (map L.Sender.lane tos.items)) }
    ensures fails { (job : J) → All (λ from. L.Receiver.job from ≡ job) froms.items → IfOk result (λ units. All (λ unit. (fault : Fault) → UnitFails ⟦<NodeUnit<L, J, <W as LoadMakers<<L as Tokens>::Token, J>>::Maker> as Stepwise<L::Board>>⟧.fails unit.task fault → MayFail W.Maker.may_fail job fault) units.items) }
    ensures out_of_memory { IsOkUnless result OutOfMemory }
{
    let mut others = tos.into_iter();
    let mut units = Vec::new(alloc);
    'pairs: for from in froms {
        let Some(to) = others.next() else {
            unreachable!()
        };
        units.push(unit_of::<L, J, W>(alloc, makers, from, to)?)?;
    }
    Ok(units)
}
