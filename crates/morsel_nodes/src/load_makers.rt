//! What gives the units of a node their makers.
use morsel_load::LoadJob;
use morsel_meaning::Fault;
use morsel_units::LoadMaker;
use std::alloc::Global;

/// By which table the states of a node's ports move.
#[derive(Clone, Copy, Debug, PartialEq, Eq)]
pub enum Role {
    /// That of sources.
    Source,
    /// That of sinks.
    Sink,
}

/// Gives the units of a node their makers.
pub trait LoadMakers<K, J: LoadJob<K>> {
    ghost use Rattle.std.specs.Prelude.{◌≡◌, ℕ, List, IfOk, IsOkUnless};
    ghost use Rattle.morsel_meaning.specs.declared.fault.Fault.TheVariants.{OutOfMemory};
    ghost use Rattle.morsel_nodes.specs.declared.load_makers.Role.{Role};

    /// Makes the loads of a unit.
    type Maker: LoadMaker<K, J> + Drop;

    /// What the node is called.
    ghost named: { Self → List ℕ };

    /// By which table the states of its ports move.
    ghost role_of: { Self → Role };

    /// Of loads of the first job its units make loads of the second one.
    ghost joins: { Self → J → J → Type 0 };

    /// What the node is called.
    fn name(&self) -> &str
        ensures { result.now ≡ named self.now };

    /// By which table the states of its ports move.
    fn role(&self) -> Role
        ensures { result ≡ role_of self.now };

    /// What makes the loads of one unit.
    fn maker(&self, alloc: Global) -> Result<Self::Maker, Fault>
        ensures joins { IfOk result (λ maker. (from to : J) → joins self.now from to → Self.Maker.joins maker from to) }
        ensures out_of_memory { IsOkUnless result OutOfMemory };
}
