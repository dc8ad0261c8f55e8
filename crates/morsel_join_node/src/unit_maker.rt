//! The units of a node, one for the ends of each pipeline.
ghost use Rattle.std.specs.Prelude.{◌≡◌, All, length, map, IfOk, IsOkUnless};
ghost use Rattle.morsel_meaning.specs.declared.fault.Fault.TheVariants.{OutOfMemory};
ghost use Rattle.morsel_ports.specs.Joining.{MayJoin};

use morsel_meaning::Fault;
use std::alloc::Global;

/// Makes units of a node, each with its ends.
pub trait UnitMaker {
    ghost use Rattle.std.specs.Prelude.{IfOk, IsOkUnless};
    ghost use Rattle.morsel_meaning.specs.declared.fault.Fault.TheVariants.{OutOfMemory};

    /// The ends of a unit.
    type Ends: Drop;

    /// A unit.
    type Unit: Drop;

    /// A unit may have these ends.
    ghost fits: { Self → Self.Ends → Type 0 };

    /// It makes such a unit for these ends.
    ghost made: { Self → Self.Ends → Self.Unit → Type 0 };

    /// The unit with these ends.
    fn unit(&self, alloc: Global, ends: Self::Ends) -> Result<Self::Unit, Fault>
        requires fits { fits self.now ends }
        ensures made { IfOk result (made self.now ends) }
        ensures out_of_memory { IsOkUnless result OutOfMemory };
}

/// A unit for each of these ends, in order.
pub fn units_behind<W: UnitMaker>(
    alloc: Global,
    maker: &W,
    all: Vec<W::Ends>,
) -> Result<Vec<W::Unit>, Fault>
    requires fits { All (W.fits maker.now) all.items }
    ensures made { IfOk result (λ units. MayJoin (W.made maker.now) all.items units.items) }
    ensures out_of_memory { IsOkUnless result OutOfMemory }
{
    let mut units = Vec::new(alloc);
    'each: for ends in all {
        units.push(maker.unit(alloc, ends)?)?;
    }
    Ok(units)
}

/// What stands at the same places of two lists.
pub fn paired<R: Drop, S: Drop>(
    alloc: Global,
    firsts: Vec<R>,
    seconds: Vec<S>,
) -> Result<Vec<(R, S)>, Fault>
    requires len { length firsts.items ≡ length seconds.items }
    ensures firsts { IfOk result (λ pairs. map (λ pair. pair.0) pairs.items ≡ firsts.items) }
    ensures seconds { IfOk result (λ pairs. map (λ pair. pair.1) pairs.items ≡ seconds.items) }
    ensures out_of_memory { IsOkUnless result OutOfMemory }
{
    let mut others = seconds.into_iter();
    let mut pairs = Vec::new(alloc);
    'pairs: for first in firsts {
        let Some(second) = others.next() else {
            unreachable!()
        };
        pairs.push((first, second))?;
    }
    Ok(pairs)
}
