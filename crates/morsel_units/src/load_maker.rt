//! What makes one load of another.
use morsel_load::{Load, LoadJob};
use morsel_meaning::Fault;

/// Makes one load of another, as a unit of a node does.
pub trait LoadMaker<K, J: LoadJob<K>> {
    ghost use Rattle.std.specs.Prelude.{◌≡◌, None, IfOk, IfErr};
    ghost use Rattle.morsel_meaning.specs.declared.fault.Fault.{Fault};
    ghost use Rattle.morsel_load.specs.Loads.{LoadSeen, held_token, load_seen};
    ghost use Rattle.morsel_lane_pipe.specs.Stretches.{ends_of};

    /// Of loads of the first job it makes loads of the second one.
    ghost joins: { Self → J → J → Type 0 };

    /// A load that is seen so can be taken.
    ghost takes: { Self → LoadSeen → Type 0 };

    /// Of a load of this job it may answer this fault.
    ghost may_fail: { J → Fault → Type 0 };

    /// Makes a load for the same stretch. Whoever has the load has released its token.
    fn make(&mut self, load: Load<K, J>) -> Result<Load<K, J>, Fault>
        requires takes { takes self.old (load_seen load) }
        requires free { held_token load ≡ None }
        ensures joins { (from to : J) → joins self.old from to → joins self.new from to }
        ensures suits { IfOk result (λ made. (from to : J) → joins self.old from to → J.suits from (load_seen load) → J.suits to (load_seen made)) }
        ensures free { IfOk result (λ made. held_token made ≡ None) }
        ensures stretch { IfOk result (λ made. ends_of (load_seen made) ≡ ends_of (load_seen load)) }
        ensures failed { IfErr result (λ fault. (from to : J) → joins self.old from to → J.suits from (load_seen load) → may_fail from fault) };

    /// What suits the first job can be taken.
    ghost takes_suiting: { (maker : Self) (from to : J) (seen : LoadSeen) → joins maker from to → J.suits from seen → takes maker seen };
}
