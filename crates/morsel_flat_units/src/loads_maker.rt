//! What makes several loads of one.
use morsel_load::{Load, LoadJob};
use morsel_meaning::Fault;

/// Makes loads of each load that it is given, one at a time, as a unit of a node does.
pub trait LoadsMaker<K, J: LoadJob<K>> {
    ghost use Rattle.std.specs.Prelude.{◌≡◌, ◌++◌, ◌∷◌, [], ℕ, List, None, IfSome, IfOk, IfErr, OnOk};
    ghost use Rattle.morsel_meaning.specs.declared.fault.Fault.{Fault};
    ghost use Rattle.morsel_load.specs.Loads.{LoadSeen, held_token, load_seen};
    ghost use Rattle.morsel_lane_pipe.specs.Stretches.{ends_of};
    ghost use Rattle.morsel_flat_units.specs.FlatUnits.{made_ends, made_loads};

    /// Of loads of the first job it makes loads of the second one.
    ghost joins: { Self → J → J → Type 0 };

    /// A load that is seen so can be taken.
    ghost takes: { Self → LoadSeen → Type 0 };

    /// What is still to be made suits this job.
    ghost makes_for: { Self → J → Type 0 };

    /// The stretches that are still to be ended.
    ghost left: { Self → List (ℕ × ℕ) };

    /// Of these loads that it took it has made those.
    ghost did: { Self → List LoadSeen → List LoadSeen → Type 0 };

    /// The second is a later state of the first: what stays while it works is the same.
    ghost is_later: { Self → Self → Type 0 };

    /// For lanes of this job it may answer this fault.
    ghost may_fail: { J → Fault → Type 0 };

    /// Takes a load, once all loads of the one before were made. Whoever has the load has taken its token.
    fn begin(&mut self, load: Load<K, J>) -> Result<(), Fault>
        requires takes { takes self.old (load_seen load) }
        requires free { held_token load ≡ None }
        requires none_left { left self.old ≡ [] }
        ensures joins { (from to : J) → joins self.old from to → J.suits from (load_seen load) → joins self.new from to }
        ensures makes_for { OnOk result ((from to : J) → joins self.old from to → J.suits from (load_seen load) → makes_for self.new to) }
        ensures left { OnOk result (left self.new ≡ ends_of (load_seen load)) }
        ensures did { OnOk result ((taken made : List LoadSeen) → did self.old taken made → did self.new (taken ++ load_seen load ∷ []) made) }
        ensures later { is_later self.old self.new }
        ensures failed { IfErr result (λ fault. (from to : J) → joins self.old from to → J.suits from (load_seen load) → may_fail from fault) };

    /// The next load; `None` once all were made.
    fn next(&mut self) -> Result<Option<Load<K, J>>, Fault>
        requires joined { (from : J) × (to : J) × joins self.old from to × makes_for self.old to }
        ensures joins { (from to : J) → joins self.old from to → joins self.new from to }
        ensures suits { IfOk result (λ made. IfSome made (λ load. (to : J) → makes_for self.old to → J.suits to (load_seen load))) }
        ensures free { IfOk result (λ made. IfSome made (λ load. held_token load ≡ None)) }
        ensures makes_for { OnOk result ((to : J) → makes_for self.old to → makes_for self.new to) }
        ensures left { IfOk result (λ made. left self.old ≡ made_ends made ++ left self.new) }
        ensures none_left { IfOk result (λ made. made ≡ None → left self.new ≡ []) }
        ensures did { IfOk result (λ made. (taken before : List LoadSeen) → did self.old taken before → did self.new taken (before ++ made_loads made)) }
        ensures later { is_later self.old self.new }
        ensures failed { IfErr result (λ fault. (from to : J) → joins self.old from to → may_fail from fault) };

    /// What suits the first job can be taken.
    ghost takes_suiting: { (maker : Self) (from to : J) (seen : LoadSeen) → joins maker from to → J.suits from seen → takes maker seen };

    /// No call changes nothing.
    ghost later_same: { (maker : Self) → is_later maker maker };

    /// A later state of a later one is one.
    ghost later_next: { (first mid last : Self) → is_later first mid → is_later mid last → is_later first last };
}
