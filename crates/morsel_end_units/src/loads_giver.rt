//! What gives loads of its own.
use morsel_load::{Load, LoadJob};
use morsel_meaning::Fault;

/// Gives loads of its own, one at a time, as a unit of a node does that takes none.
pub trait LoadsGiver<K, J: LoadJob<K>> {
    ghost use Rattle.std.specs.Prelude.{◌≡◌, ◌++◌, [], ℕ, List, None, IfSome, IfOk, IfErr, OnOk};
    ghost use Rattle.morsel_meaning.specs.declared.fault.Fault.{Fault};
    ghost use Rattle.morsel_load.specs.Loads.{LoadSeen, held_token, load_seen};
    ghost use Rattle.morsel_flat_units.specs.FlatUnits.{made_ends, made_loads};

    /// What is still to be given suits this job.
    ghost gives_for: { Self → J → Type 0 };

    /// The stretches that are still to be ended.
    ghost left: { Self → List (ℕ × ℕ) };

    /// It has given these loads.
    ghost did: { Self → List LoadSeen → Type 0 };

    /// The second is a later state of the first: what stays while it works is the same.
    ghost is_later: { Self → Self → Type 0 };

    /// For a lane of this job it may answer this fault.
    ghost may_fail: { J → Fault → Type 0 };

    /// The next load; `None` once all were given.
    fn next(&mut self) -> Result<Option<Load<K, J>>, Fault>
        requires for_job { (to : J) × gives_for self.old to }
        ensures suits { IfOk result (λ made. IfSome made (λ load. (to : J) → gives_for self.old to → J.suits to (load_seen load))) }
        ensures free { IfOk result (λ made. IfSome made (λ load. held_token load ≡ None)) }
        ensures gives_for { OnOk result ((to : J) → gives_for self.old to → gives_for self.new to) }
        ensures left { IfOk result (λ made. left self.old ≡ made_ends made ++ left self.new) }
        ensures none_left { IfOk result (λ made. made ≡ None → left self.new ≡ []) }
        ensures did { IfOk result (λ made. (before : List LoadSeen) → did self.old before → did self.new (before ++ made_loads made)) }
        ensures later { is_later self.old self.new }
        ensures failed { IfErr result (λ fault. (to : J) → gives_for self.old to → may_fail to fault) };

    /// No call changes nothing.
    ghost later_same: { (giver : Self) → is_later giver giver };

    /// A later state of a later one is one.
    ghost later_next: { (first mid last : Self) → is_later first mid → is_later mid last → is_later first last };
}
