//! What keeps loads.
use morsel_load::{Load, LoadJob};
use morsel_meaning::Fault;

/// Keeps the loads that it is given, as a unit of a node does that needs all of them before it gives anything.
pub trait LoadKeeper<K, J: LoadJob<K>> {
    ghost use Rattle.std.specs.Prelude.{◌≡◌, ◌++◌, ◌∷◌, [], List, None, IfErr, OnOk};
    ghost use Rattle.morsel_meaning.specs.declared.fault.Fault.{Fault};
    ghost use Rattle.morsel_load.specs.Loads.{LoadSeen, held_token, load_seen};

    /// All that it keeps is of loads of this job.
    ghost keeps: { Self → J → Type 0 };

    /// A load that is seen so can be taken.
    ghost takes: { Self → LoadSeen → Type 0 };

    /// It was given these loads.
    ghost took: { Self → List LoadSeen → Type 0 };

    /// The second is a later state of the first: what stays while it works is the same.
    ghost is_later: { Self → Self → Type 0 };

    /// For a lane of this job it may answer this fault.
    ghost may_fail: { J → Fault → Type 0 };

    /// Keeps a load. Whoever has the load has taken its token.
    fn keep(&mut self, load: Load<K, J>) -> Result<(), Fault>
        requires takes { takes self.old (load_seen load) }
        requires free { held_token load ≡ None }
        ensures keeps { OnOk result ((from : J) → keeps self.old from → J.suits from (load_seen load) → keeps self.new from) }
        ensures took { OnOk result ((before : List LoadSeen) → took self.old before → took self.new (before ++ load_seen load ∷ [])) }
        ensures later { is_later self.old self.new }
        ensures failed { IfErr result (λ fault. (from : J) → keeps self.old from → J.suits from (load_seen load) → may_fail from fault) };

    /// What suits the job can be taken.
    ghost takes_suiting: { (keeper : Self) (from : J) (seen : LoadSeen) → keeps keeper from → J.suits from seen → takes keeper seen };

    /// No call changes nothing.
    ghost later_same: { (keeper : Self) → is_later keeper keeper };

    /// A later state of a later one is one.
    ghost later_next: { (first mid last : Self) → is_later first mid → is_later mid last → is_later first last };
}
