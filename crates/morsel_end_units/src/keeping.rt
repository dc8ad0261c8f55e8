//! Keeping what a giver gives, with no lane between.
ghost use Rattle.std.specs.Prelude.{◌≡◌, ◌⊎◌, ◌++◌, [], true, None, List, IfErr, IfOk, IfSome, OnOk};
ghost use Rattle.morsel_meaning.specs.declared.fault.Fault.TheVariants.{OutOfMemory};
ghost use Rattle.morsel_load.specs.Loads.{LoadSeen, held_token, load_seen};
ghost use Rattle.morsel_flat_units.specs.FlatUnits.{made_loads};

use crate::load_keeper::LoadKeeper;
use crate::loads_giver::LoadsGiver;
use morsel_load::{Load, LoadJob};
use morsel_meaning::Fault;

/// Keeps all loads that a giver gives, in their order.
///
/// It is for a giver and a keeper of one caller: no load goes through a lane, so no task is polled.
pub fn keep_given<K, J: LoadJob<K>, G: LoadsGiver<K, J>, P: LoadKeeper<K, J>>(
    giver: &mut G,
    keeper: &mut P,
) -> Result<(), Fault>
    requires for_job { (job : J) × G.gives_for giver.old job × P.keeps keeper.old job }
    ensures keeps { OnOk result ((job : J) → G.gives_for giver.old job → P.keeps keeper.old job → P.keeps keeper.new job) }
    // The keeper was given what the giver gave.
    ensures took { OnOk result ((given taken : List LoadSeen) → G.did giver.old given → P.took keeper.old taken → (more : List LoadSeen) × G.did giver.new (given ++ more) × P.took keeper.new (taken ++ more)) }
    ensures ended { OnOk result (G.left giver.new ≡ []) }
    ensures later { G.is_later giver.old giver.new × P.is_later keeper.old keeper.new }
    ensures failed { IfErr result (λ fault. (job : J) → G.gives_for giver.old job → P.keeps keeper.old job → (fault ≡ OutOfMemory) ⊎ G.may_fail job fault ⊎ P.may_fail job fault) }
{
    'loads: for _ in 0..u64::MAX {
        let given = match giver.next() {
            Ok(given) => given,
            Err(fault) => return Err(fault),
        };
        let ended = match keep_some(keeper, given) {
            Ok(ended) => ended,
            Err(fault) => return Err(fault),
        };
        if ended {
            return Ok(());
        }
    }
    // No giver gives so many loads.
    Err(Fault::OutOfMemory)
}

/// Keeps the load that is there; or answers that there is none.
fn keep_some<K, J: LoadJob<K>, P: LoadKeeper<K, J>>(
    keeper: &mut P,
    given: Option<Load<K, J>>,
) -> Result<bool, Fault>
    requires takes { IfSome given (λ load. P.takes keeper.old (load_seen load)) }
    requires free { IfSome given (λ load. held_token load ≡ None) }
    ensures keeps { OnOk result ((from : J) → P.keeps keeper.old from → IfSome given (λ load. J.suits from (load_seen load)) → P.keeps keeper.new from) }
    ensures took { OnOk result ((before : List LoadSeen) → P.took keeper.old before → P.took keeper.new (before ++ made_loads given)) }
    ensures ended { IfOk result (λ ended. ended ≡ true → given ≡ None) }
    ensures later { P.is_later keeper.old keeper.new }
    ensures failed { IfErr result (λ fault. (from : J) → P.keeps keeper.old from → IfSome given (λ load. J.suits from (load_seen load)) → P.may_fail from fault) }
{
    match given {
        None => Ok(true),
        Some(load) => match keeper.keep(load) {
            Ok(()) => Ok(false),
            Err(fault) => Err(fault),
        },
    }
}
