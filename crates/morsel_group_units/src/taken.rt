//! What all units of a group-by took.
ghost use Rattle.std.specs.Prelude.{◌≡◌, ◌≤◌, ◌⊎◌, ◌++◌, ℕ, List, length, IfOk, IfErr, OnOk};
ghost use Rattle.std.specs.List.{All, flat_map};
ghost use Rattle.morsel_group.specs.Grouping.{Grouped, RowAt, in_order};
ghost use Rattle.morsel_group.specs.Locals.{AreFewEnough, HasSums, HaveTaken, IsGroupBy, IsGroupFault, IsSumFault};
ghost use Rattle.morsel_group_units.specs.GroupAsks.{GroupRulesSeen, rules_output, rules_shape};
ghost use Rattle.morsel_group_units.specs.LocalTakings.{HoldAllLoads, HoldsLoads};
ghost use Rattle.morsel_group_units.specs.declared.taken_load.TakenLoad.{TakenLoad};

use crate::grouped::GroupedRows;
use crate::keeper::GroupKeeper;
use crate::order::{following, greatest_end, rise};
use crate::rules::GroupRules;
use crate::taken_load::TakenLoad;
use morsel_frame::Frame;
use morsel_group::{LocalGroups, groups_have_causes};
use morsel_meaning::Fault;
use std::alloc::Global;
use std::marker::Model;
use std::sync::Arc;

/// What all units of a group-by took that were given back.
///
/// Its loads are those of lanes that ended, in the order of the input, and of the present ones, as they came. Where memory was out for what a
/// unit took, or its rows were refused, that is told at the end.
#[derive(Drop)]
pub struct TakenGroups {
    rules: Arc<GroupRules, Global>,
    locals: Vec<LocalGroups>,
    ordered: Vec<TakenLoad>,
    loads: Vec<TakenLoad>,
    // Why rows were refused.
    fault: Option<Fault>,
}

impl Model for TakenGroups {
    ghost use Rattle.std.specs.Prelude.{◌++◌};
    ghost use Rattle.std.specs.Arc.{arc_value};
    ghost use Rattle.morsel_group_units.specs.GroupKeepers.{TakenGroupsSeen};
    ghost use Rattle.morsel_group_units.specs.LocalTakings.{HoldAllLoads};

    ghost Value = { TakenGroupsSeen };

    ghost view = { λ taken. record { rules = arc_value taken.rules; ordered = taken.ordered.items; taken = taken.loads.items } };

    ghost invariant = { λ taken. HoldAllLoads (arc_value taken.rules) taken.locals.items taken.fault (taken.ordered.items ++ taken.loads.items) };
}

impl TakenGroups {
    ghost use Rattle.std.specs.Prelude.{◌≡◌, ◌⊎◌, ◌++◌, [], IfOk, IfErr, IsOkUnless};
    ghost use Rattle.std.specs.Arc.{arc_value};
    ghost use Rattle.morsel_meaning.specs.declared.fault.Fault.TheVariants.{OutOfMemory};
    ghost use Rattle.morsel_group.specs.GroupCauses.{GroupCause};
    ghost use Rattle.morsel_group_units.specs.GroupAsks.{rules_shape};
    ghost use Rattle.morsel_group_units.specs.TakenLoads.{HasOrdered, greatest_place, rows_taken};

    /// Nothing was taken yet.
    pub fn new(alloc: Global, rules: Arc<GroupRules, Global>) -> TakenGroups
        ensures { result ≡ record { rules = arc_value rules; ordered = []; taken = [] } }
    {
        TakenGroups {
            rules,
            locals: Vec::new(alloc),
            ordered: Vec::new(alloc),
            loads: Vec::new(alloc),
            fault: None,
        }
    }

    /// What it is asked for, once more.
    pub fn rules(&self) -> Result<Arc<GroupRules, Global>, Fault>
        ensures rules { IfOk result (λ rules. arc_value rules ≡ self.now.rules) }
        ensures out_of_memory { IsOkUnless result OutOfMemory }
    {
        let rules = self.rules.clone()?;
        Ok(rules)
    }

    /// The place up to which the stretches go that were taken from the present lanes.
    pub fn taken_to(&self) -> u64
        ensures { result ≡ greatest_place self.now.taken }
    {
        greatest_end(&self.loads)
    }

    /// Takes what a unit took from the present lanes.
    #[tactic(auto, using(crate::proofs::TakingLemmas::memory_fault))]
    pub fn append(&mut self, keeper: GroupKeeper)
        requires rules { keeper.rules ≡ self.old.rules }
        ensures same { (self.new.rules ≡ self.old.rules) × (self.new.ordered ≡ self.old.ordered) }
        ensures taken { (self.new.taken ≡ self.old.taken ++ keeper.taken) ⊎ (self.new.taken ≡ self.old.taken) }
    {
        let (local, fault, mut loads) = keeper.into_parts();
        match self.loads.append(&mut loads) {
            Ok(()) => put(&mut self.locals, &mut self.fault, local, fault),
            Err(_) => self.fault = Some(Fault::OutOfMemory),
        }
    }

    /// The same, once the present lanes have ended. Their loads follow one another from place 0 up to `to`: it tests that none is missing and
    /// none is there twice. Where that is not so, it answers that there is no memory.
    pub fn closed(self, alloc: Global, to: u64) -> Result<TakenGroups, Fault>
        ensures rules { IfOk result (λ closed. closed.rules ≡ self.rules) }
        ensures none { IfOk result (λ closed. closed.taken ≡ []) }
        ensures ordered { IfOk result (λ closed. HasOrdered self.ordered self.taken closed.ordered to) }
        ensures out_of_memory { IsOkUnless result OutOfMemory }
    {
        let TakenGroups {
            rules,
            locals,
            mut ordered,
            loads,
            fault,
        } = self;
        let mut more = following(loads, to)?;
        ordered.append(&mut more)?;
        Ok(TakenGroups {
            rules,
            locals,
            ordered,
            loads: Vec::new(alloc),
            fault,
        })
    }

    /// The rows of the group-by, once all lanes have ended. It tests that the places of the rows in the input rise, as the loads do; where that is
    /// not so, it answers that there is no memory.
    pub fn finish(self, alloc: Global) -> Result<GroupedRows, Fault>
        requires ended { self.taken ≡ [] }
        ensures same { IfOk result (λ grouped. (grouped.rules ≡ self.rules) × (grouped.taken ≡ self.ordered)) }
        ensures refused { IfErr result (λ fault. (fault ≡ OutOfMemory) ⊎ GroupCause (rules_shape self.rules) (rows_taken self.ordered) fault) }
    {
        let TakenGroups {
            rules,
            locals,
            ordered,
            fault,
            ..
        } = self;
        groups_have_causes();
        match rise(&ordered) {
            Ok(()) => {}
            Err(fault) => return Err(fault),
        }
        match fault {
            Some(fault) => return Err(fault),
            None => {}
        }
        let frame = match grouped(alloc, &rules, locals) {
            Ok(frame) => frame,
            Err(fault) => return Err(fault),
        };
        Ok(GroupedRows::of(rules, frame, &ordered))
    }
}

/// Puts the groups of a unit to those of others, or tells why rows were refused.
fn put(
    locals: &mut Vec<LocalGroups>,
    held: &mut Option<Fault>,
    local: LocalGroups,
    fault: Option<Fault>,
)
    ensures holds { (rules : GroupRulesSeen) (rows : ℕ) (before more : List TakenLoad) → HoldAllLoads rules locals.old.items held.old before → HoldsLoads rules local rows fault more → HoldAllLoads rules locals.new.items held.new (before ++ more) }
{
    if held.is_some() {
        return;
    }
    match fault {
        Some(fault) => *held = Some(fault),
        None => match locals.push(local) {
            Ok(()) => {}
            Err(_) => *held = Some(Fault::OutOfMemory),
        },
    }
}

/// The rows of the group-by of all rows that these groups have taken.
fn grouped(alloc: Global, rules: &GroupRules, mut locals: Vec<LocalGroups>) -> Result<Frame, Fault>
    requires group_by { All (IsGroupBy rules.now.columns rules.now.asked) locals.items }
    ensures columns { IfOk result (λ frame. frame.schema ≡ rules_output rules.now) }
    ensures rows { (lists : List (List RowAt)) → HaveTaken locals.items lists → IfOk result (λ frame. Grouped (rules_shape rules.now) (in_order (flat_map (λ own. own) lists)) frame.rows) }
    ensures few { (lists : List (List RowAt)) → HaveTaken locals.items lists → IfOk result (λ frame. length frame.rows ≤ length (flat_map (λ own. own) lists)) }
    ensures enough { (lists : List (List RowAt)) → HaveTaken locals.items lists → OnOk result (AreFewEnough (rules_shape rules.now) (flat_map (λ own. own) lists)) }
    ensures sums { (lists : List (List RowAt)) → HaveTaken locals.items lists → OnOk result (HasSums (rules_shape rules.now) (flat_map (λ own. own) lists)) }
    ensures refused { (lists : List (List RowAt)) → HaveTaken locals.items lists → IfErr result (λ fault. IsGroupFault (rules_shape rules.now) (flat_map (λ own. own) lists) fault ⊎ IsSumFault (rules_shape rules.now) (flat_map (λ own. own) lists) fault) }
{
    // No rows of any unit come to groups of their own.
    let none = match rules.groups(alloc) {
        Ok(none) => none,
        Err(fault) => return Err(fault),
    };
    if locals.push(none).is_err() {
        return Err(Fault::OutOfMemory);
    }
    let whole = match LocalGroups::combine(locals) {
        Ok(whole) => whole,
        Err(fault) => return Err(fault),
    };
    match whole.into_frame() {
        Ok(frame) => Ok(frame),
        Err(fault) => Err(fault),
    }
}
