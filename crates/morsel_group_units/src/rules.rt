//! What a group-by is asked for.
ghost use Rattle.morsel_group.specs.Asked.{HaveColumns};
ghost use Rattle.morsel_group.specs.GroupFlaws.{group_flaw};

use morsel_frame::Schema;
use morsel_group::{GroupSpec, LocalGroups};
use morsel_meaning::Fault;
use std::alloc::Global;
use std::marker::Model;

/// The columns of the rows that are grouped, and what is asked of their group-by, of which there is one.
#[derive(Drop)]
pub struct GroupRules {
    input: Schema,
    spec: GroupSpec,
}

impl Model for GroupRules {
    ghost use Rattle.morsel_group_units.specs.GroupAsks.{AreGroupRules, GroupRulesSeen};

    ghost Value = { GroupRulesSeen };

    ghost view = { λ rules. record { columns = rules.input; asked = rules.spec } };

    ghost invariant = { λ rules. AreGroupRules (record { columns = rules.input; asked = rules.spec }) };
}

impl GroupRules {
    ghost use Rattle.std.specs.Prelude.{◌≡◌, None, [], IfOk, IsOkUnless};
    ghost use Rattle.morsel_meaning.specs.declared.fault.Fault.TheVariants.{OutOfMemory};
    ghost use Rattle.morsel_group.specs.Locals.{HasTakenRows, IsGroupBy};

    /// A group-by of rows with these columns that `group_schema` does not refuse.
    pub fn new(input: Schema, spec: GroupSpec) -> GroupRules
        requires columns { HaveColumns spec.aggs }
        requires sound { group_flaw input spec ≡ None }
        ensures { result ≡ record { columns = input; asked = spec } }
    {
        GroupRules { input, spec }
    }

    /// Groups that have taken no row.
    pub fn groups(&self, alloc: Global) -> Result<LocalGroups, Fault>
        ensures group_by { IfOk result (IsGroupBy self.now.columns self.now.asked) }
        ensures empty { IfOk result (λ local. HasTakenRows local []) }
        ensures out_of_memory { IsOkUnless result OutOfMemory }
    {
        LocalGroups::new(alloc, &self.input, &self.spec)
    }
}
