//! Group-bys of rows with one column, which is their key.
ghost use Rattle.std.specs.Prelude.{◌≡◌, None, Some, []};
ghost use Rattle.morsel_group_units.specs.GroupAsks.{GroupRulesSeen};
ghost use Rattle.morsel_group_phases.specs.GroupPhases.{group_rules};
ghost use Rattle.morsel_group_node_uses.specs.Groups.{grouped_columns};

use super::jobs::Rows;
use morsel_frame::Schema;
use morsel_group::{GroupSpec, group_schema};
use morsel_group_node::GroupByNode;
use morsel_group_units::GroupRules;
use morsel_meaning::{ColType, Field, Name};
use morsel_prims::PlainToken;
use std::alloc::Global;
use std::process::Abort;
use std::sync::Arc;

/// The node of such a group-by.
pub type Group = GroupByNode<PlainToken, Rows>;

/// How many rows a load has at most that the node makes.
const LOAD_ROWS: usize = 10;

fn name_of(rt: &impl Abort, alloc: Global, text: &str) -> Name
    ensures { result ≡ text.now }
{
    Name::new(alloc, text).expect(rt, "memory")
}

/// The columns of the rows.
pub fn columns_of(rt: &impl Abort, alloc: Global) -> Schema
    ensures { result ≡ grouped_columns }
{
    let field = Field {
        name: name_of(rt, alloc, "k"),
        kind: ColType::Int,
    };
    let fields = vec![in alloc; field].expect(rt, "memory");
    Schema::new(alloc, fields).expect(rt, "distinct names")
}

/// What is asked: the keys alone.
fn keys_of(rt: &impl Abort, alloc: Global) -> GroupSpec
    ensures { result.aggs ≡ [] }
{
    GroupSpec {
        keys: vec![in alloc; name_of(rt, alloc, "k")].expect(rt, "memory"),
        aggs: Vec::new(alloc),
    }
}

/// What a group-by of such rows is asked for.
fn rules_of(rt: &impl Abort, alloc: Global) -> GroupRules
    ensures { result.columns ≡ grouped_columns }
{
    let columns = columns_of(rt, alloc);
    let spec = keys_of(rt, alloc);
    group_schema(alloc, &columns, &spec).expect(rt, "a key that is there");
    GroupRules::new(columns, spec)
}

/// A new node of such a group-by, whose lanes are for this job.
pub fn group_of(rt: &impl Abort, alloc: Global, rows: &Rows) -> Group
    requires rows { rows.now.columns.value ≡ grouped_columns }
    ensures none { result.pipelines ≡ None }
    ensures columns { (rules : GroupRulesSeen) → group_rules result.phase ≡ Some rules → rules.columns ≡ grouped_columns }
{
    let rules = rules_of(rt, alloc);
    let rules = Arc::new(alloc, rules).expect(rt, "memory");
    GroupByNode::new(alloc, rules, rows, LOAD_ROWS)
}
