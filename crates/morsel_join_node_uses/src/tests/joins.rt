//! Joins of rows with one column, the numbers by which they are joined.
ghost use Rattle.std.specs.Prelude.{◌≡◌, None};
ghost use Rattle.morsel_join.specs.Rows.{FitRules};
ghost use Rattle.morsel_join_node_uses.specs.Joins.{key_columns};

use super::jobs::Rows;
use morsel_frame::Schema;
use morsel_join::{JoinArgs, JoinRules, JoinType, MaintainOrderJoin};
use morsel_join_node::EquiJoinNode;
use morsel_meaning::{ColType, Field, Name};
use morsel_prims::PlainToken;
use std::alloc::Global;
use std::process::Abort;

/// The node of such a join.
pub type Join = EquiJoinNode<PlainToken, Rows>;

/// What a join is asked for: its kind, and its order.
pub type Asked = (JoinType, MaintainOrderJoin);

/// How many rows a load has at most that the node makes.
const LOAD_ROWS: usize = 10;

fn name_of(rt: &impl Abort, alloc: Global, text: &str) -> Name
    ensures { result ≡ text.now }
{
    Name::new(alloc, text).expect(rt, "memory")
}

/// The columns of either side.
pub fn columns_of(rt: &impl Abort, alloc: Global) -> Schema
    ensures { result ≡ key_columns }
{
    let field = Field {
        name: name_of(rt, alloc, "k"),
        kind: ColType::Int,
    };
    let fields = vec![in alloc; field].expect(rt, "memory");
    Schema::new(alloc, fields).expect(rt, "distinct names")
}

/// The rules of a join of two sides with these columns. The key of either side has a column of its own.
pub fn rules_of(rt: &impl Abort, alloc: Global, columns: &Schema, asked: Asked) -> JoinRules
    ensures { FitRules columns.now columns.now result }
{
    let keys = vec![in alloc; name_of(rt, alloc, "k")].expect(rt, "memory");
    let args = JoinArgs {
        how: asked.0,
        maintain_order: asked.1,
        join_nulls: false,
        coalesce: false,
        suffix: name_of(rt, alloc, "_right"),
    };
    JoinRules::new(alloc, columns, columns, &keys, &keys, &args).expect(rt, "keys that are there")
}

/// A new node of a join by these rules, whose lanes of either side are for this job.
fn join_by(alloc: Global, rules: JoinRules, columns: Schema, others: Schema, rows: &Rows) -> Join
    requires fit { FitRules columns columns rules }
    requires same { others ≡ columns }
    requires rows { rows.now.columns.value ≡ columns }
    ensures none { result.pipelines ≡ None }
{
    EquiJoinNode::new(alloc, rules, columns, others, rows, rows, LOAD_ROWS)
}

/// A new node of a join of rows with one column, whose lanes of either side are for this job.
pub fn join_of(rt: &impl Abort, alloc: Global, asked: Asked, rows: &Rows) -> Join
    requires rows { rows.now.columns.value ≡ key_columns }
    ensures none { result.pipelines ≡ None }
{
    let columns = columns_of(rt, alloc);
    let others = columns_of(rt, alloc);
    let rules = rules_of(rt, alloc, &columns, asked);
    join_by(alloc, rules, columns, others, rows)
}
