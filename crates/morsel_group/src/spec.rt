//! What is asked of a group-by.
use morsel_keys::Reduction;
use morsel_meaning::Name;
use std::marker::Model;

/// A reduction that is asked for.
#[derive(Debug, Drop)]
pub struct Agg {
    /// The reduction.
    pub op: Reduction,
    /// The column that it reduces. `Len` counts rows and has none; each other one has one.
    pub column: Option<Name>,
    /// The name of its column.
    pub output: Name,
}

/// What is asked of a group-by: one row for each distinct key, with what each reduction says of the rows of this key.
#[derive(Debug, Drop)]
pub struct GroupSpec {
    /// The columns of the key.
    pub keys: Vec<Name>,
    /// The reductions.
    pub aggs: Vec<Agg>,
}

impl Model for GroupSpec {
    ghost use Rattle.morsel_group.specs.Asked.{GroupAsked};

    ghost Value = { GroupAsked };

    ghost view = { λ spec. record { keys = spec.keys.items; aggs = spec.aggs.items } };
}
