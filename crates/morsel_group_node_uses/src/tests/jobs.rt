//! What the lanes are for.
ghost use Rattle.std.specs.Prelude.{◌≡◌};
ghost use Rattle.morsel_group_node_uses.specs.Groups.{grouped_columns};

use super::groups::columns_of;
use morsel_frame::Schema;
use morsel_load::{Load, LoadJob};
use morsel_prims::{PlainLanes, PlainToken};
use morsel_rows_job::RowsJob;
use std::alloc::Global;
use std::process::Abort;
use std::snapshot::Snapshot;

/// What a lane is for: rows of these columns.
#[derive(Drop)]
pub struct Rows {
    /// The columns.
    pub columns: Snapshot<Schema>,
}

/// The lanes, on one thread.
pub type Plain = PlainLanes<Load<PlainToken, Rows>>;

impl LoadJob<PlainToken> for Rows {
    ghost use Rattle.std.specs.Prelude.{⊤};
    ghost use Rattle.morsel_rows_job.specs.RowsJobs.{AreRowsWith};

    ghost suits = { λ job load. AreRowsWith job.columns.value load };

    // No token is made.
    ghost holds = { λ job token. ⊤ };
}

impl RowsJob<PlainToken> for Rows {
    ghost use Rattle.std.specs.Prelude.{◌≡◌, List, ⊤};
    ghost use Rattle.std.proofs.Common.{◌∙◌, sym, subst};
    ghost use Rattle.morsel_meaning.specs.declared.value.Field.{Field};
    ghost use Rattle.morsel_rows_job.specs.RowsJobs.{AreRowsWith};

    // No join is before it.
    ghost gives_rows = { λ job columns. ⊥ };

    ghost gives = { λ job from to rows. ⊤ };

    ghost is_all = { λ job rows. ⊤ };

    ghost finds = { λ side from to. ⊥ };

    ghost is_alone = { λ side from to. ⊥ };

    ghost gives_cuts = { λ job columns. job.columns.value ≡ columns };

    // These tests look at states of ports, and not at what places give.
    ghost yields = { λ job to rows. ⊤ };

    ghost is_given = { λ columns rows to. to.columns.value ≡ columns };

    ghost are_rows = { λ job columns load none suits. absurd none };

    ghost rows_are = { λ job columns frame seq source stretch none suits. tt };

    ghost gives_none = { λ job columns none. tt };

    ghost gives_next = { λ job columns from mid to before after none first later. tt };

    ghost found_suit = { λ side from to asked found seq source other stretch cut none suits columns some same. absurd none };

    ghost alone_suit = { λ side from to asked found seq source cut none all columns some. absurd none };

    ghost are_cuts = { λ job columns load gives suits. subst (λ (fields : List Field). AreRowsWith fields load) gives suits };

    ghost cuts_yield = { λ job columns cuts to gives each follow. tt };

    ghost given_suit = { λ columns rows to found seq source cut given same some. same ∙ sym given };
}

/// Rows with one column.
pub fn rows_of(rt: &impl Abort, alloc: Global) -> Rows
    ensures { result.columns.value ≡ grouped_columns }
{
    let columns = columns_of(rt, alloc);
    Rows {
        columns: Snapshot::of(&columns),
    }
}
