//! What the lanes are for.
ghost use Rattle.std.specs.Prelude.{◌≡◌};
ghost use Rattle.morsel_join_node_uses.specs.Joins.{key_columns};

use super::joins::columns_of;
use morsel_frame::Schema;
use morsel_load::{Load, LoadJob};
use morsel_prims::{PlainLanes, PlainToken};
use morsel_rows_job::RowsJob;
use std::alloc::Global;
use std::process::Abort;
use std::snapshot::Snapshot;

/// What a lane is for: rows of these columns, in whole stretches.
#[derive(Drop)]
pub struct Rows {
    /// The columns.
    pub columns: Snapshot<Schema>,
}

/// The lanes, on one thread.
pub type Plain = PlainLanes<Load<PlainToken, Rows>>;

impl LoadJob<PlainToken> for Rows {
    ghost use Rattle.std.specs.Prelude.{⊤};
    ghost use Rattle.morsel_rows_job.specs.RowsJobs.{AreWholeRows};

    ghost suits = { λ job load. AreWholeRows job.columns.value load };

    // No token is made.
    ghost holds = { λ job token. ⊤ };
}

impl RowsJob<PlainToken> for Rows {
    ghost use Rattle.std.specs.Prelude.{◌≡◌, List, ⊤};
    ghost use Rattle.std.proofs.Common.{subst};
    ghost use Rattle.morsel_meaning.specs.declared.value.Field.{Field};
    ghost use Rattle.morsel_load.specs.Loads.{LoadSeen, SeenMorsel};
    ghost use Rattle.morsel_rows_job.specs.RowsJobs.{AreWholeRows};

    ghost gives_rows = { λ job columns. job.columns.value ≡ columns };

    // These tests look at states of ports, and not at what places give.
    ghost gives = { λ job from to rows. ⊤ };

    ghost is_all = { λ job rows. ⊤ };

    ghost finds = { λ side from to. (load : LoadSeen) → AreWholeRows to.columns.value load };

    ghost is_alone = { λ side from to. (load : LoadSeen) → AreWholeRows to.columns.value load };

    // No group-by is behind it.
    ghost gives_cuts = { λ job columns. ⊥ };

    ghost yields = { λ job to rows. ⊤ };

    ghost is_given = { λ columns rows to. ⊥ };

    ghost are_rows = { λ job columns load gives suits. subst (λ (fields : List Field). AreWholeRows fields load) gives suits };

    ghost rows_are = { λ job columns frame seq source stretch gives suits. tt };

    ghost gives_none = { λ job columns gives. tt };

    ghost gives_next = { λ job columns from mid to before after gives first later. tt };

    ghost found_suit = { λ side from to asked found seq source other stretch cut finds suits columns some same. finds (SeenMorsel found seq other cut) };

    ghost alone_suit = { λ side from to asked found seq source cut alone all columns some. alone (SeenMorsel found seq source cut) };

    ghost are_cuts = { λ job columns load none suits. absurd none };

    ghost cuts_yield = { λ job columns cuts to none each follow. tt };

    ghost given_suit = { λ columns rows to found seq source cut none same some. absurd none };
}

/// Rows with one column.
pub fn rows_of(rt: &impl Abort, alloc: Global) -> Rows
    ensures { result.columns.value ≡ key_columns }
{
    let columns = columns_of(rt, alloc);
    Rows {
        columns: Snapshot::of(&columns),
    }
}
