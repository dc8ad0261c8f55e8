//! What keeps the rows of one side of a join.
ghost use Rattle.std.specs.Prelude.{◌≡◌, []};

use morsel_end_units::LoadKeeper;
use morsel_frame::Frame;
use morsel_load::{Load, Stretch};
use morsel_meaning::Fault;
use morsel_pipe::MorselSeq;
use morsel_rows_job::RowsJob;
use std::alloc::Global;

/// The rows of a load, with its number and its stretch.
#[derive(Drop)]
pub struct KeptRows {
    /// The number.
    pub seq: MorselSeq,
    /// The stretch.
    pub stretch: Stretch,
    /// The rows.
    pub frame: Frame,
}

/// Keeps the rows of one side of a join, as they come.
#[derive(Drop)]
pub struct RowKeeper {
    /// The rows, in the order in which they came.
    pub kept: Vec<KeptRows>,
}

impl RowKeeper {
    /// One that has kept nothing.
    pub fn new(alloc: Global) -> RowKeeper
        ensures { result.kept.items ≡ [] }
    {
        RowKeeper {
            kept: Vec::new(alloc),
        }
    }
}

impl<K: Drop, J: RowsJob<K>> LoadKeeper<K, J> for RowKeeper {
    ghost use Rattle.std.specs.Prelude.{◌≡◌, ◌++◌, ◌∷◌, [], List, None, OnOk, IsOkUnless, ⊤};
    ghost use Rattle.std.specs.List.{flat_map};
    ghost use Rattle.morsel_meaning.specs.declared.fault.Fault.TheVariants.{OutOfMemory};
    ghost use Rattle.morsel_load.specs.Loads.{LoadSeen, held_token, load_seen};
    ghost use Rattle.morsel_join_units.specs.RowKeepers.{AreAllRows, KeepsRowsOf, rows_kept_of};

    ghost keeps = { λ keeper job. KeepsRowsOf J.suits J.gives_rows keeper.kept.items job };

    ghost takes = { λ keeper load. AreAllRows load };

    ghost took = { λ keeper loads. keeper.kept.items ≡ flat_map rows_kept_of loads };

    ghost is_later = { λ keeper later. ⊤ };

    ghost may_fail = { λ job fault. fault ≡ OutOfMemory };

    fn keep(&mut self, load: Load<K, J>) -> Result<(), Fault>
        requires takes { AreAllRows (load_seen load) }
        requires free { held_token load ≡ None }
        ensures keeps { OnOk result ((from : J) → KeepsRowsOf J.suits J.gives_rows self.old.kept.items from → J.suits from (load_seen load) → KeepsRowsOf J.suits J.gives_rows self.new.kept.items from) }
        ensures took { OnOk result ((before : List LoadSeen) → self.old.kept.items ≡ flat_map rows_kept_of before → self.new.kept.items ≡ flat_map rows_kept_of (before ++ load_seen load ∷ [])) }
        ensures later { ⊤ }
        ensures failed { IsOkUnless result OutOfMemory }
    {
        let Load::Morsel(morsel) = load else {
            unreachable!()
        };
        let stretch = morsel.stretch();
        let (frame, seq, _, _) = morsel.into_inner();
        self.kept.push(KeptRows {
            seq,
            stretch,
            frame,
        })?;
        Ok(())
    }

    ghost takes_suiting = { λ keeper from seen keeps suits. (keeps.columns, J.are_rows from keeps.columns seen keeps.rows suits) };

    ghost later_same = { λ keeper. tt };

    ghost later_next = { λ first mid last later more. tt };
}
