//! How a source is asked to stop.
ghost use Rattle.std.specs.Prelude.{◌≡◌, ◌<◌, ◌≤◌, true, false, IfOk, IsOkUnless};
ghost use Rattle.morsel_meaning.specs.declared.fault.Fault.TheVariants.{OutOfMemory};

use crate::source_flag::{SourceRuled, SourceSeat, SourceView, is_raised, raise, share};
use atomic_table::Table;
use morsel_meaning::Fault;
use std::alloc::Global;
use std::marker::Model;
use std::sync::Arc;

/// The flag of a source and its memory.
type SourceTable = Table<(), SourceView, (), SourceRuled, Global>;

/// Asks the source of a morsel to stop: a flag that all its tokens share, and that only rises.
///
/// Contracts see which source it is of, and how many stops of that source this token knows of: of those that it made itself,
/// and of those before it saw the flag raised.
#[derive(Drop)]
pub struct SourceToken {
    flag: Arc<SourceTable, Global>,
    seat: SourceSeat,
}

impl Model for SourceToken {
    ghost use Rattle.morsel_load.specs.Sources.{SourceSeen, source_seen, IsSourceSeat};
    ghost use Rattle.std.specs.Arc.{arc_value};

    ghost Value = { SourceSeen };

    ghost view = { λ token. source_seen token.seat };

    ghost invariant = { λ token. IsSourceSeat (arc_value token.flag).shared.table_id token.seat };
}

impl SourceToken {
    /// The first token of a source.
    pub fn new(alloc: Global) -> Result<SourceToken, Fault>
        ensures fresh { IfOk result (λ token. token.stops ≡ 0) }
        ensures out_of_memory { IsOkUnless result OutOfMemory }
    {
        let (table, seat) = Table::of_words(alloc, &[0], &())?;
        let flag = Arc::new(alloc, table)?;
        Ok(SourceToken { flag, seat })
    }

    /// Another token of the same source.
    pub fn again(&mut self) -> Result<SourceToken, Fault>
        ensures same_source { IfOk result (λ token. token.source ≡ self.old.source) }
        ensures known { IfOk result (λ token. token.stops ≡ self.old.stops) }
        ensures same { self.new ≡ self.old }
        ensures out_of_memory { IsOkUnless result OutOfMemory }
    {
        let again = Arc::try_clone(&self.flag)?;
        let flag = &self.flag;
        let seat = share(&flag.shared, &mut self.seat);
        Ok(SourceToken { flag: again, seat })
    }

    /// Asks the source to stop.
    pub fn stop(&mut self)
        ensures same_source { self.new.source ≡ self.old.source }
        ensures stopped { self.old.stops < self.new.stops }
    {
        let flag = &self.flag;
        raise(&flag.shared, &mut self.seat);
    }

    /// Whether the source was asked to stop.
    pub fn stop_requested(&mut self) -> bool
        ensures same_source { self.new.source ≡ self.old.source }
        ensures after_a_stop { result ≡ true → 1 ≤ self.new.stops }
        ensures no_stop { result ≡ false → self.new.stops ≡ 0 }
        ensures rises { self.old.stops ≤ self.new.stops }
        ensures stays { 1 ≤ self.old.stops → result ≡ true }
    {
        let flag = &self.flag;
        is_raised(&flag.shared, &mut self.seat)
    }
}
