//! The flag of a source, and each single step of a token on it.
//!
//! The flag is one word: 0 until a token asks the source to stop, and 1 from then on. A token knows how often it has asked
//! itself, and how often all tokens of the source had asked when it looked last.
//!
//! | Step | On the word | What the token knows then |
//! |---|---|---|
//! | it asks | sets it to 1 | one stop more than there were, and that it asked |
//! | it looks | loads it: 1 | that there were stops |
//! | it looks | loads it: 0 | that there was none |
//! | another token is parted from it | none | the same; and the other token too |
ghost use Rattle.std.specs.Prelude.{◌≡◌, ◌<◌, ◌≤◌, true, false};

use atomic_table::{Play, Seat, Shared, Split, TableRule};

/// What a token of a source knows. No value of it is made.
pub struct SourceView {
    /// How often it has asked the source to stop.
    pub asked: u64,
    /// How often all tokens of the source had asked, when it looked or asked last.
    pub stops: u64,
}

/// The rule of the flag of a source.
pub struct SourceRuled;

impl TableRule<(), SourceView, ()> for SourceRuled {
    ghost use Rattle.morsel_load.specs.Sources.{IsSource, unasked_view};

    ghost holds = { λ _. IsSource };

    ghost first = { λ _. unasked_view };
}

struct RaiseFlag;

impl Play<(), SourceView> for RaiseFlag {
    ghost use Rattle.morsel_load.specs.Sources.{AsksToStop};

    ghost then = { AsksToStop };
}

struct SeekFlag;

impl Play<(), SourceView> for SeekFlag {
    ghost use Rattle.morsel_load.specs.Sources.{LooksForStop};

    ghost then = { LooksForStop };
}

struct ShareFlag;

impl Split<SourceView> for ShareFlag {
    ghost use Rattle.morsel_load.specs.Sources.{same_view, shared_view};

    ghost left = { same_view };

    ghost right = { shared_view };
}

/// The flag of a source.
pub(crate) type SourceFlag = Shared<(), SourceView, (), SourceRuled>;

/// The seat of a token.
pub(crate) type SourceSeat = Seat<(), SourceView>;

/// Sets the flag.
pub(crate) fn raise(flag: &SourceFlag, seat: &mut SourceSeat)
    requires table { (seat.old.table_id ≡ flag.now.table_id) × (flag.now.table_id.words ≡ 1) }
    ensures same { seat.new.table_id ≡ seat.old.table_id }
    ensures stopped { seat.old.me.0.stops < seat.new.me.0.stops }
{
    flag.fetch_or::<RaiseFlag>(seat, 0, 1);
}

/// Whether the flag is set.
pub(crate) fn is_raised(flag: &SourceFlag, seat: &mut SourceSeat) -> bool
    requires table { (seat.old.table_id ≡ flag.now.table_id) × (flag.now.table_id.words ≡ 1) }
    ensures same { seat.new.table_id ≡ seat.old.table_id }
    ensures after_a_stop { result ≡ true → 1 ≤ seat.new.me.0.stops }
    ensures no_stop { result ≡ false → seat.new.me.0.stops ≡ 0 }
    ensures rises { seat.old.me.0.stops ≤ seat.new.me.0.stops }
{
    flag.load::<SeekFlag>(seat, 0) != 0
}

/// One more seat, that knows of the same stops.
pub(crate) fn share(flag: &SourceFlag, seat: &mut SourceSeat) -> SourceSeat
    requires table { (seat.old.table_id ≡ flag.now.table_id) × (flag.now.table_id.words ≡ 1) }
    ensures same { (seat.new.table_id ≡ seat.old.table_id) × (result.table_id ≡ seat.old.table_id) }
    ensures known { (seat.new.me.0 ≡ seat.old.me.0) × (result.me.0.stops ≡ seat.old.me.0.stops) }
{
    flag.split_seat::<ShareFlag>(seat)
}
