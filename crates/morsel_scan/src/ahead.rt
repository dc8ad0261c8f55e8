//! Laws of reads that are made in time: over one list of events after another, and of those that search for a piece.
ghost use Rattle.morsel_scan.specs.AheadLaws.{ReadsOn, CountsOn, ReadsWithin, SeeksInTime, SeeksOnly};

/// Events in time, and then others in time, are all in time.
#[tactic(auto, using(crate::proofs::AheadLemmas::reads_on))]
pub fn reads_stay_in_time()
    ensures { ReadsOn }
{}

/// What was asked and written by events and then by others is counted on.
#[tactic(auto, using(crate::proofs::AheadLemmas::counts_on))]
pub fn reads_and_writes_are_counted_on()
    ensures { CountsOn }
{}

/// Reads that are in time are so under a greater bound.
#[tactic(auto, using(crate::proofs::AheadLemmas::reads_within))]
pub fn a_greater_bound_asks_less()
    ensures { ReadsWithin }
{}

/// Reads are in time where they are made while little is given and not written, and each row that was asked to its end is given.
#[tactic(auto, using(crate::proofs::AheadLemmas::seeks_in_time))]
pub fn a_search_for_a_piece_is_in_time()
    ensures { SeeksInTime }
{}

/// A search for a piece writes nothing.
#[tactic(auto, using(crate::proofs::AheadLemmas::seeks_only))]
pub fn a_search_for_a_piece_writes_nothing()
    ensures { SeeksOnly }
{}
