//! Laws: the machine that finds where a CSV text may be cut follows the grammar, for all options that do not contradict each other.
ghost use Rattle.std.specs.Prelude.{ℕ};
ghost use Rattle.morsel_grammar.specs.Dialect.{Dialect, IsDialect};
ghost use Rattle.morsel_grammar.specs.Machine.{CutState};
ghost use Rattle.morsel_grammar.specs.Cuts.{PassesParts, JoinsPlaces, StaysWithin, HoldsAtLast, HoldsNotLater, FollowsReading, ReadsToFirstEnd, ReadsNothingOpen, AreWholeAtEnds, MayCutAfterWhole, CutsAfterWhole, PassesWhatIsLeft, PassesMark, FindsNoEnd, RefusesWhateverFollows, RefusesWithoutDelay, RefusesOpenEnd, EndsWithRecord, BeginsAfterWhole, RefusesForGood, CarriesBegun, CountsBegun, BeginsAtEnds};

/// A text in two parts is passed one part after the other, by any machine with these states.
#[tactic(auto, using(crate::proofs::StateLemmas::passes_parts))]
pub fn a_text_is_passed_part_by_part()
    ensures { (step : CutState → ℕ → CutState) → PassesParts step }
{}

/// The last place of a text in two parts is that of the second, or else that of the first, by any machine with these states.
#[tactic(auto, using(crate::proofs::StateLemmas::joins_places))]
pub fn the_last_place_is_found_part_by_part()
    ensures { (step : CutState → ℕ → CutState) → JoinsPlaces step }
{}

/// The last place of a text is within it, by any machine with these states.
#[tactic(auto, using(crate::proofs::StateLemmas::stays_within))]
pub fn the_last_place_is_within_the_text()
    ensures { (step : CutState → ℕ → CutState) → StaysWithin step }
{}

/// At a last place its test holds, by any machine with these states.
#[tactic(auto, using(crate::proofs::StateLemmas::holds_at_last))]
pub fn the_test_holds_at_the_last_place()
    ensures { (step : CutState → ℕ → CutState) → HoldsAtLast step }
{}

/// After the last place there is none, by any machine with these states.
#[tactic(auto, using(crate::proofs::StateLemmas::holds_not_later))]
pub fn after_the_last_place_there_is_none()
    ensures { (step : CutState → ℕ → CutState) → HoldsNotLater step }
{}

/// The machine goes over the record that is read at the front of a text, up to its end.
#[tactic(auto, using(crate::proofs::RecordRunLemmas::follows_reading))]
pub fn the_machine_follows_what_is_read()
    ensures { (o : Dialect) → IsDialect o → FollowsReading o }
{}

/// A record is read up to the first place where the text may be cut.
#[tactic(auto, using(crate::proofs::FirstEndLemmas::reads_to_first_end))]
pub fn a_record_is_read_to_the_first_end()
    ensures { (o : Dialect) → IsDialect o → ReadsToFirstEnd o }
{}

/// No record is read where a text has no place to be cut, and may not end.
#[tactic(auto, using(crate::proofs::FirstEndLemmas::reads_nothing_open))]
pub fn nothing_is_read_where_a_text_may_not_end()
    ensures { (o : Dialect) → IsDialect o → ReadsNothingOpen o }
{}

/// Bytes at whose end the text may be cut are whole records.
#[tactic(auto, using(crate::proofs::CutLemmas::whole_at_ends))]
pub fn a_text_is_cut_after_whole_records()
    ensures { (o : Dialect) → IsDialect o → AreWholeAtEnds o }
{}

/// After whole records a text may be cut.
pub fn after_whole_records_a_text_may_be_cut()
    ensures { (o : Dialect) → IsDialect o → MayCutAfterWhole o }
{}

/// Bytes up to their last end are whole records.
pub fn up_to_the_last_end_there_are_whole_records()
    ensures { (o : Dialect) → IsDialect o → CutsAfterWhole o }
{}

/// What is left after the last end is passed as if nothing were before it.
pub fn what_is_left_is_passed_alone()
    ensures { (o : Dialect) → IsDialect o → PassesWhatIsLeft o }
{}

/// What follows a file's mark is passed as from the place after it, and its last end is found as after an eol byte.
pub fn what_follows_the_mark_is_passed_alone()
    ensures { (o : Dialect) → IsDialect o → PassesMark o }
{}

/// A text has no place to be cut exactly where it begins with no whole record.
pub fn no_end_is_no_whole_record()
    ensures { (o : Dialect) → IsDialect o → FindsNoEnd o }
{}

/// Where the machine refuses a record, none begins there, whatever follows.
#[tactic(auto, using(crate::proofs::CutLemmas::refuses_whatever_follows))]
pub fn what_is_refused_is_no_record()
    ensures { (o : Dialect) → IsDialect o → RefusesWhateverFollows o }
{}

/// Where nothing that follows can make the record under way one, the machine refuses it.
#[tactic(auto, using(crate::proofs::CutLemmas::refuses_without_delay))]
pub fn what_can_be_no_record_is_refused()
    ensures { (o : Dialect) → IsDialect o → RefusesWithoutDelay o }
{}

/// Where a text may not end, the record under way is none.
#[tactic(auto, using(crate::proofs::CutLemmas::refuses_open_end))]
pub fn an_open_end_is_no_record()
    ensures { (o : Dialect) → IsDialect o → RefusesOpenEnd o }
{}

/// Where a text may end, what is left after its last cut is one record.
#[tactic(auto, using(crate::proofs::CutLemmas::ends_with_record))]
pub fn what_is_left_at_the_end_is_one_record()
    ensures { (o : Dialect) → IsDialect o → EndsWithRecord o }
{}

/// Before the record that is under way there are whole records, and before them the mark.
pub fn a_record_under_way_begins_after_whole_records()
    ensures { (o : Dialect) → IsDialect o → BeginsAfterWhole o }
{}

/// A refused record is refused for good.
pub fn a_refused_record_stays_refused()
    ensures { (o : Dialect) → RefusesForGood o }
{}

/// The place of the record that is under way is found part by part.
#[tactic(auto, using(crate::proofs::BegunLemmas::carries_begun))]
pub fn where_a_record_began_is_found_part_by_part()
    ensures { (o : Dialect) → CarriesBegun o }
{}

/// The place of the record that is under way counts from the first.
#[tactic(auto, using(crate::proofs::BegunLemmas::counts_begun))]
pub fn where_a_record_began_counts_from_the_first()
    ensures { (o : Dialect) → CountsBegun o }
{}

/// After the mark, a record begins only where another ends.
#[tactic(auto, using(crate::proofs::BegunLemmas::begins_at_ends))]
pub fn records_begin_where_others_end()
    ensures { (o : Dialect) → BeginsAtEnds o }
{}
