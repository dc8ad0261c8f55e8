//! Laws of places: what stretches of the sources' bytes give, and that it is what a scan means.
ghost use Rattle.morsel_grammar.specs.Dialect.{IsDialect};
ghost use Rattle.morsel_scan.specs.Scans.{CsvScan};
ghost use Rattle.morsel_scan.specs.CsvAxisLaws.{HasEachByte, EndsEachRowOfFiles, GivesScanRows, GivesScan, GivesPieces, ScansChained, GivesNothingAtEnd, GivesNothingPastSlice, GivesNothingOfGrammar, EndsNoMoreRows};
ghost use Rattle.morsel_scan.specs.StretchLaws.{CollectsParts, GivesOn, GivesFront, GivesAll, GivesMidst, GivesFaults, TextGoesOn};

/// Places in two parts give what the one gives, and then the other.
#[tactic(auto, using(crate::proofs::StretchLemmas::collects_parts))]
pub fn places_give_part_by_part()
    ensures { CollectsParts }
{}

/// Two stretches, one after the other, give the rows of both.
#[tactic(auto, using(crate::proofs::StretchLemmas::gives_on))]
pub fn stretches_follow_one_another()
    ensures { GivesOn }
{}

/// What the first places give are the first rows before the first fault.
pub fn first_places_give_first_rows()
    ensures { GivesFront }
{}

/// All places give rows exactly where there is no fault, and these are then all before the first.
pub fn all_places_give_all_rows()
    ensures { GivesAll }
{}

/// Some rows of a stretch have their place among the rows before the first fault.
pub fn a_part_of_a_stretch_has_its_place()
    ensures { GivesMidst }
{}

/// A stretch whose places do not give rows has the fault that they give.
#[tactic(auto, using(crate::proofs::StretchLemmas::gives_faults))]
pub fn a_fault_is_that_of_a_place()
    ensures { GivesFaults }
{}

/// The text before the end of a stretch is that before its beginning and that of its rows.
pub fn a_stretch_adds_the_text_of_its_rows()
    ensures { TextGoesOn }
{}

/// Where all places of a scan's files give rows, these are the scan's.
pub fn places_give_the_rows_of_the_scan()
    ensures { (s : CsvScan) → IsDialect s.options → GivesScanRows s }
{}

/// All places of a scan's files give what the scan means, a fault too, where they have no more rows than are allowed.
pub fn places_give_what_the_scan_means()
    ensures { (s : CsvScan) → IsDialect s.options → GivesScan s }
{}

/// A piece's stretch gives what is made of the piece by itself, and has each of its faults.
pub fn a_stretch_gives_the_rows_of_its_piece()
    ensures { (s : CsvScan) → IsDialect s.options → GivesPieces s }
{}

/// What is made of pieces from the beginning on, after which no place gives anything, is the scan's rows.
pub fn pieces_one_after_the_other_are_the_scan()
    ensures { (s : CsvScan) → IsDialect s.options → ScansChained s }
{}

/// No place gives anything after the last row, where the bytes that follow are UTF-8 and records.
pub fn nothing_is_given_after_the_last_row()
    ensures { (s : CsvScan) → IsDialect s.options → GivesNothingAtEnd s }
{}

/// No place gives anything from where the slice keeps no more, unless it has a fault.
pub fn nothing_is_given_past_the_slice()
    ensures { (s : CsvScan) → IsDialect s.options → GivesNothingPastSlice s }
{}

/// No place of files of the grammar gives anything from where the slice keeps no more.
pub fn nothing_is_given_past_the_slice_of_valid_files()
    ensures { (s : CsvScan) → IsDialect s.options → GivesNothingOfGrammar s }
{}

/// Each byte of a scan's files has its place.
pub fn each_byte_has_its_place()
    ensures { (s : CsvScan) → IsDialect s.options → HasEachByte s }
{}

/// Places at which no row ends are of one record at most.
pub fn places_at_which_no_row_ends_are_of_one_record()
    ensures { (s : CsvScan) → EndsEachRowOfFiles s }
{}

/// No row ends between two places where no more rows come before the later one, and the file in which it is stands after files of records.
pub fn no_row_ends_up_to_a_place_with_no_more_rows()
    ensures { (s : CsvScan) → IsDialect s.options → EndsNoMoreRows s }
{}
