//! Laws: the functions that read a CSV text follow its grammar, for all options that do not contradict each other.
ghost use Rattle.morsel_grammar.specs.Dialect.{Dialect, IsDialect};
ghost use Rattle.morsel_grammar.specs.Laws.{ReadsByGrammar, RefusesByGrammar, BeginsWithOne, IsOneList, TakesBytes, EndsWithEol, StandsWhateverFollows, SplitsBehindWhole, JoinsWhole, WholeAreRecords, ReadsCells, ReadsAllCells, PlacesRows, ReadsRows, ReadsAllRows, RefusesOpenQuotes, ReadsFiles};
ghost use Rattle.morsel_grammar.specs.GrammarResults.{AnswersByGrammar, AnswersAllRows};
ghost use Rattle.morsel_grammar.specs.Joined.{ReadsPieces, ReadsRowsOfPieces};
ghost use Rattle.morsel_grammar.specs.OneEnd.{EndsOnce, StandsOnce};

/// The record that is read is one that the text begins with, and any record that the text begins with is read.
#[tactic(auto, using(crate::proofs::RecordLemmas::reads_by_grammar))]
pub fn what_is_read_is_what_is_written()
    ensures { (o : Dialect) → IsDialect o → ReadsByGrammar o }
{}

/// Where no record is read, the text begins with none.
#[tactic(auto, using(crate::proofs::RecordLemmas::refuses_by_grammar))]
pub fn what_is_not_read_is_no_record()
    ensures { (o : Dialect) → IsDialect o → RefusesByGrammar o }
{}

/// A text begins with at most one record.
#[tactic(auto, using(crate::proofs::RecordLemmas::begins_with_one))]
pub fn a_text_begins_with_at_most_one_record()
    ensures { (o : Dialect) → IsDialect o → BeginsWithOne o }
{}

/// A text is at most one list of records.
#[tactic(auto, using(crate::proofs::RecordLemmas::is_one_list))]
pub fn a_text_is_at_most_one_list_of_records()
    ensures { (o : Dialect) → IsDialect o → IsOneList o }
{}

/// A record of a text takes at least one byte of it, and what is left is its end.
#[tactic(auto, using(crate::proofs::RecordLemmas::takes_bytes))]
pub fn a_record_takes_bytes()
    ensures { (o : Dialect) → IsDialect o → TakesBytes o }
{}

/// A record ends with an eol byte or with the text.
#[tactic(auto, using(crate::proofs::WholeRecordLemmas::ends_with_eol))]
pub fn a_record_ends_with_an_eol_byte_or_the_text()
    ensures { (o : Dialect) → IsDialect o → EndsWithEol o }
{}

/// What follows a record's eol byte does not change it.
#[tactic(auto, using(crate::proofs::WholeRecordLemmas::stands_whatever_follows))]
pub fn what_follows_changes_no_record()
    ensures { (o : Dialect) → IsDialect o → StandsWhateverFollows o }
{}

/// After whole records a text is split as if they were not there.
#[tactic(auto, using(crate::proofs::WholeRecordLemmas::splits_behind_whole))]
pub fn a_text_is_split_behind_whole_records()
    ensures { (o : Dialect) → IsDialect o → SplitsBehindWhole o }
{}

/// Whole records after whole records are whole records.
#[tactic(auto, using(crate::proofs::WholeRecordLemmas::joins_whole))]
pub fn whole_records_are_joined()
    ensures { (o : Dialect) → IsDialect o → JoinsWhole o }
{}

/// Whole records are records.
#[tactic(auto, using(crate::proofs::WholeRecordLemmas::whole_are_records))]
pub fn whole_records_are_records()
    ensures { (o : Dialect) → IsDialect o → WholeAreRecords o }
{}

/// Reading a text gives the rows of cells that the grammar gives it, or refuses the first record that the grammar refuses.
#[tactic(auto, using(crate::proofs::FileLemmas::reads_cells))]
pub fn reading_gives_the_grammars_cells()
    ensures { (o : Dialect) → IsDialect o → ReadsCells o }
{}

/// A text to which the grammar gives rows of cells is read to its end.
pub fn a_text_with_cells_is_read_whole()
    ensures { (o : Dialect) → IsDialect o → ReadsAllCells o }
{}

/// Each row has the place where its record begins.
#[tactic(auto, using(crate::proofs::FileLemmas::places_rows))]
pub fn a_row_has_the_place_of_its_record()
    ensures { (o : Dialect) → IsDialect o → PlacesRows o }
{}

/// Reading the used columns of a text gives their rows by the grammar, or refuses the first record that the grammar refuses.
#[tactic(auto, using(crate::proofs::FileLemmas::reads_rows))]
pub fn reading_gives_the_grammars_rows()
    ensures { (o : Dialect) → IsDialect o → ReadsRows o }
{}

/// A text to which the grammar gives rows, with no bad cell in a used column, is read to its end.
pub fn a_text_with_rows_is_read_whole()
    ensures { (o : Dialect) → IsDialect o → ReadsAllRows o }
{}

/// A text that ends within a quoted field is refused.
#[tactic(auto, using(crate::proofs::FileLemmas::refuses_open_quotes))]
pub fn open_quotes_are_refused()
    ensures { (o : Dialect) → IsDialect o → RefusesOpenQuotes o }
{}

/// A file is of the grammar exactly where no record after its mark is refused.
#[tactic(auto, using(crate::proofs::FileLemmas::reads_files))]
pub fn a_file_of_the_grammar_is_one_that_is_read()
    ensures { (o : Dialect) → IsDialect o → ReadsFiles o }
{}

/// A text that is cut after whole records is read piece by piece.
#[tactic(auto, using(crate::proofs::JoinedLemmas::reads_pieces))]
pub fn a_text_is_read_piece_by_piece()
    ensures { (o : Dialect) → IsDialect o → ReadsPieces o }
{}

/// What a reader of whole records answers is what the grammar says.
#[tactic(auto, using(crate::proofs::ResultLemmas::answers_by_grammar))]
pub fn readers_answer_by_the_grammar()
    ensures { (o : Dialect) → IsDialect o → AnswersByGrammar o }
{}

/// A reader of a text to which the grammar gives rows answers these, unless it runs out of memory.
pub fn readers_answer_all_rows()
    ensures { (o : Dialect) → IsDialect o → AnswersAllRows o }
{}

/// The used columns of a text that is cut after whole records are read piece by piece.
#[tactic(auto, using(crate::proofs::PieceRowLemmas::reads_rows_of_pieces))]
pub fn used_columns_are_read_piece_by_piece()
    ensures { (o : Dialect) → IsDialect o → ReadsRowsOfPieces o }
{}

/// A text has one list of rows, up to its end or up to a record that is refused, and that record has one place.
pub fn a_text_ends_at_one_place()
    ensures { (o : Dialect) → IsDialect o → EndsOnce o }
{}

/// After so many rows, the next row begins at one place.
pub fn so_many_rows_end_at_one_place()
    ensures { (o : Dialect) → IsDialect o → StandsOnce o }
{}
