//! Laws: a text that comes in chunks, cut where its cutter says, is pieces of whole records and a rest, and is read piece by piece.
ghost use Rattle.morsel_grammar.specs.Dialect.{Dialect, IsDialect};
ghost use Rattle.morsel_cut.specs.Pieces.{JoinsCutTexts, CutsByChunk, CutsWhole, LeavesNoWhole, MarksFirst, ReadsCutTexts, ReadsRowsOfCutTexts, BeginsWithRest, StopsAtRefused, StopsAtOpenEnd, EndsWithRest, ReadsUpToRefused, ReadsRowsUpToRefused};

/// The pieces and the rest are the text.
#[tactic(auto, using(crate::proofs::PieceLemmas::joins_cut_texts))]
pub fn pieces_and_rest_are_the_text()
    ensures { (o : Dialect) → JoinsCutTexts o }
{}

/// A chunk with an end in it ends a piece, and any other is added to the rest.
pub fn a_chunk_with_an_end_ends_a_piece()
    ensures { (o : Dialect) → CutsByChunk o }
{}

/// Each piece is whole records, the first one after its mark.
#[tactic(auto, using(crate::proofs::PieceWholeLemmas::cuts_whole))]
pub fn pieces_are_whole_records()
    ensures { (o : Dialect) → IsDialect o → CutsWhole o }
{}

/// The rest begins with no whole record.
#[tactic(auto, using(crate::proofs::PieceWholeLemmas::leaves_no_whole))]
pub fn the_rest_begins_with_no_whole_record()
    ensures { (o : Dialect) → IsDialect o → LeavesNoWhole o }
{}

/// The mark is that of the first piece, or where there is none that of the rest.
#[tactic(auto, using(crate::proofs::PieceWholeLemmas::marks_first))]
pub fn the_mark_stands_in_the_first_piece()
    ensures { (o : Dialect) → IsDialect o → MarksFirst o }
{}

/// A file is read piece by piece.
#[tactic(auto, using(crate::proofs::PieceReadLemmas::reads_cut_texts))]
pub fn a_file_is_read_piece_by_piece()
    ensures { (o : Dialect) → IsDialect o → ReadsCutTexts o }
{}

/// The used columns of a file are read piece by piece.
#[tactic(auto, using(crate::proofs::PieceReadLemmas::reads_rows_of_cut_texts))]
pub fn the_used_columns_of_a_file_are_read_piece_by_piece()
    ensures { (o : Dialect) → IsDialect o → ReadsRowsOfCutTexts o }
{}

/// The record that is under way begins where the rest does.
pub fn the_record_under_way_begins_with_the_rest()
    ensures { (o : Dialect) → IsDialect o → BeginsWithRest o }
{}

/// Where a record is refused, there are whole records before it, and it is none, whatever follows.
pub fn a_file_stops_at_a_refused_record()
    ensures { (o : Dialect) → IsDialect o → StopsAtRefused o }
{}

/// Where a file may not end, there are whole records before its last record, and that is none.
pub fn a_file_stops_at_an_open_end()
    ensures { (o : Dialect) → IsDialect o → StopsAtOpenEnd o }
{}

/// Where a file may end, the rest is one record, or nothing.
pub fn the_rest_is_one_record_at_the_end()
    ensures { (o : Dialect) → IsDialect o → EndsWithRest o }
{}

/// Reading a file that stops at a record refuses that record, unless it refuses one before it.
#[tactic(auto, using(crate::proofs::PieceReadLemmas::reads_up_to_refused))]
pub fn reading_refuses_where_a_file_stops()
    ensures { (o : Dialect) → IsDialect o → ReadsUpToRefused o }
{}

/// Reading the used columns of a file that stops at a record refuses that record, unless it refuses one before it.
#[tactic(auto, using(crate::proofs::PieceReadLemmas::reads_rows_up_to_refused))]
pub fn reading_used_columns_refuses_where_a_file_stops()
    ensures { (o : Dialect) → IsDialect o → ReadsRowsUpToRefused o }
{}
