//! Laws: what was fed does not depend on the pieces, a fault comes again, and rows are counted as the grammar says.
ghost use Rattle.morsel_grammar.specs.Dialect.{Dialect};
ghost use Rattle.morsel_cut.specs.Cutting.{KeepsFaults, FeedsPieces, CutsByBytes};
ghost use Rattle.morsel_cut.specs.RowCounts.{CountsRows, AddsRows};

/// Where a record is refused, it is refused with the same fault at each later call.
pub fn a_fault_comes_again()
    ensures { KeepsFaults }
{}

/// Bytes that are fed in two pieces are fed as in one.
#[tactic(auto, using(crate::proofs::CuttingLemmas::feeds_pieces))]
pub fn bytes_are_fed_piece_by_piece()
    ensures { FeedsPieces }
{}

/// A text is cut by its separator, quote, eol and comment prefix alone.
#[tactic(auto, using(crate::proofs::CuttingLemmas::cuts_by_bytes))]
pub fn a_text_is_cut_by_four_options()
    ensures { CutsByBytes }
{}

/// Records that have rows by the grammar have as many as are counted.
#[tactic(auto, using(crate::proofs::CountLemmas::counts_rows))]
pub fn rows_are_counted_as_the_grammar_says()
    ensures { (o : Dialect) → CountsRows o }
{}

/// The rows of records in two parts are those of the one and those of the other.
#[tactic(auto, using(crate::proofs::CountLemmas::adds_rows))]
pub fn rows_are_counted_part_by_part()
    ensures { AddsRows }
{}
