//! Laws: what is made of parts of a scan's input is made of the whole.
ghost use Rattle.morsel_grammar.specs.Dialect.{IsDialect};
ghost use Rattle.morsel_scan.specs.Scans.{CsvScan};
ghost use Rattle.morsel_scan.specs.ScanLaws.{GathersParts, PlacesParts, ScansParts, ScansSources, ReadsParts, ScansPieces};

/// What is made of rows in two parts is made of the one and then of the other.
#[tactic(auto, using(crate::proofs::GatherLemmas::gathers_parts))]
pub fn rows_are_gathered_part_by_part()
    ensures { GathersParts }
{}

/// Positions go on from one part of a file's rows to the other.
#[tactic(auto, using(crate::proofs::GatherLemmas::places_parts))]
pub fn positions_go_on()
    ensures { PlacesParts }
{}

/// What a scan makes of a file in two parts is made of the one and then of the other.
#[tactic(auto, using(crate::proofs::GatherLemmas::scans_parts))]
pub fn a_file_is_scanned_part_by_part()
    ensures { ScansParts }
{}

/// What a scan makes of some files and then others is made of the ones and then of the others.
#[tactic(auto, using(crate::proofs::GatherLemmas::scans_sources))]
pub fn files_are_scanned_one_after_the_other()
    ensures { ScansSources }
{}

/// A CSV text that is cut after whole records has the rows of its two parts.
#[tactic(auto, using(crate::proofs::PieceLemmas::reads_parts))]
pub fn a_text_has_the_rows_of_its_parts()
    ensures { (s : CsvScan) → IsDialect s.options → ReadsParts s }
{}

/// What a scan makes of a text is made of its pieces, one after the other, also where records without rows stand between them.
#[tactic(auto, using(crate::proofs::PieceLemmas::scans_pieces))]
pub fn a_text_is_scanned_piece_by_piece()
    ensures { (s : CsvScan) → IsDialect s.options → ScansPieces s }
{}
