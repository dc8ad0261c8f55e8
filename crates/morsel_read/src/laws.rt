//! Laws of readers.
ghost use Rattle.morsel_grammar.specs.Dialect.{IsDialect};
ghost use Rattle.morsel_scan.specs.Scans.{CsvScan};
ghost use Rattle.morsel_read.specs.ReadLaws.{SuitsAtFirst, HasGivenNothing, GoesOnOver};

/// A reader that has read nothing suits an outside in which its files are open.
pub fn a_new_reader_suits_its_files()
    ensures { SuitsAtFirst }
{}

/// A reader that has read nothing has given what comes before its place: nothing.
pub fn a_reader_has_given_nothing_at_first()
    ensures { (s : CsvScan) → IsDialect s.options → HasGivenNothing s }
{}

/// A reader of the files of one outside is one of the same files in another.
pub fn a_reader_goes_on_over_the_same_files()
    ensures { GoesOnOver }
{}
