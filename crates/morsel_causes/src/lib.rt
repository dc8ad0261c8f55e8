//! Laws of the faults of CSV files and of groups, each the contract of a function that does nothing.
#![tactic(auto)]

ghost use Rattle.morsel_causes.specs.FileFaults.{EachFaultHasItsCause, ValidFilesHaveNoFault, FilesWithRowsAreOfGrammar, FilesWithRowsHaveNoCause, FilesWithoutRowsHaveCause};
ghost use Rattle.morsel_causes.specs.GroupFaults.{GroupsFitWithoutCause};

/// Each fault that is due by the files has its cause in them: a record, a row, the number of rows, or the first bytes of a file.
pub fn each_fault_has_its_cause()
    ensures { EachFaultHasItsCause }
{}

/// Files of which a scan has a meaning, and which do not have too many rows, have no fault.
pub fn valid_files_have_no_fault()
    ensures { ValidFilesHaveNoFault }
{}

/// Files of which a scan has a meaning are of the grammar.
pub fn files_with_rows_are_of_the_grammar()
    ensures { FilesWithRowsAreOfGrammar }
{}

/// Files of which a scan has a meaning have no cause of a fault, but that of too many rows, where they have too many.
pub fn files_with_rows_have_no_cause()
    ensures { FilesWithRowsHaveNoCause }
{}

/// Where a scan of files has no meaning, the fault that is told in its place has its cause.
pub fn files_without_rows_have_a_cause()
    ensures { FilesWithoutRowsHaveCause }
{}

/// A group-by of rows has an answer, if there is memory, exactly where no fault has a cause in them.
pub fn groups_fit_without_a_cause()
    ensures { GroupsFitWithoutCause }
{}
