//! Laws: a text split at its marks is the text split by the grammar, for all options that do not contradict each other.
ghost use Rattle.std.specs.Prelude.{◌≡◌, None};
ghost use Rattle.morsel_grammar.specs.Dialect.{Dialect, IsDialect};
ghost use Rattle.morsel_marks.specs.MarkedRows.{SplitsAtMarks, SplitsMarkedRows, KeepsMarksWithin, ReadsAtMarks, KeepsPlainFields, HasMarkedRecords, HasWholeFields};

/// A text whose quotes are well placed begins with the record that is split at its marks, where there are no comments.
#[tactic(auto, using(crate::proofs::ReadLemmas::splits_at_marks))]
pub fn a_record_is_split_at_its_marks()
    ensures { (o : Dialect) → IsDialect o → o.comment ≡ None → SplitsAtMarks o }
{}

/// After some marks of such a text, the record of a row is that of the fields between its marks.
#[tactic(auto, using(crate::proofs::ReadLemmas::splits_rows))]
pub fn a_row_is_split_at_its_marks()
    ensures { (o : Dialect) → IsDialect o → o.comment ≡ None → SplitsMarkedRows o }
{}

/// The marks of a text whose quotes are well placed lie in it.
#[tactic(auto, using(crate::proofs::ReadLemmas::keeps_marks_within))]
pub fn marks_are_within_the_text()
    ensures { (o : Dialect) → IsDialect o → KeepsMarksWithin o }
{}

/// A text of rows, as its marks tell, is read row by row, each field between its marks.
#[tactic(auto, using(crate::proofs::ReadLemmas::reads_at_marks))]
pub fn rows_are_read_by_their_marks()
    ensures { (o : Dialect) → IsDialect o → ReadsAtMarks o }
{}

/// A field of such a text that does not begin with the quote is the bytes before its mark.
pub fn a_plain_field_is_its_bytes()
    ensures { (o : Dialect) → IsDialect o → KeepsPlainFields o }
{}

/// A text of rows whose marks each have a field before them is records of these fields.
#[tactic(auto, using(crate::proofs::RecordsLemmas::has_marked_records))]
pub fn a_text_of_rows_is_records_of_their_fields()
    ensures { (o : Dialect) → IsDialect o → HasMarkedRecords o }
{}

/// Without a byte 13 in such a text, each mark has a field before it.
#[tactic(auto, using(crate::proofs::WholeLemmas::has_whole_fields))]
pub fn without_returns_each_field_is_whole()
    ensures { (o : Dialect) → IsDialect o → HasWholeFields o }
{}
