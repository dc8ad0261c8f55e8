//! Whether marks are those of rows of so many fields.
ghost use Rattle.std.specs.Prelude.{◌≡◌, ◌==◌, ◌↔◌, ◌+◌, ◌-◌, ◌*◌, ◌<◌, ◌≤◌, ℕ, length, IsTrue, MatchOption};
ghost use Rattle.morsel_marks.specs.ByMarks.{begin_after, AreMarksWithin, AreRowMarks};
ghost use Rattle.morsel_marks.specs.MarkedRows.{AreRows};

/// Whether the marks from a number on are those of a row of so many fields.
#[inline(always)]
fn is_marked_row(text: &[u8], marks: &[u32], from: usize, width: usize, separator: u8) -> bool
    requires some { 0 < width }
    requires enough { from + width ≤ length marks.now }
    requires within { AreMarksWithin text.now marks.now }
    ensures { IsTrue result ↔ AreRowMarks separator text.now marks.now from (width - 1) }
{
    for i in 0..width - 1 {
        if text[marks[from + i] as usize] != separator {
            return false;
        }
    }
    text[marks[from + width - 1] as usize] != separator
}

/// Whether so many bytes end with the last mark; without marks, whether there are none.
fn ends_with_mark(len: usize, marks: &[u32]) -> bool
    ensures { IsTrue result ↔ (begin_after marks.now (length marks.now) ≡ len) }
{
    match marks.last() {
        Some(last) => *last as usize + 1 == len,
        None => len == 0,
    }
}

/// How many rows of so many fields the marks are, where they are rows and the last of them ends the text.
pub fn count_rows(text: &[u8], marks: &[u32], width: usize, separator: u8) -> Option<usize>
    requires some { 0 < width }
    requires within { AreMarksWithin text.now marks.now }
    ensures { MatchOption result ((n : ℕ) → AreRows separator text.now marks.now (width - 1) n → ⊥)
        (λ n. AreRows separator text.now marks.now (width - 1) n) }
{
    if !ends_with_mark(text.len(), marks) {
        return None;
    }
    let mut from = 0;
    let mut rows = 0;
    while from < marks.len() {
        if marks.len() - from < width {
            return None;
        }
        if !is_marked_row(text, marks, from, width, separator) {
            return None;
        }
        from += width;
        rows += 1;
    }
    Some(rows)
}
