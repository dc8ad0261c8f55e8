//! Lines without bytes, which are passed many at once where they give no rows.
ghost use Rattle.std.specs.Prelude.{◌≡◌, ◌≤◌, length, take, replicate, IsUtf8};
ghost use Rattle.morsel_grammar.specs.Dialect.{IsDialect};
ghost use Rattle.morsel_text.specs.EmptyLines.{SkipsEmpty};

use morsel_grammar::CsvOptions;

/// How many lines without bytes a text begins with.
fn empty_lines(text: &[u8], eol: u8) -> usize
    ensures within { result ≤ length text.now }
    ensures empty { take result text.now ≡ replicate result eol }
{
    for lines in 0..text.len() {
        if text[lines] != eol {
            return lines;
        }
    }
    text.len()
}

/// What follows the lines without bytes that a text begins with, where such lines give no rows: before the header, and where
/// there is not one column. Elsewhere it is the text.
pub fn behind_empty<'a>(text: &'a [u8], head: bool, width: usize, options: &CsvOptions) -> &'a [u8]
    requires fit { IsDialect options.now }
    ensures skips { SkipsEmpty options.now head width text.now result.now }
    ensures within { length result.now ≤ length text.now }
    ensures utf8 { IsUtf8 text.now → IsUtf8 result.now }
{
    if !head && width == 1 {
        return text;
    }
    &text[empty_lines(text, options.eol())..]
}
