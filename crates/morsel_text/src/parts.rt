//! What both readers share of splitting, byte by byte: a front that a text begins with, and what follows a field.
ghost use Rattle.std.specs.Prelude.{◌≡◌, ◌==◌, ◌||◌, ◌∷◌, ℕ, ◌<◌, ◌≤◌, false, MatchOption, Option, Some, List, length, take, IfSome, option_copied};
ghost use Rattle.morsel_grammar.specs.Grammar.{CsvField};
ghost use Rattle.morsel_grammar.specs.Split.{fields_then, returned, without_return, behind_front, begins};
ghost use Rattle.morsel_text.specs.RawFields.{next_of, next_len};

use morsel_grammar::CsvOptions;

/// What follows a field.
pub enum Next<'a> {
    /// A separator, and then this.
    Field(&'a [u8]),
    /// The end of the record, and then this.
    End(&'a [u8]),
    /// Neither.
    Broken,
}

/// Whether a field without quotes ends before this byte.
#[inline(always)]
pub fn stops(b: u8, separator: u8, eol: u8) -> bool
    ensures { result ≡ (b == separator || b == eol) }
{
    b == separator || b == eol
}

/// What follows this byte, where the text begins with it.
#[inline(always)]
pub fn strip(text: &[u8], byte: u8) -> Option<&[u8]>
    ensures value { MatchOption result (begins byte text.now ≡ false)
        (λ rest. text.now ≡ byte ∷ rest.now) }
    ensures within { IfSome result (λ rest. length rest.now < length text.now) }
{
    if text.is_empty() {
        return None;
    }
    if text[0] != byte {
        return None;
    }
    Some(&text[1..])
}

/// What follows a front, where the text begins with it.
pub fn behind_front<'a>(text: &'a [u8], front: &[u8]) -> Option<&'a [u8]>
    ensures value { option_copied result ≡ behind_front front.now text.now }
    ensures within { IfSome result (λ rest. length rest.now ≤ length text.now) }
{
    let mut rest = text;
    for b in front {
        let Some(after) = strip(rest, *b) else {
            return None;
        };
        rest = after;
    }
    Some(rest)
}

/// What follows a field.
#[inline(always)]
pub fn following<'a>(text: &'a [u8], options: &CsvOptions) -> Next<'a>
    ensures value { (f : CsvField) (more : List ℕ → Option (List CsvField × List ℕ)) →
        fields_then options.now (Some (f, text.now)) more ≡ next_of options.now f more result }
    ensures within { next_len result ≤ length text.now }
{
    if text.is_empty() {
        return Next::End(text);
    }
    let first = text[0];
    if first == options.separator() {
        return Next::Field(&text[1..]);
    }
    if first == options.eol() {
        return Next::End(&text[1..]);
    }
    if first != 13 || options.eol() != 10 {
        return Next::Broken;
    }
    returned(&text[1..], options)
}

/// What follows a byte 13 after a closing quote.
fn returned<'a>(text: &'a [u8], options: &CsvOptions) -> Next<'a>
    ensures value { (f : CsvField) (more : List ℕ → Option (List CsvField × List ℕ)) →
        returned options.now f text.now ≡ next_of options.now f more result }
    ensures within { next_len result ≤ length text.now }
{
    if text.is_empty() {
        return Next::End(text);
    }
    if text[0] == options.eol() {
        return Next::End(&text[1..]);
    }
    Next::Broken
}

/// How many bytes there are before a byte 13 at the end.
#[inline(always)]
pub fn content_len(bytes: &[u8]) -> usize
    ensures value { without_return bytes.now ≡ take result bytes.now }
    ensures within { result ≤ length bytes.now }
{
    if bytes.is_empty() {
        return 0;
    }
    let end = bytes.len() - 1;
    if bytes[end] == 13 {
        return end;
    }
    bytes.len()
}
