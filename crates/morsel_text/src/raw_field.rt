//! A field as it is written in a text, which lends it.
ghost use Rattle.std.specs.Prelude.{◌≡◌};
ghost use Rattle.morsel_grammar.specs.Split.{last_field};
ghost use Rattle.morsel_text.specs.RawFields.{shown};

use crate::parts::content_len;
use morsel_grammar::CsvOptions;

/// A field as it is written in the text.
#[derive(Clone, Copy)]
pub enum RawField<'a> {
    /// A field without quotes.
    Plain(&'a [u8]),
    /// What is between quotes, where it has no quote.
    Quoted(&'a [u8]),
    /// The text after an opening quote, where the content has quotes, and the quote.
    Doubled(&'a [u8], u8),
}

/// A record's last field without the byte 13 that belongs to the record's end.
#[inline(always)]
pub fn last<'a>(field: RawField<'a>, options: &CsvOptions) -> RawField<'a>
    ensures { shown result ≡ last_field options.now (shown field.entry) }
{
    let RawField::Plain(text) = field else {
        return field;
    };
    if options.eol() != 10 {
        return field;
    }
    RawField::Plain(&text[..content_len(text)])
}
