//! One step of the machine that finds where a CSV text may be cut, without a comment prefix.
//!
//! AtOpening --EF--> InMarkOne --BB--> InMarkTwo --BF--> AfterMark; else as a field begins, or in one without quotes
//!
//! - **AfterMark**, **AfterEol**, **AfterSeparator**: a field begins. A quote goes to InQuotes.
//! - **InPlain**: a separator goes to AfterSeparator, an eol byte to AfterEol. A quote is text.
//! - **InQuotes**: a quote goes to AfterQuote, which one more quote leads back.
//! - **AfterQuote**: a separator or an eol byte ends the field; a byte 13 goes to AfterReturn, where eol is 10.
//! - **BrokenQuote**: something else followed a closing quote. It stays.
ghost use Rattle.std.specs.Prelude.{◌≡◌, ◌↔◌, IsTrue};
ghost use Rattle.morsel_grammar.specs.Split.{is_quote};
ghost use Rattle.morsel_grammar.specs.Machine.{is_after_eol, begins_record, plain_step, first_step, closed_step, place_step};
ghost use Rattle.morsel_cut.specs.Places.{cut_place, options_with, delimiter_options, IsOutside};
ghost use Rattle.morsel_cut.specs.Blocks.{IsAmongFields, is_in_plain, is_in_quotes, is_after_quote};
ghost use Rattle.morsel_cut.specs.Cutting.{cut_options};

use morsel_grammar::CsvOptions;

/// Where the next byte of a text stands.
#[derive(Clone, Copy, Debug, PartialEq, Eq)]
pub enum ByteAt {
    /// The file begins.
    AtOpening,
    /// After the first byte of the byte order mark.
    InMarkOne,
    /// After the first two bytes of the byte order mark.
    InMarkTwo,
    /// The first record begins, after the byte order mark.
    AfterMark,
    /// A record begins, after the eol byte of another.
    AfterEol,
    /// A further field begins.
    AfterSeparator,
    /// In a field without quotes.
    InPlain,
    /// After an opening quote, and not after a closing one.
    InQuotes,
    /// After a quote in quotes.
    AfterQuote,
    /// After a closing quote and a byte 13.
    AfterReturn,
    /// After the comment prefix.
    InComment,
    /// A closing quote is followed by what may not follow it.
    BrokenQuote,
}

/// The bytes that end fields and records, and the quote.
#[derive(Clone, Copy, Debug)]
pub struct Delimiters {
    pub separator: u8,
    pub quote: Option<u8>,
    pub eol: u8,
}

impl ByteAt {
    /// Whether a record ended with the last byte.
    #[inline(always)]
    pub fn is_after_eol(self) -> bool
        ensures { result ≡ is_after_eol (cut_place self) }
    {
        matches!(self, ByteAt::AfterEol)
    }

    /// Whether a record begins.
    #[inline(always)]
    pub fn begins_record(self) -> bool
        ensures { result ≡ begins_record (cut_place self) }
    {
        matches!(self, ByteAt::AfterEol | ByteAt::AfterMark)
    }

    /// Whether each byte up to the next quote is one of a field without quotes, or ends one.
    #[inline(always)]
    pub fn is_outside(self) -> bool
        ensures { IsTrue result ↔ IsOutside (cut_place self) }
    {
        matches!(
            self,
            ByteAt::AfterMark | ByteAt::AfterEol | ByteAt::AfterSeparator | ByteAt::InPlain
        )
    }

    /// Whether a field without quotes has begun and goes on.
    #[inline(always)]
    pub fn is_in_plain(self) -> bool
        ensures { result ≡ is_in_plain (cut_place self) }
    {
        matches!(self, ByteAt::InPlain)
    }

    /// Whether the last quote was an opening one.
    #[inline(always)]
    pub fn is_in_quotes(self) -> bool
        ensures value { result ≡ is_in_quotes (cut_place self) }
        ensures place { IsTrue result ↔ (self ≡ ByteAt.InQuotes) }
    {
        matches!(self, ByteAt::InQuotes)
    }

    /// Whether the last byte is a quote in quotes, which closes or is the first of two.
    #[inline(always)]
    pub fn is_after_quote(self) -> bool
        ensures { result ≡ is_after_quote (cut_place self) }
    {
        matches!(self, ByteAt::AfterQuote)
    }

    /// Whether the next byte is one of a field, or begins or follows one.
    #[inline(always)]
    pub fn is_among_fields(self) -> bool
        ensures { IsTrue result ↔ IsAmongFields (cut_place self) }
    {
        matches!(
            self,
            ByteAt::AfterMark
                | ByteAt::AfterEol
                | ByteAt::AfterSeparator
                | ByteAt::InPlain
                | ByteAt::InQuotes
                | ByteAt::AfterQuote
        )
    }
}

impl Delimiters {
    /// Those of a text that is written so.
    pub fn of(options: &CsvOptions) -> Delimiters
        ensures { options_with result options.now.comment ≡ cut_options options.now }
    {
        Delimiters {
            separator: options.separator(),
            quote: options.quote(),
            eol: options.eol(),
        }
    }

    /// Whether a field that begins with this byte is quoted.
    #[inline(always)]
    pub fn is_quote(self, b: u8) -> bool
        ensures { result ≡ is_quote self.quote b }
    {
        match self.quote {
            Some(quote) => b == quote,
            None => false,
        }
    }

    /// The place after a byte of a field without quotes.
    #[inline(always)]
    pub fn plain_step(self, b: u8) -> ByteAt
        ensures { cut_place result ≡ plain_step (delimiter_options self) b }
    {
        if b == self.separator {
            return ByteAt::AfterSeparator;
        }
        if b == self.eol {
            return ByteAt::AfterEol;
        }
        ByteAt::InPlain
    }

    /// The place after the first byte of a field, or after what ends an empty one.
    #[inline(always)]
    fn first_step(self, b: u8) -> ByteAt
        ensures { cut_place result ≡ first_step (delimiter_options self) b }
    {
        if self.is_quote(b) {
            return ByteAt::InQuotes;
        }
        self.plain_step(b)
    }

    /// The place after a byte that follows a closing quote.
    #[inline(always)]
    fn closed_step(self, b: u8) -> ByteAt
        ensures { cut_place result ≡ closed_step (delimiter_options self) b }
    {
        if b == self.separator {
            return ByteAt::AfterSeparator;
        }
        if b == self.eol {
            return ByteAt::AfterEol;
        }
        if b == b'\r' && self.eol == b'\n' {
            return ByteAt::AfterReturn;
        }
        ByteAt::BrokenQuote
    }

    /// The place after one byte more.
    #[inline]
    pub fn step(self, at: ByteAt, b: u8) -> ByteAt
        ensures { cut_place result ≡ place_step (delimiter_options self) (cut_place at) b }
    {
        match at {
            ByteAt::AtOpening if b == 0xEF => ByteAt::InMarkOne,
            ByteAt::InMarkOne if b == 0xBB => ByteAt::InMarkTwo,
            ByteAt::InMarkTwo if b == 0xBF => ByteAt::AfterMark,
            ByteAt::AtOpening | ByteAt::AfterMark | ByteAt::AfterEol | ByteAt::AfterSeparator =>
                self.first_step(b),
            ByteAt::InMarkOne | ByteAt::InMarkTwo | ByteAt::InPlain => self.plain_step(b),
            ByteAt::InQuotes if self.is_quote(b) => ByteAt::AfterQuote,
            ByteAt::InQuotes => ByteAt::InQuotes,
            ByteAt::AfterQuote if self.is_quote(b) => ByteAt::InQuotes,
            ByteAt::AfterQuote => self.closed_step(b),
            ByteAt::AfterReturn | ByteAt::InComment if b == self.eol => ByteAt::AfterEol,
            ByteAt::InComment => ByteAt::InComment,
            ByteAt::AfterReturn | ByteAt::BrokenQuote => ByteAt::BrokenQuote,
        }
    }
}
