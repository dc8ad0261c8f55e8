//! How a CSV text is written.
ghost use Rattle.std.specs.Prelude.{◌≡◌, ◌↔◌, IfOk, IsErrOf, IsOkUnless, IsTrue, option_copied};
ghost use Rattle.morsel_grammar.specs.Dialect.{Dialect, IsDialect, AreAscii, IsWithout, AreLineBytes, IsQuoteFor, IsCommentFor, options_of, standard};

use morsel_meaning::{Fault, Name, Why};
use std::alloc::Global;
use std::marker::Model;

/// How a CSV text is written: its separator, quote, line end, comments, header and nulls.
#[derive(Clone, Debug, Drop)]
pub struct CsvOptions {
    separator: u8,
    quote: Option<u8>,
    eol: u8,
    comment: Option<Name>,
    has_header: bool,
    null: Name,
    ignore_errors: bool,
}

impl Model for CsvOptions {
    ghost use Rattle.morsel_grammar.specs.Dialect.{Dialect, IsDialect};

    ghost Value = { Dialect };

    ghost view = { λ o. record {
      separator = o.separator;
      quote = o.quote;
      eol = o.eol;
      comment = o.comment;
      has_header = o.has_header;
      null_text = o.null;
      ignore_errors = o.ignore_errors;
    } };

    ghost invariant = { λ o. IsDialect (record {
      separator = o.separator;
      quote = o.quote;
      eol = o.eol;
      comment = o.comment;
      has_header = o.has_header;
      null_text = o.null;
      ignore_errors = o.ignore_errors;
    }) };
}

impl CsvOptions {
    ghost use Rattle.morsel_grammar.specs.Split.{is_quote};

    /// These options, where they contradict neither themselves nor each other; else `ParseBytes`.
    ///
    /// Separator, quote and eol are distinct bytes below 128, separator and quote are neither 10 nor 13, and a comment
    /// begins with at least one byte, each below 128 and not the eol.
    pub fn new(
        separator: u8,
        quote: Option<u8>,
        eol: u8,
        comment: Option<Name>,
        has_header: bool,
        null: Name,
        ignore_errors: bool,
    ) -> Result<CsvOptions, Fault>
        ensures value { IfOk result (λ options. options ≡ options_of separator quote eol comment has_header null ignore_errors) }
        ensures parse_bytes { IsErrOf result (Fault.InvalidQuery Why.ParseBytes)
            ↔ (IsDialect (options_of separator quote eol comment has_header null ignore_errors) → ⊥) }
        ensures fault { IsOkUnless result (Fault.InvalidQuery Why.ParseBytes) }
    {
        if !are_line_bytes(separator, eol)
            || !is_quote_for(separator, eol, quote)
            || !is_comment_for(eol, &comment)
        {
            return Err(Fault::InvalidQuery {
                why: Why::ParseBytes,
            });
        }
        Ok(CsvOptions {
            separator,
            quote,
            eol,
            comment,
            has_header,
            null,
            ignore_errors,
        })
    }

    /// Commas, double quotes, line feeds, a header, and nulls that are empty.
    pub fn standard(alloc: Global) -> Result<CsvOptions, Fault>
        ensures value { IfOk result (λ options. options ≡ standard) }
        ensures out_of_memory { IsOkUnless result Fault.OutOfMemory }
    {
        Ok(CsvOptions {
            separator: b',',
            quote: Some(b'"'),
            eol: b'\n',
            comment: None,
            has_header: true,
            null: Name::new(alloc, "")?,
            ignore_errors: false,
        })
    }

    /// The byte between fields.
    #[inline(always)]
    pub fn separator(&self) -> u8
        ensures { result ≡ self.now.separator }
    {
        self.separator
    }

    /// The byte around a quoted field, where there is one.
    #[inline(always)]
    pub fn quote(&self) -> Option<u8>
        ensures { result ≡ self.now.quote }
    {
        self.quote
    }

    /// The byte that ends a record.
    #[inline(always)]
    pub fn eol(&self) -> u8
        ensures { result ≡ self.now.eol }
    {
        self.eol
    }

    /// Whether a field that begins with this byte is quoted.
    #[inline(always)]
    pub fn is_quote(&self, b: u8) -> bool
        ensures { result ≡ is_quote self.now.quote b }
    {
        match self.quote {
            Some(quote) => b == quote,
            None => false,
        }
    }

    /// What a comment begins with.
    #[inline(always)]
    pub fn comment(&self) -> Option<&Name>
        ensures value { option_copied result ≡ self.now.comment }
        ensures fit { IsDialect self.now }
    {
        self.comment.as_ref()
    }

    /// Whether a text has a header.
    pub fn has_header(&self) -> bool
        ensures { result ≡ self.now.has_header }
    {
        self.has_header
    }

    /// The text of a null.
    #[inline(always)]
    pub fn null_text(&self) -> &str
        ensures { result.now ≡ self.now.null_text }
    {
        self.null.as_str()
    }

    /// Whether a field that does not fit its type is null.
    pub fn ignores_errors(&self) -> bool
        ensures { result ≡ self.now.ignore_errors }
    {
        self.ignore_errors
    }
}

/// Whether these bytes may stand between fields and at the end of a record.
fn are_line_bytes(separator: u8, eol: u8) -> bool
    ensures { IsTrue result ↔ AreLineBytes separator eol }
{
    separator < 128 && separator != b'\n' && separator != b'\r' && eol < 128 && separator != eol
}

/// Whether fields may be quoted by this byte, if by any.
fn is_quote_for(separator: u8, eol: u8, quote: Option<u8>) -> bool
    ensures { IsTrue result ↔ IsQuoteFor separator eol quote }
{
    match quote {
        None => true,
        Some(quote) => quote < 128
            && quote != separator
            && quote != eol
            && quote != b'\n'
            && quote != b'\r',
    }
}

/// Whether each of these bytes is below 128 and not the eol.
fn are_comment_bytes(eol: u8, prefix: &[u8]) -> bool
    ensures { IsTrue result ↔ (AreAscii prefix.now × IsWithout eol prefix.now) }
{
    for b in prefix {
        if *b >= 128 || *b == eol {
            return false;
        }
    }
    true
}

/// Whether comments may begin with this text, if with any.
fn is_comment_for(eol: u8, comment: &Option<Name>) -> bool
    ensures { IsTrue result ↔ IsCommentFor eol comment.now }
{
    match comment {
        None => true,
        Some(name) => {
            let prefix = name.as_str().as_bytes();
            !prefix.is_empty() && are_comment_bytes(eol, prefix)
        }
    }
}
