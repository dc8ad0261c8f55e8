//! How a query says that CSV texts are written.
ghost use Rattle.std.specs.Prelude.{◌≡◌, ◌∷◌, [], ℕ, IfSome, IsNone, IfOk, IfErr, IsOkUnless, option_map};
ghost use Rattle.serde_json.specs.View.{view};
ghost use Rattle.morsel_query_text.specs.Written.{WrittenCsv, csv_written, standard_csv};
ghost use Rattle.morsel_query_text.specs.TextFlaws.{AreNoBytes, RefusesBytes};
ghost use Rattle.morsel_query_text.specs.QueryTexts.{CsvOf};
ghost use Rattle.morsel_query_text.specs.Borrowed.{lent, csv_of};

use crate::trees::{has_only_keys, text_at, text_or_null_at, truth_at};
use morsel_grammar::CsvOptions;
use morsel_meaning::{Fault, Name, Why};
use serde_json::Value;
use std::alloc::Global;

/// How CSV texts are written, as a query has it: each byte is a text.
#[derive(Clone, Copy, Debug)]
pub struct CsvText<'t> {
    separator: &'t str,
    quote: Option<&'t str>,
    eol: &'t str,
    comment: Option<&'t str>,
    has_header: bool,
    null_text: &'t str,
    ignore_errors: bool,
}

/// The keys of `csv`.
const KEYS: [&str; 7] = [
    "separator",
    "quote",
    "eol",
    "comment",
    "has_header",
    "null",
    "ignore_errors",
];

impl<'t> CsvText<'t> {
    /// What stands where a query says nothing.
    pub fn standard() -> CsvText<'t>
        ensures { csv_of result ≡ standard_csv }
    {
        CsvText {
            separator: ",",
            quote: Some("\""),
            eol: "\n",
            comment: None,
            has_header: true,
            null_text: "",
            ignore_errors: false,
        }
    }

    /// What `csv` says of a scan; none where it is not in form.
    pub fn read(tree: &'t Value) -> Option<CsvText<'t>>
        ensures some { IfSome result (λ csv. CsvOf (view tree.now) (csv_of csv)) }
        ensures none { IsNone result → (csv : WrittenCsv) → CsvOf (view tree.now) csv → ⊥ }
    {
        if !has_only_keys(tree, &KEYS) {
            return None;
        }
        let standard = CsvText::standard();
        Some(CsvText {
            separator: text_at(tree, "separator", Some(standard.separator))?,
            quote: text_or_null_at(tree, "quote", standard.quote)?,
            eol: text_at(tree, "eol", Some(standard.eol))?,
            comment: text_or_null_at(tree, "comment", standard.comment)?,
            has_header: truth_at(tree, "has_header", standard.has_header)?,
            null_text: text_at(tree, "null", Some(standard.null_text))?,
            ignore_errors: truth_at(tree, "ignore_errors", standard.ignore_errors)?,
        })
    }

    /// These options; `ParseBytes` where none are written so.
    pub fn options(self, alloc: Global) -> Result<CsvOptions, Fault>
        ensures ok { IfOk result (λ options. csv_of self.entry ≡ csv_written options) }
        ensures refused { IfErr result (RefusesBytes (csv_of self.entry)) }
    {
        let bytes = self.bytes();
        let Some((separator, quote, eol)) = bytes else {
            return Err(Fault::InvalidQuery {
                why: Why::ParseBytes,
            });
        };
        let null = Name::new(alloc, self.null_text)?;
        let comment = name_if(alloc, self.comment)?;
        CsvOptions::new(
            separator,
            quote,
            eol,
            comment,
            self.has_header,
            null,
            self.ignore_errors,
        )
    }

    /// Separator, quote and eol, where each is one byte.
    fn bytes(&self) -> Option<(u8, Option<u8>, u8)>
        ensures some { IfSome result (λ bytes. (self.now.separator.now ≡ bytes.0 ∷ []) × (lent self.now.quote ≡ option_map (λ byte. byte ∷ []) bytes.1) × (self.now.eol.now ≡ bytes.2 ∷ [])) }
        ensures none { IsNone result → AreNoBytes (csv_of self.now) }
    {
        let separator = byte_of(self.separator)?;
        let eol = byte_of(self.eol)?;
        match self.quote {
            Some(text) => Some((separator, Some(byte_of(text)?), eol)),
            None => Some((separator, None, eol)),
        }
    }
}

/// The one byte of a text.
fn byte_of(text: &str) -> Option<u8>
    ensures some { IfSome result (λ byte. text.now ≡ byte ∷ []) }
    ensures none { IsNone result → (byte : ℕ) → text.now ≡ byte ∷ [] → ⊥ }
{
    match text.as_bytes() {
        [byte] => Some(*byte),
        _ => None,
    }
}

/// The name of a text, where there is one.
pub fn name_if(alloc: Global, text: Option<&str>) -> Result<Option<Name>, Fault>
    ensures ok { IfOk result (λ name. name ≡ lent text.entry) }
    ensures out_of_memory { IsOkUnless result Fault.OutOfMemory }
{
    match text {
        Some(text) => Ok(Some(Name::new(alloc, text)?)),
        None => Ok(None),
    }
}
