//! The record that a text begins with, found byte by byte.
ghost use Rattle.std.specs.Prelude.{◌≡◌, ◌≤◌, ◌+◌, length, take, drop, IfOk, IfSome, IsOkUnless};
ghost use Rattle.morsel_grammar.specs.Dialect.{IsDialect};
ghost use Rattle.morsel_grammar.specs.Rows.{is_empty};
ghost use Rattle.morsel_grammar.specs.Split.{plain_at, quoted_at, in_quotes, field_at, last_field, fields_up_to, line_at};
ghost use Rattle.morsel_text.specs.Plain.{found_plainly, AreFound, SplitsPlainly, plain_split_len};

use crate::parts::{Next, behind_front, content_len, following, stops, strip};
use morsel_grammar::CsvOptions;
use morsel_meaning::Fault;
use std::alloc::Global;
use std::marker::Model;

/// A field that was read.
#[derive(Debug, Drop)]
pub struct PlainField {
    quoted: bool,
    bytes: Vec<u8>,
}

impl Model for PlainField {
    ghost use Rattle.morsel_grammar.specs.Grammar.{CsvField};

    ghost Value = { CsvField };

    ghost view = { λ f. record { quoted = f.quoted; bytes = f.bytes.items } };
}

impl PlainField {
    /// Whether it is in quotes.
    pub fn is_quoted(&self) -> bool
        ensures { result ≡ self.now.quoted }
    {
        self.quoted
    }

    /// Its content.
    pub fn bytes(&self) -> &[u8]
        ensures { result.now ≡ self.now.bytes }
    {
        self.bytes.as_slice()
    }
}

/// The record that a text begins with.
pub enum PlainSplit<'a> {
    /// A record of fields, and then this.
    Fields(Vec<PlainField>, &'a [u8]),
    /// A comment, and then this.
    Comment(&'a [u8]),
    /// No record.
    Broken,
}

/// Splits off the record that the text begins with.
pub fn split<'a>(
    alloc: Global,
    text: &'a [u8],
    options: &CsvOptions,
) -> Result<PlainSplit<'a>, Fault>
    ensures value { IfOk result (λ split. SplitsPlainly options.now text.now split) }
    ensures within { IfOk result (λ split. plain_split_len split ≤ length text.now) }
    ensures fit { IsDialect options.now }
    ensures out_of_memory { IsOkUnless result Fault.OutOfMemory }
{
    if let Some(prefix) = options.comment() {
        if let Some(body) = behind_front(text, prefix.as_str().as_bytes()) {
            return Ok(PlainSplit::Comment(behind_line(body, options.eol())));
        }
    }
    split_fields(alloc, text, options)
}

/// What follows the line that the text begins with.
fn behind_line(text: &[u8], eol: u8) -> &[u8]
    ensures value { result.now ≡ (line_at eol text.now).1 }
    ensures within { length result.now ≤ length text.now }
{
    let mut rest = text;
    for _ in 0..text.len() {
        if rest.is_empty() {
            return rest;
        }
        let Some(after) = strip(rest, eol) else {
            rest = &rest[1..];
            continue;
        };
        return after;
    }
    rest
}

/// Splits the record that the text begins with into its fields.
fn split_fields<'a>(
    alloc: Global,
    text: &'a [u8],
    options: &CsvOptions,
) -> Result<PlainSplit<'a>, Fault>
    ensures value { IfOk result (λ split. AreFound (fields_up_to (length text.now + 1) options.now text.now) split) }
    ensures within { IfOk result (λ split. plain_split_len split ≤ length text.now) }
    ensures out_of_memory { IsOkUnless result Fault.OutOfMemory }
{
    let mut fields = Vec::new(alloc);
    let mut rest = text;
    for _ in 0..text.len() + 1 {
        let Some((found, after)) = field(alloc, rest, options)? else {
            return Ok(PlainSplit::Broken);
        };
        match following(after, options) {
            Next::Field(next) => {
                fields.push(found)?;
                rest = next;
            }
            Next::End(next) => {
                fields.push(last(found, options))?;
                return Ok(PlainSplit::Fields(fields, next));
            }
            Next::Broken => return Ok(PlainSplit::Broken),
        }
    }
    Ok(PlainSplit::Broken)
}

/// The field that the text begins with, and what follows it; none where its quotes are not closed.
fn field<'a>(
    alloc: Global,
    text: &'a [u8],
    options: &CsvOptions,
) -> Result<Option<(PlainField, &'a [u8])>, Fault>
    ensures value { IfOk result (λ found. found_plainly found ≡ field_at options.now text.now) }
    ensures within { IfOk result (λ found. IfSome found (λ field. length field.1.now ≤ length text.now)) }
    ensures out_of_memory { IsOkUnless result Fault.OutOfMemory }
{
    if text.is_empty() {
        let field = PlainField {
            quoted: false,
            bytes: Vec::new(alloc),
        };
        return Ok(Some((field, text)));
    }
    if options.is_quote(text[0]) {
        return quoted(alloc, &text[1..], text[0]);
    }
    let len = plain_len(text, options);
    let field = PlainField {
        quoted: false,
        bytes: Vec::from_slice(alloc, &text[..len])?,
    };
    Ok(Some((field, &text[len..])))
}

/// How many bytes come before the next separator or eol.
fn plain_len(text: &[u8], options: &CsvOptions) -> usize
    ensures within { result ≤ length text.now }
    ensures value { plain_at options.now text.now ≡ (take result text.now, drop result text.now) }
{
    for at in 0..text.len() {
        if stops(text[at], options.separator(), options.eol()) {
            return at;
        }
    }
    text.len()
}

/// The field after an opening quote, and what follows it; none where it is not closed.
fn quoted<'a>(
    alloc: Global,
    text: &'a [u8],
    quote: u8,
) -> Result<Option<(PlainField, &'a [u8])>, Fault>
    ensures value { IfOk result (λ found. found_plainly found ≡ in_quotes (quoted_at quote text.now)) }
    ensures within { IfOk result (λ found. IfSome found (λ field. length field.1.now ≤ length text.now)) }
    ensures out_of_memory { IsOkUnless result Fault.OutOfMemory }
{
    let mut bytes = Vec::new(alloc);
    let mut rest = text;
    for _ in 0..text.len() {
        let Some(after) = strip(rest, quote) else {
            if rest.is_empty() {
                return Ok(None);
            }
            bytes.push(rest[0])?;
            rest = &rest[1..];
            continue;
        };
        let Some(next) = strip(after, quote) else {
            let field = PlainField {
                quoted: true,
                bytes,
            };
            return Ok(Some((field, after)));
        };
        bytes.push(quote)?;
        rest = next;
    }
    Ok(None)
}

/// A record's last field without the byte 13 that belongs to the record's end.
fn last(field: PlainField, options: &CsvOptions) -> PlainField
    ensures { result ≡ last_field options.now field }
{
    if field.quoted || options.eol() != 10 {
        return field;
    }
    let PlainField { quoted, bytes } = field;
    let mut bytes = bytes;
    bytes.truncate(content_len(bytes.as_slice()));
    PlainField { quoted, bytes }
}

/// Whether a record has no bytes.
pub fn is_empty(fields: &[PlainField]) -> bool
    ensures { result ≡ is_empty fields.now }
{
    match fields {
        [field] => !field.quoted && field.bytes.is_empty(),
        _ => false,
    }
}
