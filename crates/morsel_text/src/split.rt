//! Records of a CSV text, split into fields that are slices of it.
//!
//! Out of memory is an `AllocError` here and for each number (`ints`): it has no content, where a `Fault` may own a name,
//! which would make the loops over records and cells pass more on.
ghost use Rattle.std.specs.Prelude.{◌≡◌, ◌==◌, ◌+◌, ◌++◌, ◌∷◌, [], not, ◌≤◌, List, length, map, take, drop, IfSome, IfOk, option_copied, OnOk};
ghost use Rattle.std.specs.List.{prefix_len};
ghost use Rattle.morsel_grammar.specs.Dialect.{IsDialect};
ghost use Rattle.morsel_grammar.specs.Grammar.{CsvField};
ghost use Rattle.morsel_grammar.specs.Split.{plain_at, quoted_at, in_quotes, field_at, line_at};
ghost use Rattle.morsel_text.specs.RawFields.{IsRun, PassedTo, content_of, shown, shown_found, rest_of, AreKept, FieldsAre, SplitsInto, split_len};

mod line;

use crate::parts::{Next, behind_front, following, stops, strip};
use crate::raw_field::{RawField, last};
use line::split_short;
use memchr::memchr;
use morsel_grammar::CsvOptions;
use std::alloc::AllocError;
use std::simd::prelude::*;

/// How many bytes are looked at at once.
const LANES: usize = 16;

/// What a text begins with.
pub enum Split<'a> {
    /// A record of fields, and then this.
    Fields(&'a [u8]),
    /// A comment, and then this.
    Comment(&'a [u8]),
    /// No record.
    Broken,
}

/// How many of 16 bytes come before the first that is this one.
#[inline(always)]
fn lane_len(lane: u8x16, byte: u8) -> usize
    ensures { result ≡ prefix_len (λ b. not (b == byte)) lane }
{
    let found = lane.simd_eq(u8x16::splat(byte)).to_bitmask();
    if found == 0 {
        return LANES;
    }
    found.trailing_zeros() as usize
}

/// How many of the 16 bytes from a place come before the first separator or eol.
#[inline(always)]
pub fn run_len(text: &[u8], at: usize, separator: u8, eol: u8) -> usize
    requires { at + LANES ≤ length text.now }
    ensures { IsRun separator eol text.now at result }
{
    let lane = u8x16::from_slice(&text[at..]);
    let fields = lane_len(lane, separator);
    let lines = lane_len(lane, eol);
    if fields < lines { fields } else { lines }
}

/// How many bytes come before the next separator or eol, where those before a place are neither.
fn plain_len_from(text: &[u8], from: usize, options: &CsvOptions) -> usize
    requires within { from ≤ length text.now }
    requires passed { PassedTo options.now text.now from }
    ensures within { result ≤ length text.now }
    ensures value { plain_at options.now text.now ≡ (take result text.now, drop result text.now) }
{
    let separator = options.separator();
    let eol = options.eol();
    for at in from..text.len() {
        if stops(text[at], separator, eol) {
            return at;
        }
    }
    text.len()
}

/// How many bytes come before the next separator or eol.
#[inline(always)]
fn plain_len(text: &[u8], options: &CsvOptions) -> usize
    ensures within { result ≤ length text.now }
    ensures value { plain_at options.now text.now ≡ (take result text.now, drop result text.now) }
{
    let separator = options.separator();
    let eol = options.eol();
    let mut at = 0;
    while text.len() - at >= LANES {
        let len = run_len(text, at, separator, eol);
        if len < LANES {
            return at + len;
        }
        at += LANES;
    }
    plain_len_from(text, at, options)
}

/// What follows the closing quote of a text that begins after an opening one.
fn behind_quotes(text: &[u8], quote: u8) -> Option<&[u8]>
    ensures value { option_copied result ≡ rest_of (quoted_at quote text.now) }
    ensures within { IfSome result (λ rest. length rest.now ≤ length text.now) }
{
    let mut rest = text;
    for _ in 0..text.len() {
        let Some(after) = strip(rest, quote) else {
            if rest.is_empty() {
                return None;
            }
            rest = &rest[1..];
            continue;
        };
        let Some(next) = strip(after, quote) else {
            return Some(after);
        };
        rest = next;
    }
    None
}

/// Takes the content of a quoted field from the text after its opening quote; no content where it is not closed.
pub fn unquote(text: &[u8], quote: u8, content: &mut Vec<u8>) -> Result<(), AllocError>
    ensures { OnOk result (content.new.items ≡ content_of (quoted_at quote text.now)) }
{
    content.clear();
    let mut rest = text;
    for _ in 0..text.len() {
        let Some(after) = strip(rest, quote) else {
            if rest.is_empty() {
                content.clear();
                return Ok(());
            }
            content.push(rest[0])?;
            rest = &rest[1..];
            continue;
        };
        let Some(next) = strip(after, quote) else {
            return Ok(());
        };
        content.push(quote)?;
        rest = next;
    }
    content.clear();
    Ok(())
}

/// The field after an opening quote.
fn quoted(text: &[u8], quote: u8) -> Option<(RawField<'_>, &[u8])>
    ensures value { shown_found result ≡ in_quotes (quoted_at quote text.now) }
    ensures within { IfSome result (λ found. length found.1.now ≤ length text.now) }
{
    let Some(at) = memchr(quote, text) else {
        return None;
    };
    let rest = &text[at + 1..];
    let Some(_) = strip(rest, quote) else {
        return Some((RawField::Quoted(&text[..at]), rest));
    };
    let Some(next) = behind_quotes(text, quote) else {
        return None;
    };
    Some((RawField::Doubled(text, quote), next))
}

/// The field that the text begins with.
#[inline(always)]
pub fn field<'a>(text: &'a [u8], options: &CsvOptions) -> Option<(RawField<'a>, &'a [u8])>
    ensures value { shown_found result ≡ field_at options.now text.now }
    ensures within { IfSome result (λ found. length found.1.now ≤ length text.now) }
{
    if text.is_empty() {
        return Some((RawField::Plain(text), text));
    }
    if options.is_quote(text[0]) {
        return quoted(&text[1..], text[0]);
    }
    let len = plain_len(text, options);
    Some((RawField::Plain(&text[..len]), &text[len..]))
}

/// Puts the field that follows all up to here last, where fewer fields than the limit are kept.
#[inline(always)]
fn keep<'a>(
    field: RawField<'a>,
    limit: usize,
    fields: &mut Vec<RawField<'a>>,
) -> Result<(), AllocError>
    ensures { OnOk result ((all : List CsvField) → AreKept limit (map shown fields.old.items) all →
        AreKept limit (map shown fields.new.items) (all ++ shown field.entry ∷ [])) }
{
    if fields.len() < limit {
        fields.push(field)?;
    }
    Ok(())
}

/// Splits the record that the text begins with into its fields, of which it keeps no more than the limit.
fn split_fields<'a>(
    text: &'a [u8],
    options: &CsvOptions,
    limit: usize,
    fields: &mut Vec<RawField<'a>>,
) -> Result<Split<'a>, AllocError>
    ensures value { IfOk result (λ split. FieldsAre options.now limit text.now fields.new.items split) }
    ensures within { IfOk result (λ split. split_len split ≤ length text.now) }
{
    fields.clear();
    let mut rest = text;
    for _ in 0..text.len() + 1 {
        let Some((raw, after)) = field(rest, options) else {
            return Ok(Split::Broken);
        };
        match following(after, options) {
            Next::Field(next) => {
                keep(raw, limit, fields)?;
                rest = next;
            }
            Next::End(next) => {
                keep(last(raw, options), limit, fields)?;
                return Ok(Split::Fields(next));
            }
            Next::Broken => return Ok(Split::Broken),
        }
    }
    Ok(Split::Broken)
}

/// What follows the line that the text begins with.
fn behind_line(text: &[u8], eol: u8) -> &[u8]
    ensures value { result.now ≡ (line_at eol text.now).1 }
    ensures within { length result.now ≤ length text.now }
{
    let Some(at) = memchr(eol, text) else {
        return &text[text.len()..];
    };
    &text[at + 1..]
}

/// Splits off the record that the text begins with.
///
/// Of its fields at least `limit` are kept, where it has so many, and few more: a record may have as many as bytes.
#[inline(always)]
pub fn split_record<'a>(
    text: &'a [u8],
    options: &CsvOptions,
    limit: usize,
    fields: &mut Vec<RawField<'a>>,
) -> Result<Split<'a>, AllocError>
    ensures value { IfOk result (λ split. SplitsInto options.now limit text.now fields.new.items split) }
    ensures within { IfOk result (λ split. split_len split ≤ length text.now) }
    ensures fit { IsDialect options.now }
{
    if let Some(prefix) = options.comment() {
        if let Some(body) = behind_front(text, prefix.as_str().as_bytes()) {
            return Ok(Split::Comment(behind_line(body, options.eol())));
        }
    }
    if let Some(rest) = split_short(text, options, fields) {
        return Ok(Split::Fields(rest));
    }
    split_fields(text, options, limit, fields)
}
