//! A record without quotes that ends within 64 bytes, split by one look at them.
ghost use Rattle.std.specs.Prelude.{◌≡◌, ◌==◌, ◌<◌, ◌≤◌, ◌+◌, IfSome, OnSome, length, drop};
ghost use Rattle.morsel_grammar.specs.Dialect.{IsDialect};
ghost use Rattle.morsel_grammar.specs.Split.{is_quote};
ghost use Rattle.morsel_text.specs.RawFields.{AreRawFields};
ghost use Rattle.morsel_text.specs.Lines.{IsPlainLine, Marks};

use crate::raw_field::{RawField, last};
use morsel_grammar::CsvOptions;
use std::simd::prelude::*;

/// How many bytes are looked at at once.
const LANES: usize = 64;

/// Splits the record that the text begins with into its fields, where it has no quote and ends within 64 bytes.
///
/// `None` is also the answer for a text of fewer than 64 bytes, and out of memory. The fields then say nothing.
#[inline(always)]
pub fn split_short<'a>(
    text: &'a [u8],
    options: &CsvOptions,
    fields: &mut Vec<RawField<'a>>,
) -> Option<&'a [u8]>
    requires { IsDialect options.now }
    ensures value { IfSome result (λ rest. AreRawFields options.now text.now fields.new.items rest.now) }
    ensures few { OnSome result (length fields.new.items ≤ LANES) }
    ensures within { IfSome result (λ rest. length rest.now ≤ length text.now) }
{
    if text.len() < LANES {
        return None;
    }
    let len = marks(text, options.eol()).trailing_zeros() as usize;
    if quote_marks(text, options).trailing_zeros() as usize <= len {
        return None;
    }
    let separators = marks(text, options.separator());
    split_line(text, len, separators, options, fields)
}

/// Which of the first 64 bytes are this one; the lowest bit tells of the first.
#[inline(always)]
fn marks(text: &[u8], byte: u8) -> u64
    requires { LANES ≤ length text.now }
    ensures { Marks (λ b. b == byte) text.now LANES result }
{
    u8x64::from_slice(text)
        .simd_eq(u8x64::splat(byte))
        .to_bitmask()
}

/// Which of the first 64 bytes are quotes.
#[inline(always)]
fn quote_marks(text: &[u8], options: &CsvOptions) -> u64
    requires { LANES ≤ length text.now }
    ensures { Marks (is_quote options.now.quote) text.now LANES result }
{
    match options.quote() {
        Some(quote) => marks(text, quote),
        None => 0,
    }
}

/// Splits a line without quotes at the marks of its separators.
#[inline(always)]
fn split_line<'a>(
    text: &'a [u8],
    len: usize,
    separators: u64,
    options: &CsvOptions,
    fields: &mut Vec<RawField<'a>>,
) -> Option<&'a [u8]>
    requires fit { IsDialect options.now }
    requires short { len < LANES }
    requires line { IsPlainLine options.now text.now len }
    requires marked { Marks (λ b. b == options.now.separator) text.now LANES separators }
    ensures value { IfSome result (λ rest. AreRawFields options.now text.now fields.new.items rest.now) }
    ensures few { OnSome result (length fields.new.items ≤ LANES) }
    ensures within { IfSome result (λ rest. length rest.now ≤ length text.now) }
{
    fields.clear();
    let mut rest = text;
    let mut left = len;
    let mut marks = separators;
    let mut at = marks.trailing_zeros() as usize;
    while at < left {
        let Ok(()) = fields.push(RawField::Plain(&rest[..at])) else {
            return None;
        };
        rest = rest_after(rest, at);
        left -= at + 1;
        marks >>= at + 1;
        at = marks.trailing_zeros() as usize;
    }
    let Ok(()) = fields.push(last(RawField::Plain(&rest[..left]), options)) else {
        return None;
    };
    Some(rest_after(rest, left))
}

/// What follows the byte at a place.
#[inline(always)]
fn rest_after(text: &[u8], at: usize) -> &[u8]
    requires { at < length text.now }
    ensures { result.now ≡ drop (at + 1) text.now }
{
    &text[at + 1..]
}
