//! Which fields fit a column.

use morsel_meaning::ColType;
use std::str;

/// What keeps a field from being a value of its column.
#[derive(Clone, Copy, Debug, PartialEq, Eq)]
pub enum CellMisfit {
    /// It is no whole number.
    NoInt,
    /// It is a whole number past 64 bits.
    LargeInt,
    /// It is no truth value.
    NoBool,
}

/// What keeps these bytes from being a value of this type; none where they are one.
pub fn misfit_of(kind: ColType, bytes: &[u8]) -> Option<CellMisfit> {
    match kind {
        ColType::Int => int_misfit(bytes),
        ColType::Bool => bool_misfit(bytes),
        ColType::Text => None,
    }
}

/// What keeps these bytes from being an optional sign and digits, within 64 bits.
fn int_misfit(bytes: &[u8]) -> Option<CellMisfit> {
    let Ok(text) = str::from_utf8(bytes) else {
        return Some(CellMisfit::NoInt);
    };
    if text.parse::<i64>().is_ok() {
        None
    } else if are_digits(digits_of(bytes)) {
        Some(CellMisfit::LargeInt)
    } else {
        Some(CellMisfit::NoInt)
    }
}

/// What follows a sign.
fn digits_of(bytes: &[u8]) -> &[u8] {
    match bytes {
        [b'+' | b'-', digits @ ..] => digits,
        _ => bytes,
    }
}

/// Whether there are digits, and nothing else.
fn are_digits(bytes: &[u8]) -> bool {
    for byte in bytes {
        if !byte.is_ascii_digit() {
            return false;
        }
    }
    !bytes.is_empty()
}

/// What keeps these bytes from being one of six spellings.
fn bool_misfit(bytes: &[u8]) -> Option<CellMisfit> {
    match bytes {
        b"true" | b"True" | b"TRUE" | b"false" | b"False" | b"FALSE" => None,
        _ => Some(CellMisfit::NoBool),
    }
}
