//! Texts as a terminal may show them: on one line, and with nothing that moves the cursor or hides a byte.

use std::alloc::AllocError;

/// How many bytes of a record are shown.
const MOST_SHOWN: usize = 200;

/// How far into a record its beginning is shown too.
const MOST_BEFORE: usize = 150;

/// How many bytes are shown before the mark, where the beginning is not.
const BEFORE_MARK: usize = 60;

/// How many bytes of a value are shown.
const MOST_OF_VALUE: usize = 40;

/// Puts the text of these bytes last, and answers how many characters that are.
///
/// Control characters, those that have no width or turn the direction of writing, and bytes that are not UTF-8 are escaped.
pub fn show(out: &mut String, bytes: &[u8]) -> Result<usize, AllocError> {
    let mut width: usize = 0;
    for chunk in bytes.utf8_chunks() {
        width = width.saturating_add(show_text(out, chunk.valid())?);
        width = width.saturating_add(show_bytes(out, chunk.invalid())?);
    }
    Ok(width)
}

/// Puts a text last, in a form that can be shown.
fn show_text(out: &mut String, text: &str) -> Result<usize, AllocError> {
    let mut width: usize = 0;
    for c in text.chars() {
        width = width.saturating_add(show_char(out, c)?);
    }
    Ok(width)
}

/// Puts a character last, in a form that can be shown.
fn show_char(out: &mut String, c: char) -> Result<usize, AllocError> {
    if !is_hidden(c) {
        out.push(c)?;
        return Ok(1);
    }
    let before = out.len();
    write!(out, "{}", c.escape_default())?;
    Ok(out.len().saturating_sub(before))
}

/// Whether a character cannot be seen, or changes how others are.
fn is_hidden(c: char) -> bool {
    if c.is_control() {
        return true;
    }
    match c {
        '\u{200b}'..='\u{200f}' => true,
        '\u{2028}'..='\u{202e}' => true,
        '\u{2060}'..='\u{206f}' => true,
        '\u{feff}' => true,
        _ => false,
    }
}

/// Puts bytes last by their numbers.
fn show_bytes(out: &mut String, bytes: &[u8]) -> Result<usize, AllocError> {
    let mut width: usize = 0;
    for byte in bytes {
        write!(out, "\\x{:02x}", *byte)?;
        width = width.saturating_add(4);
    }
    Ok(width)
}

/// The bytes from a place to a place, as far as they are there.
pub fn part(bytes: &[u8], from: usize, to: usize) -> &[u8] {
    match bytes.get(from..to.min(bytes.len())) {
        Some(found) => found,
        None => &[],
    }
}

/// The place, or one up to three bytes before it where it lies within a character.
fn begin_of_char(bytes: &[u8], at: usize) -> usize {
    for back in 0..3 {
        let begin = at.saturating_sub(back);
        match bytes.get(begin) {
            Some(byte) if *byte & 0xC0 == 0x80 => {}
            _ => return begin,
        }
    }
    at.saturating_sub(3)
}

/// Puts the beginning of a value last, in quotes, and dots where there is more of it.
pub fn show_value(out: &mut String, value: &[u8]) -> Result<(), AllocError> {
    let to = if value.len() <= MOST_OF_VALUE {
        value.len()
    } else {
        begin_of_char(value, MOST_OF_VALUE)
    };
    out.push('"')?;
    show(out, part(value, 0, to))?;
    if to < value.len() {
        out.push_str("..")?;
    }
    out.push('"')
}

/// Puts a name last, in quotes.
pub fn show_name(out: &mut String, name: &str) -> Result<(), AllocError> {
    out.push('"')?;
    show(out, name.as_bytes())?;
    out.push('"')
}

/// Puts a line with the record last, and one with a mark below this place of it. Of a long record, what is around the
/// place is shown, with dots for the rest.
pub fn show_record(out: &mut String, record: &[u8], mark: usize) -> Result<(), AllocError> {
    let from = if mark <= MOST_BEFORE {
        0
    } else {
        begin_of_char(record, mark.saturating_sub(BEFORE_MARK))
    };
    let end = from.saturating_add(MOST_SHOWN);
    let to = if end < record.len() {
        begin_of_char(record, end)
    } else {
        record.len()
    };
    out.push('\n')?;
    let mut width: usize = 0;
    if from > 0 {
        out.push_str("..")?;
        width = 2;
    }
    width = width.saturating_add(show(out, part(record, from, mark))?);
    show(out, part(record, mark, to))?;
    if to < record.len() {
        out.push_str("..")?;
    }
    show_mark(out, width)
}

/// Puts a line with a mark behind so many spaces last.
fn show_mark(out: &mut String, width: usize) -> Result<(), AllocError> {
    out.push('\n')?;
    for _ in 0..width {
        out.push(' ')?;
    }
    out.push('^')
}
