//! Texts of each length up to 40 with an escape at each place, and with none, as lines of NDJSON.
//!
//! A text of up to 16 bytes is copied with the bytes after it, which are those of the next texts, so each text stands before
//! texts of several lengths and also last.
ghost use Rattle.std.specs.Prelude.{◌≡◌};

use super::ndjson::{has_lines, one_column};
use morsel_frame::{Column, Frame};
use morsel_meaning::{ColType, Fault};
use std::alloc::Global;
use std::mem::drop;
use std::process::Abort;

/// Texts of each length have all places for an escape.
const LONGEST: usize = 40;

/// Bytes that need an escape, with the escape.
const MARKS: &[(&str, &str)] = &[("\"", "\\\""), ("\\", "\\\\"), ("\u{1f}", "\\u001f")];

/// What may come after a text, with its escapes.
const NEXT: &[(&str, &str)] = &[
    ("", ""),
    ("\\", "\\\\"),
    ("\" has no more", "\\\" has no more"),
    (
        "\n begins more than one lane",
        "\\n begins more than one lane",
    ),
];

/// Letters, with a mark in place of the one at `at` if there is one.
fn letters(rt: &impl Abort, alloc: Global, len: usize, at: usize, mark: &str) -> String {
    let mut text = String::new(alloc);
    for place in 0..len {
        if place == at {
            text.push_str(mark).expect(rt, "memory");
        } else {
            text.push((b'a' + (place % 26) as u8) as char)
                .expect(rt, "memory");
        }
    }
    text
}

fn put_texts(column: &mut Column, text: &str, next: Option<&str>) -> Result<(), Fault>
    requires { column.old.kind ≡ ColType.Text }
{
    column.push_text(text)?;
    match next {
        Some(next) => column.push_text(next),
        None => Ok(()),
    }
}

/// A frame of a text, and of another after it if there is one.
fn frame_of(rt: &impl Abort, alloc: Global, text: &str, next: Option<&str>) -> Frame {
    let mut column = Column::new(alloc, ColType::Text);
    put_texts(&mut column, text, next).expect(rt, "memory");
    one_column(rt, alloc, "t", column)
}

/// The last text of a frame is written so.
fn is_written_last(rt: &impl Abort, alloc: Global, text: &str, escaped: &str) {
    let wanted = format!(in alloc; "{{\"t\":\"{escaped}\"}}\n").expect(rt, "memory");
    has_lines(
        rt,
        alloc,
        frame_of(rt, alloc, text, None),
        wanted.as_bytes(),
    );
    drop(wanted);
}

/// A text is written so before another.
fn is_written_before(
    rt: &impl Abort,
    alloc: Global,
    text: &str,
    escaped: &str,
    next: &str,
    next_escaped: &str,
) {
    let wanted = format!(in alloc;
        "{{\"t\":\"{escaped}\"}}\n{{\"t\":\"{next_escaped}\"}}\n"
    ).expect(rt, "memory");
    has_lines(
        rt,
        alloc,
        frame_of(rt, alloc, text, Some(next)),
        wanted.as_bytes(),
    );
    drop(wanted);
}

/// A text of so many bytes is written with its escape, which is at this place.
fn is_escaped_at(rt: &impl Abort, alloc: Global, len: usize, at: usize, mark: &str, escape: &str) {
    let text = letters(rt, alloc, len, at, mark);
    let escaped = letters(rt, alloc, len, at, escape);
    is_written_last(rt, alloc, text.as_str(), escaped.as_str());
    for (next, next_escaped) in NEXT {
        is_written_before(
            rt,
            alloc,
            text.as_str(),
            escaped.as_str(),
            next,
            next_escaped,
        );
    }
    drop(text);
    drop(escaped);
}

#[test]
fn an_escape_is_found_at_each_place_of_a_text(rt: HostRuntime) {
    for (mark, escape) in MARKS {
        for len in 0..LONGEST + 1 {
            for at in 0..len + 1 {
                is_escaped_at(&rt, rt.alloc(), len, at, mark, escape);
            }
        }
    }
}
