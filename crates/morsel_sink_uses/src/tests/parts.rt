//! Rows as parts of a text.
use super::makers::part_of;
use std::alloc::Global;
use std::process::Abort;

/// The part of these numbers has this text and as many rows, as all of a stretch that begins and ends at 0.
fn is_part(rt: &impl Abort, alloc: Global, numbers: &[i64], text: &str) {
    let part = part_of(rt, alloc, numbers);
    assert_eq!(rt; part.bytes.as_slice(), text.as_bytes());
    assert_eq!(rt; part.rows, numbers.len() as u64);
    assert_eq!(rt; (part.from, part.to, part.skip), (0, 0, 0));
    assert!(rt; part.last && part.meta.is_none());
}

#[test]
fn rows_are_lines_and_are_counted(rt: HostRuntime) {
    is_part(&rt, rt.alloc(), &[1, -20], "{\"n\":1}\n{\"n\":-20}\n");
}

#[test]
fn no_rows_are_a_part_without_text(rt: HostRuntime) {
    is_part(&rt, rt.alloc(), &[], "");
}
