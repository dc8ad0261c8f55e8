//! Buffers of texts: each public call once with ample memory.
use morsel_frame::Texts;
use std::alloc::Global;
use std::mem::drop;
use std::process::Abort;

/// A buffer of these texts, pushed in this order.
fn texts_of(rt: &impl Abort, alloc: Global, parts: &[&str]) -> Texts {
    let mut texts = Texts::new(alloc);
    for part in parts {
        texts.push(part).expect(rt, "memory");
    }
    texts
}

/// The buffer has these texts.
fn are(rt: &impl Abort, texts: Texts, wanted: &[&str]) {
    assert_eq!(rt; texts.len(), wanted.len());
    for at in 0..wanted.len() {
        if at < texts.len() {
            assert_eq!(rt; texts.get(at), wanted[at], "at {at}");
        }
    }
    drop(texts);
}

#[test]
fn a_new_buffer_has_no_text(rt: HostRuntime) {
    are(&rt, Texts::new(rt.alloc()), &[]);
}

#[test]
fn blank_texts_are_empty_texts(rt: HostRuntime) {
    let texts = Texts::blank(rt.alloc(), 2).expect(&rt, "memory");
    are(&rt, texts, &["", ""]);
}

#[test]
fn pushed_texts_come_back_in_order(rt: HostRuntime) {
    let texts = texts_of(&rt, rt.alloc(), &["x", "", "née", "yz"]);
    are(&rt, texts, &["x", "", "née", "yz"]);
}

/// The text at this place is lent as these bytes, of which so many are its own.
fn is_lent(rt: &impl Abort, texts: &Texts, at: usize, wanted: &str, own: usize) {
    assert!(rt; at < texts.len());
    let (bytes, len) = texts.bytes_from(at);
    assert_eq!(rt; bytes, wanted.as_bytes(), "at {at}");
    assert_eq!(rt; len, own, "at {at}");
}

#[test]
fn a_text_is_lent_with_those_after_it(rt: HostRuntime) {
    let texts = texts_of(&rt, rt.alloc(), &["x", "", "née", "yz"]);
    is_lent(&rt, &texts, 0, "xnéeyz", 1);
    is_lent(&rt, &texts, 1, "néeyz", 0);
    is_lent(&rt, &texts, 2, "néeyz", 4);
    is_lent(&rt, &texts, 3, "yz", 2);
    drop(texts);
}

/// Two texts, and after them a range of four others.
fn with_range(rt: &impl Abort, alloc: Global, from: usize, to: usize) -> Texts {
    let mut texts = texts_of(rt, alloc, &["a", "bc"]);
    let other = texts_of(rt, alloc, &["x", "", "née", "yz"]);
    assert!(rt; from <= to && to <= other.len());
    texts.append(&other, from, to).expect(rt, "memory");
    drop(other);
    texts
}

#[test]
fn a_range_of_anothers_texts_is_put_last(rt: HostRuntime) {
    let texts = with_range(&rt, rt.alloc(), 1, 3);
    are(&rt, texts, &["a", "bc", "", "née"]);
    let texts = with_range(&rt, rt.alloc(), 4, 4);
    are(&rt, texts, &["a", "bc"]);
}

#[test]
fn room_for_more_changes_no_text(rt: HostRuntime) {
    let mut texts = texts_of(&rt, rt.alloc(), &["x", "", "yz"]);
    texts.reserve(100).expect(&rt, "memory");
    are(&rt, texts, &["x", "", "yz"]);
}

/// The first `len` of three texts, and another after them, are these.
fn is_cut(rt: &impl Abort, alloc: Global, len: usize, wanted: &[&str]) {
    let mut texts = texts_of(rt, alloc, &["x", "", "yz"]);
    texts.truncate(len);
    texts.push("w").expect(rt, "memory");
    are(rt, texts, wanted);
}

#[test]
fn a_text_after_a_cut_begins_where_it_was_cut(rt: HostRuntime) {
    is_cut(&rt, rt.alloc(), 1, &["x", "w"]);
    is_cut(&rt, rt.alloc(), 0, &["w"]);
    is_cut(&rt, rt.alloc(), 4, &["x", "", "yz", "w"]);
}
