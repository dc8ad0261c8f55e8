//! Every text of up to five bytes that the rules name, alone and where 64 bytes end within it, and long ones made of fields.
use super::by_hand::agree;
use super::options_of;
use morsel_grammar::CsvOptions;
use std::alloc::Global;
use std::mem::drop;
use std::process::Abort;

/// A letter, the separator, the quote and both line ends.
const ALPHABET: [u8; 5] = *b"a,\"\n\r";

/// How many texts there are of each length up to five bytes.
const COUNTS: [usize; 6] = [1, 5, 25, 125, 625, 3125];

/// Puts letters and then the text of this number among those of a length into the buffer.
fn write_text(rt: &impl Abort, text: &mut Vec<u8>, letters: usize, number: usize, len: usize) {
    text.clear();
    for _ in 0..letters {
        text.push(b'a').expect(rt, "memory");
    }
    let mut left = number;
    for _ in 0..len {
        text.push(ALPHABET[left % 5]).expect(rt, "memory");
        left /= 5;
    }
}

/// Masks and machine agree on each text of a length after so many letters.
fn all_agree(rt: &impl Abort, alloc: Global, options: &CsvOptions, letters: usize, len: usize) {
    assert!(rt; len < 6);
    let mut text = Vec::new(alloc);
    let mut ends = Vec::new(alloc);
    let mut places = Vec::new(alloc);
    for number in 0..COUNTS[len] {
        write_text(rt, &mut text, letters, number, len);
        agree(rt, options, text.as_slice(), &mut ends, &mut places);
    }
    drop(places);
    drop(ends);
    drop(text);
}

#[test]
fn short_texts_have_their_ends(rt: HostRuntime) {
    let options = options_of(&rt, rt.alloc(), b',', Some(b'"'), b'\n', None);
    for len in 0..6 {
        all_agree(&rt, rt.alloc(), &options, 0, len);
    }
    drop(options);
}

#[test]
fn texts_have_their_ends_where_64_bytes_end_in_them(rt: HostRuntime) {
    let options = options_of(&rt, rt.alloc(), b'a', Some(b'"'), b'\n', None);
    for letters in 59..65 {
        all_agree(&rt, rt.alloc(), &options, letters, 5);
    }
    drop(options);
}

/// Fields with what follows each, chosen by a number.
fn field_of(number: u64) -> &'static [u8] {
    match number % 12 {
        0 => b",",
        1 => b"\n",
        2 => b"ab,",
        3 => b"c\r\n",
        4 => b"\"\",",
        5 => b"\"d,e\",",
        6 => b"\"\n\"\"\"\n",
        7 => b"\"f\"\"g\",",
        8 => b"\"\"\"\"\r\n",
        9 => b"0123456789012345678901234567890123456789,",
        10 => b"\"0123456789,0123456789\n0123456789\"\n",
        _ => b"x y z,",
    }
}

/// Puts fields into the buffer until there are so many bytes, chosen by what follows a number; gives the last of these.
fn write_fields(rt: &impl Abort, text: &mut Vec<u8>, seed: u64, len: usize) -> u64 {
    text.clear();
    let mut chosen = seed;
    for _ in 0..len {
        if text.len() < len {
            chosen = chosen
                .wrapping_mul(6364136223846793005)
                .wrapping_add(1442695040888963407);
            text.extend_from_slice(field_of(chosen >> 33))
                .expect(rt, "memory");
        }
    }
    chosen
}

#[test]
fn long_texts_of_fields_have_their_ends(rt: HostRuntime) {
    let options = options_of(&rt, rt.alloc(), b',', Some(b'"'), b'\n', None);
    let mut text = Vec::new(rt.alloc());
    let mut ends = Vec::new(rt.alloc());
    let mut places = Vec::new(rt.alloc());
    let mut seed = 1;
    for len in 60..400 {
        seed = write_fields(&rt, &mut text, seed, len);
        agree(&rt, &options, text.as_slice(), &mut ends, &mut places);
        // the same without its last byte
        text.pop();
        agree(&rt, &options, text.as_slice(), &mut ends, &mut places);
    }
    drop(places);
    drop(ends);
    drop(text);
    drop(options);
}
