//! The ends of fields as a machine tells them that takes one byte after the other, and how it agrees with the masks.
use super::ends_of;
use morsel_grammar::CsvOptions;
use std::process::Abort;

/// Where a byte stands.
#[derive(Clone, Copy, PartialEq, Eq)]
enum Stands {
    /// First in a field.
    First,
    /// In a field without quotes, or after a byte 13 that follows a closing quote.
    Plain,
    /// In quotes.
    Quoted,
    /// After a quote in quotes.
    Closed,
    /// After a quote that stands where it may not, or what may not follow a closing one.
    Broken,
}

/// Where the next byte stands after one without quotes.
fn plain_next(b: u8, separator: u8, eol: u8) -> Stands {
    if b == separator || b == eol {
        Stands::First
    } else {
        Stands::Plain
    }
}

/// Where the next byte stands after this one.
fn next(stands: Stands, b: u8, separator: u8, quote: Option<u8>, eol: u8) -> Stands {
    let is_quote = quote == Some(b);
    match stands {
        Stands::First => if is_quote {
            Stands::Quoted
        } else {
            plain_next(b, separator, eol)
        },
        Stands::Plain => if is_quote {
            Stands::Broken
        } else {
            plain_next(b, separator, eol)
        },
        Stands::Quoted => if is_quote {
            Stands::Closed
        } else {
            Stands::Quoted
        },
        Stands::Closed => if is_quote {
            Stands::Quoted
        } else if b == separator || b == eol || b == b'\r' {
            plain_next(b, separator, eol)
        } else {
            Stands::Broken
        },
        Stands::Broken => Stands::Broken,
    }
}

/// Puts the ends of the fields into `ends`; whether each quote stands where it may.
fn tell_ends(rt: &impl Abort, options: &CsvOptions, text: &[u8], ends: &mut Vec<usize>) -> bool {
    ends.clear();
    let mut stands = Stands::First;
    for at in 0..text.len() {
        stands = next(
            stands,
            text[at],
            options.separator(),
            options.quote(),
            options.eol(),
        );
        if stands == Stands::First {
            ends.push(at).expect(rt, "memory");
        }
    }
    stands != Stands::Quoted && stands != Stands::Broken
}

/// The places begin with these ends.
fn same_places(rt: &impl Abort, text: &[u8], ends: &[usize], places: &[u32]) {
    assert!(rt; places.len() >= ends.len());
    for k in 0..ends.len() {
        assert_eq!(rt; places[k] as usize, ends[k], "end {k} of {text:?}");
    }
}

/// The masks tell of the text what the machine tells.
pub fn agree(
    rt: &impl Abort,
    options: &CsvOptions,
    text: &[u8],
    ends: &mut Vec<usize>,
    places: &mut Vec<u32>,
) {
    let is_sound = tell_ends(rt, options, text, ends);
    let count = ends_of(rt, options, text, places);
    let wanted = if is_sound { Some(ends.len()) } else { None };
    assert_eq!(rt; count, wanted, "{text:?}");
    if is_sound {
        same_places(rt, text, ends.as_slice(), places.as_slice());
    }
}
