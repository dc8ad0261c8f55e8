//! Kinds of options, and every short text of the bytes that matter to them.
use morsel_grammar::CsvOptions;
use morsel_meaning::{Fault, Name};
use rand_core::Rng;
use rand_xoshiro::Xoshiro256PlusPlus;
use std::alloc::Global;
use std::process::Abort;

/// How a text is written, with a byte more that matters to it.
#[derive(Clone, Copy)]
pub struct Dialect {
    separator: u8,
    quote: Option<u8>,
    eol: u8,
    comment: Option<&'static str>,
    null: &'static str,
    ignore_errors: bool,
    extra: u8,
}

/// Commas, double quotes and line feeds, with `#` as a byte that means nothing.
const STANDARD: Dialect = Dialect {
    separator: b',',
    quote: Some(b'"'),
    eol: b'\n',
    comment: None,
    null: "",
    ignore_errors: false,
    extra: b'#',
};

/// One for each kind of separator, quote, eol, comment prefix, null and handling of errors.
pub const DIALECTS: [Dialect; 11] = [
    STANDARD,
    Dialect {
        separator: b';',
        quote: Some(b'\''),
        ..STANDARD
    },
    Dialect {
        quote: None,
        ..STANDARD
    },
    Dialect {
        eol: b'\r',
        ..STANDARD
    },
    Dialect {
        eol: b';',
        extra: b';',
        ..STANDARD
    },
    Dialect {
        comment: Some("#"),
        ..STANDARD
    },
    Dialect {
        comment: Some("\"#"),
        ..STANDARD
    },
    Dialect {
        comment: Some("a,\"\""),
        ..STANDARD
    },
    Dialect {
        quote: None,
        eol: b'\r',
        comment: Some("##"),
        ..STANDARD
    },
    Dialect {
        null: "a",
        ..STANDARD
    },
    Dialect {
        null: "1",
        ignore_errors: true,
        ..STANDARD
    },
];

/// The options of this kind.
pub fn options_of(rt: &impl Abort, alloc: Global, dialect: &Dialect) -> CsvOptions {
    let null = Name::new(alloc, dialect.null).expect(rt, "memory");
    let comment = match dialect.comment {
        Some(prefix) => Some(Name::new(alloc, prefix).expect(rt, "memory")),
        None => None,
    };
    CsvOptions::new(
        dialect.separator,
        dialect.quote,
        dialect.eol,
        comment,
        true,
        null,
        dialect.ignore_errors,
    )
    .expect(rt, "options that do not contradict each other")
}

/// A letter, a digit, the separator, the quote, the line feed, the return, and the byte more.
fn alphabet(dialect: &Dialect) -> [u8; 7] {
    [
        b'a',
        b'1',
        dialect.separator,
        dialect.quote.unwrap_or(b'"'),
        b'\n',
        b'\r',
        dialect.extra,
    ]
}

/// How many texts there are of each length up to five bytes.
pub const COUNTS: [usize; 6] = [1, 7, 49, 343, 2401, 16807];

/// Puts the text of this number among those of a length into the buffer.
pub fn write_text(
    text: &mut Vec<u8>,
    dialect: &Dialect,
    number: usize,
    len: usize,
) -> Result<(), Fault> {
    let letters = alphabet(dialect);
    text.clear();
    let mut left = number;
    for _ in 0..len {
        text.push(letters[left % 7])?;
        left /= 7;
    }
    Ok(())
}

/// Texts without quotes, the last of which is no text in UTF-8.
const WORDS: [&[u8]; 8] = [
    b"",
    b"a",
    b"some words",
    b"true",
    b"1",
    b"\xc3\xa9",
    b"a longer text that crosses an edge of sixteen bytes",
    b"\xe9",
];

/// What a number is written like, and at last what is none.
const NUMBERS: [&[u8]; 8] = [
    b"7",
    b"",
    b"-12",
    b"+3",
    b"123456789",
    b"000000000000000000000000000001",
    b"9223372036854775807",
    b"9223372036854775808",
];

/// Puts the field that this number draws: one in 64 is none of its column, or no field.
fn write_field(
    text: &mut Vec<u8>,
    dialect: &Dialect,
    is_number: bool,
    drawn: u32,
) -> Result<(), Fault> {
    let quote = dialect.quote.unwrap_or(b'\'');
    let list = if is_number { &NUMBERS } else { &WORDS };
    let word = list[(drawn / 64 % 7) as usize];
    match drawn % 64 {
        0 => {
            text.extend_from_slice(list[7])?;
        }
        1 => {
            text.push(b'a')?;
            text.push(quote)?;
        }
        2..12 => {
            text.push(quote)?;
            text.extend_from_slice(word)?;
            text.push(quote)?;
        }
        12..20 if !is_number => {
            text.push(quote)?;
            text.push(dialect.separator)?;
            text.push(quote)?;
            text.push(quote)?;
            text.push(dialect.eol)?;
            text.push(quote)?;
        }
        _ => text.extend_from_slice(word)?,
    }
    Ok(())
}

/// Puts a text of rows of so many columns into the buffer, every other one of numbers, until it has so many bytes. A record in
/// 128 has no bytes, and one in 128 ends with a return.
pub fn write_rows(
    text: &mut Vec<u8>,
    dialect: &Dialect,
    rng: &mut Xoshiro256PlusPlus,
    width: usize,
    len: usize,
) -> Result<(), Fault> {
    text.clear();
    for _ in 0..len {
        if text.len() >= len {
            return Ok(());
        }
        for column in 0..width {
            if column > 0 {
                text.push(dialect.separator)?;
            }
            write_field(text, dialect, column % 2 == 1, rng.next_u32())?;
        }
        match rng.next_u32() % 128 {
            0 => text.push(dialect.eol)?,
            1 => text.push(b'\r')?,
            _ => {}
        }
        text.push(dialect.eol)?;
    }
    Ok(())
}
