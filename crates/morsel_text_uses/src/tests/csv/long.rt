//! Both readers over longer texts of rows, of fields of every kind, so that edges of 64 bytes lie everywhere in them, under each
//! kind of options.
use super::dialects::{DIALECTS, Dialect, options_of, write_rows};
use super::plain::agree;
use crate::tests::schema_of;
use morsel_frame::Schema;
use morsel_grammar::CsvOptions;
use morsel_meaning::ColType;
use rand_core::SeedableRng;
use rand_xoshiro::Xoshiro256PlusPlus;
use std::alloc::Global;
use std::mem::drop;
use std::process::Abort;

/// How many texts of each kind are drawn.
const TEXTS: u64 = 400;

/// Both readers agree of the texts of this kind that are drawn, with these columns used. Says how many that were.
fn agree_of_drawn(
    rt: &impl Abort,
    alloc: Global,
    dialect: &Dialect,
    schema: &Schema,
    used: &[bool],
    options: &CsvOptions,
) -> u64 {
    let mut text = Vec::new(alloc);
    let mut count: u64 = 0;
    for seed in 0..TEXTS {
        let mut rng = Xoshiro256PlusPlus::seed_from_u64(seed);
        let len = 60 + (seed % 141) as usize;
        write_rows(&mut text, dialect, &mut rng, used.len(), len).expect(rt, "memory");
        let head = seed % 8 == 0;
        agree(rt, alloc, text.as_slice(), schema, used, head, options);
        count = count.saturating_add(1);
    }
    drop(text);
    count
}

/// Both readers agree of drawn texts under each kind of options, with these columns of which these are used.
fn agree_of_each_kind(rt: &impl Abort, alloc: Global, columns: &[(&str, ColType)], used: &[bool]) {
    let schema = schema_of(rt, alloc, columns);
    assert!(rt; used.len() == schema.len());
    for dialect in &DIALECTS {
        let options = options_of(rt, alloc, dialect);
        let count = agree_of_drawn(rt, alloc, dialect, &schema, used, &options);
        drop(options);
        assert_eq!(rt; count, TEXTS);
    }
    drop(schema);
}

#[test]
fn both_readers_agree_of_rows_of_texts_and_numbers(rt: HostRuntime) {
    let columns = [
        ("c0", ColType::Text),
        ("c1", ColType::Int),
        ("c2", ColType::Text),
    ];
    agree_of_each_kind(&rt, rt.alloc(), &columns, &[true, true, true]);
    agree_of_each_kind(&rt, rt.alloc(), &columns, &[false, true, false]);
}

#[test]
fn both_readers_agree_of_rows_of_one_text(rt: HostRuntime) {
    agree_of_each_kind(&rt, rt.alloc(), &[("c0", ColType::Text)], &[true]);
    agree_of_each_kind(&rt, rt.alloc(), &[("c0", ColType::Bool)], &[false]);
}
