//! Keys that are drawn, beside a plain list of them.
ghost use Rattle.std.specs.Prelude.{◌≡◌, IfOk};

use super::numbers::is_numbered;
use super::samples::framed;
use morsel_frame::Column;
use morsel_meaning::{ColType, Fault};
use rand_core::{Rng, SeedableRng};
use rand_xoshiro::Xoshiro256PlusPlus;
use std::alloc::Global;
use std::test::Fail;

/// A number below a bound, or null.
fn drawn(rng: &mut Xoshiro256PlusPlus, bound: u32) -> Option<i64> {
    let number = rng.next_u32() % bound.max(1);
    if number == 0 {
        None
    } else {
        Some(i64::from(number))
    }
}

fn put_drawn(
    rng: &mut Xoshiro256PlusPlus,
    numbers: &mut Vec<Option<i64>>,
    len: usize,
    bound: u32,
) -> Result<(), Fault> {
    for _ in 0..len {
        numbers.push(drawn(rng, bound))?;
    }
    Ok(())
}

/// As many numbers as are asked, each null or below a bound.
pub fn draw(alloc: Global, seed: u64, len: usize, bound: u32) -> Result<Vec<Option<i64>>, Fault> {
    let mut rng = Xoshiro256PlusPlus::seed_from_u64(seed);
    let mut numbers = Vec::new(alloc);
    put_drawn(&mut rng, &mut numbers, len, bound)?;
    Ok(numbers)
}

fn push_text(column: &mut Column, text: &str) -> Result<(), Fault>
    requires { column.old.kind ≡ ColType.Text }
    ensures { column.new.kind ≡ column.old.kind }
{
    column.push_text(text)?;
    Ok(())
}

/// Puts the text that is made of a number last: of a few bytes or of more than sixteen.
fn push_drawn_text(alloc: Global, column: &mut Column, number: i64) -> Result<(), Fault>
    requires { column.old.kind ≡ ColType.Text }
    ensures { column.new.kind ≡ column.old.kind }
{
    let cube = number.wrapping_mul(number).wrapping_mul(number);
    let text = format!(in alloc; "{number}-{cube}")?;
    push_text(column, text.as_str())
}

/// Puts a number last, or the text that is made of it.
fn push_drawn(alloc: Global, column: &mut Column, number: Option<i64>) -> Result<(), Fault>
    ensures { column.new.kind ≡ column.old.kind }
{
    match (column.kind(), number) {
        (ColType::Int, Some(number)) => {
            column.push_int(number)?;
            Ok(())
        }
        (ColType::Text, Some(number)) => push_drawn_text(alloc, column, number),
        _ => {
            column.push_null()?;
            Ok(())
        }
    }
}

fn push_each_drawn(alloc: Global, column: &mut Column, numbers: &[Option<i64>]) -> Result<(), Fault>
    ensures { column.new.kind ≡ column.old.kind }
{
    for number in numbers {
        push_drawn(alloc, column, *number)?;
    }
    Ok(())
}

/// The column of numbers, or of texts that are made of them.
pub fn drawn_column(alloc: Global, kind: ColType, numbers: &[Option<i64>]) -> Result<Column, Fault>
    ensures { IfOk result (λ column. column.kind ≡ kind) }
{
    let mut column = Column::new(alloc, kind);
    push_each_drawn(alloc, &mut column, numbers)?;
    Ok(column)
}

/// The place of a number in a list, and puts it last where it is absent.
fn place_among(firsts: &mut Vec<Option<i64>>, number: Option<i64>) -> Result<u32, Fault> {
    let mut at = 0u32;
    for first in firsts.as_slice() {
        if *first == number {
            return Ok(at);
        }
        at = at.wrapping_add(1);
    }
    firsts.push(number)?;
    Ok(at)
}

fn put_plain_numbers(
    firsts: &mut Vec<Option<i64>>,
    numbers: &mut Vec<u32>,
    keys: &[Option<i64>],
) -> Result<(), Fault> {
    for key in keys {
        numbers.push(place_among(firsts, *key)?)?;
    }
    Ok(())
}

/// The numbers of keys, in plain words.
fn plain_numbers(alloc: Global, keys: &[Option<i64>]) -> Result<Vec<u32>, Fault> {
    let mut firsts = Vec::new(alloc);
    let mut numbers = Vec::new(alloc);
    put_plain_numbers(&mut firsts, &mut numbers, keys)?;
    Ok(numbers)
}

/// Whether keys of numbers, and of texts that are made of them, have these numbers.
fn have_numbers(
    alloc: Global,
    seed: u64,
    kind: ColType,
    keys: &[Option<i64>],
    wanted: &[u32],
) -> Result<bool, Fault> {
    let column = drawn_column(alloc, kind, keys)?;
    let frame = framed(alloc, "a", column)?;
    is_numbered(alloc, seed, &frame, kind, wanted)
}

/// Whether keys have the numbers that they have in plain words.
fn are_plain(alloc: Global, seed: u64, kind: ColType, keys: &[Option<i64>]) -> Result<bool, Fault> {
    let wanted = plain_numbers(alloc, keys)?;
    have_numbers(alloc, seed, kind, keys, &wanted)
}

/// Whether keys that are drawn have the numbers that they have in plain words.
fn drawn_are_plain(alloc: Global, seed: u64, kind: ColType, bound: u32) -> Result<bool, Fault> {
    let keys = draw(alloc, seed, 200, bound)?;
    are_plain(alloc, seed, kind, &keys)
}

#[test]
fn drawn_keys_have_the_numbers_of_a_plain_list(rt: HostRuntime) -> Result<(), Fail> {
    let alloc = rt.alloc();
    for seed in 0..50 {
        for bound in [1, 2, 20, 300] {
            assert!(rt;
                drawn_are_plain(alloc, seed, ColType::Int, bound)?,
                "seed {seed}, {bound} numbers"
            );
            assert!(rt;
                drawn_are_plain(alloc, seed, ColType::Text, bound)?,
                "seed {seed}, {bound} texts"
            );
        }
    }
    Ok(())
}

fn put_up(keys: &mut Vec<Option<i64>>, len: u32) -> Result<(), Fault> {
    for number in 0..len {
        keys.push(if number == 0 {
            None
        } else {
            Some(i64::from(number))
        })?;
    }
    Ok(())
}

/// So many keys, of which all but the first are other numbers, and the first is null.
fn count_up(alloc: Global, len: u32) -> Result<Vec<Option<i64>>, Fault> {
    let mut keys = Vec::new(alloc);
    put_up(&mut keys, len)?;
    Ok(keys)
}

fn put_numbers(numbers: &mut Vec<u32>, len: u32) -> Result<(), Fault> {
    for number in 0..len {
        numbers.push(number)?;
    }
    Ok(())
}

/// The numbers from 0 on.
fn numbers_below(alloc: Global, len: u32) -> Result<Vec<u32>, Fault> {
    let mut numbers = Vec::new(alloc);
    put_numbers(&mut numbers, len)?;
    Ok(numbers)
}

/// Whether so many keys have the numbers from 0 on.
fn are_counted(
    alloc: Global,
    kind: ColType,
    keys: &[Option<i64>],
    len: u32,
) -> Result<bool, Fault> {
    let wanted = numbers_below(alloc, len)?;
    have_numbers(alloc, 7, kind, keys, &wanted)
}

/// Whether so many keys, each another one, have the numbers from 0 on.
fn count_up_is_numbered(alloc: Global, kind: ColType, len: u32) -> Result<bool, Fault> {
    let keys = count_up(alloc, len)?;
    are_counted(alloc, kind, &keys, len)
}

#[test]
fn tables_have_no_key_or_one(rt: HostRuntime) -> Result<(), Fail> {
    for kind in [ColType::Int, ColType::Text] {
        for len in [0, 1] {
            assert!(rt;
                count_up_is_numbered(rt.alloc(), kind, len)?,
                "{len} of {kind:?}"
            );
        }
    }
    Ok(())
}

#[test]
fn tables_have_many_numbers(rt: HostRuntime) -> Result<(), Fail> {
    assert!(rt; count_up_is_numbered(rt.alloc(), ColType::Int, 300000)?);
    Ok(())
}

#[test]
fn tables_have_many_texts(rt: HostRuntime) -> Result<(), Fail> {
    assert!(rt; count_up_is_numbered(rt.alloc(), ColType::Text, 30000)?);
    Ok(())
}
