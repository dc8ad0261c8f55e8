//! Items, texts and marks by row number: what each kind of column gathers.
ghost use Rattle.std.specs.Prelude.{◌≡◌, ◌≤◌, ◌<◌, ◌+◌, ◌++◌, [], length, map, take, get_or, OnOk, OnErr, IsOkUnless, vec_len, vec_capacity};

use crate::Texts;
use crate::row_number::RowNumber;
use morsel_meaning::Fault;

/// Puts the items of these rows last, and a blank for each row from `limit` on.
pub fn gather_slice<T: Copy + Drop, R: RowNumber>(
    items: &mut Vec<T>,
    others: &[T],
    limit: usize,
    rows: &[R],
    blank: T,
) -> Result<(), Fault>
    requires { limit ≤ length others.now }
    ensures ok { OnOk result (items.new.items ≡ items.old.items ++ map (λ row. get_or (take limit others.now) (R.place row) blank) rows.now) }
    ensures err { OnErr result (items.new.items ≡ items.old.items) }
    ensures full { OnErr result (vec_capacity items.old < vec_len items.old + length rows.now) }
    ensures out_of_memory { IsOkUnless result Fault.OutOfMemory }
{
    items.reserve(rows.len())?;
    push_items(items, &others[..limit], rows, blank);
    Ok(())
}

/// Puts the items of these rows last, where there is room for them.
fn push_items<T: Copy + Drop, R: RowNumber>(items: &mut Vec<T>, others: &[T], rows: &[R], blank: T)
    requires { vec_len items.old + length rows.now ≤ vec_capacity items.old }
    ensures { items.new.items ≡ items.old.items ++ map (λ row. get_or others.now (R.place row) blank) rows.now }
{
    for row in rows {
        items.push_reserved(item_or(others, row.place(), blank));
    }
}

/// The item at this place, and a blank past the last.
fn item_or<T: Copy + Drop>(others: &[T], at: usize, blank: T) -> T
    ensures { result ≡ get_or others.now at blank }
{
    if at < others.len() { others[at] } else { blank }
}

/// Puts the texts of these rows last, and an empty text for each row from `limit` on.
pub fn gather_texts<R: RowNumber>(
    texts: &mut Texts,
    others: &Texts,
    limit: usize,
    rows: &[R],
) -> Result<(), Fault>
    requires { limit ≤ length others.now }
    ensures ok { OnOk result (texts.new ≡ texts.old ++ map (λ row. get_or (take limit others.now) (R.place row) []) rows.now) }
    ensures err { OnErr result (texts.new ≡ texts.old) }
    ensures out_of_memory { IsOkUnless result Fault.OutOfMemory }
{
    texts.reserve(rows.len())?;
    let len = texts.len();
    if let Err(fault) = push_texts(texts, others, limit, rows) {
        texts.truncate(len);
        return Err(fault);
    }
    Ok(())
}

/// Puts the texts of these rows last, or as many of them as there is memory for.
fn push_texts<R: RowNumber>(
    texts: &mut Texts,
    others: &Texts,
    limit: usize,
    rows: &[R],
) -> Result<(), Fault>
    requires { limit ≤ length others.now }
    ensures ok { OnOk result (texts.new ≡ texts.old ++ map (λ row. get_or (take limit others.now) (R.place row) []) rows.now) }
    ensures err { OnErr result (take (length texts.old) texts.new ≡ texts.old) }
    ensures out_of_memory { IsOkUnless result Fault.OutOfMemory }
{
    for row in rows {
        texts.push(text_or(others, limit, row.place()))?;
    }
    Ok(())
}

/// The text at this place, and an empty one from place `limit` on.
fn text_or(texts: &Texts, limit: usize, at: usize) -> &str
    requires { limit ≤ length texts.now }
    ensures { result.now ≡ get_or (take limit texts.now) at [] }
{
    if at < limit { texts.get(at) } else { "" }
}
