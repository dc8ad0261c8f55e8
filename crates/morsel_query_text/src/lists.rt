//! Lists and names of a query's text.
ghost use Rattle.std.specs.Prelude.{◌≡◌, Some, None, [], IfOk, IfErr, option_map, option_and_then};
ghost use Rattle.serde_json.specs.Find.{as_str, as_array};
ghost use Rattle.serde_json.specs.View.{view, items_view};
ghost use Rattle.morsel_query_text.specs.Trees.{at_key, some_of, each_as, list_of, pair_of, three_items, two_items, number, narrow_number, signed_number};
ghost use Rattle.morsel_query_text.specs.QueryTexts.{type_named, field, row_index};
ghost use Rattle.morsel_query_text.specs.Reads.{Refused};

use morsel_meaning::{ColType, Fault, Field, Name};
use morsel_scan::RowIndex;
use serde_json::Value;
use std::alloc::Global;

/// The names that a list has.
pub fn names_of_list(alloc: Global, tree: &Value) -> Result<Vec<Name>, Fault>
    ensures ok { IfOk result (λ value. list_of as_str (view tree.now) ≡ Some value.items) }
    ensures refused { IfErr result (Refused (list_of as_str (view tree.now))) }
{
    match tree.as_array() {
        Some(items) => names_of_items(alloc, items),
        None => Err(Fault::QueryText),
    }
}

/// Each item as a name.
fn names_of_items(alloc: Global, items: &[Value]) -> Result<Vec<Name>, Fault>
    ensures ok { IfOk result (λ value. each_as as_str (items_view items.now) ≡ Some value.items) }
    ensures refused { IfErr result (Refused (each_as as_str (items_view items.now))) }
{
    let mut names = Vec::new(alloc);
    for item in items {
        names.push(name_of(alloc, item)?)?;
    }
    Ok(names)
}

/// A text as a name.
pub fn name_of(alloc: Global, tree: &Value) -> Result<Name, Fault>
    ensures ok { IfOk result (λ value. as_str (view tree.now) ≡ Some value) }
    ensures refused { IfErr result (Refused (as_str (view tree.now))) }
{
    match tree.as_str() {
        Some(text) => Name::new(alloc, text),
        None => Err(Fault::QueryText),
    }
}

/// The names at a key; none where the key is absent.
pub fn names_at(alloc: Global, tree: &Value, key: &str) -> Result<Vec<Name>, Fault>
    ensures ok { IfOk result (λ value. at_key key.now (list_of as_str) (Some []) (view tree.now) ≡ Some value.items) }
    ensures refused { IfErr result (Refused (at_key key.now (list_of as_str) (Some []) (view tree.now))) }
{
    match tree.get(key) {
        Some(found) => names_of_list(alloc, found),
        None => Ok(Vec::new(alloc)),
    }
}

/// The names at a key, which has to be there.
pub fn names_due_at(alloc: Global, tree: &Value, key: &str) -> Result<Vec<Name>, Fault>
    ensures ok { IfOk result (λ value. at_key key.now (list_of as_str) None (view tree.now) ≡ Some value.items) }
    ensures refused { IfErr result (Refused (at_key key.now (list_of as_str) None (view tree.now))) }
{
    match tree.get(key) {
        Some(found) => names_of_list(alloc, found),
        None => Err(Fault::QueryText),
    }
}

/// The two values of a list that has no more.
pub fn pair_of(tree: &Value) -> Option<(&Value, &Value)>
    ensures { option_map (λ pair. (view pair.0.now, view pair.1.now)) result ≡ option_and_then two_items (as_array (view tree.now)) }
{
    match tree.as_array() {
        Some(items) => two_of(items),
        None => None,
    }
}

/// The two items of a list that has no more.
fn two_of(items: &[Value]) -> Option<(&Value, &Value)>
    ensures { option_map (λ pair. (view pair.0.now, view pair.1.now)) result ≡ two_items (items_view items.now) }
{
    if items.len() == 2 {
        Some((&items[0], &items[1]))
    } else {
        None
    }
}

/// The three values of a list that has no more.
pub fn triple_of(tree: &Value) -> Option<(&Value, &Value, &Value)>
    ensures { option_map (λ triple. (view triple.0.now, view triple.1.now, view triple.2.now)) result ≡ option_and_then three_items (as_array (view tree.now)) }
{
    match tree.as_array() {
        Some(items) => three_of(items),
        None => None,
    }
}

/// The three items of a list that has no more.
fn three_of(items: &[Value]) -> Option<(&Value, &Value, &Value)>
    ensures { option_map (λ triple. (view triple.0.now, view triple.1.now, view triple.2.now)) result ≡ three_items (items_view items.now) }
{
    if items.len() == 3 {
        Some((&items[0], &items[1], &items[2]))
    } else {
        None
    }
}

/// The fields at a key, which has to be there.
pub fn fields_due_at(alloc: Global, tree: &Value, key: &str) -> Result<Vec<Field>, Fault>
    ensures ok { IfOk result (λ value. at_key key.now (list_of field) None (view tree.now) ≡ Some value.items) }
    ensures refused { IfErr result (Refused (at_key key.now (list_of field) None (view tree.now))) }
{
    match tree.get(key) {
        Some(found) => fields_of_list(alloc, found),
        None => Err(Fault::QueryText),
    }
}

/// The fields that a list has.
fn fields_of_list(alloc: Global, tree: &Value) -> Result<Vec<Field>, Fault>
    ensures ok { IfOk result (λ value. list_of field (view tree.now) ≡ Some value.items) }
    ensures refused { IfErr result (Refused (list_of field (view tree.now))) }
{
    match tree.as_array() {
        Some(items) => fields_of_items(alloc, items),
        None => Err(Fault::QueryText),
    }
}

/// Each item as a field.
fn fields_of_items(alloc: Global, items: &[Value]) -> Result<Vec<Field>, Fault>
    ensures ok { IfOk result (λ value. each_as field (items_view items.now) ≡ Some value.items) }
    ensures refused { IfErr result (Refused (each_as field (items_view items.now))) }
{
    let mut fields = Vec::new(alloc);
    for item in items {
        fields.push(field_of(alloc, item)?)?;
    }
    Ok(fields)
}

/// `[name, type]` as a field.
fn field_of(alloc: Global, tree: &Value) -> Result<Field, Fault>
    ensures ok { IfOk result (λ value. field (view tree.now) ≡ Some value) }
    ensures refused { IfErr result (Refused (field (view tree.now))) }
{
    let Some((name, word)) = pair_of(tree) else {
        return Err(Fault::QueryText);
    };
    let Some(kind) = kind_of(word) else {
        return Err(Fault::QueryText);
    };
    Ok(Field {
        name: name_of(alloc, name)?,
        kind,
    })
}

/// The type that a text names.
fn kind_of(tree: &Value) -> Option<ColType>
    ensures { result ≡ option_and_then type_named (as_str (view tree.now)) }
{
    match tree.as_str() {
        Some(word) => kind_named(word),
        None => None,
    }
}

/// The type that a word names.
fn kind_named(word: &str) -> Option<ColType>
    ensures { result ≡ type_named word.now }
{
    if word == "int" {
        Some(ColType::Int)
    } else if word == "bool" {
        Some(ColType::Bool)
    } else if word == "text" {
        Some(ColType::Text)
    } else {
        None
    }
}

/// The slice at a key, `[offset, length]`; none where the key is absent.
pub fn slice_at(tree: &Value, key: &str) -> Result<Option<(i64, u64)>, Fault>
    ensures ok { IfOk result (λ value. at_key key.now (some_of (pair_of signed_number number)) (Some None) (view tree.now) ≡ Some value) }
    ensures refused { IfErr result (Refused (at_key key.now (some_of (pair_of signed_number number)) (Some None) (view tree.now))) }
{
    match tree.get(key) {
        Some(found) => match slice_of(found) {
            Some(slice) => Ok(Some(slice)),
            None => Err(Fault::QueryText),
        },
        None => Ok(None),
    }
}

/// `[offset, length]`.
fn slice_of(tree: &Value) -> Option<(i64, u64)>
    ensures { result ≡ pair_of signed_number number (view tree.now) }
{
    let (offset, len) = pair_of(tree)?;
    Some((signed_number(offset)?, len.as_u64()?))
}

/// A number of 64 bits with a sign.
pub fn signed_number(tree: &Value) -> Option<i64>
    ensures { result ≡ signed_number (view tree.now) }
{
    let n = tree.as_i64()?;
    // A number of a tree that is not below 0 has no sign.
    if n < 0 || tree.is_u64() {
        Some(n)
    } else {
        None
    }
}

/// The row index at a key, `[name, offset]`; none where the key is absent.
pub fn row_index_at(alloc: Global, tree: &Value, key: &str) -> Result<Option<RowIndex>, Fault>
    ensures ok { IfOk result (λ value. at_key key.now (some_of row_index) (Some None) (view tree.now) ≡ Some value) }
    ensures refused { IfErr result (Refused (at_key key.now (some_of row_index) (Some None) (view tree.now))) }
{
    match tree.get(key) {
        Some(found) => Ok(Some(row_index_of(alloc, found)?)),
        None => Ok(None),
    }
}

/// `[name, offset]`.
fn row_index_of(alloc: Global, tree: &Value) -> Result<RowIndex, Fault>
    ensures ok { IfOk result (λ value. row_index (view tree.now) ≡ Some value) }
    ensures refused { IfErr result (Refused (row_index (view tree.now))) }
{
    let Some((name, offset)) = pair_of(tree) else {
        return Err(Fault::QueryText);
    };
    let Some(offset) = narrow_number(offset) else {
        return Err(Fault::QueryText);
    };
    Ok(RowIndex {
        name: name_of(alloc, name)?,
        offset,
    })
}

/// A number of 32 bits.
fn narrow_number(tree: &Value) -> Option<u32>
    ensures { result ≡ narrow_number (view tree.now) }
{
    let n = tree.as_u64()?;
    if n <= u64::from(u32::MAX) {
        Some(n as u32)
    } else {
        None
    }
}

/// The name at a key; none where the key is absent.
pub fn name_at(alloc: Global, tree: &Value, key: &str) -> Result<Option<Name>, Fault>
    ensures ok { IfOk result (λ value. at_key key.now (some_of as_str) (Some None) (view tree.now) ≡ Some value) }
    ensures refused { IfErr result (Refused (at_key key.now (some_of as_str) (Some None) (view tree.now))) }
{
    match tree.get(key) {
        Some(found) => Ok(Some(name_of(alloc, found)?)),
        None => Ok(None),
    }
}
