//! The columns of keys: their places and their types.
ghost use Rattle.std.specs.Prelude.{◌≡◌, ◌<◌, length, IfOk, IsOkUnless};
ghost use Rattle.std.specs.List.{All};
ghost use Rattle.morsel_meaning.specs.Values.{kinds_of};
ghost use Rattle.morsel_frame.specs.Refusals.{Refuses, first_fault};
ghost use Rattle.morsel_frame.specs.Tables.{fields_at, same_kind};
ghost use Rattle.morsel_join.specs.Payloads.{key_places, join_key_absence, key_kinds, type_fault, FitKeys};

use morsel_frame::Schema;
use morsel_meaning::{ColType, Fault, Name};
use std::alloc::Global;

/// The columns of the keys of both sides.
#[derive(Debug, Drop)]
pub struct KeyColumns {
    /// The places of the left keys.
    pub left: Vec<usize>,
    /// The places of the right keys.
    pub right: Vec<usize>,
    /// The type of each pair of keys.
    pub kinds: Vec<ColType>,
}

/// The columns of the keys of both sides; `ColumnNotFound` for the first that is no column, the left ones first, and then `SchemaMismatch` for
/// the first pair whose types differ, which names the left one.
pub fn key_columns(
    alloc: Global,
    left: &Schema,
    right: &Schema,
    left_keys: &[Name],
    right_keys: &[Name],
) -> Result<KeyColumns, Fault>
    requires { length left_keys.now ≡ length right_keys.now }
    ensures left { IfOk result (λ keys. keys.left.items ≡ key_places left.now left_keys.now) }
    ensures right { IfOk result (λ keys. keys.right.items ≡ key_places right.now right_keys.now) }
    ensures fit { IfOk result (λ keys. FitKeys left.now right.now keys.left.items keys.right.items keys.kinds.items) }
    ensures len { IfOk result (λ keys. length keys.kinds.items ≡ length left_keys.now) }
    ensures refused { Refuses (first_fault (join_key_absence left.now left_keys.now) (first_fault (join_key_absence right.now right_keys.now) (type_fault left_keys.now (key_kinds left.now left_keys.now) (key_kinds right.now right_keys.now)))) result }
{
    let lefts = key_places(alloc, left, left_keys)?;
    let rights = key_places(alloc, right, right_keys)?;
    let kinds = kinds_at(alloc, left, &lefts)?;
    let others = kinds_at(alloc, right, &rights)?;
    check_types(alloc, left_keys, &kinds, &others)?;
    Ok(KeyColumns {
        left: lefts,
        right: rights,
        kinds,
    })
}

/// The places of keys; `ColumnNotFound` for the first that is no column.
pub fn key_places(alloc: Global, schema: &Schema, keys: &[Name]) -> Result<Vec<usize>, Fault>
    ensures ok { IfOk result (λ places. places.items ≡ key_places schema.now keys.now) }
    ensures within { IfOk result (λ places. All (λ at. at < length schema.now) places.items) }
    ensures len { IfOk result (λ places. length places.items ≡ length keys.now) }
    ensures refused { Refuses (join_key_absence schema.now keys.now) result }
{
    let mut places = Vec::with_capacity(alloc, keys.len())?;
    for key in keys {
        match schema.find(key.as_str()) {
            None => {
                let name = Name::new(alloc, key.as_str())?;
                return Err(Fault::ColumnNotFound { name });
            }
            Some(at) => places.push(at)?,
        }
    }
    Ok(places)
}

/// The types of the columns at these places.
pub fn kinds_at(alloc: Global, schema: &Schema, places: &[usize]) -> Result<Vec<ColType>, Fault>
    requires { All (λ at. at < length schema.now) places.now }
    ensures ok { IfOk result (λ kinds. kinds.items ≡ kinds_of (fields_at schema.now places.now)) }
    ensures len { IfOk result (λ kinds. length kinds.items ≡ length places.now) }
    ensures out_of_memory { IsOkUnless result Fault.OutOfMemory }
{
    let mut kinds = Vec::with_capacity(alloc, places.len())?;
    for at in places {
        kinds.push(schema.fields()[*at].kind)?;
    }
    Ok(kinds)
}

/// Refuses the first pair of keys whose types differ.
pub fn check_types(
    alloc: Global,
    keys: &[Name],
    kinds: &[ColType],
    others: &[ColType],
) -> Result<(), Fault>
    requires kinds { length kinds.now ≡ length keys.now }
    requires others { length others.now ≡ length keys.now }
    ensures { Refuses (type_fault keys.now kinds.now others.now) result }
{
    for at in 0..keys.len() {
        if !is_same_kind(kinds[at], others[at]) {
            let name = Name::new(alloc, keys[at].as_str())?;
            return Err(Fault::SchemaMismatch { name });
        }
    }
    Ok(())
}

/// Whether two types are the same.
fn is_same_kind(kind: ColType, other: ColType) -> bool
    ensures { result ≡ same_kind kind other }
{
    kind == other
}
