//! What a join is asked to give: its kind, its order, its nulls, and the names of its columns.
ghost use Rattle.std.specs.Prelude.{◌≡◌, ◌++◌, [], ◌∷◌, ℕ, List, map, length, IfOk, OnOk, IsOkUnless};
ghost use Rattle.std.specs.List.{list_any};
ghost use Rattle.std.specs.Str.{bytes_eq};
ghost use Rattle.morsel_meaning.specs.Values.{names_of};
ghost use Rattle.morsel_frame.specs.Names.{stands_in};
ghost use Rattle.morsel_frame.specs.Refusals.{Refuses, fault_of_repeat};
ghost use Rattle.morsel_join.specs.Payloads.{keeps_right_keys, merges_keys, left_name, right_name, suffixed, left_names, right_names, is_clash, first_clash, named_fields};

use crate::{JoinType, MaintainOrderJoin};
use morsel_meaning::{Fault, Field, Name};
use std::alloc::Global;

/// What is asked of a join.
#[derive(Debug, Drop)]
pub struct JoinArgs {
    /// Which rows it has beside the pairs.
    pub how: JoinType,
    /// The order of its rows.
    pub maintain_order: MaintainOrderJoin,
    /// Whether a null key is equal to a null.
    pub join_nulls: bool,
    /// Whether the two columns of a pair of keys become one.
    pub coalesce: bool,
    /// What is put behind the name of a right column that a left column has too.
    pub suffix: Name,
}

/// The columns of a join's rows: the left ones, and then the right ones.
#[derive(Debug, Drop)]
pub struct Payload {
    /// The name of each left column, and none where it is left out.
    pub left: Vec<Option<Name>>,
    /// The name of each right column, and none where it is left out.
    pub right: Vec<Option<Name>>,
    /// The places of each pair of keys, a left and a right column, of which the left column's name has the first value that is no null.
    pub merged: Vec<(u32, u32)>,
}

/// Whether the keys of coalesced rows are those of the right side.
fn keeps_right_keys(how: JoinType) -> bool
    ensures { result ≡ keeps_right_keys how }
{
    match how {
        JoinType::Right => true,
        JoinType::Inner | JoinType::Left | JoinType::Full => false,
    }
}

/// Whether the keys of coalesced rows are of either side.
pub fn merges_keys(how: JoinType) -> bool
    ensures { result ≡ merges_keys how }
{
    match how {
        JoinType::Full => true,
        JoinType::Inner | JoinType::Left | JoinType::Right => false,
    }
}

/// Whether the name is one of these.
fn is_among(name: &Name, names: &[Name]) -> bool
    ensures { result ≡ stands_in name.now names.now }
{
    names.iter().any(|other| other.as_str() == name.as_str())
}

/// Whether a column has the name.
fn is_column(name: &Name, fields: &[Field]) -> bool
    ensures { result ≡ stands_in name.now (names_of fields.now) }
{
    has_name(name, fields)
}

/// Whether one of the columns has the name.
fn has_name(name: &Name, fields: &[Field]) -> bool
    ensures { result ≡ list_any (λ field. bytes_eq field.name name.now) fields.now }
{
    fields
        .iter()
        .any(|field| field.name.as_str() == name.as_str())
}

/// Whether a right column of this name is told by the name of a left column.
fn is_clash(args: &JoinArgs, keys: &[Name], lefts: &[Field], name: &Name, told: &Name) -> bool
    requires { told.now ≡ suffixed args.now.suffix (names_of lefts.now) name.now }
    ensures { result ≡ is_clash args.now keys.now (names_of lefts.now) name.now }
{
    !(args.coalesce && is_among(name, keys)) && is_column(told, lefts)
}

/// The name of a left column.
fn left_name(
    alloc: Global,
    args: &JoinArgs,
    keys: &[Name],
    name: &Name,
) -> Result<Option<Name>, Fault>
    ensures ok { IfOk result (λ told. told ≡ left_name args.now keys.now name.now) }
    ensures out_of_memory { IsOkUnless result Fault.OutOfMemory }
{
    if args.coalesce && (keeps_right_keys(args.how) && is_among(name, keys)) {
        return Ok(None);
    }
    Ok(Some(Name::new(alloc, name.as_str())?))
}

/// A right column's name, with the suffix where a left column has it too.
fn suffixed(alloc: Global, suffix: &Name, lefts: &[Field], name: &Name) -> Result<Name, Fault>
    ensures ok { IfOk result (λ told. told ≡ suffixed suffix.now (names_of lefts.now) name.now) }
    ensures out_of_memory { IsOkUnless result Fault.OutOfMemory }
{
    if !is_column(name, lefts) {
        return Name::new(alloc, name.as_str());
    }
    let mut text = String::from_str(alloc, name.as_str())?;
    text.push_str(suffix.as_str())?;
    Name::new(alloc, text.as_str())
}

/// The name of a right column.
fn right_name(
    alloc: Global,
    args: &JoinArgs,
    keys: &[Name],
    lefts: &[Field],
    name: &Name,
) -> Result<Option<Name>, Fault>
    ensures ok { IfOk result (λ told. told ≡ right_name args.now keys.now (names_of lefts.now) name.now) }
    ensures out_of_memory { IsOkUnless result Fault.OutOfMemory }
{
    if args.coalesce && is_among(name, keys) {
        if keeps_right_keys(args.how) {
            return Ok(Some(Name::new(alloc, name.as_str())?));
        }
        return Ok(None);
    }
    Ok(Some(suffixed(alloc, &args.suffix, lefts, name)?))
}

/// The names of the left columns.
pub fn left_names(
    alloc: Global,
    args: &JoinArgs,
    keys: &[Name],
    fields: &[Field],
) -> Result<Vec<Option<Name>>, Fault>
    ensures ok { IfOk result (λ names. names.items ≡ left_names args.now keys.now fields.now) }
    ensures out_of_memory { IsOkUnless result Fault.OutOfMemory }
{
    let mut names = Vec::with_capacity(alloc, fields.len())?;
    for field in fields {
        names.push(left_name(alloc, args, keys, &field.name)?)?;
    }
    Ok(names)
}

/// The names of the right columns.
pub fn right_names(
    alloc: Global,
    args: &JoinArgs,
    keys: &[Name],
    lefts: &[Field],
    fields: &[Field],
) -> Result<Vec<Option<Name>>, Fault>
    ensures ok { IfOk result (λ names. names.items ≡ right_names args.now keys.now (names_of lefts.now) fields.now) }
    ensures out_of_memory { IsOkUnless result Fault.OutOfMemory }
{
    let mut names = Vec::with_capacity(alloc, fields.len())?;
    for field in fields {
        names.push(right_name(alloc, args, keys, lefts, &field.name)?)?;
    }
    Ok(names)
}

/// Refuses the first right column whose name is the name of a left column even with its suffix.
pub fn check_suffixes(
    alloc: Global,
    args: &JoinArgs,
    keys: &[Name],
    lefts: &[Field],
    fields: &[Field],
) -> Result<(), Fault>
    ensures { Refuses (fault_of_repeat (first_clash args.now keys.now (names_of lefts.now) fields.now)) result }
{
    for field in fields {
        let name = suffixed(alloc, &args.suffix, lefts, &field.name)?;
        if is_clash(args, keys, lefts, &field.name, &name) {
            return Err(Fault::Duplicate { name });
        }
    }
    Ok(())
}

/// Puts those columns last that have names, under these.
pub fn put_fields(
    alloc: Global,
    put: &mut Vec<Field>,
    names: &[Option<Name>],
    fields: &[Field],
) -> Result<(), Fault>
    requires { length names.now ≡ length fields.now }
    ensures ok { OnOk result (put.new.items ≡ put.old.items ++ named_fields names.now fields.now) }
    ensures out_of_memory { IsOkUnless result Fault.OutOfMemory }
{
    for at in 0..fields.len() {
        put_field(alloc, put, &names[at], &fields[at])?;
    }
    Ok(())
}

/// Puts a column last under this name, where it has one.
fn put_field(
    alloc: Global,
    put: &mut Vec<Field>,
    name: &Option<Name>,
    field: &Field,
) -> Result<(), Fault>
    ensures ok { OnOk result (put.new.items ≡ put.old.items ++ named_fields (name.now ∷ []) (field.now ∷ [])) }
    ensures out_of_memory { IsOkUnless result Fault.OutOfMemory }
{
    match name {
        Some(name) => {
            let name = Name::new(alloc, name.as_str())?;
            put.push(Field {
                name,
                kind: field.kind,
            })?;
            Ok(())
        }
        None => Ok(()),
    }
}
