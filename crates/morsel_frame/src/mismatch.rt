//! Why the rows under one schema are no rows under another.
ghost use Rattle.std.specs.Prelude.{◌≡◌, IfOk, IsOkUnless, length};
ghost use Rattle.morsel_frame.specs.Tables.{same_field, first_difference, difference};

use morsel_meaning::{Fault, Field, Name};
use std::alloc::Global;

/// The name of the first field that differs from the other's at its place, and no name where the widths differ.
pub fn mismatch(alloc: Global, fields: &[Field], others: &[Field]) -> Result<Option<Name>, Fault>
    ensures value { IfOk result (λ name. name ≡ difference fields.now others.now) }
    ensures out_of_memory { IsOkUnless result Fault.OutOfMemory }
{
    if fields.len() != others.len() {
        return Ok(Some(Name::new(alloc, "")?));
    }
    first_mismatch(alloc, fields, others)
}

/// The name of the first field that differs from the other's at its place.
fn first_mismatch(alloc: Global, fields: &[Field], others: &[Field]) -> Result<Option<Name>, Fault>
    requires { length fields.now ≡ length others.now }
    ensures value { IfOk result (λ name. name ≡ first_difference fields.now others.now) }
    ensures out_of_memory { IsOkUnless result Fault.OutOfMemory }
{
    for at in 0..fields.len() {
        let field = &fields[at];
        if !is_same_field(field, &others[at]) {
            return Ok(Some(Name::new(alloc, field.name.as_str())?));
        }
    }
    Ok(None)
}

/// Whether two fields have one name and one type.
fn is_same_field(field: &Field, other: &Field) -> bool
    ensures { result ≡ same_field field.now other.now }
{
    field.name == other.name && field.kind == other.kind
}
