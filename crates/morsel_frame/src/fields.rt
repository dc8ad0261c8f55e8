//! Schemas made of other schemas.
ghost use Rattle.std.specs.Prelude.{◌≡◌, ◌++◌, ◌∷◌, [], IfOk, IsOkUnless};
ghost use Rattle.morsel_frame.specs.Refusals.{Refuses, repeat_fault};

use crate::Schema;
use crate::packed::append_vec;
use morsel_meaning::{ColType, Fault, Field, Name};
use std::alloc::Global;

/// The fields of both.
pub fn joined(alloc: Global, schema: Schema, other: Schema) -> Result<Schema, Fault>
    ensures ok { IfOk result (λ made. made ≡ schema ++ other) }
    ensures refused { Refuses (repeat_fault (schema ++ other)) result }
{
    let mut fields = schema.into_fields();
    append_vec(&mut fields, other.into_fields())?;
    Schema::new(alloc, fields)
}

/// The fields, and one last.
pub fn with_last_field(
    alloc: Global,
    schema: Schema,
    name: Name,
    kind: ColType,
) -> Result<Schema, Fault>
    ensures ok { IfOk result (λ made. made ≡ schema ++ record { name = name; kind = kind } ∷ []) }
    ensures refused { Refuses (repeat_fault (schema ++ record { name = name; kind = kind } ∷ [])) result }
{
    let mut fields = schema.into_fields();
    fields.push(Field { name, kind })?;
    Schema::new(alloc, fields)
}

/// The fields after a first one.
pub fn with_first_field(
    alloc: Global,
    name: Name,
    kind: ColType,
    schema: Schema,
) -> Result<Schema, Fault>
    ensures ok { IfOk result (λ made. made ≡ record { name = name; kind = kind } ∷ schema) }
    ensures refused { Refuses (repeat_fault (record { name = name; kind = kind } ∷ schema)) result }
{
    let mut fields = Vec::new(alloc);
    fields.push(Field { name, kind })?;
    append_vec(&mut fields, schema.into_fields())?;
    Schema::new(alloc, fields)
}
