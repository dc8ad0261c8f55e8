//! Columns and fields at distinct places, of which the columns are moved.
ghost use Rattle.std.specs.Prelude.{◌≡◌, ◌<◌, length, IfOk, IsOkUnless};
ghost use Rattle.std.specs.List.{All};
ghost use Rattle.morsel_meaning.specs.Values.{names_of};
ghost use Rattle.morsel_frame.specs.Names.{AreDistinct, AreDistinctPlaces};
ghost use Rattle.morsel_frame.specs.Selects.{columns_at};
ghost use Rattle.morsel_frame.specs.Tables.{fields_at};

use crate::{Column, Schema};
use morsel_meaning::{ColType, Fault, Field, Name};
use std::alloc::Global;
use std::mem::replace;

/// The columns at these places, moved out of the others.
pub fn take_columns(
    alloc: Global,
    columns: Vec<Column>,
    places: &[usize],
) -> Result<Vec<Column>, Fault>
    requires within { All (λ at. at < length columns.items) places.now }
    requires once { AreDistinctPlaces places.now }
    ensures ok { IfOk result (λ picked. picked.items ≡ columns_at columns.items places.now) }
    ensures out_of_memory { IsOkUnless result Fault.OutOfMemory }
{
    let mut left = columns;
    let mut picked = Vec::with_capacity(alloc, places.len())?;
    for at in places {
        let place = &mut left[*at];
        picked.push(replace(place, Column::new(alloc, ColType::Int)))?;
    }
    Ok(picked)
}

/// The schema of the fields at these places.
pub fn select_schema(alloc: Global, schema: &Schema, places: &[usize]) -> Result<Schema, Fault>
    requires within { All (λ at. at < length schema.now) places.now }
    requires once { AreDistinctPlaces places.now }
    ensures ok { IfOk result (λ selected. selected ≡ fields_at schema.now places.now) }
    ensures out_of_memory { IsOkUnless result Fault.OutOfMemory }
{
    let _width = schema.len();
    let fields = pick_fields(alloc, schema.fields(), places)?;
    Ok(Schema::of_distinct(fields))
}

/// The fields at these places.
fn pick_fields(alloc: Global, fields: &[Field], places: &[usize]) -> Result<Vec<Field>, Fault>
    requires { All (λ at. at < length fields.now) places.now }
    ensures ok { IfOk result (λ picked. picked.items ≡ fields_at fields.now places.now) }
    ensures out_of_memory { IsOkUnless result Fault.OutOfMemory }
{
    let mut picked = Vec::with_capacity(alloc, places.len())?;
    for at in places {
        let field = &fields[*at];
        picked.push(Field {
            name: Name::new(alloc, field.name.as_str())?,
            kind: field.kind,
        })?;
    }
    Ok(picked)
}
