//! Schemas: the names and types of a frame's columns, in order.
ghost use Rattle.std.specs.Prelude.{◌≡◌, ◌<◌, ◌↔◌, [], ◌∷◌, length, map, Some, get_or, slice_get, IfOk, IsOkUnless};
ghost use Rattle.std.specs.List.{position};
ghost use Rattle.std.specs.Str.{bytes_eq};
ghost use Rattle.morsel_meaning.specs.Values.{names_of};
ghost use Rattle.morsel_frame.specs.Names.{AreDistinct, first_repeated};
ghost use Rattle.morsel_frame.specs.Refusals.{Refuses, repeat_fault};

use morsel_meaning::{Fault, Field, Name};
use std::alloc::Global;
use std::collections::BTreeSet;
use std::marker::Model;

/// Fields with distinct names.
#[derive(Clone, Debug, Drop)]
pub struct Schema {
    fields: Vec<Field>,
}

impl Model for Schema {
    ghost use Rattle.std.specs.Prelude.{List};
    ghost use Rattle.morsel_meaning.specs.declared.value.Field.{Field};
    ghost use Rattle.morsel_meaning.specs.Values.{names_of};
    ghost use Rattle.morsel_frame.specs.Names.{AreDistinct};

    ghost Value = { List Field };

    ghost view = { λ schema. schema.fields.items };

    ghost invariant = { λ schema. AreDistinct (names_of schema.fields.items) };
}

impl Schema {
    /// Holds the fields. The first name that an earlier field has is a duplicate.
    pub fn new(alloc: Global, fields: Vec<Field>) -> Result<Schema, Fault>
        ensures ok { IfOk result (λ schema. schema ≡ fields.items) }
        ensures refused { Refuses (repeat_fault fields.items) result }
    {
        match repeated(alloc, fields.as_slice())? {
            Some(name) => Err(Fault::Duplicate { name }),
            None => Ok(Schema { fields }),
        }
    }

    /// Holds fields whose names are known to be distinct.
    pub fn of_distinct(fields: Vec<Field>) -> Schema
        requires { AreDistinct (names_of fields.items) }
        ensures { result ≡ fields.items }
    {
        Schema { fields }
    }

    /// How many fields there are.
    pub fn len(&self) -> usize
        ensures len { result ≡ length self.now }
        ensures distinct { AreDistinct (names_of self.now) }
    {
        self.fields.len()
    }

    /// The field at this place.
    pub fn field(&self, at: usize) -> &Field
        requires { at < length self.now }
        ensures { slice_get self.now at ≡ Some result.now }
    {
        &self.fields[at]
    }

    /// The fields, lent.
    pub fn fields(&self) -> &[Field]
        ensures { result.now ≡ self.now }
    {
        self.fields.as_slice()
    }

    /// The place of the field with this name.
    pub fn find(&self, name: &str) -> Option<usize>
        ensures { result ≡ position (λ field. bytes_eq field.name name.now) self.now }
    {
        self.fields
            .iter()
            .position(|field| field.name.as_str() == name)
    }

    /// Another schema of the same fields.
    pub fn again(&self) -> Result<Schema, Fault>
        ensures same { IfOk result (λ schema. schema ≡ self.now) }
        ensures out_of_memory { IsOkUnless result Fault.OutOfMemory }
    {
        Ok(self.clone()?)
    }

    /// The fields.
    pub fn into_fields(self) -> Vec<Field>
        ensures { result.items ≡ self }
    {
        self.fields
    }
}

/// The first name that occurs before it.
fn repeated(alloc: Global, fields: &[Field]) -> Result<Option<Name>, Fault>
    ensures value { IfOk result (λ name. name ≡ first_repeated (names_of fields.now)) }
    ensures out_of_memory { IsOkUnless result Fault.OutOfMemory }
{
    let mut seen = BTreeSet::new(alloc);
    for field in fields {
        if !seen.insert(field.name.as_str())? {
            return Ok(Some(Name::new(alloc, field.name.as_str())?));
        }
    }
    Ok(None)
}
