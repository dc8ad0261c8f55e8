//! Schemas of two names.
use morsel_frame::Schema;
use morsel_meaning::{ColType, Fault, Field, Name};
use std::alloc::Global;
use std::mem::drop;
use std::process::Abort;

fn field(rt: &impl Abort, alloc: Global, name: &str, kind: ColType) -> Field {
    let name = Name::new(alloc, name).expect(rt, "memory");
    Field { name, kind }
}

/// The schema of numbers and of truth values under these names, or why there is none.
fn schema_of(rt: &impl Abort, alloc: Global, first: &str, second: &str) -> Result<Schema, Fault> {
    let first = field(rt, alloc, first, ColType::Int);
    let second = field(rt, alloc, second, ColType::Bool);
    let fields = vec![in alloc; first, second].expect(rt, "memory");
    Schema::new(alloc, fields)
}

#[test]
fn a_repeated_name_is_a_duplicate(rt: HostRuntime) {
    let fault = schema_of(&rt, rt.alloc(), "a", "a").expect_err(&rt, "a repeat");
    assert_eq!(rt; fault.number(), 9);
    drop(fault);
}

/// Whether the field at this place has this name and type.
fn is_field(schema: &Schema, at: usize, name: &str, kind: ColType) -> bool {
    if at >= schema.len() {
        return false;
    }
    let field = schema.field(at);
    field.name.as_str() == name && field.kind == kind
}

/// Whether the fields are the numbers `n` and the truth values `b`, and no more.
fn are_both(schema: &Schema) -> bool {
    schema.len() == 2
        && is_field(schema, 0, "n", ColType::Int)
        && is_field(schema, 1, "b", ColType::Bool)
}

#[test]
fn a_schema_again_has_the_same_fields(rt: HostRuntime) {
    let schema = schema_of(&rt, rt.alloc(), "n", "b").expect(&rt, "two names");
    let again = schema.again().expect(&rt, "memory");
    assert!(rt; are_both(&again));
    drop(again);
    assert!(rt; are_both(&schema));
    drop(schema);
}
