//! Each public call with ample memory, with values worked out by hand.
//!
//! A helper says `expect` where memory may be out, and gives what it makes to `drop`: a value that is let go at several
//! exits has each of them proved.
mod csv;
mod escapes;
mod ndjson;

use morsel_frame::Schema;
use morsel_meaning::{ColType, Field, Name};
use std::alloc::Global;
use std::process::Abort;

fn field(rt: &impl Abort, alloc: Global, name: &str, kind: ColType) -> Field {
    let name = Name::new(alloc, name).expect(rt, "memory");
    Field { name, kind }
}

/// The schema of these columns.
fn schema_of(rt: &impl Abort, alloc: Global, columns: &[(&str, ColType)]) -> Schema {
    let mut fields = Vec::new(alloc);
    for (name, kind) in columns {
        fields
            .push(field(rt, alloc, name, *kind))
            .expect(rt, "memory");
    }
    Schema::new(alloc, fields).expect(rt, "distinct names")
}
