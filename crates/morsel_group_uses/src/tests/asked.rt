//! What is asked of group-bys, with the columns of their rows, or the fault that refuses them.
ghost use Rattle.std.specs.Prelude.{◌≡◌, IfOk, [], ◌∷◌};

use morsel_frame::Schema;
use morsel_group::{Agg, GroupSpec, group_schema};
use morsel_keys::Reduction;
use morsel_meaning::{ColType, Fault, Field, Name};
use std::alloc::Global;
use std::test::Fail;

/// The columns that tests group: a number, a text, a truth value.
pub fn columns(alloc: Global) -> Result<Schema, Fault> {
    let mut fields = Vec::new(alloc);
    fields.push(field(alloc, "n", ColType::Int)?)?;
    fields.push(field(alloc, "t", ColType::Text)?)?;
    fields.push(field(alloc, "b", ColType::Bool)?)?;
    Schema::new(alloc, fields)
}

/// A column of this name and type.
pub fn field(alloc: Global, name: &str, kind: ColType) -> Result<Field, Fault> {
    let name = Name::new(alloc, name)?;
    Ok(Field { name, kind })
}

/// The names.
pub fn names(alloc: Global, texts: &[&str]) -> Result<Vec<Name>, Fault> {
    let mut names = Vec::new(alloc);
    for text in texts {
        names.push(Name::new(alloc, *text)?)?;
    }
    Ok(names)
}

/// What a group-by of these keys with one reduction of a column answers.
fn asked(
    alloc: Global,
    keys: &[&str],
    op: Reduction,
    column: &str,
    output: &str,
) -> Result<Schema, Fault> {
    let spec = GroupSpec {
        keys: names(alloc, keys)?,
        aggs: Vec::new(alloc),
    };
    let columns = columns(alloc)?;
    with_agg(alloc, &columns, spec, op, column, output)
}

/// The same, with the reduction put last; a count of rows reads no column.
fn with_agg(
    alloc: Global,
    columns: &Schema,
    spec: GroupSpec,
    op: Reduction,
    column: &str,
    output: &str,
) -> Result<Schema, Fault>
    requires { spec.aggs ≡ [] }
{
    let output = Name::new(alloc, output)?;
    let name = Name::new(alloc, column)?;
    let mut spec = spec;
    let agg = match op {
        Reduction::Len => Agg {
            op: Reduction::Len,
            column: None,
            output,
        },
        Reduction::Sum => Agg {
            op: Reduction::Sum,
            column: Some(name),
            output,
        },
        _ => Agg {
            op: Reduction::First,
            column: Some(name),
            output,
        },
    };
    spec.aggs.push(agg)?;
    group_schema(alloc, columns, &spec)
}

/// Whether the answer is this fault.
fn is_fault(answer: &Result<Schema, Fault>, fault: &Fault) -> bool {
    match answer {
        Ok(_) => false,
        Err(other) => other == fault,
    }
}

#[test]
fn keys_come_first_and_then_reductions(rt: HostRuntime) -> Result<(), Fail> {
    let alloc = rt.alloc();
    let schema = asked(alloc, &["t", "n"], Reduction::First, "b", "f")?;
    assert_eq!(rt; schema.len(), 3);
    assert_eq!(rt; schema.find("t"), Some(0));
    assert_eq!(rt; schema.find("n"), Some(1));
    assert_eq!(rt; schema.find("f"), Some(2));
    Ok(())
}

#[test]
fn faults_come_in_their_order(rt: HostRuntime) -> Result<(), Fail> {
    let alloc = rt.alloc();
    let duplicate = Fault::Duplicate {
        name: Name::new(alloc, "t")?,
    };
    let absent = Fault::ColumnNotFound {
        name: Name::new(alloc, "x")?,
    };
    let mismatch = Fault::SchemaMismatch {
        name: Name::new(alloc, "t")?,
    };
    assert!(rt;
        is_fault(
            &asked(alloc, &["t", "x"], Reduction::Sum, "t", "t"),
            &duplicate
        )
    );
    assert!(rt;
        is_fault(
            &asked(alloc, &["t", "t"], Reduction::Len, "", "n"),
            &duplicate
        )
    );
    assert!(rt;
        is_fault(
            &asked(alloc, &["x", "t"], Reduction::Sum, "t", "s"),
            &absent
        )
    );
    assert!(rt; is_fault(&asked(alloc, &["n"], Reduction::Sum, "x", "s"), &absent));
    assert!(rt; is_fault(&asked(alloc, &["n"], Reduction::Sum, "t", "s"), &mismatch));
    assert!(rt; asked(alloc, &["t"], Reduction::Sum, "n", "s").is_ok());
    assert!(rt; asked(alloc, &[], Reduction::Len, "", "n").is_ok());
    Ok(())
}
