//! Queries made by hand: at the edges of their numbers and past them.
use morsel_frame::Schema;
use morsel_grammar::CsvOptions;
use morsel_group::GroupSpec;
use morsel_join::{JoinArgs, JoinType, MaintainOrderJoin};
use morsel_meaning::{ColType, Fault, Field, Name, Why};
use morsel_query::{JoinHow, JoinSpec, Query};
use morsel_scan::{FileScanOptions, ScanFormat, ScanSpec};
use morsel_sink::{SinkFormat, SinkSpec};
use std::alloc::Global;
use std::test::Fail;

/// So many names of one file.
fn names(alloc: Global, count: usize) -> Result<Vec<Name>, Fault> {
    let mut names = Vec::new(alloc);
    for _ in 0..count {
        names.push(Name::new(alloc, "a.csv")?)?;
    }
    Ok(names)
}

/// A column of numbers, named by its place.
fn field(alloc: Global, at: usize) -> Result<Field, Fault> {
    let text = format!(in alloc; "c{at}")?;
    Ok(Field {
        name: Name::new(alloc, text.as_str())?,
        kind: ColType::Int,
    })
}

fn fields(alloc: Global, count: usize) -> Result<Vec<Field>, Fault> {
    let mut fields = Vec::new(alloc);
    for at in 0..count {
        fields.push(field(alloc, at)?)?;
    }
    Ok(fields)
}

/// CSV files of so many columns.
fn format(alloc: Global, columns: usize) -> Result<ScanFormat, Fault> {
    let schema = Schema::new(alloc, fields(alloc, columns)?)?;
    Ok(ScanFormat::Csv {
        schema,
        options: CsvOptions::standard(alloc)?,
    })
}

/// A scan of so many files of so many columns.
fn scan(alloc: Global, sources: usize, columns: usize) -> Result<ScanSpec, Fault> {
    let format = format(alloc, columns)?;
    Ok(ScanSpec {
        sources: names(alloc, sources)?,
        format,
        file_options: FileScanOptions {
            slice: None,
            columns: Vec::new(alloc),
            row_index: None,
            path: None,
            allow_missing_columns: false,
        },
        filter: None,
    })
}

/// The flaw for which a query of so many files and columns into a sink is refused, if it is.
fn flaw_of(
    alloc: Global,
    sources: usize,
    columns: usize,
    sink: &str,
) -> Result<Option<Why>, Fault> {
    let left = scan(alloc, sources, columns)?;
    let sink = SinkSpec {
        name: Name::new(alloc, sink)?,
        format: SinkFormat::NdJson,
    };
    why_of(Query::new(left, None, None, sink))
}

/// The flaw for which a query is refused, if it is.
fn why_of(made: Result<Query, Fault>) -> Result<Option<Why>, Fault> {
    match made {
        Ok(_) => Ok(None),
        Err(Fault::InvalidQuery { why }) => Ok(Some(why)),
        Err(fault) => Err(fault),
    }
}

/// These names.
fn names_of(alloc: Global, texts: &[&str]) -> Result<Vec<Name>, Fault> {
    let mut names = Vec::new(alloc);
    for text in texts {
        names.push(Name::new(alloc, text)?)?;
    }
    Ok(names)
}

/// A join with one file of so many columns on these keys.
fn join(alloc: Global, columns: usize, left: &[&str], right: &[&str]) -> Result<JoinSpec, Fault> {
    Ok(JoinSpec {
        right: scan(alloc, 1, columns)?,
        left_keys: names_of(alloc, left)?,
        right_keys: names_of(alloc, right)?,
        args: JoinArgs {
            how: JoinType::Inner,
            maintain_order: MaintainOrderJoin::None,
            join_nulls: false,
            coalesce: true,
            suffix: Name::new(alloc, "_right")?,
        },
        how: JoinHow::Memory,
    })
}

/// The flaw for which a query with a join on these keys is refused, if it is.
fn flaw_of_join(
    alloc: Global,
    columns: usize,
    left: &[&str],
    right: &[&str],
) -> Result<Option<Why>, Fault> {
    let join = join(alloc, columns, left, right)?;
    let sink = SinkSpec {
        name: Name::new(alloc, "o")?,
        format: SinkFormat::NdJson,
    };
    why_of(Query::new(scan(alloc, 1, 2)?, Some(join), None, sink))
}

/// The flaw for which a query with a group-by of these keys is refused, if it is.
fn flaw_of_group(alloc: Global, keys: &[&str]) -> Result<Option<Why>, Fault> {
    let keys = names_of(alloc, keys)?;
    let aggs = Vec::new(alloc);
    let sink = SinkSpec {
        name: Name::new(alloc, "o")?,
        format: SinkFormat::NdJson,
    };
    why_of(Query::new(
        scan(alloc, 1, 2)?,
        None,
        Some(GroupSpec { keys, aggs }),
        sink,
    ))
}

#[test]
fn a_query_has_one_source_up_to_65536(rt: HostRuntime) -> Result<(), Fail> {
    let alloc = rt.alloc();
    assert_eq!(rt; flaw_of(alloc, 0, 1, "o")?, Some(Why::NoSource));
    assert_eq!(rt; flaw_of(alloc, 1, 1, "o")?, None);
    assert_eq!(rt; flaw_of(alloc, 65_536, 1, "o")?, None);
    assert_eq!(rt; flaw_of(alloc, 65_537, 1, "o")?, Some(Why::ManySources));
    Ok(())
}

#[test]
fn a_schema_has_one_column_up_to_65535(rt: HostRuntime) -> Result<(), Fail> {
    let alloc = rt.alloc();
    assert_eq!(rt; flaw_of(alloc, 1, 0, "o")?, Some(Why::NoColumn));
    assert_eq!(rt; flaw_of(alloc, 1, 65_535, "o")?, None);
    assert_eq!(rt; flaw_of(alloc, 1, 65_536, "o")?, Some(Why::NoColumn));
    Ok(())
}

#[test]
fn a_sink_is_no_source(rt: HostRuntime) -> Result<(), Fail> {
    assert_eq!(rt;
        flaw_of(rt.alloc(), 2, 1, "a.csv")?,
        Some(Why::SinkIsSource)
    );
    Ok(())
}

#[test]
fn a_join_has_as_many_left_keys_as_right_ones_each_once(rt: HostRuntime) -> Result<(), Fail> {
    let alloc = rt.alloc();
    assert_eq!(rt; flaw_of_join(alloc, 2, &["c0"], &["c1"])?, None);
    assert_eq!(rt; flaw_of_join(alloc, 2, &["c0", "c1"], &["c1", "c0"])?, None);
    assert_eq!(rt; flaw_of_join(alloc, 2, &[], &[])?, Some(Why::NoKeys));
    assert_eq!(rt;
        flaw_of_join(alloc, 2, &["c0"], &[])?,
        Some(Why::UnequalKeys)
    );
    assert_eq!(rt;
        flaw_of_join(alloc, 2, &["c0", "c0"], &["c0", "c1"])?,
        Some(Why::RepeatedKey)
    );
    assert_eq!(rt;
        flaw_of_join(alloc, 2, &["c0", "c1"], &["c1", "c1"])?,
        Some(Why::RepeatedKey)
    );
    assert_eq!(rt;
        flaw_of_join(alloc, 0, &["c0"], &["c0"])?,
        Some(Why::NoColumn)
    );
    Ok(())
}

#[test]
fn a_group_has_one_key_at_least_each_once(rt: HostRuntime) -> Result<(), Fail> {
    let alloc = rt.alloc();
    assert_eq!(rt; flaw_of_group(alloc, &["c0"])?, None);
    assert_eq!(rt; flaw_of_group(alloc, &["c1", "c0"])?, None);
    assert_eq!(rt; flaw_of_group(alloc, &[])?, Some(Why::NoKeys));
    assert_eq!(rt;
        flaw_of_group(alloc, &["c0", "c1", "c0"])?,
        Some(Why::RepeatedKey)
    );
    Ok(())
}
