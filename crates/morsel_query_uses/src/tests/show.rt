//! Queries as these tests write them: each part by the call that gives it.
use morsel_expr::{Pred, PredNode, Rhs};
use morsel_grammar::CsvOptions;
use morsel_group::{Agg, GroupSpec};
use morsel_meaning::{Fault, Field, Name, Value};
use morsel_query::{JoinSpec, Options, Query};
use morsel_scan::{FileScanOptions, RowIndex, ScanFormat, ScanSpec};
use morsel_sink::SinkSpec;
use std::alloc::Global;
use std::mem::drop;
use std::process::Abort;

/// Names, with a `|` after each.
fn show_names(text: &mut String, names: &[Name]) -> Result<(), Fault> {
    for name in names {
        write!(text, "{name}|")?;
    }
    Ok(())
}

/// Columns and their types, with a `|` after each.
fn show_fields(text: &mut String, fields: &[Field]) -> Result<(), Fault> {
    for field in fields {
        let name = &field.name;
        let kind = field.kind;
        write!(text, "{name} {kind:?}|")?;
    }
    Ok(())
}

/// A name, or that there is none.
fn show_name(text: &mut String, name: Option<&Name>) -> Result<(), Fault> {
    match name {
        Some(name) => write!(text, "<{name}>")?,
        None => text.push_str("none")?,
    }
    Ok(())
}

/// How CSV texts are written.
fn show_csv(text: &mut String, csv: &CsvOptions) -> Result<(), Fault> {
    let separator = csv.separator();
    let quote = csv.quote();
    let eol = csv.eol();
    write!(
        text,
        "separator {separator} quote {quote:?} eol {eol} comment "
    )?;
    show_name(text, csv.comment())?;
    let header = csv.has_header();
    let null = csv.null_text();
    let ignores = csv.ignores_errors();
    write!(text, " header {header} null <{null}> ignores {ignores}\n")?;
    Ok(())
}

/// A row index, or that there is none.
fn show_index(text: &mut String, index: &Option<RowIndex>) -> Result<(), Fault> {
    match index {
        Some(RowIndex { name, offset }) => write!(text, "<{name}> from {offset}")?,
        None => text.push_str("none")?,
    }
    Ok(())
}

/// What is asked of rows.
fn show_asked(text: &mut String, asked: &FileScanOptions) -> Result<(), Fault> {
    text.push_str("columns(")?;
    show_names(text, &asked.columns)?;
    let slice = asked.slice;
    write!(text, ") slice {slice:?} index ")?;
    show_index(text, &asked.row_index)?;
    text.push_str(" path ")?;
    show_name(text, asked.path.as_ref())?;
    let lacking = asked.allow_missing_columns;
    write!(text, " lacking {lacking}\n")?;
    Ok(())
}

/// A value.
fn show_value(text: &mut String, value: &Value) -> Result<(), Fault> {
    match value {
        Value::Null => text.push_str("null")?,
        Value::Int(number) => write!(text, "{number}")?,
        Value::Bool(flag) => write!(text, "{flag}")?,
        Value::Text(name) => write!(text, "<{name}>")?,
    }
    Ok(())
}

/// The second side of a comparison.
fn show_side(text: &mut String, rhs: &Rhs) -> Result<(), Fault> {
    match rhs {
        Rhs::Col(name) => write!(text, "{name}")?,
        Rhs::Lit(value) => show_value(text, value)?,
    }
    Ok(())
}

/// A predicate: the name of each node before its parts, and a `|` after each test of a column.
fn show_node(text: &mut String, node: &PredNode) -> Result<(), Fault> {
    match node {
        PredNode::And(a, b) => {
            text.push_str("And ")?;
            show_node(text, a)?;
            show_node(text, b)?;
        }
        PredNode::Or(a, b) => {
            text.push_str("Or ")?;
            show_node(text, a)?;
            show_node(text, b)?;
        }
        PredNode::Not(a) => {
            text.push_str("Not ")?;
            show_node(text, a)?;
        }
        PredNode::IsNull(name) => write!(text, "IsNull {name}|")?,
        PredNode::NotNull(name) => write!(text, "NotNull {name}|")?,
        PredNode::Is(name) => write!(text, "Is {name}|")?,
        PredNode::Cmp(op, name, rhs) => {
            write!(text, "{op:?} {name} ")?;
            show_side(text, rhs)?;
            text.push_str("|")?;
        }
    }
    Ok(())
}

/// A filter, or that there is none.
fn show_filter(text: &mut String, filter: &Option<Pred>) -> Result<(), Fault> {
    text.push_str("filter ")?;
    match filter {
        Some(pred) => show_node(text, pred.node())?,
        None => text.push_str("none")?,
    }
    text.push_str("\n")?;
    Ok(())
}

/// A scan.
pub fn show_scan(text: &mut String, scan: &ScanSpec) -> Result<(), Fault> {
    let ScanFormat::Csv { schema, options } = &scan.format;
    text.push_str("files(")?;
    show_names(text, &scan.sources)?;
    text.push_str(") schema(")?;
    show_fields(text, schema.fields())?;
    text.push_str(")\n")?;
    show_csv(text, options)?;
    show_asked(text, &scan.file_options)?;
    show_filter(text, &scan.filter)
}

/// A join, where there is one.
fn show_join(text: &mut String, join: &Option<JoinSpec>) -> Result<(), Fault> {
    let Some(join) = join else {
        return Ok(());
    };
    let kind = join.args.how;
    let order = join.args.maintain_order;
    let nulls = join.args.join_nulls;
    let coalesce = join.args.coalesce;
    let suffix = &join.args.suffix;
    let how = join.how;
    write!(
        text,
        "join {kind:?} {order:?} nulls {nulls} coalesce {coalesce} suffix <{suffix}> {how:?} on "
    )?;
    show_names(text, &join.left_keys)?;
    text.push_str(" and ")?;
    show_names(text, &join.right_keys)?;
    text.push_str("\n")?;
    show_scan(text, &join.right)
}

/// A reduction.
fn show_agg(text: &mut String, agg: &Agg) -> Result<(), Fault> {
    let op = agg.op;
    write!(text, "{op:?} ")?;
    show_name(text, agg.column.as_ref())?;
    let output = &agg.output;
    write!(text, " as {output}|")?;
    Ok(())
}

/// A group-by, where there is one.
fn show_group(text: &mut String, group: &Option<GroupSpec>) -> Result<(), Fault> {
    let Some(group) = group else {
        return Ok(());
    };
    text.push_str("group by ")?;
    show_names(text, &group.keys)?;
    text.push_str(" with ")?;
    for agg in group.aggs.as_slice() {
        show_agg(text, agg)?;
    }
    text.push_str("\n")?;
    Ok(())
}

/// A sink.
pub fn show_sink(text: &mut String, sink: &SinkSpec) -> Result<(), Fault> {
    let SinkSpec { name, format } = sink;
    write!(text, "sink <{name}> {format:?}\n")?;
    Ok(())
}

/// The query is written so.
pub fn is_shown(rt: &impl Abort, alloc: Global, query: &Query, wanted: &str) {
    let mut found = String::new(alloc);
    show_scan(&mut found, query.left()).expect(rt, "memory");
    show_join(&mut found, query.join()).expect(rt, "memory");
    show_group(&mut found, query.group()).expect(rt, "memory");
    show_sink(&mut found, query.sink()).expect(rt, "memory");
    assert_eq!(rt; found.as_str(), wanted);
    drop(found);
}

/// The options are these numbers: workers, rows of a morsel, bytes of a read, places of the two buffers, values of a task and
/// the random state.
pub fn are_options(rt: &impl Abort, options: &Options, numbers: [u32; 6], random_state: u64) {
    let [
        workers,
        morsel_rows,
        chunk_bytes,
        distributor_buffer,
        linearizer_buffer,
        min_values_per_task,
    ] = numbers;
    assert_eq!(rt; options.workers(), workers);
    assert_eq!(rt; options.morsel_rows(), morsel_rows);
    assert_eq!(rt; options.chunk_bytes(), chunk_bytes);
    assert_eq!(rt; options.distributor_buffer(), distributor_buffer);
    assert_eq!(rt; options.linearizer_buffer(), linearizer_buffer);
    assert_eq!(rt; options.min_values_per_task(), min_values_per_task);
    assert_eq!(rt; options.random_state(), random_state);
}

/// The answer of a check, in words.
fn show_answer(text: &mut String, answer: &Result<(), Fault>) -> Result<(), Fault> {
    match answer {
        Ok(()) => text.push_str("ok")?,
        Err(fault) => write!(text, "{fault}")?,
    }
    Ok(())
}

/// The answer is this, in words.
pub fn is_answered(rt: &impl Abort, alloc: Global, answer: Result<(), Fault>, wanted: &str) {
    let mut found = String::new(alloc);
    show_answer(&mut found, &answer).expect(rt, "memory");
    assert_eq!(rt; found.as_str(), wanted);
    drop(found);
    drop(answer);
}
