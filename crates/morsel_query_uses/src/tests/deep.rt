//! Predicates in trees that are built by hand, since a text nests no deeper than 127 levels.
use morsel_meaning::{Fault, Why};
use morsel_query_text::query_of;
use serde_json::Value;
use std::alloc::Global;
use std::test::Fail;

/// What is asked of rows by a filter with so many `not` around it.
fn nested(alloc: Global, innermost: &str, count: usize) -> Result<Value, Fault> {
    let Ok(mut tree) = Value::from_str(alloc, innermost) else {
        return Err(Fault::QueryText);
    };
    for _ in 0..count {
        tree = Value::Array(vec![in alloc; Value::try_from_str(alloc, "not")?, tree]?);
    }
    Ok(tree)
}

/// A query with this filter.
fn filtered(alloc: Global, filter: Value) -> Result<Value, Fault> {
    let text =
        "{\"left\":{\"format\":\"csv\",\"files\":[\"a.csv\"],\"schema\":[[\"b\",\"bool\"]]},\"sink\":{\"format\":\"ndjson\"}}";
    let Ok(mut tree) = Value::from_str(alloc, text) else {
        return Err(Fault::QueryText);
    };
    put_filter(alloc, &mut tree, filter)?;
    Ok(tree)
}

/// Puts the filter into the scan of a query.
fn put_filter(alloc: Global, tree: &mut Value, filter: Value) -> Result<(), Fault> {
    if let Some(left) = tree.get_mut("left") {
        if let Some(members) = left.as_object_mut() {
            members.insert(String::from_str(alloc, "filter")?, filter)?;
        }
    }
    Ok(())
}

/// What reading a query with a filter in so many `not` answers.
fn answer(alloc: Global, innermost: &str, count: usize) -> Result<(), Fault> {
    let tree = filtered(alloc, nested(alloc, innermost, count)?)?;
    query_of(alloc, &tree, "out.ndjson")?;
    Ok(())
}

fn is_too_deep(answer: Result<(), Fault>) -> bool {
    matches!(
        answer,
        Err(Fault::InvalidQuery {
            why: Why::PredDepth
        })
    )
}

fn is_no_text(answer: Result<(), Fault>) -> bool {
    matches!(answer, Err(Fault::QueryText))
}

#[test]
fn a_predicate_of_128_levels_is_taken_and_one_of_129_is_not(rt: HostRuntime) -> Result<(), Fail> {
    let test = "[\"is\", \"b\"]";
    assert!(rt; answer(rt.alloc(), test, 127).is_ok());
    assert!(rt; is_too_deep(answer(rt.alloc(), test, 128)));
    Ok(())
}

#[test]
fn a_deep_tree_that_is_no_predicate_is_no_query(rt: HostRuntime) -> Result<(), Fail> {
    assert!(rt; is_no_text(answer(rt.alloc(), "7", 200)));
    Ok(())
}
