//! The names of a join's columns, and joins that are refused.
use super::tables::{Asked, has_names, rules_of};
use morsel_frame::Schema;
use morsel_join::{JoinRules, JoinType, MaintainOrderJoin};
use morsel_meaning::{ColType, Fault, Field, Name};
use std::alloc::Global;
use std::test::Fail;

/// A column of texts if its name is `t`, and of numbers else.
fn field_of(alloc: Global, name: &str) -> Result<Field, Fault> {
    let kind = if name == "t" {
        ColType::Text
    } else {
        ColType::Int
    };
    Ok(Field {
        name: Name::new(alloc, name)?,
        kind,
    })
}

fn push_field(alloc: Global, fields: &mut Vec<Field>, name: &str) -> Result<(), Fault> {
    fields.push(field_of(alloc, name)?)?;
    Ok(())
}

fn push_fields(alloc: Global, fields: &mut Vec<Field>, names: &[&str]) -> Result<(), Fault> {
    for name in names {
        push_field(alloc, fields, *name)?;
    }
    Ok(())
}

fn schema_of(alloc: Global, names: &[&str]) -> Result<Schema, Fault> {
    let mut fields = Vec::new(alloc);
    push_fields(alloc, &mut fields, names)?;
    Schema::new(alloc, fields)
}

/// The rules of a join of tables with columns of these names, by pairs of them, where the left ones are made.
fn rules_beside(
    alloc: Global,
    left: &Schema,
    right: &[&str],
    pairs: &[(&str, &str)],
    asked: Asked,
    suffix: &str,
) -> Result<JoinRules, Fault> {
    let right = schema_of(alloc, right)?;
    rules_of(alloc, left, &right, pairs, asked, suffix)
}

/// The rules of a join of tables with columns of these names, by pairs of them.
fn rules_between(
    alloc: Global,
    left: &[&str],
    right: &[&str],
    pairs: &[(&str, &str)],
    asked: Asked,
    suffix: &str,
) -> Result<JoinRules, Fault> {
    let left = schema_of(alloc, left)?;
    rules_beside(alloc, &left, right, pairs, asked, suffix)
}

fn asked_for(how: JoinType, coalesce: bool) -> Asked {
    Asked {
        how,
        order: MaintainOrderJoin::None,
        nulls: false,
        coalesce,
    }
}

/// Whether the rows of a join have these columns.
fn gives(
    alloc: Global,
    left: &[&str],
    right: &[&str],
    keys: &[(&str, &str)],
    asked: Asked,
    wanted: &[&str],
) -> bool {
    match rules_between(alloc, left, right, keys, asked, "_right") {
        Ok(rules) => has_names(rules.output.fields(), wanted),
        Err(_) => false,
    }
}

/// Whether a fault has this text.
fn is_told(alloc: Global, fault: &Fault, wanted: &str) -> Result<bool, Fault> {
    let text = format!(in alloc; "{fault}")?;
    Ok(text.as_str() == wanted)
}

/// Whether a join with this suffix is refused by a fault of this text.
fn is_refused(
    alloc: Global,
    left: &[&str],
    right: &[&str],
    keys: &[(&str, &str)],
    asked: Asked,
    suffix: &str,
    wanted: &str,
) -> Result<bool, Fault> {
    match rules_between(alloc, left, right, keys, asked, suffix) {
        Ok(_) => Ok(false),
        Err(fault) => is_told(alloc, &fault, wanted),
    }
}

/// All kinds, and those that keep the left keys.
const KINDS: &[JoinType] = &[
    JoinType::Inner,
    JoinType::Left,
    JoinType::Full,
    JoinType::Right,
];

const LEFT_KEEPING: &[JoinType] = &[JoinType::Inner, JoinType::Left, JoinType::Full];

const A: &[&str] = &["a"];

const AB: &[&str] = &["a", "b"];

const ABC: &[&str] = &["a", "b", "c"];

const ACD: &[&str] = &["a", "c", "d"];

/// Pairs of the columns `a`.
const BY_A: &[(&str, &str)] = &[("a", "a")];

/// Pairs of the columns `a` and `k`.
const A_BY_K: &[(&str, &str)] = &[("a", "k")];

/// Whether the rows of a join by one of some kinds have these columns, whichever kind it is.
fn each_gives(
    alloc: Global,
    kinds: &[JoinType],
    left: &[&str],
    right: &[&str],
    pairs: &[(&str, &str)],
    coalesce: bool,
    wanted: &[&str],
) -> bool {
    for how in kinds {
        if !gives(alloc, left, right, pairs, asked_for(*how, coalesce), wanted) {
            return false;
        }
    }
    true
}

#[test]
fn a_suffix_is_put_only_where_a_name_clashes(rt: HostRuntime) -> Result<(), Fail> {
    let alloc = rt.alloc();
    let wanted = ["a", "b", "c", "c_right", "d"];
    assert!(rt; each_gives(alloc, LEFT_KEEPING, ABC, ACD, BY_A, true, &wanted));
    let wanted = ["b", "c", "a", "c_right", "d"];
    assert!(rt; each_gives(alloc, &[JoinType::Right], ABC, ACD, BY_A, true, &wanted));
    let wanted = ["a", "b", "c", "a_right", "c_right", "d"];
    assert!(rt; each_gives(alloc, KINDS, ABC, ACD, BY_A, false, &wanted));
    Ok(())
}

#[test]
fn a_left_key_that_is_left_out_still_clashes(rt: HostRuntime) -> Result<(), Fail> {
    let alloc = rt.alloc();
    let right = ["k", "a"];
    let wanted = ["a", "b", "a_right"];
    assert!(rt; each_gives(alloc, LEFT_KEEPING, AB, &right, A_BY_K, true, &wanted));
    let wanted = ["b", "k", "a_right"];
    assert!(rt; each_gives(alloc, &[JoinType::Right], AB, &right, A_BY_K, true, &wanted));
    let wanted = ["a", "b", "k", "a_right"];
    assert!(rt;
        each_gives(
            alloc,
            &[JoinType::Right],
            AB,
            &right,
            A_BY_K,
            false,
            &wanted
        )
    );
    Ok(())
}

/// Whether a join by the columns `a` is refused, since two columns would have this name.
fn is_duplicate(
    alloc: Global,
    left: &[&str],
    right: &[&str],
    asked: Asked,
    suffix: &str,
    wanted: &str,
) -> Result<bool, Fault> {
    is_refused(alloc, left, right, BY_A, asked, suffix, wanted)
}

/// Whether the coalesced join is refused, whichever kind it is of.
fn each_is_duplicate(
    alloc: Global,
    left: &[&str],
    right: &[&str],
    wanted: &str,
) -> Result<bool, Fault> {
    for how in KINDS {
        if !is_duplicate(alloc, left, right, asked_for(*how, true), "_right", wanted)? {
            return Ok(false);
        }
    }
    Ok(true)
}

#[test]
fn a_suffixed_name_of_a_left_column_is_refused(rt: HostRuntime) -> Result<(), Fail> {
    let alloc = rt.alloc();
    let left = ["a", "b", "b_right"];
    assert!(rt; each_is_duplicate(alloc, &left, AB, "duplicate column: b_right")?);
    let asked = asked_for(JoinType::Inner, true);
    assert!(rt; is_duplicate(alloc, AB, AB, asked, "", "duplicate column: b")?);
    Ok(())
}

#[test]
fn a_suffixed_key_of_a_left_column_is_refused(rt: HostRuntime) -> Result<(), Fail> {
    let alloc = rt.alloc();
    let left = ["a", "a_right"];
    let apart = asked_for(JoinType::Inner, false);
    assert!(rt;
        is_duplicate(
            alloc,
            &left,
            A,
            apart,
            "_right",
            "duplicate column: a_right"
        )?
    );
    let coalesced = asked_for(JoinType::Inner, true);
    assert!(rt; gives(alloc, &left, A, BY_A, coalesced, &left));
    Ok(())
}

const K: &[&str] = &["k"];

const AK: &[&str] = &["a", "k"];

#[test]
fn a_name_that_two_columns_would_have_is_refused(rt: HostRuntime) -> Result<(), Fail> {
    let alloc = rt.alloc();
    let suffixed = ["a", "b", "b_right"];
    let asked = asked_for(JoinType::Left, true);
    let told = "duplicate column: b_right";
    assert!(rt; is_duplicate(alloc, AB, &suffixed, asked, "_right", told)?);
    assert!(rt; gives(alloc, AK, K, A_BY_K, asked, AK));
    let right_kept = asked_for(JoinType::Right, true);
    let told = "duplicate column: k";
    assert!(rt; is_refused(alloc, AK, K, A_BY_K, right_kept, "_right", told)?);
    Ok(())
}

/// Whether the join of columns `a`, `b`, `t` with `a`, `t` by these pairs is refused by a fault of this text.
fn is_refused_by(
    alloc: Global,
    keys: &[(&str, &str)],
    suffix: &str,
    wanted: &str,
) -> Result<bool, Fault> {
    let asked = asked_for(JoinType::Inner, false);
    is_refused(
        alloc,
        &["a", "b", "t"],
        &["a", "t"],
        keys,
        asked,
        suffix,
        wanted,
    )
}

/// Pairs of which one column is absent, on either side, and of which one has another type.
const LEFT_ABSENT: &[(&str, &str)] = &[("b", "y"), ("x", "a")];

const RIGHT_ABSENT: &[(&str, &str)] = &[("t", "a"), ("b", "y")];

const OTHER_TYPE: &[(&str, &str)] = &[("b", "a"), ("t", "a")];

#[test]
fn keys_are_columns_of_one_type(rt: HostRuntime) -> Result<(), Fail> {
    let alloc = rt.alloc();
    assert!(rt; is_refused_by(alloc, LEFT_ABSENT, "_right", "column not found: x")?);
    assert!(rt; is_refused_by(alloc, RIGHT_ABSENT, "_right", "column not found: y")?);
    assert!(rt; is_refused_by(alloc, OTHER_TYPE, "_right", "schema mismatch: t")?);
    assert!(rt; is_refused_by(alloc, LEFT_ABSENT, "", "duplicate column: a")?);
    Ok(())
}
