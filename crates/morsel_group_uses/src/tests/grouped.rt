//! Tables that are grouped: their rows come one by one, from the last to the first, to so many local groups, which are then combined; or all at
//! once to one.
ghost use Rattle.std.specs.Prelude.{◌≡◌, ◌<◌, ◌^◌, None, length, IfOk, OnOk};
ghost use Rattle.std.specs.List.{All};
ghost use Rattle.morsel_group.specs.Asked.{HaveColumns};
ghost use Rattle.morsel_group.specs.GroupFlaws.{group_flaw};
ghost use Rattle.morsel_group.specs.Locals.{IsGroupBy, StaysGroupBy, TakesColumns};

use morsel_frame::Frame;
use morsel_group::{GroupSpec, LocalGroups, group_schema};
use morsel_meaning::Fault;
use morsel_pipe::MorselSeq;
use std::alloc::Global;

/// No test has more rows than these, nor more parts.
const ROWS: usize = 8;

/// So many rows of the table, from one on, come to local groups.
fn put_rows(
    alloc: Global,
    local: &mut LocalGroups,
    table: &Frame,
    row: usize,
    len: usize,
) -> Result<(), Fault>
    requires row { row < 2 ^ 32 }
    requires columns { TakesColumns table.now.schema local.old }
    ensures { OnOk result (StaysGroupBy local.old local.new) }
{
    let frame = table.slice(alloc, row, len)?;
    local.insert(&frame, MorselSeq::new(row as u64))
}

/// A row of its own has length 1 in a part, and any other 0.
fn len_in(row: usize, parts: usize, part: usize) -> usize
    requires { 0 < parts }
{
    if row % parts == part { 1 } else { 0 }
}

/// The rows of which the number leaves this rest, from the last to the first.
fn part_of(
    alloc: Global,
    table: &Frame,
    spec: &GroupSpec,
    parts: usize,
    part: usize,
) -> Result<LocalGroups, Fault>
    requires columns { HaveColumns spec.now.aggs }
    requires sound { group_flaw table.now.schema spec.now ≡ None }
    requires some { 0 < parts }
    ensures { IfOk result (λ local. IsGroupBy table.now.schema spec.now local) }
{
    let mut local = LocalGroups::new(alloc, table.schema(), spec)?;
    for i in 0..ROWS {
        let row = ROWS - 1 - i;
        let len = len_in(row, parts, part);
        put_rows(alloc, &mut local, table, row, len)?;
    }
    Ok(local)
}

/// All rows, in so many parts.
fn parts_of(
    alloc: Global,
    table: &Frame,
    spec: &GroupSpec,
    parts: usize,
) -> Result<Vec<LocalGroups>, Fault>
    requires columns { HaveColumns spec.now.aggs }
    requires sound { group_flaw table.now.schema spec.now ≡ None }
    requires some { 0 < parts }
    ensures len { IfOk result (λ locals. length locals.items ≡ parts) }
    ensures each { IfOk result (λ locals. All (IsGroupBy table.now.schema spec.now) locals.items) }
{
    let mut locals = Vec::new(alloc);
    for part in 0..parts {
        locals.push(part_of(alloc, table, spec, parts, part)?)?;
    }
    Ok(locals)
}

/// The groups of the rows of a table, which come in so many parts.
pub fn grouped(alloc: Global, table: &Frame, spec: &GroupSpec, parts: usize) -> Result<Frame, Fault>
    requires columns { HaveColumns spec.now.aggs }
    requires some { 0 < parts }
{
    group_schema(alloc, table.schema(), spec)?;
    let locals = parts_of(alloc, table, spec, parts)?;
    LocalGroups::combine(locals)?.into_frame()
}

/// All rows, which come at once.
fn whole_of(alloc: Global, table: &Frame, spec: &GroupSpec) -> Result<LocalGroups, Fault>
    requires columns { HaveColumns spec.now.aggs }
    requires sound { group_flaw table.now.schema spec.now ≡ None }
{
    let mut local = LocalGroups::new(alloc, table.schema(), spec)?;
    local.insert(table, MorselSeq::new(0))?;
    Ok(local)
}

/// The groups of the rows of a table, which come all at once.
pub fn at_once(alloc: Global, table: &Frame, spec: &GroupSpec) -> Result<Frame, Fault>
    requires { HaveColumns spec.now.aggs }
{
    group_schema(alloc, table.schema(), spec)?;
    whole_of(alloc, table, spec)?.into_frame()
}
