//! The rules of a join: what is asked of it, by places of columns.
ghost use Rattle.std.specs.Prelude.{◌≡◌, ◌<◌, ◌++◌, [], ◌∷◌, length, IfOk, OnOk, IsOkUnless};
ghost use Rattle.morsel_frame.specs.Refusals.{Refuses};
ghost use Rattle.morsel_join.specs.Payloads.{key_places, join_fields, join_flaw};
ghost use Rattle.morsel_join.specs.Rows.{FitRules, join_columns, keeps_left, left_column, left_columns, right_columns};

use crate::frames::keeps_left;
use crate::payload::{JoinArgs, Payload};
use crate::select::select;
use crate::{JoinType, MaintainOrderJoin};
use morsel_frame::Schema;
use morsel_meaning::{ColType, Fault, Name};
use std::alloc::Global;

/// Where a column of a join's rows comes from.
#[derive(Clone, Copy, Debug, PartialEq, Eq)]
pub enum JoinColumn {
    /// The left column at this place.
    Left(usize),
    /// The right column at this place.
    Right(usize),
    /// The left column at the first place, and the right one at the second place where the left one has a null.
    Either(usize, usize),
}

/// The rules of a join of tables with certain columns.
#[derive(Debug, Drop)]
pub struct JoinRules {
    /// Which rows it has beside the pairs.
    pub how: JoinType,
    /// The order of its rows.
    pub maintain_order: MaintainOrderJoin,
    /// Whether a null key is equal to a null.
    pub join_nulls: bool,
    /// The places of the left keys.
    pub left_keys: Vec<usize>,
    /// The places of the right keys.
    pub right_keys: Vec<usize>,
    /// The type of each pair of keys.
    pub kinds: Vec<ColType>,
    /// Where each column of the rows comes from.
    pub columns: Vec<JoinColumn>,
    /// The columns of the rows.
    pub output: Schema,
}

impl JoinRules {
    /// The rules of a join of tables with these columns. It is refused with the first of these, in their order: `Duplicate` for a right column
    /// whose name with the suffix is the name of a left column, and for a name that two columns of the rows have; `ColumnNotFound` for a key that
    /// is no column, the left ones first; `SchemaMismatch` for the left key of a pair whose types differ.
    pub fn new(
        alloc: Global,
        left: &Schema,
        right: &Schema,
        left_keys: &[Name],
        right_keys: &[Name],
        args: &JoinArgs,
    ) -> Result<JoinRules, Fault>
        requires count { length left_keys.now ≡ length right_keys.now }
        requires some { 0 < length left_keys.now }
        ensures how { IfOk result (λ rules. rules.how ≡ args.now.how) }
        ensures order { IfOk result (λ rules. rules.maintain_order ≡ args.now.maintain_order) }
        ensures nulls { IfOk result (λ rules. rules.join_nulls ≡ args.now.join_nulls) }
        ensures left_keys { IfOk result (λ rules. rules.left_keys.items ≡ key_places left.now left_keys.now) }
        ensures right_keys { IfOk result (λ rules. rules.right_keys.items ≡ key_places right.now right_keys.now) }
        ensures columns { IfOk result (λ rules. rules.columns.items ≡ join_columns args.now left.now right.now left_keys.now right_keys.now) }
        ensures output { IfOk result (λ rules. rules.output ≡ join_fields args.now left.now right.now left_keys.now right_keys.now) }
        ensures fit { IfOk result (λ rules. FitRules left.now right.now rules) }
        ensures refused { Refuses (join_flaw args.now left.now right.now left_keys.now right_keys.now) result }
    {
        let chosen = select(alloc, left, right, left_keys, right_keys, args)?;
        let columns = join_columns(alloc, &chosen.payload)?;
        Ok(JoinRules {
            how: args.how,
            maintain_order: args.maintain_order,
            join_nulls: args.join_nulls,
            left_keys: chosen.keys.left,
            right_keys: chosen.keys.right,
            kinds: chosen.keys.kinds,
            columns,
            output: chosen.output,
        })
    }

    /// Whether the left rows are kept by their keys, and the right ones looked up.
    pub fn keeps_left(&self) -> bool
        ensures { result ≡ keeps_left self.now.how self.now.maintain_order }
    {
        keeps_left(self.how, self.maintain_order)
    }
}

/// Where the columns of a join's rows come from.
fn join_columns(alloc: Global, payload: &Payload) -> Result<Vec<JoinColumn>, Fault>
    ensures ok { IfOk result (λ columns. columns.items ≡ left_columns payload.now.merged.items 0 payload.now.left.items ++ right_columns 0 payload.now.right.items) }
    ensures out_of_memory { IsOkUnless result Fault.OutOfMemory }
{
    let mut columns = Vec::new(alloc);
    put_left(&mut columns, &payload.left, &payload.merged)?;
    put_right(&mut columns, &payload.right)?;
    Ok(columns)
}

/// Puts those left columns last that have names.
fn put_left(
    columns: &mut Vec<JoinColumn>,
    names: &[Option<Name>],
    merged: &[(u32, u32)],
) -> Result<(), Fault>
    ensures ok { OnOk result (columns.new.items ≡ columns.old.items ++ left_columns merged.now 0 names.now) }
    ensures out_of_memory { IsOkUnless result Fault.OutOfMemory }
{
    for at in 0..names.len() {
        put_left_column(columns, &names[at], at, merged)?;
    }
    Ok(())
}

/// Puts a left column last, if it has a name.
fn put_left_column(
    columns: &mut Vec<JoinColumn>,
    name: &Option<Name>,
    at: usize,
    merged: &[(u32, u32)],
) -> Result<(), Fault>
    ensures ok { OnOk result (columns.new.items ≡ columns.old.items ++ left_columns merged.now at (name.now ∷ [])) }
    ensures out_of_memory { IsOkUnless result Fault.OutOfMemory }
{
    match name {
        Some(_) => {
            columns.push(left_column(merged, at))?;
            Ok(())
        }
        None => Ok(()),
    }
}

/// The column with which a left column becomes one, if there is one.
fn left_column(merged: &[(u32, u32)], at: usize) -> JoinColumn
    ensures { result ≡ left_column merged.now at }
{
    for pair in merged {
        if pair.0 as usize == at {
            return JoinColumn::Either(at, pair.1 as usize);
        }
    }
    JoinColumn::Left(at)
}

/// Puts those right columns last that have names.
fn put_right(columns: &mut Vec<JoinColumn>, names: &[Option<Name>]) -> Result<(), Fault>
    ensures ok { OnOk result (columns.new.items ≡ columns.old.items ++ right_columns 0 names.now) }
    ensures out_of_memory { IsOkUnless result Fault.OutOfMemory }
{
    for at in 0..names.len() {
        put_right_column(columns, &names[at], at)?;
    }
    Ok(())
}

/// Puts a right column last, if it has a name.
fn put_right_column(
    columns: &mut Vec<JoinColumn>,
    name: &Option<Name>,
    at: usize,
) -> Result<(), Fault>
    ensures ok { OnOk result (columns.new.items ≡ columns.old.items ++ right_columns at (name.now ∷ [])) }
    ensures out_of_memory { IsOkUnless result Fault.OutOfMemory }
{
    match name {
        Some(_) => {
            columns.push(JoinColumn::Right(at))?;
            Ok(())
        }
        None => Ok(()),
    }
}
