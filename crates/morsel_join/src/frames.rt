//! Joins of whole frames.
ghost use Rattle.std.specs.Prelude.{◌≡◌, ◌<◌, ◌^◌, true, false, length, IfOk, IsOkUnless};
ghost use Rattle.morsel_join.specs.Items.{wants_left, wants_right};
ghost use Rattle.morsel_join.specs.Rows.{FitRules, IsJoin, HasItems, keeps_left};

use crate::gather::gather_rows;
use crate::join_rows::join_rows;
use crate::rules::JoinRules;
use crate::{JoinType, MaintainOrderJoin};
use morsel_frame::Frame;
use morsel_meaning::Fault;
use std::alloc::Global;

/// The rows of a join of two frames, in the promised order.
pub fn join_frames(
    alloc: Global,
    left: &Frame,
    right: &Frame,
    rules: &JoinRules,
) -> Result<Frame, Fault>
    requires fit { FitRules left.now.schema right.now.schema rules.now }
    requires left_short { length left.now.rows < 2 ^ 32 }
    requires right_short { length right.now.rows < 2 ^ 32 }
    ensures ok { IfOk result (λ out. IsJoin rules.now left.now right.now out) }
    ensures out_of_memory { IsOkUnless result Fault.OutOfMemory }
{
    let (lefts, rights) = item_rows(alloc, left, right, rules)?;
    gather_found(alloc, left, right, rules, &lefts, &rights)
}

/// The rows of the items of a join, whose row numbers these are.
fn gather_found(
    alloc: Global,
    left: &Frame,
    right: &Frame,
    rules: &JoinRules,
    lefts: &[u32],
    rights: &[u32],
) -> Result<Frame, Fault>
    requires fit { FitRules left.now.schema right.now.schema rules.now }
    requires left_short { length left.now.rows < 2 ^ 32 }
    requires right_short { length right.now.rows < 2 ^ 32 }
    requires items { HasItems rules.now left.now.rows right.now.rows lefts.now rights.now }
    ensures ok { IfOk result (λ out. IsJoin rules.now left.now right.now out) }
    ensures out_of_memory { IsOkUnless result Fault.OutOfMemory }
{
    let out = gather_rows(alloc, left, right, rules, lefts, rights)?;
    Ok(out)
}

/// The row numbers of the items of a join in the promised order; `u32::MAX` where an item has no row of a side.
fn item_rows(
    alloc: Global,
    left: &Frame,
    right: &Frame,
    rules: &JoinRules,
) -> Result<(Vec<u32>, Vec<u32>), Fault>
    requires fit { FitRules left.now.schema right.now.schema rules.now }
    requires left_short { length left.now.rows < 2 ^ 32 }
    requires right_short { length right.now.rows < 2 ^ 32 }
    ensures ok { IfOk result (λ found. HasItems rules.now left.now.rows right.now.rows found.0.items found.1.items) }
    ensures out_of_memory { IsOkUnless result Fault.OutOfMemory }
{
    if keeps_left(rules.how, rules.maintain_order) {
        return Ok(rows_by_right(alloc, left, right, rules)?);
    }
    Ok(rows_by_left(alloc, left, right, rules)?)
}

/// The same, by the left rows.
fn rows_by_left(
    alloc: Global,
    left: &Frame,
    right: &Frame,
    rules: &JoinRules,
) -> Result<(Vec<u32>, Vec<u32>), Fault>
    requires fit { FitRules left.now.schema right.now.schema rules.now }
    requires left_short { length left.now.rows < 2 ^ 32 }
    requires right_short { length right.now.rows < 2 ^ 32 }
    requires keeps { keeps_left rules.now.how rules.now.maintain_order ≡ false }
    ensures ok { IfOk result (λ found. HasItems rules.now left.now.rows right.now.rows found.0.items found.1.items) }
    ensures out_of_memory { IsOkUnless result Fault.OutOfMemory }
{
    let lone_left = wants_left(rules.how);
    let lone_right = wants_right(rules.how);
    let (lefts, rights) = join_rows(
        alloc,
        left,
        right,
        &rules.left_keys,
        &rules.right_keys,
        &rules.kinds,
        rules.join_nulls,
        lone_left,
        lone_right,
    )?;
    Ok((lefts, rights))
}

/// The same, by the right rows.
fn rows_by_right(
    alloc: Global,
    left: &Frame,
    right: &Frame,
    rules: &JoinRules,
) -> Result<(Vec<u32>, Vec<u32>), Fault>
    requires fit { FitRules left.now.schema right.now.schema rules.now }
    requires left_short { length left.now.rows < 2 ^ 32 }
    requires right_short { length right.now.rows < 2 ^ 32 }
    requires keeps { keeps_left rules.now.how rules.now.maintain_order ≡ true }
    ensures ok { IfOk result (λ found. HasItems rules.now left.now.rows right.now.rows found.0.items found.1.items) }
    ensures out_of_memory { IsOkUnless result Fault.OutOfMemory }
{
    let lone_left = wants_left(rules.how);
    let lone_right = wants_right(rules.how);
    let (rights, lefts) = join_rows(
        alloc,
        right,
        left,
        &rules.right_keys,
        &rules.left_keys,
        &rules.kinds,
        rules.join_nulls,
        lone_right,
        lone_left,
    )?;
    Ok((lefts, rights))
}

/// Whether the left rows are kept by their keys, and the right ones looked up.
pub fn keeps_left(how: JoinType, order: MaintainOrderJoin) -> bool
    ensures { result ≡ keeps_left how order }
{
    match order {
        MaintainOrderJoin::None => match how {
            JoinType::Left => false,
            JoinType::Inner | JoinType::Right | JoinType::Full => true,
        },
        MaintainOrderJoin::Left | MaintainOrderJoin::LeftRight => false,
        MaintainOrderJoin::Right | MaintainOrderJoin::RightLeft => true,
    }
}

/// Whether a kind has the left rows that are in no pair.
pub fn wants_left(how: JoinType) -> bool
    ensures { result ≡ wants_left how }
{
    match how {
        JoinType::Left | JoinType::Full => true,
        JoinType::Inner | JoinType::Right => false,
    }
}

/// Whether a kind has the right rows that are in no pair.
pub fn wants_right(how: JoinType) -> bool
    ensures { result ≡ wants_right how }
{
    match how {
        JoinType::Right | JoinType::Full => true,
        JoinType::Inner | JoinType::Left => false,
    }
}
