//! The rows of a frame that are true.
ghost use Rattle.std.specs.Prelude.{◌≡◌, ◌<◌, ◌≤◌, length, take, count_by, IfOk, IsOkUnless};
ghost use Rattle.std.specs.List.{All};
ghost use Rattle.morsel_expr.specs.Truths.{is_true};
ghost use Rattle.morsel_expr.specs.Kept.{kept_rows, true_rows};

use crate::Truth;
use morsel_frame::Frame;
use morsel_meaning::Fault;
use std::alloc::Global;

/// The rows that are true, in their order. Those that are false or unknown are left out.
pub fn filter(alloc: Global, frame: Frame, mask: &[Truth]) -> Result<Frame, Fault>
    requires { length frame.rows ≡ length mask.now }
    ensures ok { IfOk result (λ kept. kept ≡ record frame { rows = kept_rows frame.rows mask.now }) }
    ensures out_of_memory { IsOkUnless result Fault.OutOfMemory }
{
    let rows = rows_of_true(alloc, mask)?;
    frame.gather(alloc, &rows)
}

/// The numbers of the rows that are true.
fn rows_of_true(alloc: Global, mask: &[Truth]) -> Result<Vec<usize>, Fault>
    ensures ok { IfOk result (λ rows. rows.items ≡ true_rows 0 mask.now) }
    ensures out_of_memory { IsOkUnless result Fault.OutOfMemory }
{
    let count = count_of_true(mask);
    let mut rows = vec![in alloc; 0usize; count + 1]?;
    write_rows(&mut rows, mask);
    rows.truncate(count);
    Ok(rows)
}

/// How many rows are true.
fn count_of_true(mask: &[Truth]) -> usize
    ensures { result ≡ count_by is_true mask.now }
{
    let mut count = 0;
    for truth in mask {
        count += usize::from(truth.is_true());
    }
    count
}

/// Writes the numbers of the rows that are true from the first place on. Each number is written, and the place moves
/// on only after those that are true, so the loop has no branch.
fn write_rows(rows: &mut [usize], mask: &[Truth])
    requires { count_by is_true mask.now < length rows.old }
    ensures { take (count_by is_true mask.now) rows.new ≡ true_rows 0 mask.now }
{
    let mut place = 0;
    for (row, truth) in mask.iter().enumerate() {
        rows[place] = row;
        place += usize::from(truth.is_true());
    }
}
