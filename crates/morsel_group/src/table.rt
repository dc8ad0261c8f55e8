//! The keys of groups, of any number of columns.
ghost use Rattle.std.specs.Prelude.{◌≡◌, ◌<◌, ◌≤◌, ◌||◌, nat_lt, [], length, map, replicate, IfOk, IsOkUnless};
ghost use Rattle.std.specs.List.{All};
ghost use Rattle.morsel_meaning.specs.Values.{kinds_of};
ghost use Rattle.morsel_frame.specs.Tables.{cells_at, fields_at};
ghost use Rattle.morsel_keys.specs.Slots.{HasKeysEachOnce, NumbersOrStops, no_number};
ghost use Rattle.morsel_group.specs.Arrivals.{keyed_in};

use morsel_frame::Frame;
use morsel_meaning::{ColType, Fault};
use morsel_row_keys::RowKeys;
use std::alloc::Global;

/// The keys of groups in order of arrival, each once.
#[derive(Drop)]
pub enum GroupKeys {
    /// Of no column: all rows have one key, which has arrived or not.
    Alone(bool),
    /// Of one or more columns.
    Rows(RowKeys),
}

/// No keys, whose values are to be of these types.
pub fn no_keys(alloc: Global, kinds: &[ColType]) -> Result<GroupKeys, Fault>
    ensures ok { IfOk result (λ table. keyed_in table ≡ record { kinds = kinds.now; keys = [] }) }
    ensures out_of_memory { IsOkUnless result Fault.OutOfMemory }
{
    if kinds.is_empty() {
        return Ok(GroupKeys::Alone(false));
    }
    Ok(GroupKeys::Rows(RowKeys::new(alloc, kinds, 0)?))
}

/// How many keys there are.
pub fn count_keys(table: &GroupKeys) -> usize
    ensures len { result ≡ length (keyed_in table.now).keys }
    ensures within { result ≤ no_number }
    ensures once { HasKeysEachOnce (keyed_in table.now).keys }
{
    match table {
        GroupKeys::Alone(there) => if *there { 1 } else { 0 },
        GroupKeys::Rows(rows) => rows.len(),
    }
}

/// The numbers of what rows have under these columns, one row after the other, each at its place. Those that are new come last. Past
/// 4,294,967,295 keys a new one is refused.
pub fn number_rows(
    table: &mut GroupKeys,
    frame: &Frame,
    columns: &[usize],
    out: &mut [u32],
) -> Result<(), Fault>
    requires columns { All (λ at. at < length frame.now.schema) columns.now }
    requires kinds { kinds_of (fields_at frame.now.schema columns.now) ≡ (keyed_in table.old).kinds }
    requires len { length out.old ≡ length frame.now.rows }
    ensures kinds { (keyed_in table.new).kinds ≡ (keyed_in table.old).kinds }
    ensures numbers { NumbersOrStops (keyed_in table.old).keys (map (cells_at columns.now) frame.now.rows) out.new (keyed_in table.new).keys result }
{
    match table {
        GroupKeys::Alone(there) => {
            *there = number_alone(*there, out);
            Ok(())
        }
        GroupKeys::Rows(rows) => rows.number(frame, columns, out),
    }
}

/// The number of each row is that of the one key: whether it has arrived then.
fn number_alone(there: bool, out: &mut [u32]) -> bool
    ensures numbers { out.new ≡ replicate (length out.old) 0 }
    ensures there { result ≡ (there || nat_lt 0 (length out.old)) }
{
    let some = !out.is_empty();
    out.fill(0);
    there || some
}
