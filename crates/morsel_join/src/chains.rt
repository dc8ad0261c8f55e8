//! The rows of each key, as chains of row numbers, and what rows of the other side find there.
ghost use Rattle.std.specs.Prelude.{◌≡◌, ◌<◌, ◌+◌, ◌^◌, length, IfOk, IsOkUnless};
ghost use Rattle.morsel_join.specs.Chains.{AreRowChains, AreLinked};

use morsel_meaning::Fault;
use std::alloc::Global;

/// The chains of the rows with each key's number, in the order of rows. A number past the keys is no key's.
///
/// The first vector has a link for each key, the second one for each row. A link is 1 more than the row that it leads to, and 0 at the end.
pub fn chains(alloc: Global, numbers: &[u32], keys: usize) -> Result<(Vec<u32>, Vec<u32>), Fault>
    requires short { length numbers.now < 2 ^ 32 }
    ensures ok { IfOk result (λ links. AreLinked numbers.now links.0.items links.1.items 0 keys) }
    ensures out_of_memory { IsOkUnless result Fault.OutOfMemory }
{
    let mut first = vec![in alloc; 0u32; keys]?;
    let mut next = vec![in alloc; 0u32; numbers.len()]?;
    for back in 0..numbers.len() {
        let row = numbers.len() - 1 - back;
        link(&mut first, &mut next, numbers, row);
    }
    Ok((first, next))
}

/// One row more at the front of its chain.
#[inline(always)]
fn link(first: &mut Vec<u32>, next: &mut Vec<u32>, numbers: &[u32], row: usize)
    requires within { row < length numbers.now }
    requires short { length numbers.now < 2 ^ 32 }
    requires chained { AreRowChains numbers.now first.old.items next.old.items (row + 1) }
    ensures chained { AreRowChains numbers.now first.new.items next.new.items row }
    ensures len { length first.new.items ≡ length first.old.items }
{
    let key = numbers[row] as usize;
    if key >= first.len() {
        return;
    }
    next[row] = first[key];
    first[key] = row as u32 + 1;
}
