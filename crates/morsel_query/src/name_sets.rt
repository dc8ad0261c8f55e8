//! Names in sets, where each is found in few steps.
ghost use Rattle.std.specs.Prelude.{◌≡◌, IfOk, IsOkUnless};
ghost use Rattle.morsel_meaning.specs.Values.{names_of};
ghost use Rattle.morsel_query.specs.NameSets.{HasNames};

use morsel_meaning::{Fault, Field, Name};
use std::alloc::Global;
use std::collections::BTreeSet;

/// The set of these names.
pub fn set_of_names<'n>(alloc: Global, names: &'n [Name]) -> Result<BTreeSet<&'n str>, Fault>
    ensures ok { IfOk result (λ set. HasNames set names.now) }
    ensures out_of_memory { IsOkUnless result Fault.OutOfMemory }
{
    let mut set = BTreeSet::new(alloc);
    for name in names {
        set.insert(name.as_str())?;
    }
    Ok(set)
}

/// The set of the names of these columns.
pub fn set_of_columns<'n>(alloc: Global, columns: &'n [Field]) -> Result<BTreeSet<&'n str>, Fault>
    ensures ok { IfOk result (λ set. HasNames set (names_of columns.now)) }
    ensures out_of_memory { IsOkUnless result Fault.OutOfMemory }
{
    let mut set = BTreeSet::new(alloc);
    for column in columns {
        set.insert(column.name.as_str())?;
    }
    Ok(set)
}
