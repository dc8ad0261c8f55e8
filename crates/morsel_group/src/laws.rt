//! The laws of groups, each the contract of a function that does nothing.
ghost use Rattle.morsel_group.specs.Kept.{MergesKeys, MergesKept, KeepsNothing, KeepsGrouped};
ghost use Rattle.morsel_group.specs.Takes.{NumbersKeys, TakesMoreRows, NumbersOthers, TakesOthers};
ghost use Rattle.morsel_group.specs.CauseLaws.{GroupsHaveCauses, RowsHaveGroups, SumsHaveCauses};

/// What is kept of rows in parts, and put together key by key, is what is kept of all of them; and it says the group-by of the rows in the order
/// of the input, in whatever order and in whatever parts they came.
pub fn parts_are_grouped()
    ensures keys { MergesKeys }
    ensures kept { MergesKept }
    ensures nothing { KeepsNothing }
    ensures grouped { KeepsGrouped }
{}

/// Rows whose keys get numbers, and which are put to the groups of these, are taken whole; and so are the groups of others.
pub fn rows_are_taken()
    ensures keys { NumbersKeys }
    ensures rows { TakesMoreRows }
    ensures other_keys { NumbersOthers }
    ensures others { TakesOthers }
{}

/// A fault that local groups answer for their rows has its cause in all rows in the order of the input, in whatever parts and order they came;
/// and where they answer none, the rows have no cause of one.
pub fn groups_have_causes()
    ensures groups { GroupsHaveCauses }
    ensures sums { SumsHaveCauses }
    ensures fit { RowsHaveGroups }
{}
