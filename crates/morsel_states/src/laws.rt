//! The laws of rows and of parts that are put to groups, each the contract of a function that does nothing.
ghost use Rattle.morsel_states.specs.GroupParts.{KeepsGroupParts};
ghost use Rattle.morsel_states.specs.GroupRows.{KeepsGroups};

/// Each group has what it had, and what an accumulator has of the group's own values.
pub fn states_keep_groups()
    ensures { KeepsGroups }
{}

/// Each group has what it had, and what others have that was put to it.
pub fn states_keep_parts()
    ensures { KeepsGroupParts }
{}
