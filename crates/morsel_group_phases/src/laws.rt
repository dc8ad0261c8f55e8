//! What follows from the table of a group-by.
ghost use Rattle.morsel_group_phases.specs.GroupTables.{NoGroupMoveIsLeft};

/// The moves of the table follow each other within one call, so no move is left after it.
pub fn no_group_move_is_left()
    ensures { NoGroupMoveIsLeft }
{}
