//! What follows from the table of a join.
ghost use Rattle.morsel_join_phases.specs.JoinTables.{NoMoveIsLeft};

/// The moves of the table follow each other within one call, so no move is left after it.
pub fn no_move_is_left()
    ensures { NoMoveIsLeft }
{}
