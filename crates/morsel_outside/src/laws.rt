//! Laws of what is done to an outside, each the contract of a function that does nothing.
ghost use Rattle.morsel_outside.specs.Actions.{DoesAfter, EventsTellTexts};

/// What is done after other actions is done after both.
pub fn actions_follow_one_another()
    ensures { DoesAfter }
{}

/// The lengths that the events of writes tell add up to the length of what was written.
pub fn events_tell_the_lengths_of_texts()
    ensures { EventsTellTexts }
{}
