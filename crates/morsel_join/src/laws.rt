//! Laws of the items of joins, each the contract of a function that does nothing.
ghost use Rattle.morsel_join.specs.Laws.{HasItemsOnce, ComesByLeftRight, IsMirrored, MirrorsOrder, KeepsWeaker, AreFoundInParts, GiveTheJoin, AreAloneAlike, AreAloneInAnyOrder};

/// The items of a join are the pairs of rows that are the same and the lone rows that the kind has, each once and nothing else. Their list is
/// by the left row and then the right one; the list of the exchanged sides, exchanged, has the same items, by the right row and then the left one.
pub fn a_join_has_each_item_once<L, R>()
    ensures once { HasItemsOnce L R }
    ensures in_order { ComesByLeftRight L R }
    ensures mirrored { IsMirrored L R }
    ensures mirrored_order { MirrorsOrder }
    ensures weaker { KeepsWeaker }
{}

/// What rows find on the kept side, and then the kept rows that none of them finds, are the rows of the join in the promised order. Rows may be
/// looked up in parts, one after the other; and which kept rows are left does not depend on the order of the parts.
pub fn rows_that_are_looked_up_are_a_join()
    ensures parts { AreFoundInParts }
    ensures join { GiveTheJoin }
    ensures alike { AreAloneAlike }
    ensures any_order { AreAloneInAnyOrder }
{}
