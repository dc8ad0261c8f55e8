//! Laws of tables by key and of reductions, each the contract of a function that does nothing.
ghost use Rattle.morsel_keys.specs.declared.reduction.Reduction.{Reduction};
ghost use Rattle.morsel_keys.specs.Reductions.{plus_entries};
ghost use Rattle.morsel_keys.specs.Laws.{IsAssociative, ReducesParts, MergesTables, KeepsParts, ReducesByPlace};

/// What two lists come to is put together of what each comes to, and the tables by key of both are one table.
pub fn tables_merge<T, K, M>()
    ensures parts { ReducesParts T M }
    ensures merged { MergesTables T K M }
{}

/// What is kept of parts of a group can be put together in any way, and says what the reduction says of all values by place.
pub fn reductions_follow_places()
    ensures associative { (op : Reduction) → IsAssociative (plus_entries op) }
    ensures parts { KeepsParts }
    ensures by_place { ReducesByPlace }
{}
