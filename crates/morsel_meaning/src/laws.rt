//! Laws of the definitions that all crates share, each the contract of a function that does nothing.
ghost use Rattle.std.specs.Prelude.{◌≡◌, ◌↔◌, true};
ghost use Rattle.std.specs.Cmp.{IsTotalOrder};
ghost use Rattle.std.specs.Ordering.{eq_by_cmp};
ghost use Rattle.morsel_meaning.specs.declared.value.Value.{Value};
ghost use Rattle.morsel_meaning.specs.Order.{value_eq, value_cmp};
ghost use Rattle.morsel_meaning.specs.ListLaws.{KeepsOften, JoinsOften, NumbersOften, NumbersRise, NumbersStay, FoldsByNumber, RisesAlike, InterleavesOften, InterleavesGrowing};

/// The test of equality tells equal values from others, a null being equal to a null.
pub fn equal_values_are_the_same()
    ensures itself { (a : Value) → value_eq a a ≡ true }
    ensures only_the_same { (a b : Value) → value_eq a b ≡ true → a ≡ b }
    ensures of_values { (a b : Value) → ⟦<crate::Value as PartialEq>⟧.eq a b ≡ value_eq a b }
{}

/// The order of values is total, and two values are level exactly where they are equal.
pub fn values_are_ordered()
    ensures total { IsTotalOrder value_cmp }
    ensures level { (a b : Value) → eq_by_cmp value_cmp a b ≡ value_eq a b }
    ensures of_values { (a b : Value) → ⟦<crate::Value as Ord>⟧.cmp a b ≡ value_cmp a b }
{}

/// Lists in another order have the same things, each as often, and so have two such lists together. Numbers that never fall and are as often
/// the same are the same.
pub fn orders_keep_how_often<T>()
    ensures permuted { KeepsOften T }
    ensures joined { JoinsOften T }
    ensures rising { RisesAlike }
{}

/// By number there are the same things, each as often, their numbers never fall, those that never fell are as they were, and what does not ask for
/// the order of different numbers is the same.
pub fn things_come_by_number<T, M>()
    ensures often { NumbersOften T }
    ensures rise { NumbersRise T }
    ensures stay { NumbersStay T }
    ensures folds { FoldsByNumber T M }
{}

/// What is made of lists, each in its own order, has their things, each as often, and grows at its end as one of them does.
pub fn lists_interleave<T>()
    ensures often { InterleavesOften T }
    ensures growing { InterleavesGrowing T }
{}
