//! What a comparison says of two values, found before a loop over many of them.
ghost use Rattle.std.specs.Prelude.{◌≡◌, false, length, IfOk, IsOkUnless};
ghost use Rattle.morsel_expr.specs.OrderTruths.{answer, answers_of, answered, answered_pairs};

use crate::{CmpOp, Truth};
use morsel_frame::Texts;
use morsel_meaning::{Fault, Value};
use std::alloc::Global;
use std::cmp::Ordering;

/// The truth where the first value comes before the second, where both are the same, and where it comes after.
#[derive(Clone, Copy, Debug)]
pub struct OrderTruths {
    pub less: Truth,
    pub equal: Truth,
    pub greater: Truth,
}

impl OrderTruths {
    /// What a comparison says in each order.
    pub fn of(op: CmpOp) -> OrderTruths
        ensures { result ≡ answers_of op }
    {
        let (less, equal, greater) = match op {
            CmpOp::Eq => (false, true, false),
            CmpOp::Ne => (true, false, true),
            CmpOp::Lt => (true, false, false),
            CmpOp::Le => (true, true, false),
            CmpOp::Gt => (false, false, true),
            CmpOp::Ge => (false, true, true),
        };
        OrderTruths {
            less: Truth::certain(less),
            equal: Truth::certain(equal),
            greater: Truth::certain(greater),
        }
    }

    /// What it says in this order.
    pub fn at(self, order: Ordering) -> Truth
        ensures { result ≡ answer self order }
    {
        match order {
            Ordering::Less => self.less,
            Ordering::Equal => self.equal,
            Ordering::Greater => self.greater,
        }
    }
}

/// An item that a column keeps as it is: a number or a truth value.
pub trait Item: Copy + Drop {
    ghost use Rattle.std.specs.Prelude.{◌≡◌, false};
    ghost use Rattle.morsel_meaning.specs.declared.value.Value.{Value};
    ghost use Rattle.morsel_meaning.specs.Order.{value_cmp};
    ghost use Rattle.morsel_expr.specs.Predicates.{is_null};
    ghost use Rattle.morsel_expr.specs.OrderTruths.{answer};

    /// The item as a value.
    ghost value: { Self → Value };

    /// What the answers say of two items.
    fn compare(self, other: Self, answers: OrderTruths) -> Truth
        ensures { result ≡ answer answers (value_cmp (value self) (value other)) };

    /// No item is a null.
    ghost valued: { (item : Self) → is_null (value item) ≡ false };
}

impl Item for i64 {
    ghost use Rattle.std.specs.Prelude.{refl};
    ghost use Rattle.morsel_meaning.specs.declared.value.Value.TheVariants as values;

    ghost value = { values.Int };

    ghost valued = { λ item. refl };

    // Two tests in place of one order, since a loop over them has no branches.
    fn compare(self, other: i64, answers: OrderTruths) -> Truth {
        if self < other {
            answers.less
        } else if other < self {
            answers.greater
        } else {
            answers.equal
        }
    }
}

impl Item for bool {
    ghost use Rattle.std.specs.Prelude.{refl};
    ghost use Rattle.morsel_meaning.specs.declared.value.Value.TheVariants as values;

    ghost value = { values.Bool };

    ghost valued = { λ item. refl };

    fn compare(self, other: bool, answers: OrderTruths) -> Truth {
        answers.at(self.cmp(&other))
    }
}

/// The answers of items beside one, and unknown where a mark is missing.
pub fn answer_items<T: Item>(
    alloc: Global,
    valid: &[bool],
    items: &[T],
    by: T,
    answers: OrderTruths,
) -> Result<Vec<Truth>, Fault>
    ensures ok { IfOk result (λ truths. truths.items ≡ answered T.value answers (T.value by) valid.now items.now) }
    ensures out_of_memory { IsOkUnless result Fault.OutOfMemory }
{
    Ok(
        valid
            .iter()
            .zip(items)
            .map(|(mark, item)| item.compare(by, answers).where_valid(*mark))
            .collect(alloc)?,
    )
}

/// The answers of items beside others, and unknown where a mark is missing.
pub fn answer_item_pairs<T: Item>(
    alloc: Global,
    valid: &[bool],
    items: &[T],
    other_valid: &[bool],
    others: &[T],
    answers: OrderTruths,
) -> Result<Vec<Truth>, Fault>
    ensures ok { IfOk result (λ truths. truths.items ≡ answered_pairs T.value answers valid.now items.now other_valid.now others.now) }
    ensures out_of_memory { IsOkUnless result Fault.OutOfMemory }
{
    Ok(
        valid
            .iter()
            .zip(items)
            .zip(other_valid.iter().zip(others))
            .map(|((mark, item), (other_mark, other))| {
                item.compare(*other, answers)
                    .where_valid(*other_mark)
                    .where_valid(*mark)
            })
            .collect(alloc)?,
    )
}

/// The answers of texts beside one, and unknown where a mark is missing.
#[tactic(auto, using(crate::proofs::AnswerLemmas::answered_more, crate::proofs::AnswerLemmas::answered_all))]
pub fn answer_texts(
    alloc: Global,
    valid: &[bool],
    texts: &Texts,
    by: &str,
    answers: OrderTruths,
) -> Result<Vec<Truth>, Fault>
    requires { length texts.now ≡ length valid.now }
    ensures ok { IfOk result (λ truths. truths.items ≡ answered Value.Text answers (Value.Text by.now) valid.now texts.now) }
    ensures out_of_memory { IsOkUnless result Fault.OutOfMemory }
{
    let mut truths = Vec::with_capacity(alloc, valid.len())?;
    for at in 0..valid.len() {
        let truth = answers.at(texts.get(at).cmp(by));
        truths.push(truth.where_valid(valid[at]))?;
    }
    Ok(truths)
}

/// The answers of texts beside others, and unknown where a mark is missing.
#[tactic(auto, using(crate::proofs::AnswerLemmas::answered_pairs_more, crate::proofs::AnswerLemmas::answered_pairs_all))]
pub fn answer_text_pairs(
    alloc: Global,
    valid: &[bool],
    texts: &Texts,
    other_valid: &[bool],
    others: &Texts,
    answers: OrderTruths,
) -> Result<Vec<Truth>, Fault>
    requires len { length texts.now ≡ length valid.now }
    requires other_valid_len { length other_valid.now ≡ length valid.now }
    requires other_len { length others.now ≡ length valid.now }
    ensures ok { IfOk result (λ truths. truths.items ≡ answered_pairs Value.Text answers valid.now texts.now other_valid.now others.now) }
    ensures out_of_memory { IsOkUnless result Fault.OutOfMemory }
{
    let mut truths = Vec::with_capacity(alloc, valid.len())?;
    for at in 0..valid.len() {
        let truth = answers.at(texts.get(at).cmp(others.get(at)));
        let known = truth.where_valid(other_valid[at]);
        truths.push(known.where_valid(valid[at]))?;
    }
    Ok(truths)
}
