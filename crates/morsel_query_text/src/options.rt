//! The numbers by which a query is to be run, as its text has them.
ghost use Rattle.std.specs.Prelude.{◌≡◌, ◌↔◌, ◌^◌, nat_lt, if◌then◌else◌, IfSome, IsNone, IfOk, IsErrOf, IsOkUnless};
ghost use Rattle.serde_json.specs.View.{view};
ghost use Rattle.morsel_query.specs.RunOptions.{RunOptions, AreInRange, standard_options};
ghost use Rattle.morsel_query_text.specs.QueryTexts.{OptionsOf};
ghost use Rattle.morsel_query_text.specs.Borrowed.{numbers_of};

use crate::trees::{has_only_keys, number_at};
use morsel_meaning::{Fault, Why};
use morsel_query::Options;
use serde_json::Value;

/// The numbers by which a query is to be run, of 64 bits each.
#[derive(Clone, Copy, Debug)]
pub struct OptionNumbers {
    workers: u64,
    morsel_rows: u64,
    chunk_bytes: u64,
    distributor_buffer: u64,
    linearizer_buffer: u64,
    min_values_per_task: u64,
    random_state: u64,
}

/// The keys of `options`.
const KEYS: [&str; 7] = [
    "workers",
    "morsel_rows",
    "chunk_bytes",
    "distributor_buffer",
    "linearizer_buffer",
    "min_values_per_task",
    "random_state",
];

impl OptionNumbers {
    /// What stands where a query says nothing.
    pub fn standard() -> OptionNumbers
        ensures { numbers_of result ≡ standard_options }
    {
        let standard = Options::standard();
        OptionNumbers {
            workers: u64::from(standard.workers()),
            morsel_rows: u64::from(standard.morsel_rows()),
            chunk_bytes: u64::from(standard.chunk_bytes()),
            distributor_buffer: u64::from(standard.distributor_buffer()),
            linearizer_buffer: u64::from(standard.linearizer_buffer()),
            min_values_per_task: u64::from(standard.min_values_per_task()),
            random_state: standard.random_state(),
        }
    }

    /// What `options` says; none where it is not in form.
    pub fn read(tree: &Value) -> Option<OptionNumbers>
        ensures some { IfSome result (λ numbers. OptionsOf (view tree.now) (numbers_of numbers)) }
        ensures none { IsNone result → (options : RunOptions) → OptionsOf (view tree.now) options → ⊥ }
    {
        if !has_only_keys(tree, &KEYS) {
            return None;
        }
        let standard = OptionNumbers::standard();
        Some(OptionNumbers {
            workers: number_at(tree, "workers", standard.workers)?,
            morsel_rows: number_at(tree, "morsel_rows", standard.morsel_rows)?,
            chunk_bytes: number_at(tree, "chunk_bytes", standard.chunk_bytes)?,
            distributor_buffer: number_at(tree, "distributor_buffer", standard.distributor_buffer)?,
            linearizer_buffer: number_at(tree, "linearizer_buffer", standard.linearizer_buffer)?,
            min_values_per_task: number_at(
                tree,
                "min_values_per_task",
                standard.min_values_per_task,
            )?,
            random_state: number_at(tree, "random_state", standard.random_state)?,
        })
    }

    /// These options; `OptionRange` where a number is outside its range.
    pub fn options(self) -> Result<Options, Fault>
        ensures value { IfOk result (λ options. options ≡ numbers_of self) }
        ensures option_range { IsErrOf result (Fault.InvalidQuery Why.OptionRange) ↔ (AreInRange (numbers_of self) → ⊥) }
        ensures fault { IsOkUnless result (Fault.InvalidQuery Why.OptionRange) }
    {
        Options::new(
            short(self.workers),
            short(self.morsel_rows),
            short(self.chunk_bytes),
            short(self.distributor_buffer),
            short(self.linearizer_buffer),
            short(self.min_values_per_task),
            self.random_state,
        )
    }
}

/// A number of 32 bits; 0, which is in no range, in place of a greater one.
fn short(n: u64) -> u32
    ensures { result ≡ (if nat_lt n (2 ^ 32) then n else 0) }
{
    if n <= u64::from(u32::MAX) {
        n as u32
    } else {
        0
    }
}
