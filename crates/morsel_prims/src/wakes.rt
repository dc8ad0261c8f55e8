//! The tasks that a call made ready.
ghost use Rattle.std.specs.Prelude.{◌≡◌, ◌<◌, ◌≤◌, false, ◌++◌, [], ◌∷◌, IfOk, IfErr, IfSome, IsNone, ◌↔◌};
ghost use Rattle.morsel_meaning.specs.declared.fault.Fault.TheVariants.{OutOfMemory};
ghost use Rattle.morsel_prims.specs.Woken.{IsWoken, KeepsWakes, has_number, with_woken};

use morsel_meaning::{Fault, TaskNo};
use std::alloc::Global;
use std::marker::Model;

/// Numbers of tasks below a bound, each once.
#[derive(Drop)]
pub struct Wakes {
    numbers: Vec<u32>,
    // For each number, whether it is listed.
    listed: Vec<bool>,
}

impl Model for Wakes {
    ghost use Rattle.std.specs.Prelude.{◌≡◌, vec_len, vec_capacity, ◌≤◌, length};
    ghost use Rattle.morsel_prims.specs.Woken.{Woken, IsListed};

    ghost Value = { Woken };

    ghost view = { λ wakes. record { numbers = wakes.numbers.items; bound = vec_len wakes.listed } };

    ghost invariant = { λ wakes. IsListed wakes.numbers.items wakes.listed.items × (vec_len wakes.listed ≤ vec_capacity wakes.numbers) };
}

impl Wakes {
    /// No numbers, with room for each below `tasks`.
    #[tactic(auto, using(crate::proofs::WokenLemmas::listed_none))]
    pub fn new(alloc: Global, tasks: u32) -> Result<Wakes, Fault>
        ensures empty { IfOk result (λ wakes. wakes ≡ record { numbers = []; bound = tasks }) }
        ensures out_of_memory { IfErr result (λ fault. fault ≡ OutOfMemory) }
    {
        let numbers = Vec::with_capacity(alloc, tasks as usize)?;
        let listed = vec![in alloc; false; tasks as usize]?;
        Ok(Wakes { numbers, listed })
    }

    /// Puts the number last where it is not there.
    #[tactic(auto, using(crate::proofs::WokenLemmas::listed_push, crate::proofs::WokenLemmas::count_below))]
    pub fn push(&mut self, task: TaskNo)
        requires below { task.0 < self.old.bound }
        ensures put { self.new ≡ with_woken self.old task.0 }
    {
        let at = task.0 as usize;
        if self.listed[at] {
            return;
        }
        self.listed[at] = true;
        self.numbers.push_reserved(task.0);
    }

    /// Takes the last number.
    #[tactic(auto, using(crate::proofs::WokenLemmas::listed_pop, crate::proofs::WokenLemmas::listed_within))]
    pub fn pop(&mut self) -> Option<TaskNo>
        ensures taken { IfSome result (λ task. self.old.numbers ≡ self.new.numbers ++ task.0 ∷ []) }
        ensures once { IfSome result (λ task. (task.0 < self.old.bound) × (has_number self.new.numbers task.0 ≡ false)) }
        ensures empty { IsNone result ↔ (self.old.numbers ≡ []) }
        ensures none { IsNone result → self.new ≡ self.old }
        ensures bound { self.new.bound ≡ self.old.bound }
    {
        let number = self.numbers.pop()?;
        self.listed[number as usize] = false;
        Some(TaskNo(number))
    }

    /// Puts the task last where there is one that is not there. A number that is not below the bound is left out.
    pub fn wake(&mut self, task: Option<TaskNo>)
        ensures none { IsNone task → self.new ≡ self.old }
        ensures put { IfSome task (λ some. some.0 < self.old.bound → self.new ≡ with_woken self.old some.0) }
        ensures beyond { IfSome task (λ some. self.old.bound ≤ some.0 → self.new ≡ self.old) }
        ensures woken { IsWoken task self.new }
        ensures wakes { KeepsWakes self.old self.new }
    {
        let Some(task) = task else {
            return;
        };
        if (task.0 as usize) < self.listed.len() {
            self.push(task);
        }
    }
}
