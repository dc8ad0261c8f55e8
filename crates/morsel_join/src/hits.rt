//! Which kept rows were found.
ghost use Rattle.std.specs.Prelude.{◌≡◌, ◌++◌, ◌||◌, ℕ, List, [], false, length, get_or, IfOk, IsOkUnless};
ghost use Rattle.morsel_meaning.specs.declared.fault.Fault.TheVariants.{OutOfMemory};
ghost use Rattle.morsel_meaning.specs.Values.{Row};
ghost use Rattle.morsel_join.specs.declared.build_side.Build.{Build};
ghost use Rattle.morsel_join.specs.Hits.{HaveHit};

use crate::build_side::Build;
use morsel_meaning::Fault;
use std::alloc::Global;

/// A mark for each key of the kept rows: whether a row with that key was looked up.
#[derive(Drop)]
pub struct Hits {
    /// The marks.
    pub seen: Vec<bool>,
}

impl Hits {
    /// The marks where nothing was looked up.
    pub fn new(alloc: Global, build: &Build) -> Result<Hits, Fault>
        ensures hit { IfOk result (λ hits. HaveHit build.now hits.seen.items []) }
        ensures out_of_memory { IsOkUnless result OutOfMemory }
    {
        let seen = vec![in alloc; false; build.keys()]?;
        Ok(Hits { seen })
    }

    /// Sets the marks of the other one too.
    pub fn join(&mut self, other: &Hits)
        requires len { length other.now.seen.items ≡ length self.old.seen.items }
        ensures len { length self.new.seen.items ≡ length self.old.seen.items }
        ensures marked { (m : ℕ) → get_or self.new.seen.items m false ≡ (get_or self.old.seen.items m false || get_or other.now.seen.items m false) }
        ensures hit { (build : Build) (asked more : List Row) → HaveHit build self.old.seen.items asked → HaveHit build other.now.seen.items more → HaveHit build self.new.seen.items (asked ++ more) }
    {
        join_marks(&mut self.seen, &other.seen);
    }
}

/// Sets the marks of the other ones too.
fn join_marks(marks: &mut [bool], others: &[bool])
    requires len { length others.now ≡ length marks.old }
    ensures len { length marks.new ≡ length marks.old }
    ensures marked { (m : ℕ) → get_or marks.new m false ≡ (get_or marks.old m false || get_or others.now m false) }
{
    for at in 0..marks.len() {
        marks[at] = marks[at] || others[at];
    }
}
