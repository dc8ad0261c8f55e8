//! The counts of the groups of one thread.
ghost use Rattle.std.specs.Prelude.{◌≡◌, ◌<◌, true, false, [], ◌∷◌, slice_get, length, Some, None, IfOk, OnOk, OnErr, IfErr};
ghost use Rattle.morsel_meaning.specs.declared.fault.Fault.TheVariants.{OutOfMemory};
ghost use Rattle.morsel_prims.specs.Counts.{AreCounted, CountsLess, CountsMore, CountsSame, HasNone, HasSome, OnlyGroup, group_of, group_waits_of, waits_if_last};
ghost use Rattle.morsel_prims.specs.Rows.{list_of_row};
ghost use Rattle.morsel_prims.specs.declared.plain_counts.GroupMark.TheVariants.{Group, Token, Released};

use crate::roll::{Roll, RollRow};
use morsel_meaning::{Fault, TaskNo};
use std::alloc::Global;

/// What a group or a token wrote: of which group it is, and that it was released.
#[derive(Clone, Copy, Drop)]
pub enum GroupMark {
    /// The group with this index.
    Group(usize),
    /// A token of the group with this index.
    Token(usize),
    /// The token was released.
    Released,
}

/// How many tokens of a group are not released, and who waits until none is left.
#[derive(Drop)]
pub struct GroupCount {
    /// How many of its tokens are not released.
    pub count: u64,
    /// Who waits until none is left.
    pub waits: Option<TaskNo>,
}

/// The counts of all groups of one thread.
#[derive(Drop)]
pub struct PlainCounts {
    /// What groups and tokens wrote.
    pub(crate) roll: Roll<GroupMark>,
    /// The count of each group.
    pub(crate) groups: Vec<GroupCount>,
    ghost kept: { AreCounted roll.seat.me.0.rows groups.items },
}

impl PlainCounts {
    /// No groups.
    pub fn new(alloc: Global) -> Result<PlainCounts, Fault>
        ensures empty { IfOk result (λ counts. (counts.roll.seat.me.0.rows ≡ []) × (counts.groups.items ≡ [])) }
        ensures out_of_memory { IfErr result (λ fault. fault ≡ OutOfMemory) }
    {
        let roll = Roll::new(alloc)?;
        Ok(PlainCounts {
            roll,
            groups: Vec::new(alloc),
        })
    }

    /// One more group, without tokens: its index and its row.
    pub fn add(&mut self) -> Result<(usize, RollRow<GroupMark>), Fault>
        ensures same_table { self.new.roll.seat.table_id ≡ self.old.roll.seat.table_id }
        ensures table { IfOk result (λ made. made.1.badge.table_id ≡ self.old.roll.seat.table_id) }
        ensures row { IfOk result (λ made. list_of_row made.1.badge.views ≡ Group made.0 ∷ []) }
        ensures none { IfOk result (λ made. HasNone (slice_get self.new.groups.items made.0)) }
        ensures nobody { IfOk result (λ made. group_waits_of (slice_get self.new.groups.items made.0) ≡ None) }
        ensures last { IfOk result (λ made. made.0 ≡ length self.old.groups.items) }
        ensures others { IfOk result (λ made. OnlyGroup made.0 self.old.groups.items self.new.groups.items) }
        ensures out_of_memory { IfErr result (λ fault. fault ≡ OutOfMemory) }
        ensures err { OnErr result ((self.new.groups.items ≡ self.old.groups.items) × (self.new.roll.seat.me.0.rows ≡ self.old.roll.seat.me.0.rows)) }
    {
        self.groups.reserve(1)?;
        let PlainCounts { roll, groups } = self;
        let index = groups.len();
        let row = roll.begin(&GroupMark::Group(index));
        groups.push_reserved(GroupCount {
            count: 0,
            waits: None,
        });
        Ok((index, row))
    }

    /// One more token of the group of this row: its row.
    ///
    /// A count has 64 bits. At their end the answer is that memory is out.
    pub fn count_one(
        &mut self,
        index: usize,
        mine: &mut RollRow<GroupMark>,
    ) -> Result<RollRow<GroupMark>, Fault>
        requires table { mine.old.badge.table_id ≡ self.old.roll.seat.table_id }
        requires group { group_of (list_of_row mine.old.badge.views) ≡ Some index }
        ensures same_table { (self.new.roll.seat.table_id ≡ self.old.roll.seat.table_id) × (mine.new.badge.table_id ≡ mine.old.badge.table_id) }
        ensures same_row { mine.new.badge.views ≡ mine.old.badge.views }
        ensures table { IfOk result (λ row. row.badge.table_id ≡ self.old.roll.seat.table_id) }
        ensures row { IfOk result (λ row. list_of_row row.badge.views ≡ Token index ∷ []) }
        ensures counted { OnOk result (CountsMore (slice_get self.old.groups.items index) (slice_get self.new.groups.items index)) }
        ensures others { OnlyGroup index self.old.groups.items self.new.groups.items }
        ensures out_of_memory { IfErr result (λ fault. fault ≡ OutOfMemory) }
        ensures err { OnErr result ((self.new.groups.items ≡ self.old.groups.items) × (self.new.roll.seat.me.0.rows ≡ self.old.roll.seat.me.0.rows)) }
    {
        let PlainCounts { roll, groups } = self;
        roll.look(mine);
        let group = &mut groups[index];
        let Some(count) = group.count.checked_add(1) else {
            return Err(Fault::OutOfMemory);
        };
        group.count = count;
        Ok(roll.begin(&GroupMark::Token(index)))
    }

    /// The token of this row is counted no more. The task that waits until none is left is handed out where none is.
    pub fn release(&mut self, index: usize, mine: &mut RollRow<GroupMark>) -> Option<TaskNo>
        requires table { mine.old.badge.table_id ≡ self.old.roll.seat.table_id }
        requires token { list_of_row mine.old.badge.views ≡ Token index ∷ [] }
        ensures same_table { self.new.roll.seat.table_id ≡ self.old.roll.seat.table_id }
        ensures counted { CountsLess (slice_get self.old.groups.items index) (slice_get self.new.groups.items index) }
        ensures woken { result ≡ waits_if_last (slice_get self.old.groups.items index) }
        ensures others { OnlyGroup index self.old.groups.items self.new.groups.items }
    {
        let PlainCounts { roll, groups } = self;
        roll.write(mine, &GroupMark::Released);
        let group = &mut groups[index];
        group.count -= 1;
        if group.count > 0 {
            return None;
        }
        group.waits.take()
    }

    /// Whether no token of the group is left. Where one is, the task waits.
    pub fn wait(&mut self, index: usize, mine: &mut RollRow<GroupMark>, task: TaskNo) -> bool
        requires table { mine.old.badge.table_id ≡ self.old.roll.seat.table_id }
        requires group { group_of (list_of_row mine.old.badge.views) ≡ Some index }
        ensures same_table { (self.new.roll.seat.table_id ≡ self.old.roll.seat.table_id) × (mine.new.badge.table_id ≡ mine.old.badge.table_id) }
        ensures same_row { mine.new.badge.views ≡ mine.old.badge.views }
        ensures none { result ≡ true → HasNone (slice_get self.new.groups.items index) }
        ensures tokens { result ≡ false → HasSome (slice_get self.new.groups.items index) }
        ensures same_count { CountsSame (slice_get self.old.groups.items index) (slice_get self.new.groups.items index) }
        ensures same_groups { result ≡ true → self.new.groups.items ≡ self.old.groups.items }
        ensures rows { self.new.roll.seat.me.0.rows ≡ self.old.roll.seat.me.0.rows }
        ensures waits { result ≡ false → group_waits_of (slice_get self.new.groups.items index) ≡ Some task }
        ensures others { OnlyGroup index self.old.groups.items self.new.groups.items }
    {
        let PlainCounts { roll, groups } = self;
        roll.look(mine);
        let group = &mut groups[index];
        if group.count == 0 {
            return true;
        }
        group.waits = Some(task);
        false
    }
}
