//! A pipe: the board that it works on, its open ends, and the tasks between them, over any lanes.
ghost use Rattle.std.specs.Prelude.{◌≡◌, ◌≤◌, [], All, IfOk};
ghost use Rattle.morsel_merge.specs.Ends.{IsNewReceiver, IsNewSender};
ghost use Rattle.morsel_load.specs.Loads.{LoadSeen};
ghost use Rattle.morsel_lane_pipe.specs.Tasks.{HoldsTokensOf};
ghost use Rattle.morsel_lane_pipe_uses.specs.Sites.{HoldsTokenAt, IsEndAt};

use crate::tests::between::{consume_held, poll_once, send_through, take_into, token_of};
use crate::tests::made::MakesTasks;
use crate::tests::numbered::{counted_load, load_of};
use crate::tests::piped::{Ends, Piped, SendAnswer};
use morsel_lane_pipe::{LoadOf, PipeOut, ReceiptsOf};
use morsel_load::{Load, LoadJob};
use morsel_meaning::{Fault, TaskNo};
use morsel_merge::Inserter;
use morsel_prims::{Cx, LaneReceiver, LaneSender, Lanes, Poll, RecvError, Task, Tokens, Wakes};
use std::alloc::Global;
use std::marker::Model;
use std::mem::drop;
use std::snapshot::Snapshot;

/// How many tasks may be woken.
const TASKS: u32 = 8;

/// A pipe: its ends that are open, the load that was taken last, the group of the last token, and its tasks that have not
/// ended.
#[derive(Drop)]
pub struct Pipe<L, J, T>
where
    L: Tokens + Lanes<Load<<L as Tokens>::Token, J>>,
    J: LoadJob<<L as Tokens>::Token>,
    T: Task<L::Board> + Drop,
{
    job: Snapshot<J>,
    // The room that each lane asks for.
    room: u32,
    cx: Cx<L::Board>,
    entries: Vec<L::Sender>,
    exits: Vec<L::Receiver>,
    // What was taken, and is not consumed.
    held: Option<LoadOf<L, J>>,
    // The group of the token that was made last.
    group: Option<L::Group>,
    // By their numbers.
    tasks: Vec<Option<T>>,
    ended: Ends,
}

impl<L, J, T> Model for Pipe<L, J, T>
where
    L: Tokens + Lanes<Load<<L as Tokens>::Token, J>>,
    J: LoadJob<<L as Tokens>::Token>,
    T: Task<L::Board> + Drop,
{
    ghost use Rattle.std.specs.Prelude.{◌≡◌, ◌≤◌, All, IfSome};
    ghost use Rattle.morsel_load.specs.Loads.{LoadSeen};
    ghost use Rattle.morsel_lane_pipe.specs.Tasks.{HoldsTokensOf};
    ghost use Rattle.morsel_lane_pipe_uses.specs.Sites.{AreEnds, SiteSeen};

    ghost Value = { SiteSeen J };

    ghost view = { λ pipe. record { job = pipe.job.value; room = pipe.room; board = L.Board.id pipe.cx.board } };

    // Its lanes carry any loads, and its ends, tokens and tasks are of its board.
    ghost invariant = { λ pipe. ((load : LoadSeen) → J.suits pipe.job.value load)
        × HoldsTokensOf J.holds L.token_home pipe.job.value (L.Board.id pipe.cx.board).group_table
        × ((1 ≤ pipe.room) × (pipe.room ≤ 65536))
        × AreEnds L.Sender.home L.Sender.job L.Receiver.home L.Receiver.job L.token_home L.group_home (record { job = pipe.job.value; room = pipe.room; board = L.Board.id pipe.cx.board }) pipe.entries.items pipe.exits.items pipe.held pipe.group
        × All (λ task. IfSome task (T.can_poll (L.Board.id pipe.cx.board))) pipe.tasks.items };
}

impl<L, J, T> Pipe<L, J, T>
where
    L: Tokens + Lanes<Load<<L as Tokens>::Token, J>>,
    J: LoadJob<<L as Tokens>::Token>,
    T: Task<L::Board> + Drop,
{
    /// No ends and no tasks, on this board, for this job. Each lane asks for this room.
    pub fn new(alloc: Global, board: L::Board, job: &J, room: u32) -> Result<Pipe<L, J, T>, Fault>
        requires any { (load : LoadSeen) → J.suits job.now load }
        requires tokens { HoldsTokensOf J.holds L.token_home job.now (L.Board.id board).group_table }
        requires asked { (1 ≤ room) × (room ≤ 65536) }
        ensures job { IfOk result (λ pipe. pipe.job ≡ job.now) }
    {
        let wakes = Wakes::new(alloc, TASKS)?;
        let cx = Cx {
            me: TaskNo(0),
            wakes,
            board,
        };
        Ok(Pipe {
            job: Snapshot::of(job),
            room,
            cx,
            entries: Vec::new(alloc),
            exits: Vec::new(alloc),
            held: None,
            group: None,
            tasks: Vec::new(alloc),
            ended: Ends::default(),
        })
    }

    /// A lane for the pipe's job: its two ends.
    fn lane(&mut self, alloc: Global, job: &J) -> Result<(L::Sender, L::Receiver), Fault>
        requires same_job { job.now ≡ self.old.job }
        ensures sender { IfOk result (λ ends. IsEndAt self.old (L.Sender.home ends.0) (L.Sender.job ends.0)) }
        ensures receiver { IfOk result (λ ends. IsEndAt self.old (L.Receiver.home ends.1) (L.Receiver.job ends.1)) }
        ensures fresh { IfOk result (λ ends. (L.Sender.sent ends.0 ≡ []) × (L.Receiver.taken ends.1 ≡ [])) }
        ensures same { self.new ≡ self.old }
    {
        L::lane(alloc, &mut self.cx.board, self.room, job)
    }

    /// A lane into the pipe: keeps its sending end, and gives its receiving end.
    pub fn enter(&mut self, alloc: Global, job: &J) -> Result<L::Receiver, Fault>
        requires same_job { job.now ≡ self.old.job }
        ensures of_site { IfOk result (λ end. IsEndAt self.old (L.Receiver.home end) (L.Receiver.job end)) }
        ensures fresh { IfOk result (λ end. L.Receiver.taken end ≡ []) }
        ensures same { self.new ≡ self.old }
    {
        let (sender, receiver) = self.lane(alloc, job)?;
        self.entries.push(sender)?;
        Ok(receiver)
    }

    /// A lane out of the pipe: keeps its receiving end, and gives its sending end.
    pub fn leave(&mut self, alloc: Global, job: &J) -> Result<L::Sender, Fault>
        requires same_job { job.now ≡ self.old.job }
        ensures of_site { IfOk result (λ end. IsEndAt self.old (L.Sender.home end) (L.Sender.job end)) }
        ensures fresh { IfOk result (λ end. L.Sender.sent end ≡ []) }
        ensures same { self.new ≡ self.old }
    {
        let (sender, receiver) = self.lane(alloc, job)?;
        self.exits.push(receiver)?;
        Ok(sender)
    }

    /// One lane through the pipe, without a task.
    pub fn pass(&mut self, alloc: Global, job: &J) -> Result<(), Fault>
        requires same_job { job.now ≡ self.old.job }
        ensures same { self.new ≡ self.old }
    {
        let receiver = self.enter(alloc, job)?;
        self.exits.push(receiver)?;
        Ok(())
    }

    /// Puts a task last, and makes it ready.
    pub fn push(&mut self, task: T) -> Result<(), Fault>
        requires may_poll { T.can_poll (self.old.board) task }
        ensures same { self.new ≡ self.old }
    {
        let number = self.tasks.len();
        self.tasks.push(Some(task))?;
        self.ended.open = self.ended.open.saturating_add(1);
        if number < TASKS as usize {
            self.cx.wakes.wake(Some(TaskNo(number as u32)));
        }
        Ok(())
    }

    /// Sends a load through an end that is open.
    fn send_load(&mut self, at: usize, load: LoadOf<L, J>) -> Option<SendAnswer>
        requires token { HoldsTokenAt L.token_home self.old load }
        ensures same { self.new ≡ self.old }
    {
        if self.entries.len() <= at {
            drop(load);
            return None;
        }
        Some(send_through::<L, J>(&mut self.entries[at], &mut self.cx, load))
    }

    /// The one token of a new group, which is kept.
    fn token(&mut self, alloc: Global) -> Result<L::Token, Fault>
        ensures token { IfOk result (λ token. L.token_home token ≡ self.old.board.group_table) }
        ensures same { self.new ≡ self.old }
    {
        token_of::<L>(alloc, &mut self.cx, &mut self.group)
    }

    /// Polls the task of this number, unless it has ended.
    fn poll(&mut self, number: TaskNo) -> Option<T::Out>
        ensures same { self.new ≡ self.old }
    {
        let at = number.0 as usize;
        if at >= self.tasks.len() {
            return None;
        }
        self.cx.me = number;
        poll_once(&mut self.cx, &mut self.tasks[at])
    }
}

impl<L, J, T> Piped for Pipe<L, J, T>
where
    L: Tokens + Lanes<Load<<L as Tokens>::Token, J>>,
    J: LoadJob<<L as Tokens>::Token>,
    T: Task<L::Board, Out = PipeOut<ReceiptsOf<L, J>>> + Drop,
{
    fn entries(&self) -> usize {
        self.entries.len()
    }

    fn exits(&self) -> usize {
        self.exits.len()
    }

    fn send(&mut self, alloc: Global, at: usize, number: u32) -> Result<Option<SendAnswer>, Fault> {
        let load = load_of(alloc, number)?;
        Ok(self.send_load(at, load))
    }

    fn send_counted(
        &mut self,
        alloc: Global,
        at: usize,
        number: u32,
    ) -> Result<Option<SendAnswer>, Fault> {
        let token = self.token(alloc)?;
        let load = counted_load(alloc, number, token)?;
        Ok(self.send_load(at, load))
    }

    fn is_counted(&mut self) -> bool {
        match &mut self.group {
            Some(group) => L::poll_wait(&mut self.cx, group) == Poll::Pending,
            None => false,
        }
    }

    fn take(&mut self, at: usize) -> Option<Result<(), RecvError>> {
        if self.exits.len() <= at {
            return None;
        }
        Some(take_into::<L, J>(&mut self.exits[at], &mut self.cx, &self.job, &mut self.held))
    }

    fn consume(&mut self) -> Option<u64> {
        consume_held::<L, J>(&mut self.cx, &mut self.held)
    }

    fn finish(&mut self) {
        if let Some(end) = self.entries.pop() {
            end.finish(&mut self.cx);
        }
    }

    fn cut(&mut self) {
        if let Some(end) = self.entries.pop() {
            end.cut(&mut self.cx);
        }
    }

    fn close(&mut self) {
        if let Some(end) = self.exits.pop() {
            end.cut(&mut self.cx);
        }
    }

    fn step(&mut self) -> bool {
        let Some(number) = self.cx.wakes.pop() else {
            return false;
        };
        if let Some(out) = self.poll(number) {
            self.ended.count(&out);
        }
        true
    }

    fn ends(&self) -> Ends {
        self.ended
    }
}

/// The task behind the two lanes of a linearizer, and the sending ends of the lanes.
pub fn merging<L, J, M>(
    alloc: Global,
    pipe: &mut Pipe<L, J, M::Made>,
    job: &J,
    to: L::Sender,
) -> Result<(M::Made, Vec<Inserter<LoadOf<L, J>, L>>), Fault>
where
    L: Tokens + Lanes<Load<<L as Tokens>::Token, J>>,
    J: LoadJob<<L as Tokens>::Token>,
    M: MakesTasks<L, J>,
    requires same_job { job.now ≡ pipe.old.job }
    requires of_site { IsEndAt pipe.old (L.Sender.home to) (L.Sender.job to) }
    requires fresh { L.Sender.sent to ≡ [] }
    ensures may_poll { IfOk result (λ made. M.Made.can_poll (pipe.old.board) made.0) }
    ensures inserters { IfOk result (λ made. All (λ inserter. IsNewSender L.Sender.home L.Sender.job L.Sender.room L.Sender.sent pipe.old.board.lane_table job.now (L.room_of pipe.old.room) inserter.sender) made.1.items) }
    ensures same { pipe.new ≡ pipe.old }
{
    M::merging(alloc, &mut pipe.cx.board, pipe.room, job, to)
}

/// The task before the two lanes of a distributor, and the receiving ends of the lanes. The seed says which lanes are drawn.
pub fn distributing<L, J, M>(
    alloc: Global,
    pipe: &mut Pipe<L, J, M::Made>,
    job: &J,
    from: L::Receiver,
    seed: u64,
) -> Result<(M::Made, Vec<L::Receiver>), Fault>
where
    L: Tokens + Lanes<Load<<L as Tokens>::Token, J>>,
    J: LoadJob<<L as Tokens>::Token>,
    M: MakesTasks<L, J>,
    requires same_job { job.now ≡ pipe.old.job }
    requires of_site { IsEndAt pipe.old (L.Receiver.home from) (L.Receiver.job from) }
    requires fresh { L.Receiver.taken from ≡ [] }
    ensures may_poll { IfOk result (λ made. M.Made.can_poll (pipe.old.board) made.0) }
    ensures receivers { IfOk result (λ made. All (IsNewReceiver L.Receiver.home L.Receiver.job L.Receiver.taken L.Receiver.is_whole L.Receiver.is_cut pipe.old.board.lane_table job.now) made.1.items) }
    ensures same { pipe.new ≡ pipe.old }
{
    M::distributing(alloc, &mut pipe.cx.board, pipe.room, job, from, seed)
}

/// The task before a lane of a linearizer.
pub fn inserting<L, J, M>(
    alloc: Global,
    pipe: &mut Pipe<L, J, M::Made>,
    from: L::Receiver,
    to: L::Sender,
) -> Result<M::Made, Fault>
where
    L: Tokens + Lanes<Load<<L as Tokens>::Token, J>>,
    J: LoadJob<<L as Tokens>::Token>,
    M: MakesTasks<L, J>,
    requires from_site { IsEndAt pipe.old (L.Receiver.home from) (L.Receiver.job from) }
    requires to_site { IsEndAt pipe.old (L.Sender.home to) (L.Sender.job to) }
    requires fresh { (L.Receiver.taken from ≡ []) × (L.Sender.sent to ≡ []) }
    ensures may_poll { IfOk result (M.Made.can_poll (pipe.old.board)) }
    ensures same { pipe.new ≡ pipe.old }
{
    M::inserting(alloc, &mut pipe.cx.board, from, to)
}

/// The task behind a lane of a distributor.
pub fn handing_on<L, J, M>(
    alloc: Global,
    pipe: &mut Pipe<L, J, M::Made>,
    from: L::Receiver,
    to: L::Sender,
) -> Result<M::Made, Fault>
where
    L: Tokens + Lanes<Load<<L as Tokens>::Token, J>>,
    J: LoadJob<<L as Tokens>::Token>,
    M: MakesTasks<L, J>,
    requires from_site { IsEndAt pipe.old (L.Receiver.home from) (L.Receiver.job from) }
    requires to_site { IsEndAt pipe.old (L.Sender.home to) (L.Sender.job to) }
    requires fresh { (L.Receiver.taken from ≡ []) × (L.Sender.sent to ≡ []) }
    ensures may_poll { IfOk result (M.Made.can_poll (pipe.old.board)) }
    ensures same { pipe.new ≡ pipe.old }
{
    M::handing_on(alloc, &mut pipe.cx.board, from, to)
}
