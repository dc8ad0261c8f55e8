//! What the ends of a lane between threads answer, as a caller has them.
ghost use Rattle.std.specs.Prelude.{◌≡◌, ◌<◌};

use morsel_meaning::TaskNo;
use morsel_prims::{Message, RecvError, SendError};
use morsel_words::{WordReceiver, WordSender, WordSent, agree_receipts, word_lane};
use std::process::Abort;
use std::test::Fail;

/// A number below the lane's job.
#[derive(Clone, Copy, Debug, Drop, PartialEq, Eq)]
struct Number(u64);

impl Message for Number {
    ghost use Rattle.std.specs.Prelude.{◌<◌};

    type Job = u64;

    ghost suits = { λ bound number. number.0 < bound };
}

fn fills_once(rt: &impl Abort, sender: &mut WordSender<Number>) -> Result<(), Fail>
    requires { 8 < sender.old.job }
{
    assert_eq!(rt; sender.len_bound(), 0);
    assert_eq!(rt; sender.send(Number(7)), Ok(None));
    assert_eq!(rt; sender.send(Number(8)), Err(SendError::Full(Number(8))));
    assert_eq!(rt; sender.len_bound(), 1);
    Ok(())
}

#[test]
fn a_full_lane_gives_the_value_back(rt: HostRuntime) -> Result<(), Fail> {
    let (mut sender, _) = word_lane::<Number>(rt.alloc(), &10)?;
    fills_once(&rt, &mut sender)
}

fn waits_when_full(rt: &impl Abort, sender: &mut WordSender<Number>) -> Result<(), Fail>
    requires { 8 < sender.old.job }
{
    assert_eq!(rt; sender.wait(TaskNo(3), Number(7)), Ok(None));
    assert_eq!(rt;
        sender.wait(TaskNo(3), Number(8)),
        Err(SendError::Full(Number(8)))
    );
    assert_eq!(rt;
        sender.wait(TaskNo(4), Number(8)),
        Err(SendError::Full(Number(8)))
    );
    assert_eq!(rt; sender.send(Number(8)), Err(SendError::Full(Number(8))));
    Ok(())
}

#[test]
fn who_waits_at_a_full_lane_has_the_value_back(rt: HostRuntime) -> Result<(), Fail> {
    let (mut sender, _) = word_lane::<Number>(rt.alloc(), &10)?;
    waits_when_full(&rt, &mut sender)
}

fn takes_in_turn(
    rt: &impl Abort,
    sender: &mut WordSender<Number>,
    receiver: &mut WordReceiver<Number>,
) -> Result<(), Fail>
    requires { 8 < sender.old.job }
{
    assert_eq!(rt; receiver.receive(), Err(RecvError::Empty));
    assert_eq!(rt; sender.send(Number(7)), Ok(None));
    assert_eq!(rt; receiver.receive(), Ok((Number(7), None)));
    assert_eq!(rt; sender.send(Number(8)), Ok(None));
    assert_eq!(rt; receiver.receive(), Ok((Number(8), None)));
    assert_eq!(rt; receiver.receive(), Err(RecvError::Empty));
    Ok(())
}

#[test]
fn what_is_sent_is_received_in_turn(rt: HostRuntime) -> Result<(), Fail> {
    let (mut sender, mut receiver) = word_lane::<Number>(rt.alloc(), &10)?;
    takes_in_turn(&rt, &mut sender, &mut receiver)
}

fn names_who_waits(
    rt: &impl Abort,
    sender: &mut WordSender<Number>,
    receiver: &mut WordReceiver<Number>,
) -> Result<(), Fail>
    requires { 9 < sender.old.job }
{
    assert_eq!(rt; receiver.wait(TaskNo(5)), Err(RecvError::Empty));
    assert_eq!(rt; sender.send(Number(7)), Ok(Some(TaskNo(5))));
    assert_eq!(rt;
        sender.wait(TaskNo(3), Number(8)),
        Err(SendError::Full(Number(8)))
    );
    assert_eq!(rt; receiver.wait(TaskNo(5)), Ok((Number(7), Some(TaskNo(3)))));
    assert_eq!(rt; sender.wait(TaskNo(3), Number(8)), Ok(None));
    assert_eq!(rt; receiver.receive(), Ok((Number(8), None)));
    Ok(())
}

#[test]
fn who_waits_is_named_to_the_other_end(rt: HostRuntime) -> Result<(), Fail> {
    let (mut sender, mut receiver) = word_lane::<Number>(rt.alloc(), &10)?;
    names_who_waits(&rt, &mut sender, &mut receiver)
}

fn takes_one_then(
    rt: &impl Abort,
    receiver: &mut WordReceiver<Number>,
    end: RecvError,
) -> Result<(), Fail> {
    assert_eq!(rt; receiver.receive(), Ok((Number(7), None)));
    assert_eq!(rt; receiver.receive(), Err(end));
    assert_eq!(rt; receiver.wait(TaskNo(5)), Err(end));
    Ok(())
}

#[test]
fn a_value_comes_before_the_cut(rt: HostRuntime) -> Result<(), Fail> {
    let (mut sender, mut receiver) = word_lane::<Number>(rt.alloc(), &10)?;
    let sent = sender.send(Number(7));
    let waiting = sender.cut();
    assert_eq!(&rt; sent, Ok(None));
    assert_eq!(&rt; waiting, None);
    takes_one_then(&rt, &mut receiver, RecvError::Cut)
}

/// Whether the receiver finds nothing left, and so what was sent is what was taken.
fn settles(sent: WordSent<Number>, mut receiver: WordReceiver<Number>) -> bool
    requires { sent.table ≡ receiver.table }
{
    match receiver.receive() {
        Err(RecvError::Whole) => {
            agree_receipts(sent, receiver.receipt());
            true
        }
        _ => false,
    }
}

#[test]
fn a_finished_lane_is_settled(rt: HostRuntime) -> Result<(), Fail> {
    let (sender, mut receiver) = word_lane::<Number>(rt.alloc(), &10)?;
    let asked = receiver.wait(TaskNo(5));
    let (receipt, waiting) = sender.finish();
    assert!(&rt;
        asked == Err(RecvError::Empty) && waiting == Some(TaskNo(5)) && settles(receipt, receiver)
    );
    Ok(())
}

#[test]
fn a_value_comes_before_the_whole_end(rt: HostRuntime) -> Result<(), Fail> {
    let (mut sender, mut receiver) = word_lane::<Number>(rt.alloc(), &10)?;
    let sent = sender.send(Number(7));
    let (_, waiting) = sender.finish();
    assert!(&rt; sent == Ok(None) && waiting.is_none());
    takes_one_then(&rt, &mut receiver, RecvError::Whole)
}

#[test]
fn a_closed_lane_gives_the_value_back(rt: HostRuntime) -> Result<(), Fail> {
    let (mut sender, receiver) = word_lane::<Number>(rt.alloc(), &10)?;
    let filled = sender.send(Number(7));
    let full = sender.wait(TaskNo(3), Number(8));
    let waiting = receiver.cut();
    assert!(&rt; filled == Ok(None) && full == Err(SendError::Full(Number(8))));
    assert_eq!(&rt; waiting, Some(TaskNo(3)));
    assert_eq!(&rt; sender.send(Number(8)), Err(SendError::Closed(Number(8))));
    Ok(())
}
