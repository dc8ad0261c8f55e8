//! What the ends of a connector answer.
use crate::number::Crossing;
use morsel_meaning::{Fault, TaskNo};
use morsel_prims::{Cx, Ended, LaneReceiver, LaneSender, Poll, RecvError, SendError, Wakes};
use morsel_word_lanes::{Receiver, Sender, connector};
use std::alloc::Global;
use std::process::Abort;
use std::test::Fail;

/// The task that sends, and the one that receives.
const SENDING: TaskNo = TaskNo(1);

const RECEIVING: TaskNo = TaskNo(2);

/// A connector with its two ends, on the board between threads.
#[derive(Drop)]
struct Connected {
    cx: Cx<()>,
    sender: Sender<Crossing>,
    receiver: Receiver<Crossing>,
}

fn line_of(alloc: Global) -> Result<Connected, Fault> {
    let (sender, receiver) = connector(alloc, &())?;
    Ok(Connected {
        cx: Cx {
            me: SENDING,
            wakes: Wakes::new(alloc, 3)?,
            board: (),
        },
        sender,
        receiver,
    })
}

/// Whether the numbers from 7, so many, are sent.
fn fills(line: &mut Connected, count: u64) -> bool {
    let mut all = true;
    for number in 0..count {
        all = line.sender.try_send(&mut line.cx, Crossing(7 + number % 8)) == Ok(()) && all;
    }
    all
}

/// Whether the numbers from 7, so many, are taken, and then twice this end.
fn empties(
    mut cx: Cx<()>,
    mut receiver: Receiver<Crossing>,
    count: u64,
    end: Ended,
    refused: RecvError,
) -> bool {
    let mut all = true;
    for number in 0..count {
        all = receiver.try_recv(&mut cx) == Ok(Crossing(7 + number % 8)) && all;
    }
    let first = receiver.try_recv(&mut cx) == Err(refused);
    let second = receiver.poll_recv(&mut cx) == Poll::Ready(Err(end));
    all && first && second
}

#[test]
fn a_cut_connector_gives_what_it_has_and_ends_cut(rt: HostRuntime) -> Result<(), Fail> {
    for count in 0..2 {
        let mut line = line_of(rt.alloc())?;
        let filled = fills(&mut line, count);
        let Connected {
            mut cx,
            sender,
            receiver,
        } = line;
        sender.cut(&mut cx);
        let emptied = empties(cx, receiver, count, Ended::Cut, RecvError::Cut);
        assert!(rt; filled && emptied, "{count} numbers");
    }
    Ok(())
}

#[test]
fn a_finished_connector_gives_what_it_has_and_ends_whole(rt: HostRuntime) -> Result<(), Fail> {
    for count in 0..2 {
        let mut line = line_of(rt.alloc())?;
        let filled = fills(&mut line, count);
        let Connected {
            mut cx,
            sender,
            receiver,
        } = line;
        let _ = sender.finish(&mut cx);
        let emptied = empties(cx, receiver, count, Ended::Whole, RecvError::Whole);
        assert!(rt; filled && emptied, "{count} numbers");
    }
    Ok(())
}

fn fills_once(rt: &impl Abort, line: &mut Connected) {
    assert_eq!(rt; line.sender.len_bound(&mut line.cx), 0);
    assert_eq!(rt; line.sender.try_send(&mut line.cx, Crossing(7)), Ok(()));
    assert_eq!(rt;
        line.sender.try_send(&mut line.cx, Crossing(8)),
        Err(SendError::Full(Crossing(8)))
    );
    assert_eq!(rt; line.sender.len_bound(&mut line.cx), 1);
}

#[test]
fn a_full_connector_gives_the_value_back(rt: HostRuntime) -> Result<(), Fail> {
    let mut line = line_of(rt.alloc())?;
    fills_once(&rt, &mut line);
    Ok(())
}

fn waits_in_turn(rt: &impl Abort, line: &mut Connected) {
    let mut sending = line.sender.send(Crossing(7));
    assert!(rt; !sending.is_done());
    assert_eq!(rt;
        sending.poll(&mut line.sender, &mut line.cx),
        Poll::Ready(Ok(()))
    );
    assert!(rt; sending.is_done());
    let mut waiting = line.sender.send(Crossing(8));
    assert_eq!(rt; waiting.poll(&mut line.sender, &mut line.cx), Poll::Pending);
    assert!(rt; !waiting.is_done());
    line.cx.me = RECEIVING;
    let mut receiving = line.receiver.recv();
    assert_eq!(rt;
        receiving.poll(&mut line.receiver, &mut line.cx),
        Poll::Ready(Ok(Crossing(7)))
    );
    assert!(rt; receiving.is_done());
    assert_eq!(rt; line.cx.wakes.pop(), Some(SENDING));
}

#[test]
fn a_sending_waits_for_the_receiver(rt: HostRuntime) -> Result<(), Fail> {
    let mut line = line_of(rt.alloc())?;
    waits_in_turn(&rt, &mut line);
    Ok(())
}

fn is_woken(rt: &impl Abort, line: &mut Connected) {
    line.cx.me = RECEIVING;
    let mut receiving = line.receiver.recv();
    assert_eq!(rt;
        receiving.poll(&mut line.receiver, &mut line.cx),
        Poll::Pending
    );
    assert!(rt; !receiving.is_done());
    line.cx.me = SENDING;
    assert_eq!(rt; line.sender.try_send(&mut line.cx, Crossing(7)), Ok(()));
    assert_eq!(rt; line.cx.wakes.pop(), Some(RECEIVING));
}

#[test]
fn a_receiving_is_woken_by_a_value(rt: HostRuntime) -> Result<(), Fail> {
    let mut line = line_of(rt.alloc())?;
    is_woken(&rt, &mut line);
    Ok(())
}

#[test]
fn a_closed_connector_gives_the_value_back(rt: HostRuntime) -> Result<(), Fail> {
    for count in 0..2 {
        let mut line = line_of(rt.alloc())?;
        let filled = fills(&mut line, count);
        let Connected {
            mut cx,
            mut sender,
            receiver,
        } = line;
        receiver.cut(&mut cx);
        let answer = sender.try_send(&mut cx, Crossing(9));
        assert!(rt;
            filled && answer == Err(SendError::Closed(Crossing(9))),
            "{count} numbers"
        );
    }
    Ok(())
}
