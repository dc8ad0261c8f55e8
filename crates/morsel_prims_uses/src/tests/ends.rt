//! How a lane ends.
use super::line_of;
use crate::number::Number;
use crate::tests::line::{Closed, Line, Shut};
use morsel_prims::{Ended, Lanes, Poll, RecvError, SendError, Tokens};
use std::test::Fail;

/// Rooms, and how many numbers are sent into them.
const SENT: [(u32, u32); 10] = [
    (1, 0),
    (1, 1),
    (2, 0),
    (2, 1),
    (2, 2),
    (4, 0),
    (4, 1),
    (4, 2),
    (4, 3),
    (4, 4),
];

/// Sends so many numbers, from 0. Whether each was sent.
fn fill<L: Tokens + Lanes<Number>>(line: &mut Line<L>, count: u32) -> bool {
    let mut all = true;
    for number in 0..count {
        all = line.try_send(u64::from(number % 8)) == Ok(()) && all;
    }
    all
}

/// Whether the numbers from 0, so many, are taken, and then twice this end.
fn empties<L: Tokens + Lanes<Number>>(mut closed: Closed<L>, count: u32, end: Ended) -> bool {
    let mut all = true;
    for number in 0..count {
        all = closed.try_recv() == Ok(Number(u64::from(number % 8))) && all;
    }
    let refused = if end == Ended::Whole {
        RecvError::Whole
    } else {
        RecvError::Cut
    };
    let first = closed.try_recv() == Err(refused);
    let second = closed.poll_recv() == Poll::Ready(Err(end));
    all && first && second
}

/// Whether a lane that has so many numbers gives them, and ends whole.
fn ends_whole<L: Tokens + Lanes<Number>>(mut line: Line<L>, count: u32) -> bool {
    fill(&mut line, count) && empties(line.finish(), count, Ended::Whole)
}

/// Whether a lane that has so many numbers gives them, and ends cut.
fn ends_cut<L: Tokens + Lanes<Number>>(mut line: Line<L>, count: u32) -> bool {
    fill(&mut line, count) && empties(line.cut(), count, Ended::Cut)
}

/// Whether a lane that the receiver has cut gives nine back.
fn gives_back<L: Tokens + Lanes<Number>>(mut shut: Shut<L>) -> bool {
    let tried = shut.try_send(9) == Err(SendError::Closed(Number(9)));
    let polled = shut.poll_send(9) == (Poll::Ready(Err(Number(9))), None);
    tried && polled
}

/// Whether a full lane that its receiver cuts gives values back.
fn is_closed_first<L: Tokens + Lanes<Number>>(mut line: Line<L>, room: u32) -> bool {
    fill(&mut line, room) && gives_back(line.shut())
}

/// Whether a full lane gives nine back, leaves it with who waits for room, and says how many it has.
fn is_full<L: Tokens + Lanes<Number>>(mut line: Line<L>, room: u32) -> bool {
    let filled = fill(&mut line, room);
    let refused = line.try_send(9) == Err(SendError::Full(Number(9)));
    let waits = line.poll_send(9) == (Poll::Pending, Some(Number(9)));
    let held = line.len_bound() == room;
    line.look();
    filled && refused && waits && held
}

#[test]
fn a_finished_lane_gives_what_it_has_and_ends_whole(rt: HostRuntime) -> Result<(), Fail> {
    for (room, count) in SENT {
        let line = line_of(rt.alloc(), room)?;
        assert!(rt; ends_whole(line, count), "{count} in {room}");
    }
    Ok(())
}

#[test]
fn a_cut_lane_gives_what_it_has_and_ends_cut(rt: HostRuntime) -> Result<(), Fail> {
    for (room, count) in SENT {
        let line = line_of(rt.alloc(), room)?;
        assert!(rt; ends_cut(line, count), "{count} in {room}");
    }
    Ok(())
}

#[test]
fn a_lane_that_the_receiver_cut_gives_values_back(rt: HostRuntime) -> Result<(), Fail> {
    for room in [1, 2, 4] {
        let line = line_of(rt.alloc(), room)?;
        assert!(rt; is_closed_first(line, room), "room {room}");
    }
    Ok(())
}

#[test]
fn a_full_lane_gives_the_value_back(rt: HostRuntime) -> Result<(), Fail> {
    for room in [1, 2, 4] {
        let line = line_of(rt.alloc(), room)?;
        assert!(rt; is_full(line, room), "room {room}");
    }
    Ok(())
}

#[test]
fn an_empty_lane_is_settled(rt: HostRuntime) -> Result<(), Fail> {
    let line = line_of(rt.alloc(), 2)?;
    assert!(rt; line.settle().is_ok());
    Ok(())
}
