//! The lanes of one thread.
use crate::lane::Message;
use crate::lanes::Lanes;
use crate::plain_board::PlainBoard;
use crate::plain_receiver::{PlainReceiver, PlainTaken};
use crate::plain_sender::{PlainSender, PlainSent};
use morsel_meaning::Fault;
use std::alloc::Global;
use std::marker::PhantomData;
use std::snapshot::Snapshot;

/// Lanes of one thread, each a queue whose memory is taken as it is made, and groups of tokens. No value of it is needed.
#[derive(Drop)]
pub struct PlainLanes<T> {
    marker: PhantomData<T>,
}

impl<T: Message> Lanes<T> for PlainLanes<T> {
    type Sender = PlainSender<T>;

    type Receiver = PlainReceiver<T>;

    ghost room_of = { λ asked. asked };

    fn room(asked: u32) -> u32 {
        asked
    }

    fn lane(
        alloc: Global,
        board: &mut PlainBoard<T>,
        asked: u32,
        job: &T::Job,
    ) -> Result<(PlainSender<T>, PlainReceiver<T>), Fault> {
        let (index, sent, taken) = board.queues.add(alloc, asked, job)?;
        let sender = PlainSender {
            row: sent,
            index,
            room: asked,
            job: Snapshot::of(job),
        };
        let receiver = PlainReceiver {
            row: taken,
            index,
            job: Snapshot::of(job),
            ended: None,
        };
        Ok((sender, receiver))
    }

    fn history(
        board: &mut PlainBoard<T>,
        sender: &mut PlainSender<T>,
        receiver: &mut PlainReceiver<T>,
    ) {
        board
            .queues
            .look_history(sender.index, &mut sender.row, &mut receiver.row);
    }

    fn agree(board: &mut PlainBoard<T>, sent: PlainSent<T>, taken: PlainTaken<T>) {
        let PlainSent {
            row: mut sent,
            index,
        } = sent;
        let PlainTaken {
            row: mut taken,
            index: _,
        } = taken;
        board.queues.look_both(index, &mut sent, &mut taken);
    }
}
