//! What went into a pipe is what came out of it, by the receipts of all its ends.
//!
//! There is one function for each pairing of serial and parallel ends. It lets the receipts of the two ends of each lane
//! agree, and ensures that the loads that were taken are those that were sent, each as often, and that their numbers
//! never fall where they never fall at any sender.
ghost use Rattle.std.specs.Prelude.{◌≡◌, All, map};
ghost use Rattle.morsel_load.specs.Loads.{load_seen};
ghost use Rattle.morsel_merge.specs.Merging.{AreSpread, IsMerged};
ghost use Rattle.morsel_lane_pipe.specs.Tasks.{by_seq};
ghost use Rattle.morsel_lane_pipe.specs.Settled.{SeqsNeverFall, SeqsNeverFallEach};

use crate::receipts::{SentOf, TakenOf};
use morsel_load::{Load, LoadJob};
use morsel_prims::{Lanes, Tokens};

/// What was sent through each lane is what was taken from it: the pairings whose ends are of the same lanes.
pub fn settle_lanes<
    L: Tokens + Lanes<Load<<L as Tokens>::Token, J>>,
    J: LoadJob<<L as Tokens>::Token>,
>(board: &mut L::Board, sent: Vec<SentOf<L, J>>, taken: Vec<TakenOf<L, J>>)
    requires homes { All (λ s. L.Sender.receipt_home s ≡ (L.Board.id board.old).lane_table) sent.items × All (λ r. L.Receiver.receipt_home r ≡ (L.Board.id board.old).lane_table) taken.items }
    requires lanes { map L.Sender.receipt_lane sent.items ≡ map L.Receiver.receipt_lane taken.items }
    ensures same { map L.Sender.all_sent sent.items ≡ map L.Receiver.all_taken taken.items }
    ensures same_board { L.Board.id board.new ≡ L.Board.id board.old }
{
    let mut others = taken.into_iter();
    'lanes: for one in sent {
        let Some(other) = others.next() else {
            unreachable!()
        };
        L::agree(board, one, other);
    }
}

/// Where several sending ends are merged into one receiving end: all loads come out, by number.
///
/// `into_taken` and `into_sent` tell of the inserting tasks, in order of lanes, and `merged_taken` and `merged_sent` of the
/// merging one.
pub fn settle_merged<
    L: Tokens + Lanes<Load<<L as Tokens>::Token, J>>,
    J: LoadJob<<L as Tokens>::Token>,
>(
    board: &mut L::Board,
    sent: Vec<SentOf<L, J>>,
    into_taken: Vec<TakenOf<L, J>>,
    into_sent: Vec<SentOf<L, J>>,
    merged_taken: Vec<TakenOf<L, J>>,
    merged_sent: SentOf<L, J>,
    taken: TakenOf<L, J>,
)
    requires sent_homes { All (λ s. L.Sender.receipt_home s ≡ (L.Board.id board.old).lane_table) sent.items × All (λ s. L.Sender.receipt_home s ≡ (L.Board.id board.old).lane_table) into_sent.items × (L.Sender.receipt_home merged_sent ≡ (L.Board.id board.old).lane_table) }
    requires taken_homes { All (λ r. L.Receiver.receipt_home r ≡ (L.Board.id board.old).lane_table) into_taken.items × All (λ r. L.Receiver.receipt_home r ≡ (L.Board.id board.old).lane_table) merged_taken.items × (L.Receiver.receipt_home taken ≡ (L.Board.id board.old).lane_table) }
    requires first_lanes { map L.Sender.receipt_lane sent.items ≡ map L.Receiver.receipt_lane into_taken.items }
    requires inner_lanes { map L.Sender.receipt_lane into_sent.items ≡ map L.Receiver.receipt_lane merged_taken.items }
    requires last_lane { L.Sender.receipt_lane merged_sent ≡ L.Receiver.receipt_lane taken }
    // What the outputs of the tasks say (`gives`).
    requires inserted { map (λ r. map load_seen (L.Receiver.all_taken r)) into_taken.items ≡ map (λ s. map load_seen (L.Sender.all_sent s)) into_sent.items }
    requires merged { IsMerged by_seq (map L.Receiver.all_taken merged_taken.items) (L.Sender.all_sent merged_sent) }
    ensures once { AreSpread (map (λ s. map load_seen (L.Sender.all_sent s)) sent.items) (map load_seen (L.Receiver.all_taken taken)) }
    ensures in_order { SeqsNeverFallEach (map (λ s. map load_seen (L.Sender.all_sent s)) sent.items) → SeqsNeverFall (map load_seen (L.Receiver.all_taken taken)) }
    ensures same_board { L.Board.id board.new ≡ L.Board.id board.old }
{
    settle_lanes::<L, J>(board, sent, into_taken);
    settle_lanes::<L, J>(board, into_sent, merged_taken);
    L::agree(board, merged_sent, taken);
}

/// Where one sending end is spread over several receiving ends: each load comes out of one of them.
///
/// `spread_taken` and `spread_sent` tell of the distributing task, and `on_taken` and `on_sent` of the tasks that hand on,
/// in order of lanes.
pub fn settle_spread<
    L: Tokens + Lanes<Load<<L as Tokens>::Token, J>>,
    J: LoadJob<<L as Tokens>::Token>,
>(
    board: &mut L::Board,
    sent: SentOf<L, J>,
    spread_taken: TakenOf<L, J>,
    spread_sent: Vec<SentOf<L, J>>,
    on_taken: Vec<TakenOf<L, J>>,
    on_sent: Vec<SentOf<L, J>>,
    taken: Vec<TakenOf<L, J>>,
)
    requires sent_homes { All (λ s. L.Sender.receipt_home s ≡ (L.Board.id board.old).lane_table) spread_sent.items × All (λ s. L.Sender.receipt_home s ≡ (L.Board.id board.old).lane_table) on_sent.items × (L.Sender.receipt_home sent ≡ (L.Board.id board.old).lane_table) }
    requires taken_homes { All (λ r. L.Receiver.receipt_home r ≡ (L.Board.id board.old).lane_table) on_taken.items × All (λ r. L.Receiver.receipt_home r ≡ (L.Board.id board.old).lane_table) taken.items × (L.Receiver.receipt_home spread_taken ≡ (L.Board.id board.old).lane_table) }
    requires first_lane { L.Sender.receipt_lane sent ≡ L.Receiver.receipt_lane spread_taken }
    requires inner_lanes { map L.Sender.receipt_lane spread_sent.items ≡ map L.Receiver.receipt_lane on_taken.items }
    requires last_lanes { map L.Sender.receipt_lane on_sent.items ≡ map L.Receiver.receipt_lane taken.items }
    // What the outputs of the tasks say (`gives`).
    requires spread { AreSpread (map (λ s. map load_seen (L.Sender.all_sent s)) spread_sent.items) (map load_seen (L.Receiver.all_taken spread_taken)) }
    requires handed_on { map (λ r. map load_seen (L.Receiver.all_taken r)) on_taken.items ≡ map (λ s. map load_seen (L.Sender.all_sent s)) on_sent.items }
    ensures once { AreSpread (map (λ r. map load_seen (L.Receiver.all_taken r)) taken.items) (map load_seen (L.Sender.all_sent sent)) }
    ensures in_order { SeqsNeverFall (map load_seen (L.Sender.all_sent sent)) → SeqsNeverFallEach (map (λ r. map load_seen (L.Receiver.all_taken r)) taken.items) }
    ensures same_board { L.Board.id board.new ≡ L.Board.id board.old }
{
    L::agree(board, sent, spread_taken);
    settle_lanes::<L, J>(board, spread_sent, on_taken);
    settle_lanes::<L, J>(board, on_sent, taken);
}
