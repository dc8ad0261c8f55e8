//! How many rows are cut into morsels.
ghost use Rattle.std.specs.Prelude.{◌≡◌, ◌≤◌, ◌<◌, ◌+◌, ◌∷◌, [], MatchOption};
ghost use Rattle.std.specs.Iterator.{YieldsFirst, item_count};
ghost use Rattle.morsel_load.specs.Splits.{HaveLengths, StandWithoutGaps, rows_per_piece, pieces_from};

use std::marker::Model;

/// The pieces of some rows that are still to come, each by its offset and its length.
#[derive(Drop)]
pub struct Pieces {
    // Where the next piece begins.
    at: u64,
    // How many rows there are.
    height: u64,
    // How many rows each piece has but the last.
    rows: u64,
}

impl Model for Pieces {
    ghost use Rattle.std.specs.Prelude.{ℕ, List, ◌≤◌, ◌<◌};
    ghost use Rattle.morsel_load.specs.Splits.{pieces_from};

    ghost Value = { List (ℕ × ℕ) };

    ghost view = { λ pieces. pieces_from pieces.height pieces.rows pieces.at };

    ghost invariant = { λ pieces. (pieces.at ≤ pieces.height) × (0 < pieces.rows) };
}

/// Cuts so many rows into pieces of about `ideal` rows each.
#[tactic(auto, using(crate::proofs::SplitLemmas::pieces_stand, crate::proofs::SplitLemmas::pieces_have))]
pub fn split_to_morsels(height: u64, ideal: u32) -> Pieces
    requires ideal { 1 ≤ ideal }
    ensures cover { StandWithoutGaps 0 result height }
    ensures rows { HaveLengths (rows_per_piece height ideal) result }
{
    let ideal = u64::from(ideal);
    let count = if height > 3 * ideal / 2 {
        (height / ideal).max(2)
    } else {
        1
    };
    Pieces {
        at: 0,
        height,
        rows: 1 + height / count,
    }
}

impl Iterator for Pieces {
    type Item = (u64, u64);

    ghost next_gives = { YieldsFirst (λ pieces. pieces) };

    ghost remaining = { item_count (λ pieces. pieces) };

    fn next(&mut self) -> Option<(u64, u64)> {
        next_piece(self.height, self.rows, &mut self.at)
    }
}

/// The next piece, and where the one after it begins.
#[tactic(auto, using(crate::proofs::SplitLemmas::pieces_none, crate::proofs::SplitLemmas::pieces_next))]
fn next_piece(height: u64, rows: u64, at: &mut u64) -> Option<(u64, u64)>
    requires within { at.old ≤ height }
    requires some { 0 < rows }
    ensures within { at.new ≤ height }
    ensures piece { MatchOption result
        ((pieces_from height rows at.old ≡ []) × (pieces_from height rows at.new ≡ []))
        (λ piece. pieces_from height rows at.old ≡ piece ∷ pieces_from height rows at.new) }
{
    if *at == height {
        return None;
    }
    let offset = *at;
    let length = rows.min(height - offset);
    *at = offset + length;
    Some((offset, length))
}
