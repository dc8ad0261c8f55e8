//! The numbers of morsels.
ghost use Rattle.std.specs.Prelude.{◌≡◌, ◌+◌, ◌*◌, ◌<◌, ◌^◌};

use std::marker::Model;

/// The number of a morsel within its scan. Along a pipe it may stay or rise, and never falls.
///
/// Contracts see the number that it holds. Those of a scan are even, so there is a number between two of them.
#[derive(Clone, Copy, Debug, Default, PartialEq, Eq, PartialOrd, Ord)]
pub struct MorselSeq(u64);

impl Model for MorselSeq {
    ghost use Rattle.std.specs.Prelude.{ℕ};

    ghost Value = { ℕ };

    ghost view = { λ seq. seq.0 };

    ghost inverse = { λ n. record { 0 = n } };
}

impl MorselSeq {
    /// The number of the morsel that is the `seq`th of its scan, counted from 0.
    pub fn new(seq: u64) -> MorselSeq
        requires fits { 2 * seq < 2 ^ 64 }
        ensures { result ≡ 2 * seq }
    {
        MorselSeq(2 * seq)
    }

    /// The number that follows this one.
    pub fn successor(self) -> MorselSeq
        requires fits { self + 2 < 2 ^ 64 }
        ensures { result ≡ self + 2 }
    {
        MorselSeq(self.0 + 2)
    }

    /// The sum of the two numbers.
    pub fn offset_by(self, offset: MorselSeq) -> MorselSeq
        requires fits { self + offset < 2 ^ 64 }
        ensures { result ≡ self + offset }
    {
        MorselSeq(self.0 + offset.0)
    }

    /// The number that it holds.
    pub fn to_u64(self) -> u64
        ensures { result ≡ self }
    {
        self.0
    }
}
