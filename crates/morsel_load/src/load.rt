//! What a lane of a query carries.
ghost use Rattle.std.specs.Prelude.{◌≡◌, None};
ghost use Rattle.morsel_load.specs.Loads.{held_token, load_kind, load_seen, load_seq};

use crate::job::LoadJob;
use crate::morsels::Morsel;
use morsel_pipe::{Encoded, MorselSeq, RawPiece};
use morsel_prims::Message;

/// What a lane of a query carries.
///
/// Loads are equal and ordered by their numbers alone. The greater number is the lesser load, so what merges lanes
/// from the greatest load on gives them by rising number.
#[derive(Drop)]
pub enum Load<K, J> {
    /// Rows.
    Morsel(Morsel<K, J>),
    /// A piece of a file.
    Piece(RawPiece),
    /// The text of rows, and its number.
    Part(MorselSeq, Encoded),
}

/// The kinds of loads. A lane carries one of them.
#[derive(Clone, Copy, Debug, PartialEq, Eq)]
pub enum LoadKind {
    /// Rows.
    Morsels,
    /// Pieces of files.
    Pieces,
    /// Texts of rows.
    Parts,
}

impl<K, J> Load<K, J> {
    /// The number that it holds.
    pub fn seq(&self) -> MorselSeq
        ensures { result ≡ load_seq self.now }
    {
        match self {
            Load::Morsel(morsel) => morsel.seq(),
            Load::Piece(piece) => piece.seq,
            Load::Part(seq, _) => *seq,
        }
    }

    /// Of which kind it is.
    pub fn kind(&self) -> LoadKind
        ensures { result ≡ load_kind self.now }
    {
        match self {
            Load::Morsel(_) => LoadKind::Morsels,
            Load::Piece(_) => LoadKind::Pieces,
            Load::Part(..) => LoadKind::Parts,
        }
    }

    /// Takes the token that tells that its rows were consumed; only a morsel has one.
    pub fn take_consume_token(&mut self) -> Option<K>
        ensures token { result ≡ held_token self.old }
        ensures none { held_token self.new ≡ None }
        ensures same { load_seen self.new ≡ load_seen self.old }
    {
        match self {
            Load::Morsel(morsel) => morsel.take_consume_token(),
            Load::Piece(_) => None,
            Load::Part(..) => None,
        }
    }
}

impl<K: Drop, J: LoadJob<K>> Message for Load<K, J> {
    ghost use Rattle.std.specs.Prelude.{IfSome};
    ghost use Rattle.morsel_load.specs.Loads.{held_token, load_seen};

    type Job = J;

    ghost suits = { λ job load. J.suits job (load_seen load) × IfSome (held_token load) (J.holds job) };
}
