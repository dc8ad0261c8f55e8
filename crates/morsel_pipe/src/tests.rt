//! Values from outside.
use crate::{MorselSeq, RawPiece};
use morsel_meaning::Name;
use std::test::Fail;

#[test]
fn numbers_are_even_and_follow_one_another(rt: HostRuntime) {
    let seq = MorselSeq::new(3);
    assert_eq!(rt; seq.to_u64(), 6);
    assert_eq!(rt; seq.successor().to_u64(), 8);
    assert_eq!(rt; seq.offset_by(MorselSeq::new(2)).to_u64(), 10);
    assert_eq!(rt; MorselSeq::default().to_u64(), 0);
    assert!(rt; seq < seq.successor());
}

#[test]
fn a_piece_has_what_it_was_made_of(rt: HostRuntime) -> Result<(), Fail> {
    let piece = RawPiece {
        seq: MorselSeq::new(1),
        file: 0,
        source: Name::new(rt.alloc(), "a.csv")?,
        at: 8,
        first_row: 0,
        rows: 1,
        slice: (0, 1),
        parts: Vec::new(rt.alloc()),
        bytes: Vec::from_slice(rt.alloc(), b"1,ann\n")?,
        from: 0,
        to: 14,
    };
    assert_eq!(rt; piece.seq.to_u64(), 2);
    assert_eq!(rt; piece.source.as_str(), "a.csv");
    assert_eq!(rt; piece.bytes.as_slice(), b"1,ann\n".as_slice());
    Ok(())
}
