//! Morsels that are known by their numbers.
ghost use Rattle.std.specs.Prelude.{◌≡◌, IfOk, None, Some};
ghost use Rattle.morsel_load.specs.Loads.{held_token};

use morsel_frame::{Frame, Schema};
use morsel_load::{Load, Morsel, SourceToken};
use morsel_meaning::Fault;
use morsel_pipe::MorselSeq;
use std::alloc::Global;

/// The morsel of this number: as many rows without columns.
fn morsel_of<K, J>(alloc: Global, number: u32) -> Result<Morsel<K, J>, Fault>
    ensures token { IfOk result (λ morsel. morsel.consume_token ≡ None) }
{
    let source = SourceToken::new(alloc)?;
    let schema = Schema::new(alloc, Vec::new(alloc))?;
    let frame = Frame::new(alloc, schema, Vec::new(alloc), number as usize);
    let seq = MorselSeq::new(u64::from(number));
    Ok(Morsel::new(frame, seq, source))
}

/// The load of this number, without a token.
pub fn load_of<K, J>(alloc: Global, number: u32) -> Result<Load<K, J>, Fault>
    ensures token { IfOk result (λ load. held_token load ≡ None) }
{
    Ok(Load::Morsel(morsel_of(alloc, number)?))
}

/// The load of this number, with this token.
pub fn counted_load<K: Drop, J>(alloc: Global, number: u32, token: K) -> Result<Load<K, J>, Fault>
    ensures token { IfOk result (λ load. held_token load ≡ Some token) }
{
    let mut morsel = morsel_of(alloc, number)?;
    morsel.set_consume_token(token);
    Ok(Load::Morsel(morsel))
}

/// The number of a load, where its rows and its number agree; 2^32 where they do not.
pub fn number_of<K, J>(load: &Load<K, J>) -> u64 {
    let Load::Morsel(morsel) = load else {
        return 1 << 32;
    };
    let rows = morsel.df().height() as u64;
    if morsel.seq().to_u64() / 2 == rows {
        rows
    } else {
        1 << 32
    }
}
