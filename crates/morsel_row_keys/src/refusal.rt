//! Why a key is refused of which a part is.
ghost use Rattle.std.specs.Prelude.{◌≡◌};
ghost use Rattle.morsel_row_keys.specs.Chains.{refusal_of, whole_of};

use morsel_meaning::Fault;

/// The most keys that there may be.
const KEY_LIMIT: usize = 4_294_967_295;

/// Why a key is refused, of which there are so many, where a part of it is. Parts run out before keys do only where keys were refused before;
/// then memory is what there is too little of.
pub fn refusal(fault: Fault, count: usize) -> Fault
    ensures { result ≡ refusal_of fault count }
{
    match fault {
        Fault::OutOfMemory => Fault::OutOfMemory,
        _ => if count < KEY_LIMIT {
            Fault::OutOfMemory
        } else {
            fault
        },
    }
}

/// What becomes of a key, of which there are so many, where this became of a part of it.
pub fn whole_result(part: Result<u32, Fault>, count: usize) -> Result<u32, Fault>
    ensures { result ≡ whole_of part count }
{
    match part {
        Ok(at) => Ok(at),
        Err(fault) => Err(refusal(fault, count)),
    }
}
