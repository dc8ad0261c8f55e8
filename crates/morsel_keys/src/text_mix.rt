//! Texts, mixed to words that decide where their search begins.
ghost use Rattle.std.specs.Prelude.{◌≡◌, ◌<◌, ◌≤◌, ◌+◌, ◌-◌, ◌*◌, ◌/◌, length};
ghost use Rattle.morsel_keys.specs.TextHomes.{mix_of, eight_at, four_at, mix_eights, short_word, text_mix};

/// A state with a word mixed in.
#[tactic(auto, unfolding(crate::specs::TextHomes::mix_of))]
#[inline(always)]
pub fn mix(state: u64, word: u64) -> u64
    ensures { result ≡ mix_of state word }
{
    let product = (state ^ word).wrapping_mul(0x9E37_79B9_7F4A_7C15);
    product ^ (product >> 32)
}

/// Eight bytes as a word.
#[inline(always)]
fn eight(bytes: &[u8], at: usize) -> u64
    requires { at + 8 ≤ length bytes.now }
    ensures { result ≡ eight_at bytes.now at }
{
    u64::from_le_bytes([
        bytes[at],
        bytes[at + 1],
        bytes[at + 2],
        bytes[at + 3],
        bytes[at + 4],
        bytes[at + 5],
        bytes[at + 6],
        bytes[at + 7],
    ])
}

/// Four bytes as a word.
#[inline(always)]
fn four(bytes: &[u8], at: usize) -> u32
    requires { at + 4 ≤ length bytes.now }
    ensures { result ≡ four_at bytes.now at }
{
    u32::from_le_bytes([bytes[at], bytes[at + 1], bytes[at + 2], bytes[at + 3]])
}

/// Fewer than eight bytes as a word.
#[inline(always)]
fn short(bytes: &[u8]) -> u64
    requires { length bytes.now < 8 }
    ensures { result ≡ short_word bytes.now }
{
    let len = bytes.len();
    if len < 4 {
        if len == 0 {
            return 0;
        }
        return u64::from(bytes[0])
            + u64::from(bytes[len / 2]) * 256
            + u64::from(bytes[len - 1]) * 65536;
    }
    u64::from(four(bytes, 0)) + u64::from(four(bytes, len - 4)) * 4_294_967_296
}

/// A state with the first words of a text mixed in.
#[inline(always)]
fn eights(state: u64, bytes: &[u8], count: usize) -> u64
    requires { count * 8 ≤ length bytes.now }
    ensures { result ≡ mix_eights state bytes.now count }
{
    let mut mixed = state;
    for i in 0..count {
        mixed = mix(mixed, eight(bytes, i * 8));
    }
    mixed
}

/// A text, mixed to a word.
#[tactic(auto, unfolding(crate::specs::TextHomes::text_mix))]
#[inline(always)]
pub fn mixed_text(seed: u64, text: &str) -> u64
    ensures { result ≡ text_mix seed text.now }
{
    let bytes = text.as_bytes();
    let len = bytes.len();
    let state = seed ^ len as u64;
    if len < 8 {
        return mix(state, short(bytes));
    }
    let mixed = eights(state, bytes, (len - 1) / 8);
    mix(mixed, eight(bytes, len - 8))
}
