//! Records counted 64 bytes at a time.
ghost use Rattle.std.specs.Prelude.{◌≡◌, ◌≤◌, ◌<◌, false, length, take, IsTrue};
ghost use Rattle.std.specs.Simd.Lanes.{mask_l};
ghost use Rattle.morsel_grammar.specs.Dialect.{IsDialect};
ghost use Rattle.morsel_grammar.specs.Machine.{is_after_eol, place_step};
ghost use Rattle.morsel_cut.specs.Places.{cut_place, delimiter_options};
ghost use Rattle.morsel_cut.specs.Blocks.{tests_after, has_blank, AreCountedLines};

use crate::blocks::block_of;
use crate::masks::{LANES, bits_up_to_highest, byte_mask, one_on};
use crate::pass::later_place;
use crate::step::{ByteAt, Delimiters};

/// Whether none of the records that begin among 64 bytes begins with the eol byte or with 13, where these bytes end records.
#[inline(always)]
fn is_without_blanks(from: ByteAt, lane: &[u8], ends: u64, delimiters: Delimiters) -> bool
    requires room { LANES ≤ length lane.now }
    requires ends { ends ≡ mask_l (tests_after (place_step (delimiter_options delimiters)) is_after_eol (cut_place from) (take LANES lane.now)) }
    ensures { IsTrue result → has_blank (delimiter_options delimiters) (cut_place from) (take LANES lane.now) ≡ false }
{
    let begins = one_on(ends, from.is_after_eol());
    begins & (byte_mask(lane, delimiters.eol) | byte_mask(lane, b'\r')) == 0
}

/// How many bytes some records take that a text begins with, and how many they are: none where that is not told 64 bytes at a
/// time, or where one may be blank and be no row.
pub fn count_lines(text: &[u8], columns: usize, delimiters: Delimiters) -> (usize, usize)
    requires fit { IsDialect (delimiter_options delimiters) }
    ensures within { result.0 ≤ length text.now }
    ensures few { result.1 ≤ result.0 }
    ensures lines { 0 < result.0 → AreCountedLines (delimiter_options delimiters) columns (take result.0 text.now) result.1 }
{
    let mut place = ByteAt::AfterEol;
    let mut end = 0;
    let mut count = 0;
    let mut at = 0;
    while text.len() - at >= LANES {
        let lane = &text[at..];
        let Some(block) = block_of(place, lane, delimiters) else {
            return (end, count);
        };
        if columns != 1 && !is_without_blanks(place, lane, block.ends, delimiters) {
            return (end, count);
        }
        end = later_place(end, at, bits_up_to_highest(block.ends));
        count += block.ends.count_ones() as usize;
        place = block.place;
        at += LANES;
    }
    (end, count)
}
