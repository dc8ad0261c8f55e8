//! The machine beside a comment prefix, byte by byte.
//!
//! A record is a comment only once its prefix is whole. Until then its bytes are taken as those of fields too, since a prefix
//! may have the quote and the separator: where a byte differs from the prefix, the record was fields all along.
ghost use Rattle.std.specs.Prelude.{◌≡◌, ◌≤◌, Some, length, if◌then◌else◌};
ghost use Rattle.morsel_grammar.specs.Machine.{is_after_eol, begins_record, matched_step, cut_step};
ghost use Rattle.morsel_cut.specs.Places.{cut_place, cut_state, options_with};
ghost use Rattle.morsel_cut.specs.Runs.{Passes};

use crate::step::{ByteAt, Delimiters};

/// The state of the machine.
#[derive(Clone, Copy, Debug)]
pub struct MachineState {
    /// The record so far is so many bytes of the comment prefix, and may still become a comment.
    pub matched: Option<usize>,
    /// Where the next byte stands, if the record is no comment.
    pub place: ByteAt,
}

/// What some bytes do to the state of the machine.
#[derive(Clone, Copy, Debug)]
pub struct StateRun {
    /// The state after them.
    pub state: MachineState,
    /// How many of them there are up to the last end of a record, or 0.
    pub end: usize,
    /// How many of them there are up to where the last record begins, or 0.
    pub begin: usize,
}

impl StateRun {
    /// These bytes, and one more, which is the last of `len` bytes.
    #[inline(always)]
    fn then(self, len: usize, state: MachineState) -> StateRun
        ensures state { result.state ≡ state }
        ensures end { result.end ≡ (if is_after_eol (cut_place state.place) then len else self.end) }
        ensures begin { result.begin ≡ (if begins_record (cut_place state.place) then len else self.begin) }
    {
        StateRun {
            state,
            end: if state.place.is_after_eol() {
                len
            } else {
                self.end
            },
            begin: if state.place.begins_record() {
                len
            } else {
                self.begin
            },
        }
    }
}

/// How many bytes of the prefix the record is, after one byte more.
fn matched_step(prefix: &[u8], matched: Option<usize>, b: u8) -> Option<usize>
    ensures { result ≡ matched_step (Some prefix.now) matched b }
{
    let at = matched?;
    if at < prefix.len() && prefix[at] == b {
        return Some(at + 1);
    }
    None
}

/// The state after one byte more.
pub fn prefix_step(from: MachineState, b: u8, delimiters: Delimiters, prefix: &[u8]) -> MachineState
    ensures { cut_state result ≡ cut_step (options_with delimiters (Some prefix.now)) (cut_state from) b }
{
    let place = delimiters.step(from.place, b);
    if place.begins_record() {
        return MachineState {
            matched: Some(0),
            place,
        };
    }
    let matched = matched_step(prefix, from.matched, b);
    if matched == Some(prefix.len()) {
        return MachineState {
            matched: None,
            place: ByteAt::InComment,
        };
    }
    MachineState { matched, place }
}

/// What a text does where comments begin with this prefix.
pub fn pass_bytes(
    from: MachineState,
    text: &[u8],
    delimiters: Delimiters,
    prefix: &[u8],
) -> StateRun
    ensures passes { Passes (options_with delimiters (Some prefix.now)) (cut_state from) text.now result }
    ensures ends { result.end ≤ length text.now }
    ensures begins { result.begin ≤ length text.now }
{
    let mut passed = StateRun {
        state: from,
        end: 0,
        begin: 0,
    };
    for at in 0..text.len() {
        let state = prefix_step(passed.state, text[at], delimiters, prefix);
        passed = passed.then(at + 1, state);
    }
    passed
}
