//! Where a CSV text that comes in pieces may be cut.
ghost use Rattle.std.specs.Prelude.{◌≡◌, ◌+◌, ◌<◌, ◌≤◌, ◌^◌, None, length, IfOk, IfErr, OnOk, IsOk, IsOkUnless};
ghost use Rattle.morsel_grammar.specs.Dialect.{IsDialect};
ghost use Rattle.morsel_grammar.specs.Machine.{RefusesEnd};
ghost use Rattle.morsel_cut.specs.Places.{cut_state, options_with};
ghost use Rattle.morsel_cut.specs.Runs.{Passes};
ghost use Rattle.morsel_cut.specs.Cutting.{cut_opening, fed_with, begun_fault, Feeds};

use crate::pass::whole_run;
use crate::prefix::{MachineState, StateRun, pass_bytes};
use crate::step::{ByteAt, Delimiters};
use morsel_grammar::CsvOptions;
use morsel_meaning::{Fault, Name};
use std::marker::Model;

/// Finds where a CSV text that comes in pieces may be cut: after an eol byte that ends a record.
///
/// It takes one piece after the other, from the file's first byte on.
#[derive(Debug, Drop)]
pub struct Cutter {
    delimiters: Delimiters,
    prefix: Option<Name>,
    file: u32,
    state: MachineState,
    fed: u64,
    begun: u64,
}

impl Model for Cutter {
    ghost use Rattle.std.specs.Prelude.{◌≡◌, None};
    ghost use Rattle.morsel_grammar.specs.Dialect.{IsDialect};
    ghost use Rattle.morsel_cut.specs.Places.{cut_state, options_with};
    ghost use Rattle.morsel_cut.specs.Cutting.{Cutting};

    ghost Value = { Cutting };

    ghost view = { λ c. record {
      options = options_with c.delimiters c.prefix;
      file = c.file;
      state = cut_state c.state;
      fed = c.fed;
      begun = c.begun;
    } };

    ghost invariant = { λ c. IsDialect (options_with c.delimiters c.prefix) × (c.prefix ≡ None → c.state.matched ≡ None) };
}

impl Cutter {
    /// A cutter at the beginning of a file. It takes memory for a comment prefix alone.
    pub fn new(options: &CsvOptions, file: u32) -> Result<Cutter, Fault>
        ensures value { IfOk result (λ cutter. cutter ≡ cut_opening options.now file) }
        ensures out_of_memory { IsOkUnless result Fault.OutOfMemory }
        ensures without_comments { options.now.comment ≡ None → IsOk result }
    {
        let delimiters = Delimiters::of(options);
        let Some(prefix) = options.comment() else {
            return Ok(Cutter {
                delimiters,
                prefix: None,
                file,
                state: MachineState {
                    matched: None,
                    place: ByteAt::AtOpening,
                },
                fed: 0,
                begun: 0,
            });
        };
        Ok(Cutter {
            delimiters,
            prefix: Some(prefix.clone()?),
            file,
            state: MachineState {
                matched: Some(0),
                place: ByteAt::AtOpening,
            },
            fed: 0,
            begun: 0,
        })
    }

    /// How many bytes of the next piece there are up to the last end of a record, or 0 where none ends in it.
    ///
    /// Where a closing quote is followed by what may not follow it, the answer is `Malformed` with the place of the first byte of
    /// that record, counted from the first byte of the file; and so it is at every later call.
    pub fn feed(&mut self, piece: &[u8]) -> Result<usize, Fault>
        requires places { self.old.fed + length piece.now < 2 ^ 64 }
        ensures fed { self.new ≡ fed_with self.old piece.now }
        ensures answer { Feeds self.old piece.now result }
        ensures within { IfOk result (λ len. len ≤ length piece.now) }
    {
        let passed = pass(self.state, piece, self.delimiters, &self.prefix);
        if passed.begin > 0 {
            self.begun = self.fed + passed.begin as u64;
        }
        self.fed += piece.len() as u64;
        self.state = passed.state;
        if passed.state.matched.is_none() && passed.state.place == ByteAt::BrokenQuote {
            return Err(Fault::Malformed {
                file: self.file,
                at: self.begun,
            });
        }
        Ok(passed.end)
    }

    /// Whether the text may end here: `Malformed` with the place of the last record's first byte where a quoted field is open, or a
    /// closing quote was followed by what may not follow it.
    pub fn may_end(&self) -> Result<(), Fault>
        ensures ok { OnOk result (RefusesEnd self.now.state → ⊥) }
        ensures malformed { IfErr result (λ fault. (fault ≡ begun_fault self.now) × RefusesEnd self.now.state) }
    {
        if matches!(self.state.place, ByteAt::InQuotes | ByteAt::BrokenQuote) {
            return Err(Fault::Malformed {
                file: self.file,
                at: self.begun,
            });
        }
        Ok(())
    }

    /// Ends the text: `Malformed` with the place of the last record's first byte where a quoted field is open, or a closing quote
    /// was followed by what may not follow it.
    pub fn finish(self) -> Result<(), Fault>
        ensures ok { OnOk result (RefusesEnd self.state → ⊥) }
        ensures malformed { IfErr result (λ fault. (fault ≡ begun_fault self) × RefusesEnd self.state) }
    {
        self.may_end()
    }
}

/// What a piece does.
fn pass(from: MachineState, piece: &[u8], delimiters: Delimiters, prefix: &Option<Name>) -> StateRun
    requires fit { IsDialect (options_with delimiters prefix.now) }
    requires matched { prefix.now ≡ None → from.matched ≡ None }
    ensures passes { Passes (options_with delimiters prefix.now) (cut_state from) piece.now result }
    ensures matched { prefix.now ≡ None → result.state.matched ≡ None }
    ensures ends { result.end ≤ length piece.now }
    ensures begins { result.begin ≤ length piece.now }
{
    if let Some(prefix) = prefix {
        return pass_bytes(from, piece, delimiters, prefix.as_str().as_bytes());
    }
    let run = whole_run(from.place, piece, delimiters);
    StateRun {
        state: MachineState {
            matched: None,
            place: run.place,
        },
        end: run.end,
        begin: run.begin,
    }
}
