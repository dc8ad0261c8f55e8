//! Rows of one stretch as several loads.
ghost use Rattle.std.specs.Prelude.{◌≡◌, ◌+◌, None, length, IfOk, OnOk, IsOkUnless};
ghost use Rattle.morsel_meaning.specs.declared.fault.Fault.TheVariants.{OutOfMemory};
ghost use Rattle.morsel_join_units.specs.RowCutters.{next_cut};

use morsel_join::SomeRows;
use morsel_load::{Morsel, SourceToken, Stretch};
use morsel_meaning::Fault;
use morsel_pipe::MorselSeq;

/// Makes loads of the rows of one stretch, which have one number and the tokens of one source.
#[derive(Drop)]
pub struct RowCutter {
    /// The number of its loads.
    pub seq: MorselSeq,
    /// The source of their tokens.
    pub source: SourceToken,
    /// Where the stretch begins.
    pub from: u64,
    /// Where it ends.
    pub to: u64,
    /// How many of its rows were given.
    pub given: u64,
}

impl RowCutter {
    /// The next rows of the stretch, as a load.
    pub fn cut<K, J>(&mut self, some: SomeRows) -> Result<Morsel<K, J>, Fault>
        ensures same { (self.new.seq ≡ self.old.seq) × (self.new.source ≡ self.old.source) × (self.new.from ≡ self.old.from) × (self.new.to ≡ self.old.to) }
        ensures given { OnOk result (self.new.given ≡ self.old.given + length some.frame.rows) }
        ensures frame { IfOk result (λ morsel. morsel.frame ≡ some.frame) }
        ensures number { IfOk result (λ morsel. morsel.seq ≡ self.old.seq) }
        ensures source { IfOk result (λ morsel. (morsel.source_token.source ≡ self.old.source.source) × (morsel.source_token.stops ≡ self.old.source.stops)) }
        ensures free { IfOk result (λ morsel. morsel.consume_token ≡ None) }
        ensures stretch { IfOk result (λ morsel. morsel.stretch ≡ next_cut self.old some.last) }
        ensures out_of_memory { IsOkUnless result OutOfMemory }
    {
        let SomeRows { frame, last } = some;
        let skip = self.given;
        let Some(given) = skip.checked_add(frame.height() as u64) else {
            return Err(Fault::OutOfMemory);
        };
        let mut morsel = Morsel::new(frame, self.seq, self.source.again()?);
        morsel.set_stretch(Stretch {
            from: self.from,
            to: self.to,
            skip,
            last,
        });
        self.given = given;
        Ok(morsel)
    }
}
