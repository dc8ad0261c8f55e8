//! Rows on their way through a line of nodes.
ghost use Rattle.std.specs.Prelude.{◌≡◌, None, Some, Ok, Err, IsNone, IfOk, IfErr};
ghost use Rattle.std.specs.Borrow.{sem};
ghost use Rattle.morsel_load.specs.Lent.{LendsFrame, LendsSourceToken};
ghost use Rattle.morsel_load.specs.Morsels.{no_stretch};

use crate::source_token::SourceToken;
use morsel_frame::Frame;
use morsel_pipe::MorselSeq;
use std::marker::{Model, PhantomData};

/// The stretch of a scan's bytes for whose rows a load stands, and which of them these are.
///
/// Bytes are counted over all sources of the scan, one after the other. A stretch that gives many rows, as one of a
/// join may, is cut into several loads.
#[derive(Clone, Copy, Debug, PartialEq, Eq)]
pub struct Stretch {
    /// Where it begins.
    pub from: u64,
    /// Where it ends, and the next one begins.
    pub to: u64,
    /// How many of its rows come before those of the load.
    pub skip: u64,
    /// Whether the load has the last of its rows.
    pub last: bool,
}

/// Some rows, with their number, their stretch, and their tokens.
///
/// `K` is the token that the rows hold until they are consumed. `J` is what the lanes are for that carry them.
#[derive(Drop)]
pub struct Morsel<K, J> {
    frame: Frame,
    seq: MorselSeq,
    source_token: SourceToken,
    consume_token: Option<K>,
    stretch: Stretch,
    job: PhantomData<J>,
}

impl<K, J> Model for Morsel<K, J> {
    ghost use Rattle.morsel_load.specs.Morsels.{MorselSeen};

    ghost Value = { MorselSeen K };

    ghost view = { λ morsel. record {
      frame = morsel.frame;
      seq = morsel.seq;
      source_token = morsel.source_token;
      consume_token = morsel.consume_token;
      stretch = morsel.stretch;
    } };
}

impl<K, J> Morsel<K, J> {
    /// These rows, with no consume token, as all rows of no stretch.
    pub fn new(frame: Frame, seq: MorselSeq, source_token: SourceToken) -> Morsel<K, J>
        ensures { result ≡ record { frame = frame; seq = seq; source_token = source_token; consume_token = None; stretch = no_stretch } }
    {
        Morsel {
            frame,
            seq,
            source_token,
            consume_token: None,
            stretch: Stretch {
                from: 0,
                to: 0,
                skip: 0,
                last: true,
            },
            job: PhantomData,
        }
    }

    /// The rows, their number, and their tokens.
    pub fn into_inner(self) -> (Frame, MorselSeq, SourceToken, Option<K>)
        ensures { result ≡ (self.frame, self.seq, self.source_token, self.consume_token) }
    {
        let Morsel {
            frame,
            seq,
            source_token,
            consume_token,
            ..
        } = self;
        (frame, seq, source_token, consume_token)
    }

    /// The rows.
    pub fn df(&self) -> &Frame
        ensures { result.now ≡ self.now.frame }
    {
        &self.frame
    }

    /// The rows, to be changed.
    pub fn df_mut(&mut self) -> &mut Frame
        ensures* writes_back { sem 𝓛 (LendsFrame K.row J.row self.entry result) }
        ensures lent { result.now ≡ self.old.frame }
    {
        &mut self.frame
    }

    /// The number.
    pub fn seq(&self) -> MorselSeq
        ensures { result ≡ self.now.seq }
    {
        self.seq
    }

    /// Gives the rows another number.
    pub fn set_seq(&mut self, seq: MorselSeq)
        ensures { self.new ≡ record self.old { seq = seq } }
    {
        self.seq = seq;
    }

    /// The stretch for whose rows it stands.
    pub fn stretch(&self) -> Stretch
        ensures { result ≡ self.now.stretch }
    {
        self.stretch
    }

    /// Makes it stand for rows of this stretch.
    pub fn set_stretch(&mut self, stretch: Stretch)
        ensures { self.new ≡ record self.old { stretch = stretch } }
    {
        self.stretch = stretch;
    }

    /// What `f` makes of the rows, with all else as it was.
    pub fn map<F: FnOnce(Frame) -> Frame>(self, f: F) -> Morsel<K, J>
        requires callable { F.pre f self.frame }
        ensures frame { F.post f self.frame result.frame }
        ensures same { result ≡ record self { frame = result.frame } }
    {
        let Morsel {
            frame,
            seq,
            source_token,
            consume_token,
            stretch,
            job,
        } = self;
        Morsel {
            frame: f(frame),
            seq,
            source_token,
            consume_token,
            stretch,
            job,
        }
    }

    /// Takes the token that tells that the rows were consumed.
    pub fn take_consume_token(&mut self) -> Option<K>
        ensures token { result ≡ self.old.consume_token }
        ensures taken { self.new ≡ record self.old { consume_token = None } }
    {
        self.consume_token.take()
    }

    /// The token of its source.
    pub fn source_token(&mut self) -> &mut SourceToken
        ensures* writes_back { sem 𝓛 (LendsSourceToken K.row J.row self.entry result) }
        ensures lent { result.now ≡ self.old.source_token }
    {
        &mut self.source_token
    }

    /// Puts another source's token in place of its own.
    pub fn replace_source_token(&mut self, new_token: SourceToken) -> SourceToken
        ensures old { result ≡ self.old.source_token }
        ensures replaced { self.new ≡ record self.old { source_token = new_token } }
    {
        std::mem::replace(&mut self.source_token, new_token)
    }
}

impl<K: Drop, J> Morsel<K, J> {
    /// Sets the token that tells that the rows were consumed.
    pub fn set_consume_token(&mut self, token: K)
        requires unset { IsNone self.old.consume_token }
        ensures { self.new ≡ record self.old { consume_token = Some token } }
    {
        self.consume_token = Some(token);
    }

    /// The rows alone. A consume token that is set is dropped, and stays counted.
    pub fn into_df(self) -> Frame
        ensures { result ≡ self.frame }
    {
        let Morsel { frame, .. } = self;
        frame
    }

    /// What `f` makes of the rows, with all else as it was; or its error, and then the rest is dropped.
    pub fn try_map<E, F: FnOnce(Frame) -> Result<Frame, E>>(self, f: F) -> Result<Morsel<K, J>, E>
        requires callable { F.pre f self.frame }
        ensures ok { IfOk result (λ morsel. F.post f self.frame (Ok morsel.frame) × (morsel ≡ record self { frame = morsel.frame })) }
        ensures err { IfErr result (λ error. F.post f self.frame (Err error)) }
    {
        let Morsel {
            frame,
            seq,
            source_token,
            consume_token,
            stretch,
            job,
        } = self;
        let frame = f(frame)?;
        Ok(Morsel {
            frame,
            seq,
            source_token,
            consume_token,
            stretch,
            job,
        })
    }
}
