//! Where the header of a text ends.
ghost use Rattle.std.specs.Prelude.{◌≡◌, ◌≤◌, List, length};
ghost use Rattle.morsel_grammar.specs.Grammar.{CsvRecord, Records};
ghost use Rattle.morsel_cut.specs.RowCounts.{EndsHead, EndsHeadWhole};

use crate::record::{is_header, record_size};
use morsel_grammar::CsvOptions;

/// Where the header of a text ends.
#[derive(Clone, Copy, Debug, PartialEq, Eq)]
pub struct HeadEnd {
    /// How many bytes there are up to and with the header's record, or all where it is still to come.
    pub len: usize,
    /// Whether the header is still to come.
    pub awaits_header: bool,
}

/// How many bytes of a text there are up to and with its header, the first record that is neither comment nor empty, and
/// whether that is still to come.
pub fn head_end(bytes: &[u8], options: &CsvOptions) -> HeadEnd
    ensures within { result.len ≤ length bytes.now }
    ensures ends { (records : List CsvRecord) → Records options.now bytes.now records → EndsHead options.now bytes.now records result }
    ensures whole { (records : List CsvRecord) → Records options.now bytes.now records → EndsHeadWhole options.now bytes.now records result.len }
{
    let mut at = 0;
    while at < bytes.len() {
        let rest = &bytes[at..];
        let found = is_header(rest, options);
        at += record_size(rest, options);
        if found {
            return HeadEnd {
                len: at,
                awaits_header: false,
            };
        }
    }
    HeadEnd {
        len: at,
        awaits_header: true,
    }
}
