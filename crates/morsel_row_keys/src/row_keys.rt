//! Keys of several columns, null being a value as any other, in order of arrival.
ghost use Rattle.std.specs.Prelude.{◌≡◌, ◌≢◌, ◌<◌, ◌≤◌, ◌+◌, [], length, map, get_or, slice_get, Some, OnOk, OnErr, IfOk, IfErr, IsOkUnless, Err};
ghost use Rattle.std.specs.List.{All};
ghost use Rattle.morsel_meaning.specs.Values.{kinds_of};
ghost use Rattle.morsel_frame.specs.Tables.{cells_at, fields_at};
ghost use Rattle.morsel_keys.specs.Slots.{AreLookedUp, HasKeysEachOnce, GivesNumber, NumbersOrStops, RefusesKey, no_number};
ghost use Rattle.morsel_row_keys.specs.Chains.{chain_rows, single_row};

use crate::chain::{blank_tables, insert_chain, look_up_chain};
use crate::pair_keys::PairKeys;
use crate::refusal::{refusal, whole_result};
use morsel_frame::Frame;
use morsel_keys::ColumnKeys;
use morsel_meaning::{ColType, Fault};
use std::alloc::Global;
use std::marker::Model;

/// Keys of several columns in order of arrival, each once. A key is the values of a row under some columns, null being a value as any other.
///
/// The first column's values are numbered by themselves. Each other column has a table of pairs: of the number of what a row has in the columns
/// before, and its value in this one. The last table's numbers are those of the keys.
#[derive(Drop)]
pub struct RowKeys {
    first: ColumnKeys,
    more: Vec<PairKeys>,
}

impl Model for RowKeys {
    ghost use Rattle.std.specs.Prelude.{◌∷◌, map};
    ghost use Rattle.morsel_keys.specs.Keyed.{Keyed};
    ghost use Rattle.morsel_row_keys.specs.Chains.{single_row, chain_rows, AreRowTables};

    ghost Value = { Keyed };

    ghost view = { λ table. record { kinds = table.first.kind ∷ map (λ more. more.kind) table.more.items; keys = chain_rows (map single_row table.first.values) table.more.items } };

    ghost invariant = { λ table. AreRowTables table.first table.more.items };
}

impl RowKeys {
    /// No keys, whose values are to be of these types, one at least. The seed decides where searches begin, and nothing else.
    pub fn new(alloc: Global, kinds: &[ColType], seed: u64) -> Result<RowKeys, Fault>
        requires { 0 < length kinds.now }
        ensures ok { IfOk result (λ keys. keys ≡ record { kinds = kinds.now; keys = [] }) }
        ensures out_of_memory { IsOkUnless result Fault.OutOfMemory }
    {
        let first = ColumnKeys::new(alloc, kinds[0], seed);
        let more = blank_tables(alloc, &kinds[1..], seed)?;
        Ok(RowKeys { first, more })
    }

    /// How many keys there are.
    pub fn len(&self) -> usize
        ensures len { result ≡ length self.now.keys }
        ensures within { result ≤ no_number }
        ensures once { HasKeysEachOnce self.now.keys }
    {
        count_keys(&self.first, &self.more)
    }

    /// The numbers of what rows have under these columns, each at its place, and `u32::MAX` where one is no key.
    pub fn look_up(&self, frame: &Frame, columns: &[usize], out: &mut [u32]) -> Result<(), Fault>
        requires columns { All (λ at. at < length frame.now.schema) columns.now }
        requires kinds { kinds_of (fields_at frame.now.schema columns.now) ≡ self.now.kinds }
        requires len { length out.old ≡ length frame.now.rows }
        ensures ok { OnOk result (AreLookedUp self.now.keys (map (cells_at columns.now) frame.now.rows) out.new) }
        ensures len { length out.new ≡ length out.old }
        ensures out_of_memory { IsOkUnless result Fault.OutOfMemory }
    {
        self.first.look_up(frame.column(columns[0]), out);
        look_up_chain(&self.more, frame, &columns[1..], out)?;
        Ok(())
    }

    /// The numbers of what rows have under these columns, one row after the other, each at its place. Those that are new come last. Past
    /// 4,294,967,295 keys a new one is refused, and the rows before it have their numbers.
    pub fn number(&mut self, frame: &Frame, columns: &[usize], out: &mut [u32]) -> Result<(), Fault>
        requires columns { All (λ at. at < length frame.now.schema) columns.now }
        requires kinds { kinds_of (fields_at frame.now.schema columns.now) ≡ self.old.kinds }
        requires len { length out.old ≡ length frame.now.rows }
        ensures kinds { self.new.kinds ≡ self.old.kinds }
        ensures numbers { NumbersOrStops self.old.keys (map (cells_at columns.now) frame.now.rows) out.new self.new.keys result }
    {
        if out.is_empty() {
            return Ok(());
        }
        self.look_up(frame, columns, out)?;
        for row in 0..out.len() {
            match self.number_row(frame, columns, row, out[row]) {
                Ok(at) => out[row] = at,
                Err(fault) => return Err(fault),
            }
        }
        Ok(())
    }

    /// The number of a row, which was looked up before.
    #[inline(always)]
    fn number_row(
        &mut self,
        frame: &Frame,
        columns: &[usize],
        row: usize,
        at: u32,
    ) -> Result<u32, Fault>
        requires columns { All (λ at. at < length frame.now.schema) columns.now }
        requires kinds { kinds_of (fields_at frame.now.schema columns.now) ≡ self.old.kinds }
        requires row { row < length frame.now.rows }
        requires found { at ≢ no_number → slice_get self.old.keys at ≡ Some (cells_at columns.now (get_or frame.now.rows row [])) }
        ensures kinds { self.new.kinds ≡ self.old.kinds }
        ensures ok { IfOk result (λ at. GivesNumber self.old.keys (cells_at columns.now (get_or frame.now.rows row [])) at self.new.keys) }
        ensures refused { IfErr result (λ fault. RefusesKey self.old.keys (cells_at columns.now (get_or frame.now.rows row [])) (Err fault)) }
        ensures err { OnErr result (self.new ≡ self.old) }
    {
        if at != u32::MAX {
            return Ok(at);
        }
        self.insert(frame, columns, row)
    }

    /// The number of what a row has under these columns, which comes last where it is new. Past 4,294,967,295 keys a new one is refused.
    #[inline(never)]
    pub fn insert(&mut self, frame: &Frame, columns: &[usize], row: usize) -> Result<u32, Fault>
        requires columns { All (λ at. at < length frame.now.schema) columns.now }
        requires kinds { kinds_of (fields_at frame.now.schema columns.now) ≡ self.old.kinds }
        requires row { row < length frame.now.rows }
        ensures kinds { self.new.kinds ≡ self.old.kinds }
        ensures ok { IfOk result (λ at. GivesNumber self.old.keys (cells_at columns.now (get_or frame.now.rows row [])) at self.new.keys) }
        ensures refused { RefusesKey self.old.keys (cells_at columns.now (get_or frame.now.rows row [])) result }
        ensures err { OnErr result (self.new ≡ self.old) }
    {
        let count = self.len();
        let first = match self.first.insert(frame.column(columns[0]).get(row)) {
            Ok(first) => first,
            Err(fault) => return Err(refusal(fault, count)),
        };
        let inserted = insert_chain(&mut self.more, frame, &columns[1..], row, first);
        whole_result(inserted, count)
    }
}

/// How many keys there are: as many as the last table has pairs.
fn count_keys(first: &ColumnKeys, more: &[PairKeys]) -> usize
    ensures len { result ≡ length (chain_rows (map single_row first.now.values) more.now) }
    ensures within { result ≤ no_number }
{
    if more.is_empty() {
        return first.len();
    }
    more[more.len() - 1].len()
}
