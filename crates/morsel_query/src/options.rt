//! The numbers by which a query is run.
ghost use Rattle.std.specs.Prelude.{◌≡◌, ◌<◌, ◌↔◌, IfOk, IsErrOf, IsOkUnless, IsTrue};
ghost use Rattle.morsel_query.specs.RunOptions.{AreInRange, IsFrom1To, run_options_of, standard_options, pieces_ahead};

use morsel_meaning::{Fault, Why};
use std::marker::Model;

/// The numbers by which a query is run, each within its range. None of them changes what the query means.
#[derive(Debug, Drop)]
pub struct Options {
    workers: u32,
    morsel_rows: u32,
    chunk_bytes: u32,
    distributor_buffer: u32,
    linearizer_buffer: u32,
    min_values_per_task: u32,
    random_state: u64,
}

impl Model for Options {
    ghost use Rattle.morsel_query.specs.RunOptions.{RunOptions, AreInRange, run_options_of};

    ghost Value = { RunOptions };

    ghost view = { λ o. run_options_of o.workers o.morsel_rows o.chunk_bytes o.distributor_buffer o.linearizer_buffer o.min_values_per_task o.random_state };

    ghost invariant = { λ o. AreInRange (run_options_of o.workers o.morsel_rows o.chunk_bytes o.distributor_buffer o.linearizer_buffer o.min_values_per_task o.random_state) };
}

impl Options {
    /// These numbers, where each is within its range; else `OptionRange`.
    ///
    /// There are 1 to 32,768 workers. Each buffer has 1 to 65,536 places. `morsel_rows`, `chunk_bytes` and
    /// `min_values_per_task` are at least 1. `random_state` is any number.
    pub fn new(
        workers: u32,
        morsel_rows: u32,
        chunk_bytes: u32,
        distributor_buffer: u32,
        linearizer_buffer: u32,
        min_values_per_task: u32,
        random_state: u64,
    ) -> Result<Options, Fault>
        ensures value { IfOk result (λ options. options ≡ run_options_of workers morsel_rows chunk_bytes distributor_buffer linearizer_buffer min_values_per_task random_state) }
        ensures option_range { IsErrOf result (Fault.InvalidQuery Why.OptionRange)
            ↔ (AreInRange (run_options_of workers morsel_rows chunk_bytes distributor_buffer linearizer_buffer min_values_per_task random_state) → ⊥) }
        ensures fault { IsOkUnless result (Fault.InvalidQuery Why.OptionRange) }
    {
        if !is_from_1_to(MOST_WORKERS, workers)
            || !is_from_1_to(u32::MAX, morsel_rows)
            || !is_from_1_to(u32::MAX, chunk_bytes)
            || !is_from_1_to(MOST_PLACES, distributor_buffer)
            || !is_from_1_to(MOST_PLACES, linearizer_buffer)
            || !is_from_1_to(u32::MAX, min_values_per_task)
        {
            return Err(Fault::InvalidQuery {
                why: Why::OptionRange,
            });
        }
        Ok(Options {
            workers,
            morsel_rows,
            chunk_bytes,
            distributor_buffer,
            linearizer_buffer,
            min_values_per_task,
            random_state,
        })
    }

    /// 4 workers, morsels of 100,000 rows, reads of 64 KiB, buffers of 4 places, 16,777,216 values a task, random state 0.
    pub fn standard() -> Options
        ensures { result ≡ standard_options }
    {
        Options {
            workers: 4,
            morsel_rows: 100_000,
            chunk_bytes: 65_536,
            distributor_buffer: 4,
            linearizer_buffer: 4,
            min_values_per_task: 16_777_216,
            random_state: 0,
        }
    }

    /// How many workers there are.
    pub fn workers(&self) -> u32
        ensures value { result ≡ self.now.workers }
        ensures within { IsFrom1To 32768 result }
    {
        self.workers
    }

    /// How many rows a morsel is to have.
    pub fn morsel_rows(&self) -> u32
        ensures value { result ≡ self.now.morsel_rows }
        ensures within { IsFrom1To 4294967295 result }
    {
        self.morsel_rows
    }

    /// How many bytes one read asks at most.
    pub fn chunk_bytes(&self) -> u32
        ensures value { result ≡ self.now.chunk_bytes }
        ensures within { IsFrom1To 4294967295 result }
    {
        self.chunk_bytes
    }

    /// How many pieces may wait at one worker.
    pub fn distributor_buffer(&self) -> u32
        ensures value { result ≡ self.now.distributor_buffer }
        ensures within { IsFrom1To 65536 result }
    {
        self.distributor_buffer
    }

    /// How many parts of one worker may wait to be put in order.
    pub fn linearizer_buffer(&self) -> u32
        ensures value { result ≡ self.now.linearizer_buffer }
        ensures within { IsFrom1To 65536 result }
    {
        self.linearizer_buffer
    }

    /// How many values are worth a task.
    pub fn min_values_per_task(&self) -> u32
        ensures value { result ≡ self.now.min_values_per_task }
        ensures within { IsFrom1To 4294967295 result }
    {
        self.min_values_per_task
    }

    /// Where hashing and random choices begin.
    pub fn random_state(&self) -> u64
        ensures { result ≡ self.now.random_state }
    {
        self.random_state
    }
}

/// How many workers there may be.
const MOST_WORKERS: u32 = 32_768;

/// How many places a buffer may have.
const MOST_PLACES: u32 = 65_536;

/// Whether a number is at least 1 and at most `most`.
fn is_from_1_to(most: u32, n: u32) -> bool
    ensures { IsTrue result ↔ IsFrom1To most n }
{
    1 <= n && n <= most
}

/// How many pieces may be read ahead of what is written.
pub fn ahead(options: &Options) -> u64
    ensures value { result ≡ pieces_ahead options.now }
    ensures some { 0 < result }
{
    let places = u64::from(options.distributor_buffer()) + u64::from(options.linearizer_buffer());
    u64::from(options.workers()) * (3 * places + 16)
}
