//! What a program of timings is asked for, and how it ends.
use crate::timing::Timing;
use morsel_meaning::Fault;
use std::io::ErrorKind;
use std::rt::Env;
use std::{env, io};

/// The rows where no number is asked for.
const FEW_ROWS: usize = 10000;

/// The number of rows that the first word asks for, if there is one.
fn rows_asked<R: Env + AllocGlobal>(rt: &R) -> io::Result<Option<usize>> {
    let mut args = env::args(rt)?;
    let _program = args.next();
    Ok(match args.next() {
        Some(word) => word.as_str().parse().ok(),
        None => None,
    })
}

/// How parts are timed, and on how many rows or values.
///
/// The first word asks for a number, and lines then have times, each the least of seven runs. Without one each part is
/// run once on ten thousand, and lines have counts alone.
pub fn timing_asked<R: Env + AllocGlobal>(rt: &R) -> io::Result<(Timing, usize)> {
    let asked = rows_asked(rt)?;
    let timing = Timing {
        timed: asked.is_some(),
        runs: if asked.is_some() { 7 } else { 1 },
    };
    Ok((timing, asked.unwrap_or(FEW_ROWS)))
}

/// What a program of timings answers, whose parts ended so.
pub fn timing_ended(ran: Result<(), Fault>) -> io::Result<()> {
    match ran {
        Ok(()) => Ok(()),
        Err(Fault::OutOfMemory) => Err(io::Error::from(ErrorKind::OutOfMemory)),
        Err(_) => Err(io::Error::from(ErrorKind::Other)),
    }
}
