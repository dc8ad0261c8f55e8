//! Names that there are, those first that are written most like one that was asked.

use crate::shown::show;
use std::alloc::{AllocError, Global};
use strsim::osa_distance;

/// How many names are shown.
const MOST_NAMES: usize = 12;

/// How many bytes a name may have to be compared.
const MOST_COMPARED: usize = 64;

/// How many edits lead from one name to the other; more than any of them where a name is long.
fn distance(alloc: Global, wanted: &str, name: &str) -> Result<usize, AllocError> {
    if wanted.len() > MOST_COMPARED || name.len() > MOST_COMPARED {
        return Ok(MOST_COMPARED);
    }
    osa_distance(alloc, wanted, name)
}

/// Each name's distance and its number.
fn distances(
    alloc: Global,
    wanted: &str,
    names: &[&str],
) -> Result<Vec<(usize, usize)>, AllocError> {
    let mut pairs = Vec::new(alloc);
    let mut number: usize = 0;
    for name in names {
        let far = distance(alloc, wanted, name)?;
        pairs.push((far, number))?;
        number = number.saturating_add(1);
    }
    pairs.sort()?;
    Ok(pairs)
}

/// Puts the names last, the nearest first, and how many more there are.
pub fn write_nearest(
    alloc: Global,
    out: &mut String,
    wanted: &str,
    names: &[&str],
) -> Result<(), AllocError> {
    let pairs = distances(alloc, wanted, names)?;
    let mut left = pairs.len();
    let mut shown: usize = 0;
    for (_, number) in pairs.as_slice() {
        if shown >= MOST_NAMES {
            break;
        }
        if shown > 0 {
            out.push_str(", ")?;
        }
        if let Some(name) = names.get(*number) {
            show(out, name.as_bytes())?;
        }
        shown = shown.saturating_add(1);
        left = left.saturating_sub(1);
    }
    if left > 0 {
        write!(out, " and {left} more")?;
    }
    Ok(())
}

/// The name that is so near to the one that was asked that it may have been meant.
pub fn meant<'n>(
    alloc: Global,
    wanted: &str,
    names: &[&'n str],
) -> Result<Option<&'n str>, AllocError> {
    let pairs = distances(alloc, wanted, names)?;
    let Some((far, number)) = pairs.as_slice().first().copied() else {
        return Ok(None);
    };
    // A third of the letters, or one.
    if far > (wanted.len() / 3).max(1) {
        return Ok(None);
    }
    Ok(names.get(number).copied())
}
