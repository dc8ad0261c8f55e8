//! The files that are written.

use crate::real_io::sources::{Identity, Source, identity_of};
use morsel_meaning::Name;
use std::fs::{OpenFile, OpenOptions};
use std::io::ErrorKind;
use std::rt::Files;
use std::{fs, io};

/// A sink that stays open.
#[derive(Drop)]
pub struct OpenSink<F: Drop> {
    pub name: Name,
    pub file: F,
}

/// Whether printed lines go to this file.
fn is_standard_output<R: Files>(rt: &R, identity: Identity) -> bool {
    match fs::metadata(rt, "/dev/stdout") {
        Ok(metadata) => identity_of(&metadata) == identity,
        Err(_) => false,
    }
}

/// Opens the file for writing, and makes it empty. One of the sources under whatever name, or the file that lines are
/// printed to, is refused before it is cut.
pub fn create<R: Files>(rt: &R, name: &str, sources: &[Source]) -> io::Result<R::File> {
    let file = OpenOptions::new().write(true).create(true).open(rt, name)?;
    let metadata = file.metadata()?;
    let identity = identity_of(&metadata);
    if sources
        .iter()
        .any(|source| source.version.identity == identity)
    {
        return Err(io::Error::new(ErrorKind::InvalidInput, "the sink is a source"));
    }
    if metadata.is_file() {
        if is_standard_output(rt, identity) {
            return Err(io::Error::new(ErrorKind::InvalidInput, "the sink is standard output"));
        }
        file.set_len(0)?;
    }
    Ok(file)
}
