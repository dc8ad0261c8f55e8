//! The files that are read: which ones are, how two of them are told apart, and how their bytes are had.
//!
//! A file is read through the descriptor that it was opened with, so it stays the same file whatever its name comes to
//! mean. Where no descriptor of it is kept, it is opened anew for each read, and has to be as it was.

use morsel_meaning::Name;
use std::fs::{File, Metadata, OpenFile};
use std::io::ErrorKind;
use std::os::unix::fs::{FileExt, MetadataExt};
use std::rt::Files;
use std::{fs, io};

/// The system's number of the error that a process has as many open files as it may (`EMFILE`).
const TOO_MANY_OPEN_FILES: i32 = 24;

/// What tells one file of the system from another, under whatever name: its device and its number there.
#[derive(Clone, Copy, PartialEq, Eq)]
pub struct Identity {
    device: u64,
    number: u64,
}

/// What is the same at two looks at a file where it was neither replaced nor changed in between, as far as the system's
/// clock tells.
#[derive(Clone, Copy, PartialEq, Eq)]
pub struct Version {
    pub identity: Identity,
    pub size: u64,
    modified: (i64, i64),
    changed: (i64, i64),
}

/// An opened file.
#[derive(Drop)]
pub struct Source {
    pub name: Name,
    pub version: Version,
}

pub fn identity_of(metadata: &Metadata) -> Identity {
    Identity {
        device: metadata.dev(),
        number: metadata.ino(),
    }
}

fn version_of(metadata: &Metadata) -> Version {
    Version {
        identity: identity_of(metadata),
        size: metadata.len(),
        modified: (metadata.mtime(), metadata.mtime_nsec()),
        changed: (metadata.ctime(), metadata.ctime_nsec()),
    }
}

fn not_regular() -> io::Error {
    io::Error::new(ErrorKind::InvalidInput, "not a regular file")
}

fn check_regular(metadata: &Metadata) -> io::Result<()> {
    if metadata.is_file() {
        Ok(())
    } else {
        Err(not_regular())
    }
}

/// Whether an open file of size 0 has bytes: one that the system makes up while it is read, as those below `/proc`. The
/// size is asked again, since a file may have grown in the meantime.
fn is_made_up<F: OpenFile + FileExt>(file: &F) -> io::Result<bool> {
    let read = file.read_at(&mut [0; 1], 0)?;
    Ok(read > 0 && file.metadata()?.len() == 0)
}

/// The version of an open file, where its bytes can be read again and again.
fn look_at<F: OpenFile + FileExt>(file: &F) -> io::Result<Version> {
    let metadata = file.metadata()?;
    check_regular(&metadata)?;
    if metadata.len() == 0 && is_made_up(file)? {
        return Err(not_regular());
    }
    Ok(version_of(&metadata))
}

/// Opens the file.
///
/// Its kind is asked by its name first, since opening a pipe would wait for the pipe's other end, and once more of what
/// was opened, since the name may mean another file by then. A pipe that takes its place in between is waited for.
pub fn open<R: Files>(rt: &R, name: &str) -> io::Result<(R::File, Version)>
where
    R::File: FileExt,
{
    check_regular(&fs::metadata(rt, name)?)?;
    let file = File::open(rt, name)?;
    let version = look_at(&file)?;
    Ok((file, version))
}

/// Opens the source anew, where it is as it was.
pub fn open_again<R: Files>(rt: &R, source: &Source) -> io::Result<R::File>
where
    R::File: FileExt,
{
    let (file, version) = open(rt, source.name.as_str())?;
    if version == source.version {
        Ok(file)
    } else {
        Err(io::Error::new(
            ErrorKind::InvalidData,
            "the file was replaced or changed after it was opened",
        ))
    }
}

/// Whether the process has as many open files as it may.
pub fn is_out_of_descriptors(error: &io::Error) -> bool {
    error.raw_os_error() == Some(TOO_MANY_OPEN_FILES)
}
