//! Calls on folders, which carry on where a signal interrupts them.
use crate::trouble::{Trouble, in_listing};
use std::fs::{self, OpenFile};
use std::io::{self, ErrorKind};
use std::rt::{Files, Runtime};

/// Renames a file, within a folder or across folders.
pub fn rename(files: &impl Files, from: &str, to: &str) -> io::Result<()> {
    for _ in 0..u64::MAX {
        match fs::rename(files, from, to) {
            Err(error) if error.kind() == ErrorKind::Interrupted => {}
            outcome => return outcome,
        }
    }
    Err(io::Error::from(ErrorKind::Interrupted))
}

/// Makes a folder. One that is there already is no error.
pub fn make(files: &impl Files, path: &str) -> io::Result<()> {
    for _ in 0..u64::MAX {
        match fs::create_dir(files, path) {
            Err(error) if error.kind() == ErrorKind::Interrupted => {}
            Err(error) if error.kind() == ErrorKind::AlreadyExists => return Ok(()),
            outcome => return outcome,
        }
    }
    Err(io::Error::from(ErrorKind::Interrupted))
}

/// Makes the names in a folder durable.
pub fn sync(files: &impl Files, path: &str) -> io::Result<()> {
    fs::open(files, path)?.sync_all()
}

/// Whether the folder is there. A link or a file in its place is an error.
pub fn is_there(files: &impl Files, path: &str) -> io::Result<bool> {
    match fs::symlink_metadata(files, path) {
        Ok(metadata) if metadata.is_dir() => Ok(true),
        Ok(_) => Err(io::Error::from(ErrorKind::NotADirectory)),
        Err(error) if error.kind() == ErrorKind::NotFound => Ok(false),
        Err(error) => Err(error),
    }
}

/// Whether nothing is in the folder.
pub fn is_empty<H: Runtime>(rt: &H, path: &str) -> Result<bool, Trouble> {
    let mut entries = fs::read_dir(rt, path).map_err(in_listing)?;
    Ok(entries.next().is_none())
}
