//! The lock on a store's folder, by which one process at a time has the store.
use std::fs::{File, TryLockError};
use std::io;
use std::os::fd::AsRawFd;
use std::os::unix::fs::FileExt;

/// The number of standard error.
const LAST_STREAM: i32 = 2;

/// How a store is shared with other processes.
#[derive(Clone, Copy, Debug, PartialEq, Eq)]
pub enum Locking {
    /// No other process has it.
    Exclusive,
    /// Others that only read may have it at the same time.
    Shared,
}

/// An open file or folder of a store: read and written at a place, and locked without waiting.
pub trait StoreFile: FileExt {
    /// Takes the lock, or fails at once where another open of the file has one that doesn't go with
    /// it. The lock ends with the handle, at the latest with the process.
    fn try_locking(&self, how: Locking) -> io::Result<()>;

    /// Whether it has the number of standard input, output or error, which was closed then.
    fn stands_for_a_stream(&self) -> bool;
}

impl StoreFile for File {
    fn try_locking(&self, how: Locking) -> io::Result<()> {
        let outcome = match how {
            Locking::Exclusive => self.try_lock(),
            Locking::Shared => self.try_lock_shared(),
        };
        match outcome {
            Ok(()) => Ok(()),
            Err(TryLockError::Error(error)) => Err(error),
            Err(TryLockError::WouldBlock) => Err(io::Error::from(io::ErrorKind::WouldBlock)),
        }
    }

    fn stands_for_a_stream(&self) -> bool {
        self.as_raw_fd() <= LAST_STREAM
    }
}
