//! Open files that are kept, so that a write in steady state opens nothing.
ghost use Rattle.std.specs.Prelude.{◌≡◌, IfSome};

use crate::trouble::Trouble;
use std::alloc::{AllocError, Global};
use std::fs::OpenFile;
use std::rt::Runtime;

/// How many files are kept open. A process may mostly have 1,024.
const MOST: usize = 128;

/// An open file of the store.
#[derive(Drop)]
pub struct Kept<H: Runtime> {
    id: u64,
    pub file: H::File,
    /// Whether it has writes that weren't synced.
    pub is_pending: bool,
}

/// The files that were opened last.
#[derive(Drop)]
pub struct Handles<H: Runtime> {
    kept: Vec<Kept<H>>,
}

impl<H: Runtime> Handles<H> {
    /// None yet. The room is taken here, so keeping a file wants no memory.
    pub fn new(alloc: Global) -> Result<Handles<H>, AllocError> {
        Ok(Handles {
            kept: Vec::with_capacity(alloc, MOST)?,
        })
    }

    /// The open file of this id, where it is kept.
    pub fn get_mut(&mut self, id: u64) -> Option<&mut Kept<H>>
        ensures this { IfSome result (λ kept. kept.now.id ≡ id) }
    {
        self.kept.iter_mut().find(|kept| kept.id == id)
    }

    /// Whether the file of this id is kept.
    pub fn has(&self, id: u64) -> bool {
        self.kept.iter().any(|kept| kept.id == id)
    }

    /// Keeps an open file, in place of the one that was opened first where there are enough. That
    /// one is synced before it is closed where it has writes, since an error that the system finds
    /// later may be lost with the last handle.
    pub fn keep(&mut self, id: u64, file: H::File) -> Result<(), Trouble> {
        if self.kept.len() >= MOST {
            let oldest = self.kept.remove(0);
            if oldest.is_pending {
                oldest.file.sync_data()?;
            }
        }
        self.kept.push(Kept {
            id,
            file,
            is_pending: false,
        })?;
        Ok(())
    }
}
