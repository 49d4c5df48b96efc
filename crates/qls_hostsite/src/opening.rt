//! The first call on a store: the lock, the listing, and the syncs of all that is there.
use crate::lock::StoreFile;
use crate::paths::Folder;
use crate::store::{Known, Store};
use crate::trouble::{Trouble, in_listing};
use crate::{folders, names};
use qls_site::Place;
use std::fs::{self, DirEntry, Metadata, OpenFile};
use std::io::ErrorKind;
use std::os::unix::fs::MetadataExt;
use std::rt::Runtime;

/// A folder of the system's that belongs to the user of the process that asks.
const OWN_PROCESS: &str = "/proc/self";

/// Whether it is a file of the user that has no other name.
fn is_own_file(metadata: &Metadata, user: u32) -> bool {
    metadata.is_file() && metadata.nlink() <= 1 && metadata.uid() == user
}

impl<H: Runtime> Store<H>
where
    H::File: StoreFile,
{
    /// Locks the store's folder, lists the files and syncs all that an earlier process may have left
    /// unsynced: each file, each folder, the store's own folder and the one that holds it. Nothing is
    /// touched where the lock is held elsewhere. A folder that is missing is a store without files.
    pub(crate) fn open_all(&mut self) -> Result<(), Trouble> {
        if self.path.store().is_empty() {
            return Err(Trouble::Host);
        }
        match fs::metadata(&self.rt, self.path.store()) {
            Ok(metadata) if metadata.is_dir() => {}
            Ok(_) => return Err(Trouble::Host),
            Err(error) if error.kind() == ErrorKind::NotFound => return Ok(()),
            Err(error) => return Err(Trouble::from(error)),
        }
        self.take_lock()?;
        self.user = fs::metadata(&self.rt, OWN_PROCESS)?.uid();
        self.take_folder(Place::InUse)?;
        self.take_pools()?;
        self.sync_folder(Folder::Store)?;
        self.sync_folder(Folder::Above)
    }

    /// Opens the store's folder and locks it, without waiting. It is held before any file is, so it gets
    /// the number of a standard stream that is closed. That is a failure: answers would go into the file
    /// that has the number of standard output.
    pub(crate) fn take_lock(&mut self) -> Result<(), Trouble> {
        let folder = fs::open(&self.rt, self.path.store())?;
        if folder.stands_for_a_stream() {
            return Err(Trouble::Host);
        }
        folder.try_locking(self.locking)?;
        self.lock = Some(folder);
        Ok(())
    }

    // The files in a folder, each synced, and then the folder.
    fn take_folder(&mut self, place: Place) -> Result<(), Trouble> {
        let folder = Folder::of(place);
        self.path.folder(folder)?;
        if !folders::is_there(&self.rt, self.path.as_str())? {
            return Ok(());
        }
        for entry in fs::read_dir(&self.rt, self.path.as_str()).map_err(in_listing)? {
            let entry = entry.map_err(in_listing)?;
            self.take_file(place, &entry)?;
        }
        self.sync_folder(folder)?;
        self.note_ready(place);
        Ok(())
    }

    fn take_file(&mut self, place: Place, entry: &DirEntry<H, H::A>) -> Result<(), Trouble> {
        let Some(id) = names::id_in(entry.file_name()) else {
            return Ok(());
        };
        let metadata = entry.metadata()?;
        if !is_own_file(&metadata, self.user) || self.files.contains_key(&id) {
            return Err(Trouble::Host);
        }
        fs::open(&self.rt, entry.path())?.sync_all()?;
        let size = metadata.len();
        self.files.insert(id, Known { place, size })?;
        Ok(())
    }

    // The folders `empty/PART/KIB`.
    fn take_pools(&mut self) -> Result<(), Trouble> {
        let parts = self.numbers_in(Folder::Empty)?;
        for part in &parts {
            if let Ok(part) = u16::try_from(*part) {
                self.take_part(part)?;
            }
        }
        Ok(())
    }

    fn take_part(&mut self, part: u16) -> Result<(), Trouble> {
        let sizes = self.numbers_in(Folder::Part(part))?;
        for kib in &sizes {
            self.take_folder(Place::Empty { part, kib: *kib })?;
        }
        Ok(())
    }

    // The numbers that name something in the folder, which is synced.
    fn numbers_in(&mut self, folder: Folder) -> Result<Vec<u32>, Trouble> {
        let mut numbers = Vec::new(self.alloc);
        self.path.folder(folder)?;
        if !folders::is_there(&self.rt, self.path.as_str())? {
            return Ok(numbers);
        }
        for entry in fs::read_dir(&self.rt, self.path.as_str()).map_err(in_listing)? {
            let entry = entry.map_err(in_listing)?;
            if let Some(number) = names::number_in(entry.file_name()) {
                numbers.push(number)?;
            }
        }
        self.sync_folder(folder)?;
        Ok(numbers)
    }

    /// Makes a missing store's folder, and those above it that are missing, and locks it. It fails
    /// where something has come into it since the first call.
    pub(crate) fn make_store(&mut self) -> Result<(), Trouble> {
        let mut above = 0;
        for end in 1..self.target.store().len() {
            above = self.make_above(above, end)?;
        }
        self.make_ancestor(above)?;
        self.make_folder(Folder::Store)?;
        self.take_lock()?;
        if folders::is_empty(&self.rt, self.target.store())? {
            Ok(())
        } else {
            Err(Trouble::Host)
        }
    }

    // Where the store's text has a slash at `end`, the folder before it is the next above; where that
    // one is missing, the one above it is made, or synced in its holder.
    fn make_above(&mut self, above: usize, end: usize) -> Result<usize, Trouble> {
        let is_missing = match self.target.store().split_at_checked(end) {
            Some((ancestor, rest)) if rest.starts_with('/') => !fs::exists(&self.rt, ancestor)?,
            _ => return Ok(above),
        };
        if is_missing {
            self.make_ancestor(above)?;
        }
        Ok(end)
    }

    // Makes the folder that the first `end` bytes of the store's text name; none for 0.
    fn make_ancestor(&mut self, end: usize) -> Result<(), Trouble> {
        match self.target.store().split_at_checked(end) {
            Some((ancestor, _)) if !ancestor.is_empty() => {
                folders::make(&self.rt, ancestor)?;
                self.path.holder_of(ancestor)?;
                folders::sync(&self.rt, self.path.as_str())?;
                Ok(())
            }
            _ => Ok(()),
        }
    }
}
