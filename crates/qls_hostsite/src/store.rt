//! The files of a store, and the calls on them, before faults are counted.
ghost use Rattle.std.specs.Prelude.{◌↔◌, ◌+◌, ◌≤◌, IsTrue};

use crate::folders;
use crate::handles::Handles;
use crate::lock::{Locking, StoreFile};
use crate::names::LAST_ID;
use crate::paths::{Folder, PathText};
use crate::trouble::Trouble;
use qls_model::{NoMemory, Seq};
use qls_site::{FileAt, Place};
use std::alloc::Global;
use std::collections::{BTreeMap, BTreeSet};
use std::fs::{self, OpenFile, OpenOptions};
use std::io::{self, ErrorKind};
use std::os::unix::fs::FileExt;
use std::rt::Runtime;

/// The bytes of a file's header, and of one KiB of its data.
const HEADER_BYTES: u64 = 4096;

const KIB_BYTES: u64 = 1024;

/// What is written at a time as a file is made.
static ZEROS: [u8; 65_536] = [0; 65_536];

/// What is known of a file: where it is, and its size in bytes.
#[derive(Clone, Copy)]
pub struct Known {
    pub place: Place,
    pub size: u64,
}

impl Known {
    // Whether the file has `len` bytes from `at` on.
    fn has_range(&self, at: u64, len: usize) -> bool
        ensures { IsTrue result ↔ (at + len ≤ self.now.size) }
    {
        let size = self.size;
        match at.checked_add(len as u64) {
            Some(end) => end <= size,
            None => false,
        }
    }
}

/// How a store stands.
#[derive(Clone, Copy, PartialEq, Eq)]
enum Standing {
    /// No call was made.
    Untouched,
    /// The files are known.
    Open,
    /// A call that may have changed the disk failed. A later sync couldn't be trusted, since the
    /// system may have given up what the failed one was to write, so nothing more is done.
    Ended,
}

/// A store's folder.
#[derive(Drop)]
pub struct Store<H: Runtime> {
    pub(crate) rt: H,
    pub(crate) alloc: Global,
    pub(crate) locking: Locking,
    pub(crate) path: PathText,
    pub(crate) target: PathText,
    /// The open folder, which holds the lock; None while it is missing.
    pub(crate) lock: Option<H::File>,
    pub(crate) files: BTreeMap<u64, Known>,
    /// The user that the files belong to; 0 until the first call asks.
    pub(crate) user: u32,
    standing: Standing,
    handles: Handles<H>,
    /// Folders of files that this process has made or found, and whose names are durable.
    in_use_is_ready: bool,
    ready_pools: BTreeSet<(u16, u32)>,
}

impl<H: Runtime> Store<H>
where
    H::File: StoreFile,
{
    /// A store that wasn't touched yet.
    pub fn new(
        rt: &H,
        alloc: Global,
        folder: &str,
        locking: Locking,
    ) -> Result<Store<H>, NoMemory> {
        Ok(Store {
            rt: rt.clone()?,
            alloc,
            locking,
            path: PathText::new(alloc, folder)?,
            target: PathText::new(alloc, folder)?,
            lock: None,
            files: BTreeMap::new(alloc),
            user: 0,
            standing: Standing::Untouched,
            handles: Handles::new(alloc)?,
            in_use_is_ready: false,
            ready_pools: BTreeSet::new(alloc),
        })
    }

    // Before each call: the first opens the store. Where memory is wanting it is tried again later.
    fn begin(&mut self) -> Result<(), Trouble> {
        match self.standing {
            Standing::Open => return Ok(()),
            Standing::Ended => return Err(Trouble::Host),
            Standing::Untouched => {}
        }
        match self.open_all() {
            Ok(()) => {
                self.standing = Standing::Open;
                Ok(())
            }
            Err(trouble) => {
                self.lock = None;
                self.files.clear();
                self.in_use_is_ready = false;
                self.ready_pools.clear();
                self.ended(Err(trouble))
            }
        }
    }

    // Before a call that writes: others may read where the lock is shared.
    fn begin_change(&mut self) -> Result<(), Trouble> {
        self.begin()?;
        match self.locking {
            Locking::Exclusive => Ok(()),
            Locking::Shared => Err(Trouble::Host),
        }
    }

    // After a call that may have changed the disk.
    fn ended(&mut self, outcome: Result<(), Trouble>) -> Result<(), Trouble> {
        if outcome == Err(Trouble::Host) {
            self.standing = Standing::Ended;
        }
        outcome
    }

    fn known(&self, id: u64) -> Result<Known, Trouble> {
        match self.files.get(&id) {
            Some(known) => Ok(*known),
            None => Err(Trouble::Host),
        }
    }

    // The place of a file that has `len` bytes from `at` on.
    fn place_of_range(&self, id: u64, at: u64, len: usize) -> Result<Place, Trouble> {
        let known = self.known(id)?;
        if known.has_range(at, len) {
            Ok(known.place)
        } else {
            Err(Trouble::Host)
        }
    }

    /// All files, by id.
    pub fn list(&mut self, alloc: Global) -> Result<Seq<FileAt>, Trouble> {
        self.begin()?;
        let mut files = Seq::new(alloc);
        for (id, known) in &self.files {
            files.push(FileAt {
                id: *id,
                place: known.place,
                size: known.size,
            })?;
        }
        Ok(files)
    }

    // Opens a file of the store, unless it is open. In a shared store it is opened to read alone.
    fn open(&mut self, id: u64, place: Place) -> Result<(), Trouble> {
        if self.handles.has(id) {
            return Ok(());
        }
        self.path.file(place, id)?;
        let file = OpenOptions::new()
            .read(true)
            .write(self.locking == Locking::Exclusive)
            .open(&self.rt, self.path.as_str())?;
        self.handles.keep(id, file)
    }

    /// Fills `into` from the file's bytes from `at` on.
    pub fn read(&mut self, id: u64, at: u64, into: &mut [u8]) -> Result<(), Trouble> {
        self.begin()?;
        let place = self.place_of_range(id, at, into.len())?;
        let outcome = self.open(id, place);
        self.ended(outcome)?;
        let Some(kept) = self.handles.get_mut(id) else {
            return Err(Trouble::Host);
        };
        kept.file.read_exact_at(into, at)?;
        Ok(())
    }

    /// Writes over the file's bytes from `at` on.
    pub fn write(&mut self, id: u64, at: u64, bytes: &[u8]) -> Result<(), Trouble> {
        self.begin_change()?;
        let outcome = self.write_in_range(id, at, bytes);
        self.ended(outcome)
    }

    fn write_in_range(&mut self, id: u64, at: u64, bytes: &[u8]) -> Result<(), Trouble> {
        let place = self.place_of_range(id, at, bytes.len())?;
        self.open(id, place)?;
        let Some(kept) = self.handles.get_mut(id) else {
            return Err(Trouble::Host);
        };
        kept.is_pending = true;
        kept.file.write_all_at(bytes, at)?;
        Ok(())
    }

    /// Makes the file's bytes durable.
    pub fn sync(&mut self, id: u64) -> Result<(), Trouble> {
        self.begin()?;
        let outcome = self.sync_file(id);
        self.ended(outcome)
    }

    fn sync_file(&mut self, id: u64) -> Result<(), Trouble> {
        let place = self.known(id)?.place;
        self.open(id, place)?;
        let Some(kept) = self.handles.get_mut(id) else {
            return Err(Trouble::Host);
        };
        kept.file.sync_data()?;
        kept.is_pending = false;
        Ok(())
    }

    /// Makes a file of zeros, whose bytes, size and name are durable.
    pub fn create(&mut self, id: u64, part: u16, kib: u32) -> Result<(), Trouble> {
        self.begin_change()?;
        if id > LAST_ID || self.files.contains_key(&id) {
            return Err(Trouble::Host);
        }
        let place = Place::Empty { part, kib };
        let size = HEADER_BYTES + KIB_BYTES * u64::from(kib);
        self.files.insert(id, Known { place, size })?;
        let outcome = self.create_file(id, place, size);
        self.ended(outcome)
    }

    fn create_file(&mut self, id: u64, place: Place, size: u64) -> Result<(), Trouble> {
        if self.lock.is_none() {
            self.make_store()?;
        }
        self.make_ready(place)?;
        self.path.unfinished(place, id)?;
        let file = new_file(&self.rt, self.path.as_str())?;
        if let Err(error) = fill(&file, size) {
            // The space is given back where it can be: another file may need it.
            let _ = fs::remove_file(&self.rt, self.path.as_str());
            return Err(Trouble::from(error));
        }
        self.target.file(place, id)?;
        folders::rename(&self.rt, self.path.as_str(), self.target.as_str())?;
        self.sync_folder(Folder::of(place))?;
        self.handles.keep(id, file)
    }

    /// Renames the file into the folder of that place, durably.
    pub fn relocate(&mut self, id: u64, to: Place) -> Result<(), Trouble> {
        self.begin_change()?;
        let outcome = self.rename_file(id, to);
        self.ended(outcome)
    }

    // The folder that the file comes into is synced first: a cut in between loses no name.
    fn rename_file(&mut self, id: u64, to: Place) -> Result<(), Trouble> {
        let from = self.known(id)?.place;
        self.make_ready(to)?;
        self.path.file(from, id)?;
        self.target.file(to, id)?;
        folders::rename(&self.rt, self.path.as_str(), self.target.as_str())?;
        self.sync_folder(Folder::of(to))?;
        self.sync_folder(Folder::of(from))?;
        if let Some(known) = self.files.get_mut(&id) {
            known.place = to;
        }
        Ok(())
    }

    // Sees that the folder of a place is there, and its name durable. It is asked of the system once.
    fn make_ready(&mut self, place: Place) -> Result<(), Trouble> {
        if self.is_ready(place) {
            return Ok(());
        }
        if let Place::Empty { part, .. } = place {
            self.make_folder(Folder::Empty)?;
            self.make_folder(Folder::Part(part))?;
        }
        self.make_folder(Folder::of(place))?;
        self.note_ready(place);
        Ok(())
    }

    fn is_ready(&self, place: Place) -> bool {
        match place {
            Place::InUse => self.in_use_is_ready,
            Place::Empty { part, kib } => self.ready_pools.contains(&(part, kib)),
        }
    }

    /// Notes that the folder of a place is there, and its name durable. Where that wants memory the
    /// system is asked again another time.
    pub(crate) fn note_ready(&mut self, place: Place) {
        match place {
            Place::InUse => self.in_use_is_ready = true,
            Place::Empty { part, kib } => {
                let _ = self.ready_pools.insert((part, kib));
            }
        }
    }

    /// Makes the folder where it is missing. The folder that holds it is synced in each case, since
    /// whoever made it may have ended before that.
    pub(crate) fn make_folder(&mut self, folder: Folder) -> Result<(), Trouble> {
        self.path.folder(folder)?;
        folders::make(&self.rt, self.path.as_str())?;
        self.sync_folder(folder.holder())
    }

    /// Makes the names in a folder durable.
    pub(crate) fn sync_folder(&mut self, folder: Folder) -> Result<(), Trouble> {
        self.path.folder(folder)?;
        folders::sync(&self.rt, self.path.as_str())?;
        Ok(())
    }
}

// Makes a file that wasn't there. One that a cut left under this name is removed first; it is never
// opened, since it may be a link to another file.
fn new_file<H: Runtime>(rt: &H, path: &str) -> io::Result<H::File> {
    let mut options = OpenOptions::new();
    options.read(true).write(true).create_new(true);
    match options.open(rt, path) {
        Err(error) if error.kind() == ErrorKind::AlreadyExists => {
            fs::remove_file(rt, path)?;
            options.open(rt, path)
        }
        outcome => outcome,
    }
}

// Writes zeros over the whole size, so that the disk has room for every later write, and syncs the
// bytes and the size.
fn fill<F: FileExt + OpenFile>(file: &F, size: u64) -> io::Result<()> {
    let piece = ZEROS.len() as u64;
    for place in 0..size.div_ceil(piece) {
        let at = place * piece;
        let count = piece.min(size - at) as usize;
        file.write_all_at(&ZEROS[..count], at)?;
    }
    file.sync_all()
}
