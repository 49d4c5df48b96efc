//! The site of a folder.
ghost use Rattle.std.specs.Prelude.{◌≡◌, None, IfOk};

use crate::lock::{Locking, StoreFile};
use crate::store::Store;
use crate::trouble::{Trouble, counted, tally};
use qls_model::{NoMemory, Seq};
use qls_site::{FileAt, Place, Site, SiteError};
use std::alloc::Global;
use std::io::{self, Write};
use std::rt::Runtime;

/// A store's files in a folder DIR, and standard output as its answer port. It tells no content.
///
/// A file is `DIR/inuse/ID.qls`, or `DIR/empty/PART/KIB/ID.qls` while it is empty: ID in 19 digits with
/// leading zeros, PART (16 bits) and KIB (32 bits) decimal without. Other names that are text are
/// passed over. A name that isn't text, a folder or a link in a file's place, a file of another user or
/// with a second name, and an id in two places are a fault. A missing folder is empty.
///
/// The first call on the disk takes a lock on DIR, lists the files, and syncs every file and folder,
/// DIR and the folder that holds it, because an earlier process may have ended before it did. Where
/// another process has the lock the call fails at once and has touched nothing. The lock ends with the
/// value. A DIR that is missing is a store without files, and the first create makes it.
///
/// A call that may have changed the disk and failed is the last: every later call on the disk fails
/// and touches nothing, because the system may have given up writes whose sync failed.
#[derive(Drop)]
pub struct HostSite<H: Runtime> {
    store: Store<H>,
    faults: u64,
    syncs: u64,
    reads: u64,
}

impl<H: Runtime> HostSite<H>
where
    H::File: StoreFile,
{
    /// The site of the folder of that path, which no other process has meanwhile. It touches nothing.
    pub fn new(rt: &H, alloc: Global, dir: &str) -> Result<HostSite<H>, NoMemory>
        ensures faults { IfOk result (λ site. ⟦<HostSite<H> as Site>⟧.faults site ≡ 0) }
        ensures syncs { IfOk result (λ site. ⟦<HostSite<H> as Site>⟧.syncs site ≡ 0) }
        ensures reads { IfOk result (λ site. ⟦<HostSite<H> as Site>⟧.reads site ≡ 0) }
    {
        HostSite::with_locking(rt, alloc, dir, Locking::Exclusive)
    }

    /// The same to read alone, beside other processes that read. A call that would change the disk
    /// fails and touches nothing.
    pub fn new_shared(rt: &H, alloc: Global, dir: &str) -> Result<HostSite<H>, NoMemory>
        ensures faults { IfOk result (λ site. ⟦<HostSite<H> as Site>⟧.faults site ≡ 0) }
        ensures syncs { IfOk result (λ site. ⟦<HostSite<H> as Site>⟧.syncs site ≡ 0) }
        ensures reads { IfOk result (λ site. ⟦<HostSite<H> as Site>⟧.reads site ≡ 0) }
    {
        HostSite::with_locking(rt, alloc, dir, Locking::Shared)
    }

    /// The site of the folder of that path, shared with other processes as said.
    pub fn with_locking(
        rt: &H,
        alloc: Global,
        dir: &str,
        locking: Locking,
    ) -> Result<HostSite<H>, NoMemory>
        ensures faults { IfOk result (λ site. ⟦<HostSite<H> as Site>⟧.faults site ≡ 0) }
        ensures syncs { IfOk result (λ site. ⟦<HostSite<H> as Site>⟧.syncs site ≡ 0) }
        ensures reads { IfOk result (λ site. ⟦<HostSite<H> as Site>⟧.reads site ≡ 0) }
    {
        Ok(HostSite {
            store: Store::new(rt, alloc, dir, locking)?,
            faults: 0,
            syncs: 0,
            reads: 0,
        })
    }

    fn try_answer(&self, bytes: &[u8]) -> Result<(), Trouble> {
        let mut output = io::writer(&self.store.rt);
        output.write_all(bytes)?;
        output.flush()?;
        Ok(())
    }
}

impl<H: Runtime> Site for HostSite<H>
where
    H::File: StoreFile,
{
    ghost told = { λ _. None };

    ghost faults = { λ s. s.faults };

    ghost syncs = { λ s. s.syncs };

    ghost reads = { λ s. s.reads };

    fn list(&mut self, alloc: Global) -> Result<Seq<FileAt>, SiteError> {
        let outcome = self.store.list(alloc);
        counted(&mut self.faults, outcome)
    }

    /// Fails where the file isn't known, or has fewer bytes.
    fn read(&mut self, id: u64, at: u64, into: &mut [u8]) -> Result<(), SiteError> {
        let outcome = self.store.read(id, at, into);
        tally(&mut self.reads, &outcome);
        counted(&mut self.faults, outcome)
    }

    /// Fails where the file isn't known, or has fewer bytes: a file never grows.
    fn write(&mut self, id: u64, at: u64, bytes: &[u8]) -> Result<(), SiteError> {
        let outcome = self.store.write(id, at, bytes);
        counted(&mut self.faults, outcome)
    }

    /// Syncs the file's data.
    fn sync(&mut self, id: u64) -> Result<(), SiteError> {
        let outcome = self.store.sync(id);
        tally(&mut self.syncs, &outcome);
        counted(&mut self.faults, outcome)
    }

    /// Writes `ID.new` with zeros over its whole size, syncs it, renames it and syncs the folder. The
    /// size is 4,096 + 1,024 * KIB bytes. A file that a cut left under the name `ID.new` is replaced.
    fn create(&mut self, id: u64, part: u16, kib: u32) -> Result<(), SiteError> {
        let outcome = self.store.create(id, part, kib);
        counted(&mut self.faults, outcome)
    }

    /// Renames the file, and syncs the folder that it comes into and the one that it leaves.
    fn relocate(&mut self, id: u64, to: Place) -> Result<(), SiteError> {
        let outcome = self.store.relocate(id, to);
        counted(&mut self.faults, outcome)
    }

    /// Writes to standard output, all bytes before the call returns.
    fn answer(&mut self, bytes: &[u8]) -> Result<(), SiteError> {
        let outcome = self.try_answer(bytes);
        counted(&mut self.faults, outcome)
    }
}
