// A site in memory on which no call fails.
ghost use Rattle.std.specs.Prelude.{◌≡◌};
ghost use Rattle.qls_memsite.specs.Failures.{none_failing};
ghost use Rattle.qls_memsite.specs.Memory.{set_to_fail};

use qls_memsite::MemSite;
use qls_model::Seq;
use qls_site::{FileAt, Place, Site, SiteError};
use std::alloc::Global;

/// A site in memory on which no call is set to fail, and none can be set so. It tells its content, and its count of faults is 0.
#[derive(Drop)]
pub struct SteadySite {
    inner: MemSite,
    ghost steady: { set_to_fail inner ≡ none_failing },
}

impl SteadySite {
    ghost use Rattle.qls_steady.specs.Steady.{site_in};

    /// Holds this site, on which no call is set to fail.
    pub fn new(site: MemSite) -> SteadySite
        requires steady { set_to_fail site ≡ none_failing }
        ensures held { site_in result ≡ site }
    {
        SteadySite { inner: site }
    }

    /// The site that it holds.
    pub fn site(&self) -> &MemSite
        ensures held { result.now ≡ site_in self.now }
    {
        &self.inner
    }

    /// Gives the site back. No call on it is set to fail.
    pub fn into_site(self) -> MemSite
        ensures held { result ≡ site_in self }
        ensures steady { set_to_fail result ≡ none_failing }
    {
        self.inner
    }
}

impl Site for SteadySite {
    ghost use Rattle.std.specs.Prelude.{◌%◌, ◌<◌, length, IfSome};
    ghost use Rattle.qls_site.specs.Disk.{IdsRise, full, write_at, sync_at, create_at, relocate_at};
    ghost use Rattle.qls_site.specs.Content.{Tells, Leads, Acts, Stays, MayAct, on_disk, on_answered, HasFile, HasRange, LacksFile, IsRead, IsListed, Causes, CountsOne};
    ghost use Rattle.qls_steady.specs.Steady.{told_in, site_faults, syncs_in, reads_in};

    ghost told = { told_in };

    ghost faults = { site_faults };

    ghost syncs = { syncs_in };

    ghost reads = { reads_in };

    fn list(&mut self, alloc: Global) -> Result<Seq<FileAt>, SiteError>
        ensures listed { IsListed (told_in self.old) result }
        ensures rising { IfSome (told_in self.old) (λ c. IdsRise (full c.now.disk)) }
        ensures told { Tells (Leads Stays Stays result) (told_in self.old) (told_in self.new) }
        ensures cause { Causes (site_faults self.old) (site_faults self.new) result }
        ensures syncs { syncs_in self.new ≡ syncs_in self.old }
        ensures reads { reads_in self.new ≡ reads_in self.old }
    {
        self.inner.list(alloc)
    }

    fn read(&mut self, id: u64, at: u64, into: &mut [u8]) -> Result<(), SiteError>
        requires { IfSome (told_in self.old) (HasRange id at (length into.old)) }
        ensures read { IsRead (told_in self.old) id at (length into.old) into.new result }
        ensures told { Tells (Leads Stays Stays result) (told_in self.old) (told_in self.new) }
        ensures cause { Causes (site_faults self.old) (site_faults self.new) result }
        ensures syncs { syncs_in self.new ≡ syncs_in self.old }
        ensures reads { CountsOne (told_in self.old) result (reads_in self.old) (reads_in self.new) }
    {
        self.inner.read(id, at, into)
    }

    fn write(&mut self, id: u64, at: u64, bytes: &[u8]) -> Result<(), SiteError>
        requires range { IfSome (told_in self.old) (HasRange id at (length bytes.now)) }
        requires sectors { (at % 512 ≡ 0) × (length bytes.now % 512 ≡ 0) × (0 < length bytes.now) }
        ensures told { Tells (Leads (Acts (on_disk (write_at id at bytes.now))) (Acts (on_disk (write_at id at bytes.now))) result) (told_in self.old) (told_in self.new) }
        ensures cause { Causes (site_faults self.old) (site_faults self.new) result }
        ensures syncs { syncs_in self.new ≡ syncs_in self.old }
        ensures reads { reads_in self.new ≡ reads_in self.old }
    {
        self.inner.write(id, at, bytes)
    }

    fn sync(&mut self, id: u64) -> Result<(), SiteError>
        requires { IfSome (told_in self.old) (HasFile id) }
        ensures told { Tells (Leads (Acts (on_disk (sync_at id))) Stays result) (told_in self.old) (told_in self.new) }
        ensures cause { Causes (site_faults self.old) (site_faults self.new) result }
        ensures syncs { CountsOne (told_in self.old) result (syncs_in self.old) (syncs_in self.new) }
        ensures reads { reads_in self.new ≡ reads_in self.old }
    {
        self.inner.sync(id)
    }

    fn create(&mut self, id: u64, part: u16, kib: u32) -> Result<(), SiteError>
        requires { IfSome (told_in self.old) (LacksFile id) }
        ensures told { Tells (Leads (Acts (on_disk (create_at id part kib))) (MayAct (on_disk (create_at id part kib))) result) (told_in self.old) (told_in self.new) }
        ensures cause { Causes (site_faults self.old) (site_faults self.new) result }
        ensures syncs { syncs_in self.new ≡ syncs_in self.old }
        ensures reads { reads_in self.new ≡ reads_in self.old }
    {
        self.inner.create(id, part, kib)
    }

    fn relocate(&mut self, id: u64, to: Place) -> Result<(), SiteError>
        requires { IfSome (told_in self.old) (HasFile id) }
        ensures told { Tells (Leads (Acts (on_disk (relocate_at id to))) (MayAct (on_disk (relocate_at id to))) result) (told_in self.old) (told_in self.new) }
        ensures cause { Causes (site_faults self.old) (site_faults self.new) result }
        ensures syncs { syncs_in self.new ≡ syncs_in self.old }
        ensures reads { reads_in self.new ≡ reads_in self.old }
    {
        self.inner.relocate(id, to)
    }

    fn answer(&mut self, bytes: &[u8]) -> Result<(), SiteError>
        ensures told { Tells (Leads (Acts (on_answered bytes.now)) (MayAct (on_answered bytes.now)) result) (told_in self.old) (told_in self.new) }
        ensures cause { Causes (site_faults self.old) (site_faults self.new) result }
        ensures syncs { syncs_in self.new ≡ syncs_in self.old }
        ensures reads { reads_in self.new ≡ reads_in self.old }
    {
        self.inner.answer(bytes)
    }
}
