// The pools of a site.
ghost use Rattle.std.specs.Prelude.{◌≡◌, ◌<◌, ◌^◌, ◌-◌, ◌∷◌, ◌↔◌, ◌||◌, [], Err, ℕ, List, Option, IfOk, IfErr, IfSome, false, Some, None};
ghost use Rattle.qls_site.specs.Disk.{Disk};
ghost use Rattle.qls_site.specs.Content.{Tells, Leads, Acts, MayAct, Causes, HasFile};
ghost use Rattle.qls_pool.specs.Pools.{has, is_listed_in, least_id, HandsOut, TakesBack, IsSpent, Opens};
ghost use Rattle.qls_pool.specs.Files.{BlankThere, LinkedThere, IsPoolOf, HasPool, IdsDiffer, IsWholePool, IsListingOf, OnDisk, Carries, is_among};
ghost use Rattle.qls_pool.specs.Taking.{TakesBlank, Obtained, DrawsSerial, TakeCauses, put_back, put_home};
ghost use Rattle.qls_pool.specs.Discipline.{Orderly, IsLeastOnDisk};

use crate::fault::TakeFault;
use crate::file::{Blank, Linked};
use crate::pooled::{self, PooledFile};
use qls_model::{NoMemory, PoolId, Seq};
use qls_site::{FileAt, Place, Serials, Site, SiteError};
use std::alloc::Global;
use std::collections::BTreeSet;
use std::marker::Model;

/// The greatest id that a file may have.
const LAST_ID: u64 = (1 << 62) - 1;

/// The empty files of a site, by pool, and the greatest id of all its files.
#[derive(Drop)]
pub struct Pool {
    greatest: u64,
    files: BTreeSet<PooledFile>,
}

impl Model for Pool {
    ghost use Rattle.std.specs.Prelude.{◌<◌, ◌^◌};
    ghost use Rattle.qls_pool.specs.Pools.{PoolState};

    ghost Value = { PoolState };

    ghost view = { λ p. record { greatest = p.greatest; files = p.files.keys } };

    ghost invariant = { λ p. p.greatest < 2 ^ 62 };
}

/// Puts an empty file of the listing among the others.
fn add_listed(files: &mut BTreeSet<PooledFile>, file: &FileAt) -> Result<(), NoMemory>
    ensures added { IfOk result (λ _. (part kib id : ℕ) → has part kib id files.new.keys ≡ (has part kib id files.old.keys || is_listed_in part kib id file.now)) }
{
    let id = file.id;
    match file.place {
        Place::InUse => Ok(()),
        Place::Empty { part, kib } => {
            pooled::add(files, PooledFile { part, kib, id })?;
            Ok(())
        }
    }
}

impl Pool {
    /// The pools of a site whose greatest id is `greatest`, 0 where it has no file, and whose empty files are those of
    /// `empties`; files in use are passed over. `greatest` is below 2^62.
    pub fn open(alloc: Global, greatest: u64, empties: &Seq<FileAt>) -> Result<Pool, NoMemory>
        requires { greatest < 2 ^ 62 }
        ensures opened { IfOk result (Opens greatest empties.now) }
        ensures pool { IfOk result (λ pool. (d : Disk) → IsListingOf greatest empties.now d → IsPoolOf pool [] d) }
    {
        let mut files = BTreeSet::new(alloc);
        for file in empties.as_slice() {
            add_listed(&mut files, file)?;
        }
        Ok(Pool { greatest, files })
    }

    /// Takes the empty file with the least id of a pool; only where the pool is empty a file is created, with the
    /// greatest id plus 1. A serial is drawn for it before.
    ///
    /// Where told, the pool's greatest id is the site's, and its files are the site's empty files but for those that a
    /// `Blank` or a `Headed` names. Spent comes exactly where the pool is empty and the greatest id is 2^62 - 1, and then
    /// no call was made. After an error the pool is as it was; after Failed the site may have one more empty file.
    pub fn blank<S: Site, N: Serials>(
        &mut self,
        site: &mut S,
        serials: &mut N,
        home: PoolId,
    ) -> Result<Blank, TakeFault>
        requires pool { IfSome (S.told site.old) (OnDisk (HasPool self.old)) }
        ensures home { IfOk result (λ blank. blank.home ≡ home) }
        ensures handed { IfOk result (λ blank. HandsOut home self.old self.new blank.id) }
        ensures limit { self.new.greatest < 2 ^ 62 }
        ensures kept { IfErr result (λ _. self.new ≡ self.old) }
        ensures spent { (result ≡ Err TakeFault.Spent) ↔ IsSpent home self.old }
        ensures no_call { result ≡ Err TakeFault.Spent → (site.new ≡ site.old) × (serials.new ≡ serials.old) }
        ensures told { Tells (TakesBlank home self.old result) (S.told site.old) (S.told site.new) }
        ensures drawn { DrawsSerial result (N.drawn serials.old) (N.drawn serials.new) }
        ensures cause { TakeCauses (S.faults site.old) (S.faults site.new) (N.faults serials.old) (N.faults serials.new) result }
        ensures syncs { S.syncs site.new ≡ S.syncs site.old }
        ensures reads { S.reads site.new ≡ S.reads site.old }
        ensures there { IfOk result (λ blank. (out : List ℕ) → Carries (IsPoolOf self.old out) (BlankThere blank) (S.told site.old) (S.told site.new)) }
        ensures pool { IfOk result (λ blank. (out : List ℕ) → Carries (IsPoolOf self.old out) (IsPoolOf self.new (blank.id ∷ out)) (S.told site.old) (S.told site.new)) }
        ensures least { IfOk result (λ blank. Carries (IsWholePool self.old) (IsLeastOnDisk home.part home.kib blank.id) (S.told site.old) (S.told site.new)) }
        ensures ids { IfOk result (λ _. Carries (IsWholePool self.old) IdsDiffer (S.told site.old) (S.told site.new)) }
        ensures orderly { Orderly (IsPoolOf self.old []) result (S.told site.old) (S.told site.new) }
    {
        let least = pooled::least(&self.files, home);
        if least.is_none() && self.greatest == LAST_ID {
            return Err(TakeFault::Spent);
        }
        let serial = serials.draw()?;
        let id = self.obtain(site, home, least)?;
        Ok(Blank { id, serial, home })
    }

    /// Takes the least file out of the pool, or creates one where there is none.
    fn obtain<S: Site>(
        &mut self,
        site: &mut S,
        home: PoolId,
        least: Option<u64>,
    ) -> Result<u64, SiteError>
        requires least { least ≡ least_id home self.old.files }
        requires unspent { ¬ IsSpent home self.old }
        requires pool { IfSome (S.told site.old) (OnDisk (HasPool self.old)) }
        ensures handed { IfOk result (HandsOut home self.old self.new) }
        ensures kept { IfErr result (λ _. self.new ≡ self.old) }
        ensures told { Tells (Obtained home self.old result) (S.told site.old) (S.told site.new) }
        ensures cause { Causes (S.faults site.old) (S.faults site.new) result }
        ensures syncs { S.syncs site.new ≡ S.syncs site.old }
        ensures reads { S.reads site.new ≡ S.reads site.old }
    {
        match least {
            Some(id) => {
                self.take(home, id);
                Ok(id)
            }
            None => self.create(site, home),
        }
    }

    /// Takes this file, the least of the pool.
    fn take(&mut self, home: PoolId, id: u64)
        requires { least_id home self.old.files ≡ Some id }
        ensures { HandsOut home self.old self.new id }
    {
        let PoolId { part, kib } = home;
        pooled::remove(&mut self.files, PooledFile { part, kib, id });
    }

    /// Creates a file in this pool, which has none.
    fn create<S: Site>(&mut self, site: &mut S, home: PoolId) -> Result<u64, SiteError>
        requires none { least_id home self.old.files ≡ None }
        requires unspent { ¬ IsSpent home self.old }
        requires pool { IfSome (S.told site.old) (OnDisk (HasPool self.old)) }
        ensures handed { IfOk result (HandsOut home self.old self.new) }
        ensures kept { IfErr result (λ _. self.new ≡ self.old) }
        ensures told { Tells (Obtained home self.old result) (S.told site.old) (S.told site.new) }
        ensures cause { Causes (S.faults site.old) (S.faults site.new) result }
        ensures syncs { S.syncs site.new ≡ S.syncs site.old }
        ensures reads { S.reads site.new ≡ S.reads site.old }
    {
        let id = self.greatest + 1;
        site.create(id, home.part, home.kib)?;
        self.greatest = id;
        Ok(id)
    }

    /// Gives a file back to the pool that its header names: the memory for it is taken first, and then it is relocated.
    /// It keeps all its bytes, and nothing is written.
    ///
    /// Where told, the site still has the file in use with its header stable, and the pool is the site's, as for `blank`.
    /// After an error the pool is as it was, and the file is dropped; after Failed it is in use or in its pool.
    pub fn give_back<S: Site>(&mut self, site: &mut S, file: Linked) -> Result<(), SiteError>
        requires there { IfSome (S.told site.old) (OnDisk (LinkedThere file)) }
        requires pool { IfSome (S.told site.old) (OnDisk (HasPool self.old)) }
        ensures taken { IfOk result (λ _. TakesBack file.header.part file.header.kib file.id self.old self.new) }
        ensures kept { IfErr result (λ _. self.new ≡ self.old) }
        ensures told { Tells (Leads (Acts (put_back file.id file.header)) (MayAct (put_back file.id file.header)) result) (S.told site.old) (S.told site.new) }
        ensures cause { Causes (S.faults site.old) (S.faults site.new) result }
        ensures syncs { S.syncs site.new ≡ S.syncs site.old }
        ensures reads { S.reads site.new ≡ S.reads site.old }
        ensures pool { IfOk result (λ _. (out : List ℕ) → is_among file.id out ≡ false → Carries (IsPoolOf self.old out) (IsPoolOf self.new out) (S.told site.old) (S.told site.new)) }
        ensures ids { IfOk result (λ _. Carries IdsDiffer IdsDiffer (S.told site.old) (S.told site.new)) }
        ensures orderly { Orderly (LinkedThere file) result (S.told site.old) (S.told site.new) }
    {
        let pooled = file.pooled();
        let added = pooled::add(&mut self.files, pooled)?;
        let moved = relocate_home(site, pooled);
        if added && moved.is_err() {
            pooled::remove(&mut self.files, pooled);
        }
        moved
    }
}

/// Relocates a file to this pool.
fn relocate_home<S: Site>(site: &mut S, file: PooledFile) -> Result<(), SiteError>
    requires { IfSome (S.told site.old) (HasFile file.id) }
    ensures told { Tells (Leads (Acts (put_home file)) (MayAct (put_home file)) result) (S.told site.old) (S.told site.new) }
    ensures cause { Causes (S.faults site.old) (S.faults site.new) result }
    ensures syncs { S.syncs site.new ≡ S.syncs site.old }
    ensures reads { S.reads site.new ≡ S.reads site.old }
{
    let PooledFile { part, kib, id } = file;
    site.relocate(id, Place::Empty { part, kib })?;
    Ok(())
}
