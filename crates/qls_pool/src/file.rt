// The states of one file: blank, headed, linked. Each move consumes the state before.
ghost use Rattle.std.specs.Prelude.{◌≡◌, ◌∷◌, ℕ, List, IfOk, IfSome, IsTrue};
ghost use Rattle.qls_site.specs.Content.{Tells, Leads, Acts, MayAct, Causes, HasRange};
ghost use Rattle.qls_filehdr.specs.Limits.{is_legal_header};
ghost use Rattle.qls_pool.specs.Pools.{PoolState};
ghost use Rattle.qls_pool.specs.Files.{HeadsBlank, BlankThere, HeadedThere, LinkedThere, RestsThere, IdsDiffer, IsPoolOf, OnDisk, Carries};
ghost use Rattle.qls_pool.specs.Taking.{Heads, SyncsOnce, put_in_use};
ghost use Rattle.qls_pool.specs.Discipline.{Orderly, IsLeastOnDisk};

use crate::pooled::PooledFile;
use qls_filehdr::FileHeader;
use qls_model::PoolId;
use qls_site::{Place, Site, SiteError};
use std::marker::Model;

/// A file that was taken from its pool, and has no header yet.
#[derive(Drop)]
pub struct Blank {
    pub(crate) id: u64,
    pub(crate) serial: u64,
    pub(crate) home: PoolId,
}

impl Model for Blank {
    ghost use Rattle.qls_pool.specs.Files.{BlankFile};

    ghost Value = { BlankFile };

    ghost view = { λ b. record { id = b.id; serial = b.serial; home = b.home } };
}

/// A file in its pool whose header is stable.
#[derive(Drop)]
pub struct Headed {
    id: u64,
    header: FileHeader,
}

impl Model for Headed {
    ghost use Rattle.std.specs.Prelude.{IsTrue};
    ghost use Rattle.qls_filehdr.specs.Limits.{is_legal_header};
    ghost use Rattle.qls_pool.specs.Files.{HeadedFile};

    ghost Value = { HeadedFile };

    ghost view = { λ h. record { id = h.id; header = h.header } };

    ghost invariant = { λ h. IsTrue (is_legal_header h.header) };
}

/// A file in use whose header is stable.
#[derive(Drop)]
pub struct Linked {
    id: u64,
    header: FileHeader,
}

impl Model for Linked {
    ghost use Rattle.std.specs.Prelude.{IsTrue};
    ghost use Rattle.qls_filehdr.specs.Limits.{is_legal_header};
    ghost use Rattle.qls_pool.specs.Files.{HeadedFile};

    ghost Value = { HeadedFile };

    ghost view = { λ h. record { id = h.id; header = h.header } };

    ghost invariant = { λ h. IsTrue (is_legal_header h.header) };
}

impl Blank {
    /// The file's id.
    pub fn id(&self) -> u64
        ensures { result ≡ self.now.id }
    {
        self.id
    }

    /// The serial that was drawn for the file.
    pub fn serial(&self) -> u64
        ensures { result ≡ self.now.serial }
    {
        self.serial
    }

    /// Writes the header over the file's first 4,096 bytes, and syncs the file. The header is legal, has this file's
    /// serial and names its pool; where told, the site still has the file in its pool.
    ///
    /// After an error nothing is handed back, and the file stays in its pool with its header written or not.
    pub fn head<S: Site>(self, site: &mut S, header: FileHeader) -> Result<Headed, SiteError>
        requires legal { IsTrue (is_legal_header header) }
        requires own { HeadsBlank self header }
        requires there { IfSome (S.told site.old) (OnDisk (BlankThere self)) }
        ensures headed { IfOk result (λ headed. headed ≡ record { id = self.id; header = header }) }
        ensures told { Tells (Heads self.id header result) (S.told site.old) (S.told site.new) }
        ensures cause { Causes (S.faults site.old) (S.faults site.new) result }
        ensures syncs { SyncsOnce (S.told site.old) result (S.syncs site.old) (S.syncs site.new) }
        ensures reads { S.reads site.new ≡ S.reads site.old }
        ensures there { IfOk result (λ headed. IfSome (S.told site.new) (OnDisk (HeadedThere headed))) }
        ensures pool { IfOk result (λ _. (pool : PoolState) (out : List ℕ) → Carries (IsPoolOf pool out) (IsPoolOf pool out) (S.told site.old) (S.told site.new)) }
        ensures least { IfOk result (λ _. Carries (IsLeastOnDisk header.part header.kib self.id) (IsLeastOnDisk header.part header.kib self.id) (S.told site.old) (S.told site.new)) }
        ensures ids { IfOk result (λ _. Carries IdsDiffer IdsDiffer (S.told site.old) (S.told site.new)) }
        ensures orderly { Orderly (BlankThere self) result (S.told site.old) (S.told site.new) }
    {
        write_header(site, self.id, &header)?;
        Ok(Headed {
            id: self.id,
            header,
        })
    }
}

/// Writes the header over the file's first 4,096 bytes, and syncs the file.
fn write_header<S: Site>(site: &mut S, id: u64, header: &FileHeader) -> Result<(), SiteError>
    requires legal { IsTrue (is_legal_header header.now) }
    requires range { IfSome (S.told site.old) (HasRange id 0 4096) }
    ensures told { Tells (Heads id header.now result) (S.told site.old) (S.told site.new) }
    ensures cause { Causes (S.faults site.old) (S.faults site.new) result }
    ensures syncs { SyncsOnce (S.told site.old) result (S.syncs site.old) (S.syncs site.new) }
    ensures reads { S.reads site.new ≡ S.reads site.old }
{
    let mut bytes = [0; 4096];
    header.encode_into(&mut bytes);
    site.write(id, 0, &bytes)?;
    site.sync(id)?;
    Ok(())
}

impl Headed {
    /// The file's id.
    pub fn id(&self) -> u64
        ensures { result ≡ self.now.id }
    {
        self.id
    }

    /// The file's header, which is stable.
    pub fn header(&self) -> &FileHeader
        ensures same { result.now ≡ self.now.header }
        ensures legal { IsTrue (is_legal_header result.now) }
    {
        &self.header
    }

    /// Puts the file into use: one relocation. Where told, the site still has the file in its pool, with this header
    /// stable and nothing pending.
    ///
    /// After an error nothing is handed back. After Failed the file is in its pool or in use.
    pub fn link<S: Site>(self, site: &mut S) -> Result<Linked, SiteError>
        requires there { IfSome (S.told site.old) (OnDisk (HeadedThere self)) }
        ensures linked { IfOk result (λ linked. linked ≡ self) }
        ensures told { Tells (Leads (Acts (put_in_use self.id)) (MayAct (put_in_use self.id)) result) (S.told site.old) (S.told site.new) }
        ensures cause { Causes (S.faults site.old) (S.faults site.new) result }
        ensures syncs { S.syncs site.new ≡ S.syncs site.old }
        ensures reads { S.reads site.new ≡ S.reads site.old }
        ensures there { IfOk result (λ linked. IfSome (S.told site.new) (OnDisk (RestsThere linked))) }
        ensures pool { IfOk result (λ _. (pool : PoolState) (out : List ℕ) → Carries (IsPoolOf pool (self.id ∷ out)) (IsPoolOf pool out) (S.told site.old) (S.told site.new)) }
        ensures ids { IfOk result (λ _. Carries IdsDiffer IdsDiffer (S.told site.old) (S.told site.new)) }
        ensures orderly { Orderly (IsLeastOnDisk self.header.part self.header.kib self.id) result (S.told site.old) (S.told site.new) }
    {
        let Headed { id, header } = self;
        site.relocate(id, Place::InUse)?;
        Ok(Linked { id, header })
    }
}

impl Linked {
    /// A file that an earlier opening put into use. The header is legal; where told, the file is in use with this header
    /// stable, the size of its pool's files and nothing pending.
    pub fn adopt<S: Site>(site: &S, id: u64, header: FileHeader) -> Linked
        requires legal { IsTrue (is_legal_header header) }
        requires there { IfSome (S.told site.now) (OnDisk (RestsThere (record { id = id; header = header }))) }
        ensures exact { result ≡ record { id = id; header = header } }
        ensures there { IfSome (S.told site.now) (OnDisk (LinkedThere result)) }
    {
        let _ = site;
        Linked { id, header }
    }

    /// The file's id.
    pub fn id(&self) -> u64
        ensures { result ≡ self.now.id }
    {
        self.id
    }

    /// The file's header, which is stable.
    pub fn header(&self) -> &FileHeader
        ensures same { result.now ≡ self.now.header }
        ensures legal { IsTrue (is_legal_header result.now) }
    {
        &self.header
    }

    /// The file among those of the pool that its header names.
    pub(crate) fn pooled(&self) -> PooledFile
        ensures exact { result ≡ record { part = self.now.header.part; kib = self.now.header.kib; id = self.now.id } }
        ensures legal { IsTrue (is_legal_header self.now.header) }
    {
        PooledFile {
            part: self.header.part,
            kib: self.header.kib,
            id: self.id,
        }
    }
}
