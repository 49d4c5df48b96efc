// Files that go back to their pool.
ghost use Rattle.std.specs.Prelude.{◌≡◌, ℕ, List, ◌++◌, ◌<◌, ◌==◌, [], if◌then◌else◌, take, length, IfSome};
ghost use Rattle.qls_site.specs.Content.{Tells, Causes};
ghost use Rattle.qls_pool.specs.Files.{HeadedFile, OnDisk};
ghost use Rattle.qls_log.specs.declared.opening.Opening.{Opening};
ghost use Rattle.qls_log.specs.Returning.{GivesBack, EndsBack, MayReturn, before_number};

use qls_model::Seq;
use qls_pool::{Linked, Pool};
use qls_site::{Site, SiteError};

/// How many of the files have a lesser number, the newest left out.
pub(crate) fn count_before(files: &[Linked], number: u64) -> usize
    requires some { 0 < length files.now }
    ensures exact { take result files.now ≡ before_number number files.now }
    ensures fewer { result < length files.now }
{
    let last = files.len() - 1;
    for at in 0..last {
        if files[at].header().number >= number {
            return at;
        }
    }
    last
}

/// How many of a log's files are released: none while these files have a batch pending.
pub(crate) fn count_released(files: &[Linked], unsynced: &Seq<u64>, number: u64) -> usize
    requires some { 0 < length files.now }
    ensures exact { take result files.now ≡ (if length unsynced.now == 0 then before_number number files.now else []) }
    ensures fewer { result < length files.now }
    ensures pending { 0 < result → unsynced.now ≡ [] }
{
    if unsynced.len() == 0 {
        count_before(files, number)
    } else {
        0
    }
}

/// Gives the files back to their pool, in order: one relocation each.
pub(crate) fn give_back_each<S: Site>(
    site: &mut S,
    pool: &mut Pool,
    files: Vec<Linked>,
) -> Result<(), SiteError>
    requires may { (o : Opening) × (kept : List HeadedFile) × IfSome (S.told site.old) (OnDisk (MayReturn o pool.old (files.items ++ kept))) }
    ensures told { Tells (GivesBack files.items result) (S.told site.old) (S.told site.new) }
    ensures back { EndsBack pool.old pool.new files.items result (S.told site.old) (S.told site.new) }
    ensures greatest { pool.new.greatest ≡ pool.old.greatest }
    ensures cause { Causes (S.faults site.old) (S.faults site.new) result }
    ensures syncs { S.syncs site.new ≡ S.syncs site.old }
    ensures reads { S.reads site.new ≡ S.reads site.old }
{
    for file in files {
        pool.give_back(site, file)?;
    }
    Ok(())
}
