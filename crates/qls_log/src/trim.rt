// The newest files of a journal that go back to their pool.
ghost use Rattle.std.specs.Prelude.{◌≡◌, ℕ, ◌≤◌, ◌<◌, length, IfSome, IfOk, slice_get, Some, ◌-◌};
ghost use Rattle.qls_site.specs.Content.{Tells, Causes};
ghost use Rattle.qls_pool.specs.Files.{OnDisk};
ghost use Rattle.qls_pool.specs.Moments.{EndsIn};
ghost use Rattle.qls_log.specs.declared.opening.Opening.{Opening};
ghost use Rattle.qls_log.specs.Returning.{GivesBack};
ghost use Rattle.qls_log.specs.Leaving.{LeavesFromQuiet};
ghost use Rattle.qls_log.specs.Steps.{PassesOwn};
ghost use Rattle.qls_log.specs.Trimming.{newest_first, without_last, last_epoch, last_number, AreInRow, MayTrim, Trims};

use qls_pool::{Linked, Pool};
use qls_site::{Site, SiteError};

/// Gives the newest files, so many, back to their pool, newest first: one relocation each.
pub(crate) fn give_back_newest<S: Site>(
    site: &mut S,
    pool: &mut Pool,
    files: &mut Vec<Linked>,
    many: usize,
) -> Result<(), SiteError>
    requires enough { many ≤ length files.old.items }
    requires may { (o : Opening) × (rid : ℕ) × AreInRow o files.old.items × IfSome (S.told site.old) (OnDisk (MayTrim o pool.old files.old.items many rid)) }
    ensures files { IfOk result (λ _. files.new.items ≡ without_last many files.old.items) }
    ensures told { Tells (GivesBack (newest_first many files.old.items) result) (S.told site.old) (S.told site.new) }
    ensures trims { (o : Opening) (rid : ℕ) → AreInRow o files.old.items → IfSome (S.told site.old) (OnDisk (MayTrim o pool.old files.old.items many rid)) → Tells (EndsIn (λ _. Trims o pool.new files.new.items 0 rid (newest_first many files.old.items)) (PassesOwn o) result) (S.told site.old) (S.told site.new) }
    ensures leaves { Tells LeavesFromQuiet (S.told site.old) (S.told site.new) }
    ensures greatest { pool.new.greatest ≡ pool.old.greatest }
    ensures cause { Causes (S.faults site.old) (S.faults site.new) result }
    ensures syncs { S.syncs site.new ≡ S.syncs site.old }
    ensures reads { S.reads site.new ≡ S.reads site.old }
{
    for at in 0..many {
        let Some(file) = files.pop() else {
            return Ok(());
        };
        pool.give_back(site, file)?;
    }
    Ok(())
}

/// The newest of the files.
pub(crate) fn newest_of(files: &[Linked]) -> &Linked
    requires some { 0 < length files.now }
    ensures epoch { result.now.header.epoch ≡ last_epoch files.now }
    ensures number { result.now.header.number ≡ last_number files.now }
{
    &files[files.len() - 1]
}
