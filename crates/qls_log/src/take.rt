// The files that a batch needs, taken one after another.
ghost use Rattle.std.specs.Prelude.{◌≡◌, ◌<◌, ◌≤◌, ◌^◌, ◌+◌, ◌⊎◌, [], IfOk, IfSome, IsTrue, Err, Some, slice_get, true, length};
ghost use Rattle.std.specs.List.{AllByRecursion};
ghost use Rattle.qls_filehdr.specs.Limits.{is_counter, is_legal_header};
ghost use Rattle.qls_site.specs.Content.{Tells};
ghost use Rattle.qls_pool.specs.Pools.{IsSpent};
ghost use Rattle.qls_pool.specs.Files.{IsPoolOf, IsWholePool, OnDisk, Carries};
ghost use Rattle.qls_pool.specs.Discipline.{Orderly};
ghost use Rattle.qls_pool.specs.Serials.{DrawsTaken};
ghost use Rattle.qls_log.specs.Logs.{IsLegalOpening, FitsFile, header_for, AreHeaded};
ghost use Rattle.qls_log.specs.Taking.{TakesFile, TakesFiles, DrawsOne, DrawsEach, MeetsEnd, MayTake, StopsAfter, TakesFirst};
ghost use Rattle.qls_log.specs.Steps.{IsLogStep, GoesBy, is_exact};
ghost use Rattle.qls_log.specs.Keeping.{IsTakeStep};
ghost use Rattle.qls_log.specs.Faults.{LogCauses, Counts};

use crate::fault::LogError;
use crate::opening::Opening;
use qls_blocks::FreshFile;
use qls_pool::{Linked, Pool};
use qls_site::{Serials, Site};
use std::alloc::Global;

/// The last number of a file.
pub(crate) const LAST_NUMBER: u64 = (1 << 62) - 1;

/// The epoch past the last: no file can be taken in an opening with it.
pub(crate) const SPENT_EPOCH: u64 = 1 << 62;

/// Takes one file: from the pool, or made; headed; synced; put into use.
fn take_file<S: Site, N: Serials>(
    site: &mut S,
    pool: &mut Pool,
    serials: &mut N,
    opening: &Opening,
    number: u64,
    fresh: FreshFile,
) -> Result<Linked, LogError>
    requires opening { IsLegalOpening opening.now }
    requires epoch { is_counter opening.now.epoch ≡ true }
    requires number { is_counter number ≡ true }
    requires fits { FitsFile opening.now.home.kib fresh }
    requires pool { IfSome (S.told site.old) (OnDisk (IsPoolOf pool.old [])) }
    requires start { IfSome (S.told site.old) (OnDisk (MayTake opening.now pool.old number)) }
    ensures file { IfOk result (λ file. file.header ≡ header_for opening.now file.header.serial number fresh) }
    ensures told { IfOk result (λ file. Tells (TakesFile opening.now.home pool.old pool.new file) (S.told site.old) (S.told site.new)) }
    ensures legal { IfOk result (λ file. IsTrue (is_legal_header file.header)) }
    ensures limit { pool.new.greatest < 2 ^ 62 }
    ensures pool { IfOk result (λ _. IfSome (S.told site.new) (OnDisk (IsPoolOf pool.new []))) }
    ensures whole { IfOk result (λ _. Carries (IsWholePool pool.old) (IsWholePool pool.new) (S.told site.old) (S.told site.new)) }
    ensures drawn { IfOk result (λ file. DrawsOne file (N.drawn serials.old) (N.drawn serials.new)) }
    ensures spent { result ≡ Err LogError.Spent → IsSpent opening.now.home pool.old }
    ensures unspent { IsSpent opening.now.home pool.old → result ≡ Err LogError.Spent }
    ensures spent_site { result ≡ Err LogError.Spent → site.new ≡ site.old }
    ensures spent_pool { result ≡ Err LogError.Spent → pool.new ≡ pool.old }
    ensures cause { LogCauses (S.faults site.old) (S.faults site.new) (N.faults serials.old) (N.faults serials.new) result }
    ensures syncs { Counts (S.told site.old) result 1 (S.syncs site.old) (S.syncs site.new) }
    ensures reads { S.reads site.new ≡ S.reads site.old }
    ensures orderly { Orderly (IsPoolOf pool.old []) result (S.told site.old) (S.told site.new) }
    ensures next { IfOk result (λ _. IfSome (S.told site.new) (OnDisk (MayTake opening.now pool.new (number + 1)))) }
    ensures went { Tells (GoesBy (IsLogStep opening.now) result) (S.told site.old) (S.told site.new) }
    ensures kept { Tells (GoesBy (IsTakeStep opening.now) result) (S.told site.old) (S.told site.new) }
    ensures drew { DrawsTaken (is_exact result) (S.told site.old) (S.told site.new) (N.drawn serials.old) (N.drawn serials.new) }
{
    let blank = pool.blank(site, serials, opening.home)?;
    let header = opening.header(blank.serial(), number, fresh);
    let headed = blank.head(site, header)?;
    let linked = headed.link(site)?;
    Ok(linked)
}

/// What is planned for one of the files.
fn fresh_at(fresh: &[FreshFile], at: usize) -> FreshFile
    requires there { at < length fresh.now }
    ensures exact { slice_get fresh.now at ≡ Some result }
{
    fresh[at]
}

/// Takes a file for each of `fresh`, in order; the first has the number behind `newest`.
pub(crate) fn take_files<S: Site, N: Serials>(
    alloc: Global,
    site: &mut S,
    pool: &mut Pool,
    serials: &mut N,
    opening: &Opening,
    newest: u64,
    fresh: &[FreshFile],
) -> Result<Vec<Linked>, LogError>
    requires opening { IsLegalOpening opening.now }
    requires newest { newest < 2 ^ 62 }
    requires fits { AllByRecursion (FitsFile opening.now.home.kib) fresh.now }
    requires pool { IfSome (S.told site.old) (OnDisk (IsPoolOf pool.old [])) }
    requires start { IfSome (S.told site.old) (OnDisk (MayTake opening.now pool.old (newest + 1))) }
    ensures headers { IfOk result (λ files. AreHeaded opening.now newest fresh.now files.items) }
    ensures newest { IfOk result (λ files. newest + length files.items < 2 ^ 62) }
    ensures told { IfOk result (λ files. Tells (TakesFiles opening.now.home pool.old pool.new files.items) (S.told site.old) (S.told site.new)) }
    ensures legal { IfOk result (λ files. AllByRecursion (λ h. IsTrue (is_legal_header h.header)) files.items) }
    ensures limit { pool.old.greatest < 2 ^ 62 → pool.new.greatest < 2 ^ 62 }
    ensures drawn { IfOk result (λ files. DrawsEach files.items (N.drawn serials.old) (N.drawn serials.new)) }
    ensures whole { IfOk result (λ _. Carries (IsWholePool pool.old) (IsWholePool pool.new) (S.told site.old) (S.told site.new)) }
    ensures pool { IfOk result (λ _. IfSome (S.told site.new) (OnDisk (IsPoolOf pool.new []))) }
    ensures spent { result ≡ Err LogError.Spent → MeetsEnd opening.now newest (length fresh.now) pool.new }
    ensures at_end { 0 < length fresh.now → MeetsEnd opening.now newest 1 pool.old → (result ≡ Err LogError.Spent) ⊎ (result ≡ Err LogError.Memory) }
    ensures cause { LogCauses (S.faults site.old) (S.faults site.new) (N.faults serials.old) (N.faults serials.new) result }
    ensures syncs { Counts (S.told site.old) result (length fresh.now) (S.syncs site.old) (S.syncs site.new) }
    ensures reads { S.reads site.new ≡ S.reads site.old }
    ensures orderly { Orderly (IsPoolOf pool.old []) result (S.told site.old) (S.told site.new) }
    ensures went { Tells (GoesBy (IsLogStep opening.now) result) (S.told site.old) (S.told site.new) }
    ensures kept { Tells (GoesBy (IsTakeStep opening.now) result) (S.told site.old) (S.told site.new) }
    ensures drew { DrawsTaken (is_exact result) (S.told site.old) (S.told site.new) (N.drawn serials.old) (N.drawn serials.new) }
    ensures next { IfOk result (λ files. IfSome (S.told site.new) (OnDisk (MayTake opening.now pool.new (newest + length files.items + 1)))) }
    ensures ends { result ≡ Err LogError.Spent → IfSome (S.told site.new) (OnDisk (StopsAfter opening.now newest (length fresh.now) pool.new)) }
    ensures some { result ≡ Err LogError.Spent → TakesFirst opening.now newest fresh.now pool.old pool.new (S.told site.old) (S.told site.new) }
    ensures at_once { result ≡ Err LogError.Spent → length fresh.now ≤ 1 → (site.new ≡ site.old) × (pool.new ≡ pool.old) }
{
    let mut files = Vec::with_capacity(alloc, fresh.len())?;
    let mut number = newest;
    for at in 0..fresh.len() {
        if number == LAST_NUMBER || opening.epoch == SPENT_EPOCH {
            return Err(LogError::Spent);
        }
        let file = take_file(
            site,
            pool,
            serials,
            opening,
            number + 1,
            fresh_at(fresh, at),
        )?;
        number += 1;
        files.push(file)?;
    }
    Ok(files)
}
