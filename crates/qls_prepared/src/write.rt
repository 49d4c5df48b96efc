// What the list writes: one batch a call, appended and flushed. Before the first one the log is made.
ghost use Rattle.std.specs.Prelude.{◌≡◌, ◌⊎◌, ℕ, ◌<◌, ◌^◌, List, [], false, true, is_err, None, Some, IfOk, IfSome, IsSome, Err, length, map};
ghost use Rattle.qls_model.specs.Limits.{is_kib, is_partition};
ghost use Rattle.qls_site.specs.Content.{Tells};
ghost use Rattle.qls_site.specs.Disk.{IsQuiet};
ghost use Rattle.qls_record.specs.Record.{Record};
ghost use Rattle.qls_pool.specs.Files.{IsPoolOf, IsWholePool, OnDisk, Carries};
ghost use Rattle.qls_pool.specs.Pools.{IsSpent};
ghost use Rattle.qls_pool.specs.Moments.{Passes};
ghost use Rattle.qls_pool.specs.Serials.{DrawsTaken};
ghost use Rattle.qls_blocks.specs.Batching.{laid_from, length_of, block_length};
ghost use Rattle.qls_blocks.specs.Plans.{plan_of};
ghost use Rattle.qls_log.specs.Logs.{IsSound, capacity_in};
ghost use Rattle.qls_log.specs.Leaving.{NoneLeaves};
ghost use Rattle.qls_log.specs.Soundness.{StaysUndamaged};
ghost use Rattle.qls_log.specs.Steps.{IsLogStep, GoesBy, MeetsEndWith, KeepsRoom, is_exact};
ghost use Rattle.qls_log.specs.Unwritten.{StaysWritten};
ghost use Rattle.qls_log.specs.Faults.{LogCauses, Counts};
ghost use Rattle.qls_log.specs.Taking.{MeetsEnd};
ghost use Rattle.qls_log.specs.Spots.{spot_of};
ghost use Rattle.qls_log.specs.Standing.{LogThere};
ghost use Rattle.qls_log.specs.Appending.{FollowRids};
ghost use Rattle.qls_log.specs.Reads.{ReadsOn};
ghost use Rattle.qls_prepared.specs.Lists.{opening_by, rid_of_log, IsOwn, IsOwnLog, ThereBy};
ghost use Rattle.qls_prepared.specs.Ends.{StopsBy, IsAtEndBy, IsFitDisk};
ghost use Rattle.qls_prepared.specs.Moments.{WrittenBy, WritesOn};
ghost use Rattle.qls_prepared.specs.Writing.{HasWritten, IsBase, base_of, FitsFirst, IsOwnBehind, first_in, first_spot, BeginsWhole, SaysBy, begin_syncs, syncs_of, syncs_in};

use qls_blocks::Batch;
use qls_filehdr::JournalKind;
use qls_log::{Log, LogError, Spot};
use qls_model::{Name, PoolId, Seq};
use qls_pool::Pool;
use qls_site::{Serials, Site};
use std::alloc::Global;

/// The list's log: where it has none, it is made, and has one file and no record then.
fn begun<S: Site, N: Serials>(
    alloc: Global,
    home: PoolId,
    log: Option<Log>,
    site: &mut S,
    pool: &mut Pool,
    serials: &mut N,
) -> Result<Log, LogError>
    requires home { (is_partition home.part ≡ true) × (is_kib home.kib ≡ true) }
    requires own { IsOwn log }
    requires there { IfSome (S.told site.old) (OnDisk (ThereBy home log)) }
    requires pool { IfSome (S.told site.old) (OnDisk (IsWholePool pool.old)) }
    ensures base { IfOk result (IsBase home log) }
    ensures own { IfOk result IsOwnLog }
    ensures opening { IfOk result (λ l. l.opening ≡ opening_by home log) }
    ensures rid { IfOk result (λ l. l.rid ≡ rid_of_log log) }
    ensures there { IfOk result (λ l. IfSome (S.told site.new) (OnDisk (LogThere l))) }
    ensures pool { IfOk result (λ _. IfSome (S.told site.new) (OnDisk (IsWholePool pool.new))) }
    ensures limit { pool.old.greatest < 2 ^ 62 → pool.new.greatest < 2 ^ 62 }
    ensures fit { IfOk result (λ _. Carries IsFitDisk IsFitDisk (S.told site.old) (S.told site.new)) }
    ensures whole { IfOk result (λ l. Tells (BeginsWhole log l) (S.told site.old) (S.told site.new)) }
    ensures quiet { IfOk result (λ _. Carries IsQuiet IsQuiet (S.told site.old) (S.told site.new)) }
    ensures went { Tells (GoesBy (IsLogStep (opening_by home log)) result) (S.told site.old) (S.told site.new) }
    ensures drew { DrawsTaken (is_exact result) (S.told site.old) (S.told site.new) (N.drawn serials.old) (N.drawn serials.new) }
    ensures stays { Tells (Passes NoneLeaves) (S.told site.old) (S.told site.new) }
    ensures writes { Tells (WritesOn result log (λ l. Some l)) (S.told site.old) (S.told site.new) }
    ensures spent { result ≡ Err LogError.Spent → (rs : List Record) → Tells (StopsBy home rs log) (S.told site.old) (S.told site.new) }
    ensures at_end { log ≡ None → IsSpent home pool.old → (result ≡ Err LogError.Spent) ⊎ (result ≡ Err LogError.Memory) }
    ensures same { IsSome log → (site.new ≡ site.old) × (pool.new ≡ pool.old) × (is_err result ≡ false) }
    ensures cause { LogCauses (S.faults site.old) (S.faults site.new) (N.faults serials.old) (N.faults serials.new) result }
    ensures syncs { Counts (S.told site.old) result (begin_syncs log) (S.syncs site.old) (S.syncs site.new) }
    ensures reads { S.reads site.new ≡ S.reads site.old }
{
    match log {
        Some(log) => Ok(log),
        None => {
            let name = Name::new(&[]).unwrap();
            Ok(Log::create(alloc, site, pool, serials, JournalKind::List, name, home)?)
        }
    }
}

/// Appends a batch and flushes it. It answers where each record lies.
fn write_batch<S: Site, N: Serials>(
    log: &mut Log,
    site: &mut S,
    pool: &mut Pool,
    serials: &mut N,
    batch: &Batch,
) -> Result<Seq<Spot>, LogError>
    requires unended { log.old.ended ≡ false }
    requires files { 0 < length log.old.files }
    requires some { 0 < length batch.now }
    requires rids { FollowRids log.old.rid batch.now }
    requires flushed { log.old.unsynced ≡ [] }
    requires there { IfSome (S.told site.old) (OnDisk (LogThere log.old)) }
    requires pool { IfSome (S.told site.old) (OnDisk (IsPoolOf pool.old [])) }
    ensures ended { log.new.ended ≡ is_err result }
    ensures written { IfOk result (λ _. HasWritten batch.now log.old log.new pool.old pool.new (N.drawn serials.old) (N.drawn serials.new) (S.told site.old) (S.told site.new)) }
    ensures spots { IfOk result (λ spots. spots ≡ map (spot_of (capacity_in log.old.opening) log.old.newest) (laid_from log.old.used batch.now)) }
    ensures there { IfOk result (λ _. IfSome (S.told site.new) (OnDisk (LogThere log.new))) }
    ensures pool { IfOk result (λ _. IfSome (S.told site.new) (OnDisk (IsPoolOf pool.new []))) }
    ensures reading { IfOk result (λ _. Tells (ReadsOn batch.now log.old log.new) (S.told site.old) (S.told site.new)) }
    ensures fit { IfOk result (λ _. Carries IsFitDisk IsFitDisk (S.told site.old) (S.told site.new)) }
    ensures quiet { IfOk result (λ _. Carries IsQuiet IsQuiet (S.told site.old) (S.told site.new)) }
    ensures whole { IfOk result (λ _. IfSome (S.told site.new) (OnDisk (IsWholePool pool.new))) }
    ensures legal { IfOk result (λ _. IsSound log.new) }
    ensures sound { IfOk result (λ _. Tells (StaysUndamaged log.old log.new) (S.told site.old) (S.told site.new)) }
    ensures went { Tells (GoesBy (IsLogStep log.old.opening) result) (S.told site.old) (S.told site.new) }
    ensures drew { DrawsTaken (is_exact result) (S.told site.old) (S.told site.new) (N.drawn serials.old) (N.drawn serials.new) }
    ensures stays { Tells (Passes NoneLeaves) (S.told site.old) (S.told site.new) }
    ensures writes { Tells (StaysWritten result log.old log.new) (S.told site.old) (S.told site.new) }
    ensures limit { pool.old.greatest < 2 ^ 62 → pool.new.greatest < 2 ^ 62 }
    ensures ends { result ≡ Err LogError.Spent → IfSome (S.told site.new) (OnDisk (MeetsEndWith log.old (block_length (length_of (batch.now))))) }
    ensures room { result ≡ Err LogError.Spent → Tells (KeepsRoom log.old) (S.told site.old) (S.told site.new) }
    ensures spent { result ≡ Err LogError.Spent → MeetsEnd log.old.opening log.old.newest (length (plan_of batch.now log.old.used (capacity_in log.old.opening) log.old.rid).fresh) pool.new }
    ensures at_end { 0 < length (plan_of batch.now log.old.used (capacity_in log.old.opening) log.old.rid).fresh → MeetsEnd log.old.opening log.old.newest 1 pool.old → (result ≡ Err LogError.Spent) ⊎ (result ≡ Err LogError.Memory) }
    ensures cause { LogCauses (S.faults site.old) (S.faults site.new) (N.faults serials.old) (N.faults serials.new) result }
    ensures syncs { Counts (S.told site.old) result (syncs_of log.old batch.now) (S.syncs site.old) (S.syncs site.new) }
    ensures reads { S.reads site.new ≡ S.reads site.old }
{
    let spots = log.append(site, pool, serials, batch)?;
    log.flush(site)?;
    Ok(spots)
}

/// The first of these spots.
fn first_of(spots: &Seq<Spot>) -> Spot
    requires some { 0 < length spots.now }
    ensures first { result ≡ first_in spots.now }
{
    spots.as_slice()[0]
}

/// Appends a batch to the list's log and flushes it, and answers where its first record lies. Where the list has no log, it
/// is made, and the batch lies in one block.
pub(crate) fn write<S: Site, N: Serials>(
    alloc: Global,
    home: PoolId,
    log: &mut Option<Log>,
    site: &mut S,
    pool: &mut Pool,
    serials: &mut N,
    batch: &Batch,
) -> Result<Spot, LogError>
    requires home { (is_partition home.part ≡ true) × (is_kib home.kib ≡ true) }
    requires own { IsOwn log.old }
    requires some { 0 < length batch.now }
    requires rids { FollowRids (rid_of_log log.old) batch.now }
    requires first { FitsFirst log.old batch.now }
    requires there { IfSome (S.told site.old) (OnDisk (ThereBy home log.old)) }
    requires pool { IfSome (S.told site.old) (OnDisk (IsWholePool pool.old)) }
    ensures own { IfOk result (λ _. IsOwnBehind (rid_of_log log.old) batch.now log.new) }
    ensures opening { IfOk result (λ _. opening_by home log.new ≡ opening_by home log.old) }
    ensures spot { IfOk result (λ spot. spot ≡ first_spot (base_of home log.old) batch.now) }
    ensures there { IfOk result (λ _. IfSome (S.told site.new) (OnDisk (ThereBy home log.new))) }
    ensures pool { IfOk result (λ _. IfSome (S.told site.new) (OnDisk (IsWholePool pool.new))) }
    ensures limit { pool.old.greatest < 2 ^ 62 → pool.new.greatest < 2 ^ 62 }
    ensures fit { IfOk result (λ _. Carries IsFitDisk IsFitDisk (S.told site.old) (S.told site.new)) }
    ensures whole { IfOk result (λ _. Tells (SaysBy log.old batch.now (base_of home log.old) log.new) (S.told site.old) (S.told site.new)) }
    ensures quiet { IfOk result (λ _. Carries IsQuiet IsQuiet (S.told site.old) (S.told site.new)) }
    ensures went { Tells (GoesBy (IsLogStep (opening_by home log.old)) result) (S.told site.old) (S.told site.new) }
    ensures drew { DrawsTaken (is_exact result) (S.told site.old) (S.told site.new) (N.drawn serials.old) (N.drawn serials.new) }
    ensures stays { Tells (Passes NoneLeaves) (S.told site.old) (S.told site.new) }
    ensures writes { Tells (WritesOn result log.old (λ _. log.new)) (S.told site.old) (S.told site.new) }
    ensures spent { result ≡ Err LogError.Spent → Tells (StopsBy home batch.now log.old) (S.told site.old) (S.told site.new) }
    ensures at_end { IsAtEndBy home batch.now pool.old log.old → (result ≡ Err LogError.Spent) ⊎ (result ≡ Err LogError.Memory) }
    ensures cause { LogCauses (S.faults site.old) (S.faults site.new) (N.faults serials.old) (N.faults serials.new) result }
    ensures syncs { Counts (S.told site.old) result (syncs_in log.old batch.now) (S.syncs site.old) (S.syncs site.new) }
    ensures reads { S.reads site.new ≡ S.reads site.old }
{
    let mut present = begun(alloc, home, log.take(), site, pool, serials)?;
    let spots = write_batch(&mut present, site, pool, serials, batch)?;
    *log = Some(present);
    Ok(first_of(&spots))
}
