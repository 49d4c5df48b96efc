// What a queue writes: one batch a call, appended and flushed.
ghost use Rattle.std.specs.Prelude.{◌≡◌, ◌⊎◌, ◌<◌, ◌^◌, [], ◌∷◌, false, is_err, IfOk, IfSome, IsTrue, Err, length, map};
ghost use Rattle.qls_site.specs.Content.{Tells};
ghost use Rattle.qls_site.specs.Disk.{IsQuiet};
ghost use Rattle.qls_record.specs.Record.{rid_given};
ghost use Rattle.qls_record.specs.Head.{is_legal_head, record_with};
ghost use Rattle.qls_pool.specs.Files.{IsPoolOf, IsWholePool, OnDisk, Carries};
ghost use Rattle.qls_pool.specs.Moments.{Passes};
ghost use Rattle.qls_pool.specs.Serials.{DrawsTaken};
ghost use Rattle.qls_meaning.specs.Reading.{read_of};
ghost use Rattle.qls_blocks.specs.Batching.{laid_from, length_of, block_length};
ghost use Rattle.qls_blocks.specs.Plans.{plan_of};
ghost use Rattle.qls_log.specs.Logs.{IsSound, capacity_in};
ghost use Rattle.qls_log.specs.Leaving.{NoneLeaves};
ghost use Rattle.qls_log.specs.Soundness.{StaysUndamaged};
ghost use Rattle.qls_log.specs.Steps.{IsLogStep, GoesBy, MeetsEndWith, KeepsRoom, is_exact};
ghost use Rattle.qls_log.specs.Unwritten.{StaysWritten};
ghost use Rattle.qls_log.specs.Faults.{LogCauses, Counts};
ghost use Rattle.qls_log.specs.Taking.{MeetsEnd};
ghost use Rattle.qls_log.specs.Spots.{spot_of};
ghost use Rattle.qls_log.specs.Standing.{LogThere};
ghost use Rattle.qls_log.specs.Appending.{FollowRids, LeavesOthers, ReadsInImages};
ghost use Rattle.qls_log.specs.Reads.{ReadsOn};
ghost use Rattle.qls_queue.specs.Writing.{HasWritten, syncs_of};
ghost use Rattle.qls_queue.specs.Records.{read_at};

use qls_blocks::Batch;
use qls_log::{Log, LogError, Spot};
use qls_model::{Bytes, Seq, Xid};
use qls_pool::Pool;
use qls_record::{Got, Head};
use qls_site::{Serials, Site};
use std::alloc::Global;

/// Appends a batch and flushes it. It answers where each record lies.
pub(crate) fn write_batch<S: Site, N: Serials>(
    log: &mut Log,
    site: &mut S,
    pool: &mut Pool,
    serials: &mut N,
    batch: &Batch,
) -> Result<Seq<Spot>, LogError>
    requires unended { log.old.ended ≡ false }
    requires files { 0 < length log.old.files }
    requires some { 0 < length batch.now }
    requires rids { FollowRids log.old.rid batch.now }
    requires flushed { log.old.unsynced ≡ [] }
    requires there { IfSome (S.told site.old) (OnDisk (LogThere log.old)) }
    requires pool { IfSome (S.told site.old) (OnDisk (IsPoolOf pool.old [])) }
    ensures ended { log.new.ended ≡ is_err result }
    ensures written { IfOk result (λ _. HasWritten batch.now log.old log.new pool.old pool.new (N.drawn serials.old) (N.drawn serials.new) (S.told site.old) (S.told site.new)) }
    ensures spots { IfOk result (λ spots. spots ≡ map (spot_of (capacity_in log.old.opening) log.old.newest) (laid_from log.old.used batch.now)) }
    ensures there { IfOk result (λ _. IfSome (S.told site.new) (OnDisk (LogThere log.new))) }
    ensures pool { IfOk result (λ _. IfSome (S.told site.new) (OnDisk (IsPoolOf pool.new []))) }
    ensures reading { IfOk result (λ _. Tells (ReadsOn batch.now log.old log.new) (S.told site.old) (S.told site.new)) }
    ensures others { IfOk result (λ _. Tells (LeavesOthers log.new.files) (S.told site.old) (S.told site.new)) }
    ensures quiet { IfOk result (λ _. Carries IsQuiet IsQuiet (S.told site.old) (S.told site.new)) }
    ensures images { IfOk result (λ _. Carries IsQuiet (ReadsInImages log.new) (S.told site.old) (S.told site.new)) }
    ensures whole { IfOk result (λ _. IfSome (S.told site.new) (OnDisk (IsWholePool pool.new))) }
    ensures legal { IfOk result (λ _. IsSound log.new) }
    ensures sound { IfOk result (λ _. Tells (StaysUndamaged log.old log.new) (S.told site.old) (S.told site.new)) }
    ensures went { Tells (GoesBy (IsLogStep log.old.opening) result) (S.told site.old) (S.told site.new) }
    ensures drew { DrawsTaken (is_exact result) (S.told site.old) (S.told site.new) (N.drawn serials.old) (N.drawn serials.new) }
    ensures stays { Tells (Passes NoneLeaves) (S.told site.old) (S.told site.new) }
    ensures writes { Tells (StaysWritten result log.old log.new) (S.told site.old) (S.told site.new) }
    ensures limit { pool.old.greatest < 2 ^ 62 → pool.new.greatest < 2 ^ 62 }
    ensures ends { result ≡ Err LogError.Spent → IfSome (S.told site.new) (OnDisk (MeetsEndWith log.old (block_length (length_of (batch.now))))) }
    ensures room { result ≡ Err LogError.Spent → Tells (KeepsRoom log.old) (S.told site.old) (S.told site.new) }
    ensures spent { result ≡ Err LogError.Spent → MeetsEnd log.old.opening log.old.newest (length (plan_of batch.now log.old.used (capacity_in log.old.opening) log.old.rid).fresh) pool.new }
    ensures at_end { 0 < length (plan_of batch.now log.old.used (capacity_in log.old.opening) log.old.rid).fresh → MeetsEnd log.old.opening log.old.newest 1 pool.old → (result ≡ Err LogError.Spent) ⊎ (result ≡ Err LogError.Memory) }
    ensures cause { LogCauses (S.faults site.old) (S.faults site.new) (N.faults serials.old) (N.faults serials.new) result }
    ensures syncs { Counts (S.told site.old) result (syncs_of log.old batch.now) (S.syncs site.old) (S.syncs site.new) }
    ensures reads { S.reads site.new ≡ S.reads site.old }
{
    let spots = log.append(site, pool, serials, batch)?;
    log.flush(site)?;
    Ok(spots)
}

/// A batch of one record.
fn batch_of(alloc: Global, head: Head, xid: Xid, body: Bytes) -> Result<Batch, LogError>
    requires legal { IsTrue (is_legal_head head) }
    requires xid { length xid ≡ head.xid_size }
    requires body { length body ≡ head.body_size }
    ensures exact { IfOk result (λ batch. batch ≡ record_with head xid body ∷ []) }
    ensures memory { (result ≡ Err LogError.Memory) ⊎ (is_err result ≡ false) }
{
    let mut batch = Batch::new(alloc);
    batch.push(head, xid, body)?;
    Ok(batch)
}

/// Writes a batch of one record, and hands the record out as it is read.
pub(crate) fn write_one<S: Site, N: Serials>(
    alloc: Global,
    log: &mut Log,
    site: &mut S,
    pool: &mut Pool,
    serials: &mut N,
    head: Head,
    xid: Xid,
    body: Bytes,
) -> Result<Got, LogError>
    requires legal { IsTrue (is_legal_head head) }
    requires xid { length xid ≡ head.xid_size }
    requires body { length body ≡ head.body_size }
    requires rid { head.rid ≡ rid_given log.old.rid head.kind }
    requires rid_fits { head.rid < 2 ^ 62 }
    requires files { 0 < length log.old.files }
    requires unended { log.old.ended ≡ false }
    requires flushed { log.old.unsynced ≡ [] }
    requires there { IfSome (S.told site.old) (OnDisk (LogThere log.old)) }
    requires pool { IfSome (S.told site.old) (OnDisk (IsPoolOf pool.old [])) }
    ensures ended { IfOk result (λ _. log.new.ended ≡ false) }
    ensures head { IfOk result (λ got. got.head ≡ head) }
    ensures got { IfOk result (λ got. read_of got ≡ read_at log.old (record_with head xid body)) }
    ensures written { IfOk result (λ _. HasWritten (record_with head xid body ∷ []) log.old log.new pool.old pool.new (N.drawn serials.old) (N.drawn serials.new) (S.told site.old) (S.told site.new)) }
    ensures there { IfOk result (λ _. IfSome (S.told site.new) (OnDisk (LogThere log.new))) }
    ensures pool { IfOk result (λ _. IfSome (S.told site.new) (OnDisk (IsPoolOf pool.new []))) }
    ensures reading { IfOk result (λ _. Tells (ReadsOn (record_with head xid body ∷ []) log.old log.new) (S.told site.old) (S.told site.new)) }
    ensures others { IfOk result (λ _. Tells (LeavesOthers log.new.files) (S.told site.old) (S.told site.new)) }
    ensures quiet { IfOk result (λ _. Carries IsQuiet IsQuiet (S.told site.old) (S.told site.new)) }
    ensures images { IfOk result (λ _. Carries IsQuiet (ReadsInImages log.new) (S.told site.old) (S.told site.new)) }
    ensures whole { IfOk result (λ _. IfSome (S.told site.new) (OnDisk (IsWholePool pool.new))) }
    ensures legal { IfOk result (λ _. IsSound log.new) }
    ensures sound { IfOk result (λ _. Tells (StaysUndamaged log.old log.new) (S.told site.old) (S.told site.new)) }
    ensures went { Tells (GoesBy (IsLogStep log.old.opening) result) (S.told site.old) (S.told site.new) }
    ensures drew { DrawsTaken (is_exact result) (S.told site.old) (S.told site.new) (N.drawn serials.old) (N.drawn serials.new) }
    ensures stays { Tells (Passes NoneLeaves) (S.told site.old) (S.told site.new) }
    ensures writes { Tells (StaysWritten result log.old log.new) (S.told site.old) (S.told site.new) }
    ensures limit { pool.old.greatest < 2 ^ 62 → pool.new.greatest < 2 ^ 62 }
    ensures ends { result ≡ Err LogError.Spent → IfSome (S.told site.new) (OnDisk (MeetsEndWith log.old (block_length (length_of (record_with head xid body ∷ []))))) }
    ensures room { result ≡ Err LogError.Spent → Tells (KeepsRoom log.old) (S.told site.old) (S.told site.new) }
    ensures spent { result ≡ Err LogError.Spent → MeetsEnd log.old.opening log.old.newest (length (plan_of (record_with head xid body ∷ []) log.old.used (capacity_in log.old.opening) log.old.rid).fresh) pool.new }
    ensures at_end { 0 < length (plan_of (record_with head xid body ∷ []) log.old.used (capacity_in log.old.opening) log.old.rid).fresh → MeetsEnd log.old.opening log.old.newest 1 pool.old → (result ≡ Err LogError.Spent) ⊎ (result ≡ Err LogError.Memory) }
    ensures cause { LogCauses (S.faults site.old) (S.faults site.new) (N.faults serials.old) (N.faults serials.new) result }
    ensures syncs { Counts (S.told site.old) result (syncs_of log.old (record_with head xid body ∷ [])) (S.syncs site.old) (S.syncs site.new) }
    ensures reads { S.reads site.new ≡ S.reads site.old }
{
    let batch = batch_of(alloc, head, xid, body)?;
    let spots = write_batch(log, site, pool, serials, &batch)?;
    let spot = spots.as_slice()[0];
    let body = batch.into_body().unwrap();
    Ok(Got {
        head,
        xid,
        body,
        file: spot.file,
        at: spot.at,
        end_file: spot.end_file,
    })
}
