// A queue held live.
ghost use Rattle.std.specs.Prelude.{◌≡◌, ◌⊎◌, ℕ, ◌<◌, ◌≤◌, ◌+◌, ◌-◌, ◌^◌, not, List, [], ◌∷◌, map, Option, Some, None, Ok, Err, IfOk, IfErr, IfSome, IsTrue, length, slice_get, option_map, false, true};
ghost use Rattle.qls_site.specs.Content.{Tells};
ghost use Rattle.qls_site.specs.Disk.{Disk, IsQuiet};
ghost use Rattle.qls_record.specs.Record.{rid_given, is_filler};
ghost use Rattle.qls_record.specs.Head.{is_legal_head, record_with};
ghost use Rattle.qls_pool.specs.Pools.{IsSpent};
ghost use Rattle.qls_pool.specs.Files.{IsPoolOf, IsWholePool, OnDisk, Carries};
ghost use Rattle.qls_pool.specs.Discipline.{Orderly};
ghost use Rattle.qls_pool.specs.Moments.{Passes};
ghost use Rattle.qls_pool.specs.Serials.{DrawsTaken};
ghost use Rattle.qls_meaning.specs.Replay.{after_record};
ghost use Rattle.qls_meaning.specs.Reading.{Read, read_of};
ghost use Rattle.qls_replay.specs.Held.{held_after_all};
ghost use Rattle.qls_reading.specs.ReadLogs.{AreGiven, rid_behind};
ghost use Rattle.std.specs.List.{AllByRecursion, filter};
ghost use Rattle.std.specs.List.Sorted.{IsStrictlySortedBy};
ghost use Rattle.std.specs.Ordering.{nat_cmp};
ghost use Rattle.std.specs.Cmp.Lexicographic.{slice_cmp};
ghost use Rattle.qls_model.specs.Bytes.{is_listed};
ghost use Rattle.qls_model.specs.Messages.{with_message, message_at};
ghost use Rattle.qls_model.specs.Sound.{IsNumbered};
ghost use Rattle.qls_model.specs.Machine.{put_message, taken};
ghost use Rattle.qls_queue.specs.Answers.{take_answer, BodyAnswer, body_at, numbered, is_pending};
ghost use Rattle.qls_blocks.specs.Plans.{plan_of};
ghost use Rattle.qls_blocks.specs.Batching.{length_of, block_length};
ghost use Rattle.qls_log.specs.Logs.{IsLegalOpening, capacity_in, IsSound as IsSoundLog};
ghost use Rattle.qls_log.specs.Reads.{IsRead};
ghost use Rattle.qls_log.specs.Soundness.{IsUndamaged};
ghost use Rattle.qls_log.specs.Leaving.{NoneLeaves};
ghost use Rattle.qls_log.specs.Steps.{IsLogStep, MeetsEndWith, KeepsRoom};
ghost use Rattle.qls_log.specs.Faults.{Counts};
ghost use Rattle.qls_log.specs.Taking.{TakesFiles, DrawsEach, MeetsEnd};
ghost use Rattle.qls_log.specs.Standing.{files_on};
ghost use Rattle.qls_log.specs.Appending.{IsNew, LeavesOthers, ReadsInImages};
ghost use Rattle.qls_queue.specs.Live.{live, IsSound, QueueThere};
ghost use Rattle.qls_queue.specs.Moments.{is_exact, GoesBy, LeavesDead, BeginsWritten, StaysWritten};
ghost use Rattle.qls_queue.specs.Releasing.{HasWrittenAndReleased, IsQueueWhole, BeginsClean, BecomesClean, StaysWhole};
ghost use Rattle.qls_queue.specs.Faults.{is_end, is_fault, QueueCauses};
ghost use Rattle.qls_queue.specs.Writing.{HasWritten, syncs_of};
ghost use Rattle.qls_queue.specs.Records.{opening_of, enqueue_of, dequeue_of, end_records, ended_by, IsXid};

use crate::ends::{batch_of_ends, end_all};
use crate::fault::QueueError;
use crate::heads::{apply_read, body_copy, copy_messages, dequeue, enqueue, may_take, xid_or_none};
use crate::write::{write_batch, write_one};
use qls_decide::End;
use qls_filehdr::JournalKind;
use qls_log::Log;
use qls_model::{Bytes, Message, Name, NoMemory, PoolId, Seq, Status, Xid};
use qls_pool::Pool;
use qls_record::{Got, Head};
use qls_replay::QueueReplay;
use qls_site::{Serials, Site};
use std::alloc::Global;
use std::marker::Model;

/// The greatest number of a message.
pub(crate) const LAST_NUMBER: u64 = (1 << 62) - 1;

/// A queue, held live over its log: what its journal's records make is the queue, before and after each call.
///
/// Between calls all that was written is flushed. A call that writes and answers Failed, Draw, Spent or Memory ends the
/// queue: the disk is in one of that call's moments then, and no other call may follow.
#[derive(Drop)]
pub struct LiveQueue {
    alloc: Global,
    pub(crate) log: Log,
    /// The messages, each in the files of its record, and the operations of pending transactions.
    pub(crate) tables: QueueReplay,
    pub(crate) ended: bool,
}

impl Model for LiveQueue {
    ghost use Rattle.std.specs.Prelude.{◌≡◌, false};
    ghost use Rattle.qls_queue.specs.Live.{LiveState, live, IsSound};

    ghost Value = { LiveState };

    ghost view = { λ q. live q.log q.tables.held q.ended };

    ghost invariant = { λ q. q.ended ≡ false → IsSound (live q.log q.tables.held q.ended) };
}

impl LiveQueue {
    /// Makes a new queue of this name, whose files belong to the pool `home`: its last number is 0 and it has no message.
    /// Its journal has one file, with number and epoch 1, and says the queue where every file that came into use was
    /// unmarked. The name is within its limits.
    ///
    /// Where told, the site has no file in use of that queue, and the pool is the site's, with no file out. After an
    /// error the site and the pool stand as the calls up to it left them.
    pub fn create<S: Site, N: Serials>(
        alloc: Global,
        site: &mut S,
        pool: &mut Pool,
        serials: &mut N,
        name: Name,
        home: PoolId,
    ) -> Result<LiveQueue, QueueError>
        requires legal { IsLegalOpening (opening_of name home) }
        requires new { IfSome (S.told site.old) (OnDisk (λ d. files_on (opening_of name home) d ≡ [])) }
        requires pool { IfSome (S.told site.old) (OnDisk (IsWholePool pool.old)) }
        ensures queue { IfOk result (λ q. q.queue ≡ record { name = name; last = 0; messages = [] }) }
        ensures open { IfOk result (λ q. q.ended ≡ false) }
        ensures log { IfOk result (λ q. IsNew (opening_of name home) q.log) }
        ensures told { IfOk result (λ q. Tells (TakesFiles home pool.old pool.new q.log.files) (S.told site.old) (S.told site.new)) }
        ensures drawn { IfOk result (λ q. DrawsEach q.log.files (N.drawn serials.old) (N.drawn serials.new)) }
        ensures there { IfOk result (λ q. IfSome (S.told site.new) (OnDisk (QueueThere q))) }
        ensures pool { IfOk result (λ _. IfSome (S.told site.new) (OnDisk (IsWholePool pool.new))) }
        ensures sound { IfOk result IsSound }
        ensures legal { IfOk result (λ q. IsSoundLog q.log) }
        ensures clean { IfOk result (λ q. Tells (BeginsClean q) (S.told site.old) (S.told site.new)) }
        ensures others { IfOk result (λ q. Tells (LeavesOthers q.log.files) (S.told site.old) (S.told site.new)) }
        ensures quiet { IfOk result (λ _. Carries IsQuiet IsQuiet (S.told site.old) (S.told site.new)) }
        ensures refusals { IfErr result (λ e. is_fault e ≡ true) }
        ensures spent { result ≡ Err QueueError.Spent → IsSpent home pool.new }
        ensures at_end { IsSpent home pool.old → (result ≡ Err QueueError.Spent) ⊎ (result ≡ Err QueueError.Memory) }
        ensures cause { QueueCauses (S.faults site.old) (S.faults site.new) (N.faults serials.old) (N.faults serials.new) result }
        ensures syncs { Counts (S.told site.old) result 1 (S.syncs site.old) (S.syncs site.new) }
        ensures reads { S.reads site.new ≡ S.reads site.old }
        ensures orderly { Orderly (IsPoolOf pool.old []) result (S.told site.old) (S.told site.new) }
        ensures went { Tells (GoesBy (IsLogStep (opening_of name home)) result) (S.told site.old) (S.told site.new) }
        ensures drew { DrawsTaken (is_exact result) (S.told site.old) (S.told site.new) (N.drawn serials.old) (N.drawn serials.new) }
        ensures stays { Tells (Passes NoneLeaves) (S.told site.old) (S.told site.new) }
        ensures writes { Tells (BeginsWritten result) (S.told site.old) (S.told site.new) }
        ensures limit { pool.old.greatest < 2 ^ 62 → pool.new.greatest < 2 ^ 62 }
        ensures no_call { result ≡ Err QueueError.Spent → site.new ≡ site.old }
        ensures spent_pool { result ≡ Err QueueError.Spent → pool.new ≡ pool.old }
    {
        let log = Log::create(alloc, site, pool, serials, JournalKind::Queue, name, home)?;
        Ok(LiveQueue {
            alloc,
            log,
            tables: QueueReplay::new(alloc),
            ended: false,
        })
    }

    /// Opens a queue over its journal, which was read whole: these are its records without the fillers, oldest first. What
    /// they leave are its messages, each in the files of its record, and the log's rid is its last number. Where the log
    /// reads these records on a disk and breaks no damage rule there, the journal says the queue.
    ///
    /// The log isn't ended, is a queue's and has nothing pending; the records' rids follow from each other up to the log's.
    /// So numbers rise, up to the last one. Only Memory is answered.
    pub fn open(alloc: Global, log: Log, reads: &Seq<Got>) -> Result<LiveQueue, QueueError>
        requires unended { log.ended ≡ false }
        requires flushed { log.unsynced ≡ [] }
        requires kind { log.opening.kind ≡ JournalKind.Queue }
        requires given { (first : ℕ) × AreGiven first reads.now × (log.rid ≡ rid_behind first reads.now) }
        ensures queue { IfOk result (λ q. q ≡ live log (held_after_all (map read_of reads.now) []) false) }
        ensures sound { IfOk result IsSound }
        ensures legal { IfOk result (λ q. IsSoundLog q.log) }
        ensures only { IfErr result (λ e. e ≡ QueueError.Memory) }
        ensures numbered { IfOk result (λ q. IsNumbered q.queue) }
        ensures whole { IfOk result (λ q. (d : Disk) → (kept : List Read) → IsRead log kept d → IsUndamaged log d → filter (λ r. not (is_filler r.what.kind)) kept ≡ map read_of reads.now → IsQueueWhole q d) }
    {
        let mut tables = QueueReplay::new(alloc);
        for got in reads.as_slice() {
            apply_read(&mut tables, got)?;
        }
        Ok(LiveQueue {
            alloc,
            log,
            tables,
            ended: false,
        })
    }

    /// Writes one record, and applies it to the queue.
    fn write_record<S: Site, N: Serials>(
        &mut self,
        site: &mut S,
        pool: &mut Pool,
        serials: &mut N,
        head: Head,
        xid: Xid,
        body: Bytes,
    ) -> Result<(), QueueError>
        requires legal { IsTrue (is_legal_head head) }
        requires xid { length xid ≡ head.xid_size }
        requires body { length body ≡ head.body_size }
        requires unended { self.old.ended ≡ false }
        requires rid { head.rid ≡ rid_given self.old.queue.last head.kind }
        requires rid_fits { head.rid < 2 ^ 62 }
        requires there { IfSome (S.told site.old) (OnDisk (QueueThere self.old)) }
        requires pool { IfSome (S.told site.old) (OnDisk (IsPoolOf pool.old [])) }
        ensures ended { self.new.ended ≡ is_end result }
        ensures refusals { IfErr result (λ e. is_fault e ≡ true) }
        ensures queue { IfOk result (λ _. self.new.queue ≡ after_record head.kind (record_with head xid body) self.old.queue) }
        ensures written { IfOk result (λ _. HasWritten (record_with head xid body ∷ []) self.old.log self.new.log pool.old pool.new (N.drawn serials.old) (N.drawn serials.new) (S.told site.old) (S.told site.new)) }
        ensures there { self.new.ended ≡ false → IfSome (S.told site.new) (OnDisk (QueueThere self.new)) }
        ensures pool { self.new.ended ≡ false → IfSome (S.told site.new) (OnDisk (IsPoolOf pool.new [])) }
        ensures sound { IfOk result (λ _. IsSound self.new) }
        ensures whole { IfOk result (λ _. Tells (StaysWhole self.old self.new) (S.told site.old) (S.told site.new)) }
        ensures others { IfOk result (λ _. Tells (LeavesOthers self.new.log.files) (S.told site.old) (S.told site.new)) }
        ensures quiet { IfOk result (λ _. Carries IsQuiet IsQuiet (S.told site.old) (S.told site.new)) }
        ensures went { Tells (GoesBy (IsLogStep self.old.log.opening) result) (S.told site.old) (S.told site.new) }
        ensures drew { DrawsTaken (is_exact result) (S.told site.old) (S.told site.new) (N.drawn serials.old) (N.drawn serials.new) }
        ensures stays { Tells (Passes NoneLeaves) (S.told site.old) (S.told site.new) }
        ensures writes { Tells (StaysWritten result self.old self.new) (S.told site.old) (S.told site.new) }
        ensures limit { pool.old.greatest < 2 ^ 62 → pool.new.greatest < 2 ^ 62 }
        ensures ends { result ≡ Err QueueError.Spent → IfSome (S.told site.new) (OnDisk (MeetsEndWith self.old.log (block_length (length_of (record_with head xid body ∷ []))))) }
        ensures room { result ≡ Err QueueError.Spent → Tells (KeepsRoom self.old.log) (S.told site.old) (S.told site.new) }
        ensures spent { result ≡ Err QueueError.Spent → MeetsEnd self.old.log.opening self.old.log.newest (length (plan_of (record_with head xid body ∷ []) self.old.log.used (capacity_in self.old.log.opening) self.old.log.rid).fresh) pool.new }
        ensures at_end { 0 < length (plan_of (record_with head xid body ∷ []) self.old.log.used (capacity_in self.old.log.opening) self.old.log.rid).fresh → MeetsEnd self.old.log.opening self.old.log.newest 1 pool.old → (result ≡ Err QueueError.Spent) ⊎ (result ≡ Err QueueError.Memory) }
        ensures cause { QueueCauses (S.faults site.old) (S.faults site.new) (N.faults serials.old) (N.faults serials.new) result }
        ensures syncs { Counts (S.told site.old) result (syncs_of self.old.log (record_with head xid body ∷ [])) (S.syncs site.old) (S.syncs site.new) }
        ensures reads { S.reads site.new ≡ S.reads site.old }
    {
        self.ended = true;
        let log = &mut self.log;
        let got = write_one(self.alloc, log, site, pool, serials, head, xid, body)?;
        self.tables.take_in(got)?;
        self.ended = false;
        Ok(())
    }

    /// Writes one record, applies it to the queue, and gives the files back that died by it.
    fn write_and_release<S: Site, N: Serials>(
        &mut self,
        site: &mut S,
        pool: &mut Pool,
        serials: &mut N,
        head: Head,
        xid: Xid,
        body: Bytes,
    ) -> Result<(), QueueError>
        requires legal { IsTrue (is_legal_head head) }
        requires xid { length xid ≡ head.xid_size }
        requires body { length body ≡ head.body_size }
        requires unended { self.old.ended ≡ false }
        requires rid { head.rid ≡ rid_given self.old.queue.last head.kind }
        requires rid_fits { head.rid < 2 ^ 62 }
        requires there { IfSome (S.told site.old) (OnDisk (QueueThere self.old)) }
        requires pool { IfSome (S.told site.old) (OnDisk (IsPoolOf pool.old [])) }
        ensures ended { self.new.ended ≡ is_end result }
        ensures refusals { IfErr result (λ e. is_fault e ≡ true) }
        ensures queue { IfOk result (λ _. self.new.queue ≡ after_record head.kind (record_with head xid body) self.old.queue) }
        ensures written { IfOk result (λ _. HasWrittenAndReleased (record_with head xid body ∷ []) self.old self.new pool.old pool.new (N.drawn serials.old) (N.drawn serials.new) (S.told site.old) (S.told site.new)) }
        ensures there { self.new.ended ≡ false → IfSome (S.told site.new) (OnDisk (QueueThere self.new)) }
        ensures pool { self.new.ended ≡ false → IfSome (S.told site.new) (OnDisk (IsWholePool pool.new)) }
        ensures sound { IfOk result (λ _. IsSound self.new) }
        ensures log { IfOk result (λ _. IsSoundLog self.new.log) }
        ensures one { IfOk result (λ _. self.new.queue.messages ≡ [] → length self.new.log.files ≡ 1) }
        ensures clean { IfOk result (λ _. Tells (BecomesClean self.old self.new) (S.told site.old) (S.told site.new)) }
        ensures quiet { IfOk result (λ _. Carries IsQuiet IsQuiet (S.told site.old) (S.told site.new)) }
        ensures images { IfOk result (λ _. Carries IsQuiet (ReadsInImages self.new.log) (S.told site.old) (S.told site.new)) }
        ensures went { Tells (GoesBy (IsLogStep self.old.log.opening) result) (S.told site.old) (S.told site.new) }
        ensures drew { DrawsTaken (is_exact result) (S.told site.old) (S.told site.new) (N.drawn serials.old) (N.drawn serials.new) }
        ensures stays { result ≡ Err QueueError.Spent → Tells (Passes NoneLeaves) (S.told site.old) (S.told site.new) }
        ensures leaves { Tells (LeavesDead self.old) (S.told site.old) (S.told site.new) }
        ensures writes { Tells (StaysWritten result self.old self.new) (S.told site.old) (S.told site.new) }
        ensures limit { pool.old.greatest < 2 ^ 62 → pool.new.greatest < 2 ^ 62 }
        ensures ends { result ≡ Err QueueError.Spent → IfSome (S.told site.new) (OnDisk (MeetsEndWith self.old.log (block_length (length_of (record_with head xid body ∷ []))))) }
        ensures room { result ≡ Err QueueError.Spent → Tells (KeepsRoom self.old.log) (S.told site.old) (S.told site.new) }
        ensures spent { result ≡ Err QueueError.Spent → MeetsEnd self.old.log.opening self.old.log.newest (length (plan_of (record_with head xid body ∷ []) self.old.log.used (capacity_in self.old.log.opening) self.old.log.rid).fresh) pool.new }
        ensures at_end { 0 < length (plan_of (record_with head xid body ∷ []) self.old.log.used (capacity_in self.old.log.opening) self.old.log.rid).fresh → MeetsEnd self.old.log.opening self.old.log.newest 1 pool.old → (result ≡ Err QueueError.Spent) ⊎ (result ≡ Err QueueError.Memory) }
        ensures cause { QueueCauses (S.faults site.old) (S.faults site.new) (N.faults serials.old) (N.faults serials.new) result }
        ensures syncs { Counts (S.told site.old) result (syncs_of self.old.log (record_with head xid body ∷ [])) (S.syncs site.old) (S.syncs site.new) }
        ensures reads { S.reads site.new ≡ S.reads site.old }
    {
        self.write_record(site, pool, serials, head, xid, body)?;
        self.release(site, pool)
    }

    /// Puts a message, by the transaction where there is one, and answers its number: one more than the last one. It
    /// appends one enqueue, flushes it, and then holds the message. Files that are dead then go back to their pool.
    ///
    /// Numbers exactly where the last number is 2^62 - 1; then nothing changes and no call is made. The body has at most
    /// 1,048,576 bytes and the xid 1 to 128. The queue isn't ended; where told, the site has its journal as its last call
    /// left it, and the pool is the site's, with no file out. After an error that is no refusal the queue is ended.
    pub fn put<S: Site, N: Serials>(
        &mut self,
        site: &mut S,
        pool: &mut Pool,
        serials: &mut N,
        body: Bytes,
        xid: Option<Xid>,
    ) -> Result<u64, QueueError>
        requires unended { self.old.ended ≡ false }
        requires body { length body ≤ 1048576 }
        requires xid { IfSome xid IsXid }
        requires there { IfSome (S.told site.old) (OnDisk (QueueThere self.old)) }
        requires pool { IfSome (S.told site.old) (OnDisk (IsPoolOf pool.old [])) }
        ensures ended { self.new.ended ≡ is_end result }
        ensures number { IfOk result (λ number. number ≡ self.old.queue.last + 1) }
        ensures queue { IfOk result (λ number. self.new.queue ≡ with_message (put_message number body xid) self.old.queue) }
        ensures written { IfOk result (λ number. HasWrittenAndReleased (enqueue_of number body xid ∷ []) self.old self.new pool.old pool.new (N.drawn serials.old) (N.drawn serials.new) (S.told site.old) (S.told site.new)) }
        ensures there { self.new.ended ≡ false → IfSome (S.told site.new) (OnDisk (QueueThere self.new)) }
        ensures pool { self.new.ended ≡ false → IfSome (S.told site.new) (OnDisk (IsWholePool pool.new)) }
        ensures sound { IfOk result (λ _. IsSound self.new) }
        ensures log { IfOk result (λ _. IsSoundLog self.new.log) }
        ensures one { IfOk result (λ _. self.new.queue.messages ≡ [] → length self.new.log.files ≡ 1) }
        ensures clean { IfOk result (λ _. Tells (BecomesClean self.old self.new) (S.told site.old) (S.told site.new)) }
        ensures numbers { result ≡ Err QueueError.Numbers → self.old.queue.last ≡ 2 ^ 62 - 1 }
        ensures at_last { self.old.queue.last ≡ 2 ^ 62 - 1 → result ≡ Err QueueError.Numbers }
        ensures refused { result ≡ Err QueueError.Numbers → self.new ≡ self.old }
        ensures no_call { result ≡ Err QueueError.Numbers → (site.new ≡ site.old) × (pool.new ≡ pool.old) × (serials.new ≡ serials.old) }
        ensures no_other { (result ≡ Err QueueError.Unknown → ⊥) × (result ≡ Err QueueError.Locked → ⊥) }
        ensures quiet { IfOk result (λ _. Carries IsQuiet IsQuiet (S.told site.old) (S.told site.new)) }
        ensures images { IfOk result (λ _. Carries IsQuiet (ReadsInImages self.new.log) (S.told site.old) (S.told site.new)) }
        ensures went { Tells (GoesBy (IsLogStep self.old.log.opening) result) (S.told site.old) (S.told site.new) }
        ensures drew { DrawsTaken (is_exact result) (S.told site.old) (S.told site.new) (N.drawn serials.old) (N.drawn serials.new) }
        ensures stays { result ≡ Err QueueError.Spent → Tells (Passes NoneLeaves) (S.told site.old) (S.told site.new) }
        ensures leaves { Tells (LeavesDead self.old) (S.told site.old) (S.told site.new) }
        ensures writes { Tells (StaysWritten result self.old self.new) (S.told site.old) (S.told site.new) }
        ensures limit { pool.old.greatest < 2 ^ 62 → pool.new.greatest < 2 ^ 62 }
        ensures ends { result ≡ Err QueueError.Spent → IfSome (S.told site.new) (OnDisk (MeetsEndWith self.old.log (block_length (length_of (enqueue_of (self.old.queue.last + 1) body xid ∷ []))))) }
        ensures room { result ≡ Err QueueError.Spent → Tells (KeepsRoom self.old.log) (S.told site.old) (S.told site.new) }
        ensures spent { result ≡ Err QueueError.Spent → MeetsEnd self.old.log.opening self.old.log.newest (length (plan_of (enqueue_of (self.old.queue.last + 1) body xid ∷ []) self.old.log.used (capacity_in self.old.log.opening) self.old.log.rid).fresh) pool.new }
        ensures at_end { self.old.queue.last < 2 ^ 62 - 1 → 0 < length (plan_of (enqueue_of (self.old.queue.last + 1) body xid ∷ []) self.old.log.used (capacity_in self.old.log.opening) self.old.log.rid).fresh → MeetsEnd self.old.log.opening self.old.log.newest 1 pool.old → (result ≡ Err QueueError.Spent) ⊎ (result ≡ Err QueueError.Memory) }
        ensures cause { QueueCauses (S.faults site.old) (S.faults site.new) (N.faults serials.old) (N.faults serials.new) result }
        ensures syncs { Counts (S.told site.old) result (syncs_of self.old.log (enqueue_of (self.old.queue.last + 1) body xid ∷ [])) (S.syncs site.old) (S.syncs site.new) }
        ensures reads { S.reads site.new ≡ S.reads site.old }
    {
        let last = self.log.rid();
        if last == LAST_NUMBER {
            return Err(QueueError::Numbers);
        }
        let xid = xid_or_none(xid);
        let head = enqueue(last + 1, &xid, &body);
        self.write_and_release(site, pool, serials, head, xid, body)?;
        Ok(last + 1)
    }

    /// Takes a message, by the transaction where there is one: it goes, or it is going by the transaction. It appends one
    /// dequeue, flushes it, and then lets the message go. Files that are dead then go back to their pool, oldest first.
    ///
    /// Unknown exactly where no message has that number, and Locked exactly where the message isn't ready; then nothing
    /// changes and no call is made. The xid has 1 to 128 bytes. The queue isn't ended; where told, the site has its
    /// journal as its last call left it, and the pool is the site's, with no file out. After an error that is no refusal
    /// the queue is ended.
    pub fn take<S: Site, N: Serials>(
        &mut self,
        site: &mut S,
        pool: &mut Pool,
        serials: &mut N,
        number: u64,
        xid: Option<Xid>,
    ) -> Result<(), QueueError>
        requires unended { self.old.ended ≡ false }
        requires xid { IfSome xid IsXid }
        requires there { IfSome (S.told site.old) (OnDisk (QueueThere self.old)) }
        requires pool { IfSome (S.told site.old) (OnDisk (IsPoolOf pool.old [])) }
        ensures ended { self.new.ended ≡ is_end result }
        ensures queue { IfOk result (λ _. self.new.queue ≡ taken number xid self.old.queue) }
        ensures written { IfOk result (λ _. HasWrittenAndReleased (dequeue_of self.old.queue.last number xid ∷ []) self.old self.new pool.old pool.new (N.drawn serials.old) (N.drawn serials.new) (S.told site.old) (S.told site.new)) }
        ensures there { self.new.ended ≡ false → IfSome (S.told site.new) (OnDisk (QueueThere self.new)) }
        ensures pool { self.new.ended ≡ false → IfSome (S.told site.new) (OnDisk (IsWholePool pool.new)) }
        ensures sound { IfOk result (λ _. IsSound self.new) }
        ensures log { IfOk result (λ _. IsSoundLog self.new.log) }
        ensures one { IfOk result (λ _. self.new.queue.messages ≡ [] → length self.new.log.files ≡ 1) }
        ensures clean { IfOk result (λ _. Tells (BecomesClean self.old self.new) (S.told site.old) (S.told site.new)) }
        ensures refusals { (e : QueueError) → take_answer (message_at self.old.queue.messages number) ≡ Err e → result ≡ Err e }
        ensures only { IfErr result (λ e. is_fault e ≡ false → take_answer (message_at self.old.queue.messages number) ≡ Err e) }
        ensures refused { IfErr result (λ e. is_fault e ≡ false → self.new ≡ self.old) }
        ensures no_call { IfErr result (λ e. is_fault e ≡ false → (site.new ≡ site.old) × (pool.new ≡ pool.old) × (serials.new ≡ serials.old)) }
        ensures quiet { IfOk result (λ _. Carries IsQuiet IsQuiet (S.told site.old) (S.told site.new)) }
        ensures images { IfOk result (λ _. Carries IsQuiet (ReadsInImages self.new.log) (S.told site.old) (S.told site.new)) }
        ensures went { Tells (GoesBy (IsLogStep self.old.log.opening) result) (S.told site.old) (S.told site.new) }
        ensures drew { DrawsTaken (is_exact result) (S.told site.old) (S.told site.new) (N.drawn serials.old) (N.drawn serials.new) }
        ensures stays { result ≡ Err QueueError.Spent → Tells (Passes NoneLeaves) (S.told site.old) (S.told site.new) }
        ensures leaves { Tells (LeavesDead self.old) (S.told site.old) (S.told site.new) }
        ensures writes { Tells (StaysWritten result self.old self.new) (S.told site.old) (S.told site.new) }
        ensures limit { pool.old.greatest < 2 ^ 62 → pool.new.greatest < 2 ^ 62 }
        ensures ends { result ≡ Err QueueError.Spent → IfSome (S.told site.new) (OnDisk (MeetsEndWith self.old.log (block_length (length_of (dequeue_of self.old.queue.last number xid ∷ []))))) }
        ensures room { result ≡ Err QueueError.Spent → Tells (KeepsRoom self.old.log) (S.told site.old) (S.told site.new) }
        ensures spent { result ≡ Err QueueError.Spent → MeetsEnd self.old.log.opening self.old.log.newest (length (plan_of (dequeue_of self.old.queue.last number xid ∷ []) self.old.log.used (capacity_in self.old.log.opening) self.old.log.rid).fresh) pool.new }
        ensures at_end { take_answer (message_at self.old.queue.messages number) ≡ Ok tt → 0 < length (plan_of (dequeue_of self.old.queue.last number xid ∷ []) self.old.log.used (capacity_in self.old.log.opening) self.old.log.rid).fresh → MeetsEnd self.old.log.opening self.old.log.newest 1 pool.old → (result ≡ Err QueueError.Spent) ⊎ (result ≡ Err QueueError.Memory) }
        ensures cause { QueueCauses (S.faults site.old) (S.faults site.new) (N.faults serials.old) (N.faults serials.new) result }
        ensures syncs { Counts (S.told site.old) result (syncs_of self.old.log (dequeue_of self.old.queue.last number xid ∷ [])) (S.syncs site.old) (S.syncs site.new) }
        ensures reads { S.reads site.new ≡ S.reads site.old }
    {
        let answer = may_take(self.tables.held().get(number));
        if answer.is_err() {
            return answer;
        }
        let xid = xid_or_none(xid);
        let head = dequeue(self.log.rid(), number, &xid);
        let body = Bytes::from_vec(Vec::new(self.alloc));
        self.write_and_release(site, pool, serials, head, xid, body)
    }

    /// Writes the ends of transactions as one batch, and carries them out in the queue.
    fn write_ends<S: Site, N: Serials>(
        &mut self,
        site: &mut S,
        pool: &mut Pool,
        serials: &mut N,
        ends: &Seq<End>,
    ) -> Result<(), QueueError>
        requires unended { self.old.ended ≡ false }
        requires some { 0 < length ends.now }
        requires xids { AllByRecursion (λ e. IsXid e.xid) ends.now }
        requires there { IfSome (S.told site.old) (OnDisk (QueueThere self.old)) }
        requires pool { IfSome (S.told site.old) (OnDisk (IsPoolOf pool.old [])) }
        ensures ended { self.new.ended ≡ is_end result }
        ensures refusals { IfErr result (λ e. is_fault e ≡ true) }
        ensures queue { IfOk result (λ _. self.new.queue ≡ ended_by ends.now self.old.queue) }
        ensures written { IfOk result (λ _. HasWritten (end_records self.old.queue.last ends.now) self.old.log self.new.log pool.old pool.new (N.drawn serials.old) (N.drawn serials.new) (S.told site.old) (S.told site.new)) }
        ensures there { self.new.ended ≡ false → IfSome (S.told site.new) (OnDisk (QueueThere self.new)) }
        ensures pool { self.new.ended ≡ false → IfSome (S.told site.new) (OnDisk (IsPoolOf pool.new [])) }
        ensures sound { IfOk result (λ _. IsSound self.new) }
        ensures whole { IfOk result (λ _. Tells (StaysWhole self.old self.new) (S.told site.old) (S.told site.new)) }
        ensures others { IfOk result (λ _. Tells (LeavesOthers self.new.log.files) (S.told site.old) (S.told site.new)) }
        ensures quiet { IfOk result (λ _. Carries IsQuiet IsQuiet (S.told site.old) (S.told site.new)) }
        ensures went { Tells (GoesBy (IsLogStep self.old.log.opening) result) (S.told site.old) (S.told site.new) }
        ensures drew { DrawsTaken (is_exact result) (S.told site.old) (S.told site.new) (N.drawn serials.old) (N.drawn serials.new) }
        ensures stays { Tells (Passes NoneLeaves) (S.told site.old) (S.told site.new) }
        ensures writes { Tells (StaysWritten result self.old self.new) (S.told site.old) (S.told site.new) }
        ensures limit { pool.old.greatest < 2 ^ 62 → pool.new.greatest < 2 ^ 62 }
        ensures ends { result ≡ Err QueueError.Spent → IfSome (S.told site.new) (OnDisk (MeetsEndWith self.old.log (block_length (length_of (end_records self.old.queue.last ends.now))))) }
        ensures room { result ≡ Err QueueError.Spent → Tells (KeepsRoom self.old.log) (S.told site.old) (S.told site.new) }
        ensures spent { result ≡ Err QueueError.Spent → MeetsEnd self.old.log.opening self.old.log.newest (length (plan_of (end_records self.old.queue.last ends.now) self.old.log.used (capacity_in self.old.log.opening) self.old.log.rid).fresh) pool.new }
        ensures at_end { 0 < length (plan_of (end_records self.old.queue.last ends.now) self.old.log.used (capacity_in self.old.log.opening) self.old.log.rid).fresh → MeetsEnd self.old.log.opening self.old.log.newest 1 pool.old → (result ≡ Err QueueError.Spent) ⊎ (result ≡ Err QueueError.Memory) }
        ensures cause { QueueCauses (S.faults site.old) (S.faults site.new) (N.faults serials.old) (N.faults serials.new) result }
        ensures syncs { Counts (S.told site.old) result (syncs_of self.old.log (end_records self.old.queue.last ends.now)) (S.syncs site.old) (S.syncs site.new) }
        ensures reads { S.reads site.new ≡ S.reads site.old }
    {
        let last = self.log.rid();
        self.ended = true;
        let ends = ends.as_slice();
        let batch = batch_of_ends(self.alloc, last, ends)?;
        let _spots = write_batch(&mut self.log, site, pool, serials, &batch)?;
        end_all(&mut self.tables, ends);
        self.ended = false;
        Ok(())
    }

    /// Ends transactions, in order: each as a commit or an abort of its xid does. It appends one batch with a record for
    /// each end, flushes it, and then ends them in the queue. An end whose xid isn't pending changes nothing. Files that
    /// are dead then go back to their pool, oldest first.
    ///
    /// There is at least one end, and each xid has 1 to 128 bytes. The queue isn't ended; where told, the site has its
    /// journal as its last call left it, and the pool is the site's, with no file out. After an error the queue is ended.
    pub fn finish<S: Site, N: Serials>(
        &mut self,
        site: &mut S,
        pool: &mut Pool,
        serials: &mut N,
        ends: &Seq<End>,
    ) -> Result<(), QueueError>
        requires unended { self.old.ended ≡ false }
        requires some { 0 < length ends.now }
        requires xids { AllByRecursion (λ e. IsXid e.xid) ends.now }
        requires there { IfSome (S.told site.old) (OnDisk (QueueThere self.old)) }
        requires pool { IfSome (S.told site.old) (OnDisk (IsPoolOf pool.old [])) }
        ensures ended { self.new.ended ≡ is_end result }
        ensures refusals { IfErr result (λ e. is_fault e ≡ true) }
        ensures queue { IfOk result (λ _. self.new.queue ≡ ended_by ends.now self.old.queue) }
        ensures written { IfOk result (λ _. HasWrittenAndReleased (end_records self.old.queue.last ends.now) self.old self.new pool.old pool.new (N.drawn serials.old) (N.drawn serials.new) (S.told site.old) (S.told site.new)) }
        ensures there { self.new.ended ≡ false → IfSome (S.told site.new) (OnDisk (QueueThere self.new)) }
        ensures pool { self.new.ended ≡ false → IfSome (S.told site.new) (OnDisk (IsWholePool pool.new)) }
        ensures sound { IfOk result (λ _. IsSound self.new) }
        ensures log { IfOk result (λ _. IsSoundLog self.new.log) }
        ensures one { IfOk result (λ _. self.new.queue.messages ≡ [] → length self.new.log.files ≡ 1) }
        ensures clean { IfOk result (λ _. Tells (BecomesClean self.old self.new) (S.told site.old) (S.told site.new)) }
        ensures quiet { IfOk result (λ _. Carries IsQuiet IsQuiet (S.told site.old) (S.told site.new)) }
        ensures images { IfOk result (λ _. Carries IsQuiet (ReadsInImages self.new.log) (S.told site.old) (S.told site.new)) }
        ensures went { Tells (GoesBy (IsLogStep self.old.log.opening) result) (S.told site.old) (S.told site.new) }
        ensures drew { DrawsTaken (is_exact result) (S.told site.old) (S.told site.new) (N.drawn serials.old) (N.drawn serials.new) }
        ensures stays { result ≡ Err QueueError.Spent → Tells (Passes NoneLeaves) (S.told site.old) (S.told site.new) }
        ensures leaves { Tells (LeavesDead self.old) (S.told site.old) (S.told site.new) }
        ensures writes { Tells (StaysWritten result self.old self.new) (S.told site.old) (S.told site.new) }
        ensures limit { pool.old.greatest < 2 ^ 62 → pool.new.greatest < 2 ^ 62 }
        ensures ends { result ≡ Err QueueError.Spent → IfSome (S.told site.new) (OnDisk (MeetsEndWith self.old.log (block_length (length_of (end_records self.old.queue.last ends.now))))) }
        ensures room { result ≡ Err QueueError.Spent → Tells (KeepsRoom self.old.log) (S.told site.old) (S.told site.new) }
        ensures spent { result ≡ Err QueueError.Spent → MeetsEnd self.old.log.opening self.old.log.newest (length (plan_of (end_records self.old.queue.last ends.now) self.old.log.used (capacity_in self.old.log.opening) self.old.log.rid).fresh) pool.new }
        ensures at_end { 0 < length (plan_of (end_records self.old.queue.last ends.now) self.old.log.used (capacity_in self.old.log.opening) self.old.log.rid).fresh → MeetsEnd self.old.log.opening self.old.log.newest 1 pool.old → (result ≡ Err QueueError.Spent) ⊎ (result ≡ Err QueueError.Memory) }
        ensures cause { QueueCauses (S.faults site.old) (S.faults site.new) (N.faults serials.old) (N.faults serials.new) result }
        ensures syncs { Counts (S.told site.old) result (syncs_of self.old.log (end_records self.old.queue.last ends.now)) (S.syncs site.old) (S.syncs site.new) }
        ensures reads { S.reads site.new ≡ S.reads site.old }
    {
        self.write_ends(site, pool, serials, ends)?;
        self.release(site, pool)
    }

    /// A copy of the body of the message of that number. It makes no call on the site and changes nothing.
    ///
    /// Unknown exactly where no message has that number. The queue isn't ended.
    pub fn body<S: Site>(&mut self, site: &mut S, number: u64) -> Result<Bytes, QueueError>
        requires unended { self.old.ended ≡ false }
        ensures answer { BodyAnswer (body_at self.old.queue number) result }
        ensures same { self.new ≡ self.old }
        ensures no_call { site.new ≡ site.old }
    {
        body_copy(self.tables.held().get(number))
    }

    /// The number and the status of the message at a place by number, counted from 0; None exactly where there is none.
    pub fn message_at(&self, at: usize) -> Option<(u64, Status)>
        requires unended { self.now.ended ≡ false }
        ensures exact { result ≡ option_map numbered (slice_get self.now.queue.messages at) }
    {
        let held = self.tables.held().at(at)?;
        Some((held.rid, held.status))
    }

    /// The queue's name.
    pub fn name(&self) -> &Name
        ensures exact { result.now ≡ self.now.queue.name }
    {
        self.log.name()
    }

    /// A copy of the messages, in order.
    pub fn messages(&self) -> Result<Seq<Message>, NoMemory>
        requires unended { self.now.ended ≡ false }
        ensures exact { IfOk result (λ messages. messages ≡ self.now.queue.messages) }
    {
        copy_messages(self.alloc, self.tables.held())
    }

    /// The last number that the queue gave, 0 where it gave none. It is below 2^62.
    pub fn last(&self) -> u64
        requires unended { self.now.ended ≡ false }
        ensures exact { result ≡ self.now.queue.last }
        ensures fits { result < 2 ^ 62 }
        ensures sound { IsSound self.now }
    {
        self.log.rid()
    }

    /// The xids by which a message is coming or going, in byte order and each once.
    pub fn pending(&self) -> Result<Seq<Xid>, NoMemory>
        requires unended { self.now.ended ≡ false }
        ensures in_order { IfOk result (λ xids. IsStrictlySortedBy (slice_cmp nat_cmp) xids) }
        ensures exact { IfOk result (λ xids. (x : List ℕ) → is_listed x xids ≡ is_pending x self.now.queue) }
        ensures xids { IfOk result (λ xids. AllByRecursion IsXid xids) }
    {
        self.tables.pending()
    }

    /// Whether the queue is ended: a call on it that may write answered an error that is no refusal. No other call may
    /// follow then.
    pub fn is_ended(&self) -> bool
        ensures exact { result ≡ self.now.ended }
    {
        self.ended
    }
}
