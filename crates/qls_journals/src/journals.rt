// The open journals of a store.
ghost use Rattle.std.specs.Prelude.{◌≡◌, ◌⊎◌, ◌≤◌, ◌<◌, ◌+◌, ◌-◌, ◌^◌, List, ℕ, [], ◌∷◌, None, Some, Ok, Err, IfOk, IfErr, IfSome, IsTrue, is_err, length, slice_get, option_copied, not, true, false};
ghost use Rattle.std.specs.List.{AllByRecursion, IsDistinct};
ghost use Rattle.std.specs.List.Sorted.{IsStrictlySortedBy};
ghost use Rattle.std.specs.Ordering.{nat_cmp};
ghost use Rattle.std.specs.Cmp.Lexicographic.{slice_cmp};
ghost use Rattle.qls_model.specs.Bytes.{same, is_listed};
ghost use Rattle.qls_model.specs.Limits.{is_kib, is_partition, is_queue_name};
ghost use Rattle.qls_model.specs.Messages.{with_message};
ghost use Rattle.qls_model.specs.Machine.{change_queue, is_empty, put_message, taken, with_queue, without_queue};
ghost use Rattle.qls_filehdr.specs.declared.JournalKind.TheVariants as journal;
ghost use Rattle.qls_site.specs.Content.{Tells};
ghost use Rattle.qls_decide.specs.Entries.{entry_of, state_of, with_entry, without_entry};
ghost use Rattle.qls_meaning.specs.Replay.{decision};
ghost use Rattle.qls_pool.specs.Files.{OnDisk, Carries};
ghost use Rattle.qls_pool.specs.Moments.{EndsIn, Passes};
ghost use Rattle.qls_pool.specs.Serials.{DrawsTaken, TakesNone};
ghost use Rattle.qls_queue.specs.Answers.{is_pending};
ghost use Rattle.qls_queue.specs.Records.{enqueue_of, dequeue_of, end_records, ended_by, IsXid};
ghost use Rattle.qls_prepared.specs.Lists.{rid_of, MayEnd};
ghost use Rattle.qls_prepared.specs.Records.{prepare_records, one_phase_records, decision_of, end_of, end_records as list_ends, without_entries};
ghost use Rattle.qls_journals.specs.State.{queues_of, AreJournals, AreReleased, IsReleased, Fits, IsWhole, IsClean, IsListAlive};
ghost use Rattle.qls_journals.specs.Places.{IsPlace, StandsAt, WouldStandAt};
ghost use Rattle.qls_journals.specs.Homes.{Homes, homes_of, with_home, SameHomes, TakesFromHome};
ghost use Rattle.qls_journals.specs.Moments.{IsStoreStep, Changes, BecomesClean, LeavesDead, StaysWritten};
ghost use Rattle.qls_journals.specs.Ends.{StopsAtEnd, HadRoom, NewQueueStops, HadNewQueue};
ghost use Rattle.qls_journals.specs.Answers.{put_answer, take_answer, is_exact, StoreCauses, SiteCauses};
ghost use Rattle.qls_journals.specs.Deciding.{AreEndedBefore, MayCarryOut, NonePending};

use crate::cause::{Cause, cause_of_log, cause_of_queue, refusal_or_cause};
use crate::place::place_of;
use qls_decide::{End, ListEntry, ListState};
use qls_log::laws::{files_that_stay_stay_written, log_has_its_room};
use qls_model::{Bytes, Message, Name, NoMemory, PoolId, QueueState, Refusal, Seq, Xid};
use qls_pool::Pool;
use qls_prepared::PreparedList;
use qls_queue::LiveQueue;
use qls_site::{Serials, Site};
use std::alloc::Global;
use std::marker::Model;

/// The open journals: the default pool, the pools of empty files, the queues by name, and the prepared list.
///
/// A call on one journal leaves all others as they are. After an error nothing is handed back, and the disk is in one of
/// the call's moments.
#[derive(Drop)]
pub struct Journals {
    pub(crate) alloc: Global,
    pub(crate) home: PoolId,
    pub(crate) pool: Pool,
    /// In order of their names.
    pub(crate) queues: Vec<LiveQueue>,
    pub(crate) list: PreparedList,
}

impl Model for Journals {
    ghost use Rattle.qls_journals.specs.State.{JournalsState, AreJournals};

    ghost Value = { JournalsState };

    ghost view = { λ s. record { home = s.home; pool = s.pool; queues = s.queues.items; list = s.list } };

    ghost invariant = { λ s. AreJournals (record { home = s.home; pool = s.pool; queues = s.queues.items; list = s.list }) };
}

impl Journals {
    /// No queue, and a list without a file, over the pools of a site on which no file is in use. `home` is the pool of the
    /// list and of queues for which none is named; it is within the limits.
    pub fn new(alloc: Global, home: PoolId, pool: Pool) -> Journals
        requires home { (is_partition home.part ≡ true) × (is_kib home.kib ≡ true) }
        ensures journals { result ≡ record { home = home; pool = pool; queues = []; list = record { home = home; log = None; entries = []; held = []; ended = false } } }
        ensures kept { AreJournals result }
    {
        Journals {
            alloc,
            home,
            pool,
            queues: Vec::new(alloc),
            list: PreparedList::new(alloc, home),
        }
    }

    /// The default pool.
    pub fn home(&self) -> PoolId
        ensures exact { result ≡ self.now.home }
    {
        self.home
    }

    /// The place of the queue of this name by name, counted from 0, or the place at which it would stand.
    pub fn place_of(&self, name: &Name) -> Result<usize, usize>
        ensures place { IsPlace self.now.queues name.now result }
        ensures journals { AreJournals self.now }
    {
        place_of(&self.queues, name)
    }

    /// Whether the queue at a place by name has a message.
    pub fn has_message(&self, at: usize) -> bool
        requires place { at < length self.now.queues }
        ensures exact { IfSome (slice_get self.now.queues at) (λ q. result ≡ not (is_empty q.queue.messages)) }
    {
        self.queues[at].message_at(0).is_some()
    }

    /// How many queues there are.
    pub fn queue_count(&self) -> usize
        ensures counted { result ≡ length self.now.queues }
    {
        self.queues.len()
    }

    /// The name of the queue at a place by name, counted from 0.
    pub fn name_at(&self, at: usize) -> &Name
        requires place { at < length self.now.queues }
        ensures exact { IfSome (slice_get self.now.queues at) (λ q. result.now ≡ q.queue.name) }
    {
        self.queues[at].name()
    }

    /// A copy of the queue at a place by name, counted from 0: its name, its last number and its messages in order.
    pub fn queue_at(&self, at: usize) -> Result<QueueState, NoMemory>
        requires place { at < length self.now.queues }
        ensures exact { IfOk result (λ queue. slice_get (queues_of self.now) at ≡ Some queue) }
    {
        let queue = &self.queues[at];
        Ok(QueueState {
            name: *queue.name(),
            last: queue.last(),
            messages: queue.messages()?,
        })
    }

    /// A copy of the messages of the queue at a place by name, in order.
    pub fn messages(&self, at: usize) -> Result<Seq<Message>, NoMemory>
        requires place { at < length self.now.queues }
        ensures exact { IfOk result (λ messages. IfSome (slice_get self.now.queues at) (λ q. messages ≡ q.queue.messages)) }
    {
        self.queues[at].messages()
    }

    /// The xids by which a message of the queue at a place by name is coming or going, in byte order and each once.
    pub fn pending(&self, at: usize) -> Result<Seq<Xid>, NoMemory>
        requires place { at < length self.now.queues }
        ensures in_order { IfOk result (λ xids. IsStrictlySortedBy (slice_cmp nat_cmp) xids) }
        ensures exact { IfOk result (λ xids. IfSome (slice_get self.now.queues at) (λ q. (x : List ℕ) → is_listed x xids ≡ is_pending x q.queue)) }
        ensures xids { IfOk result (λ xids. AllByRecursion IsXid xids) }
    {
        self.queues[at].pending()
    }

    /// A copy of the list's entries, in byte order of xid.
    pub fn entries(&self) -> Result<Seq<ListEntry>, NoMemory>
        ensures exact { IfOk result (λ entries. entries ≡ self.now.list.entries) }
    {
        let mut entries = Seq::new(self.alloc);
        while let Some(entry) = self.list.entry_at(entries.len()) {
            entries.push(ListEntry {
                xid: entry.xid,
                rid: entry.rid,
                state: entry.state,
            })?;
        }
        Ok(entries)
    }

    /// The list's entry at a place in byte order of xid, counted from 0; None exactly where there is none.
    pub fn entry_at(&self, at: usize) -> Option<&ListEntry>
        ensures exact { option_copied result ≡ slice_get self.now.list.entries at }
    {
        self.list.entry_at(at)
    }

    /// The state of a transaction's entry in the list; None exactly where it has none.
    pub fn entry(&self, xid: &Xid) -> Option<ListState>
        ensures exact { result ≡ state_of (entry_of xid.now self.now.list.entries) }
    {
        self.list.entry(xid)
    }

    /// Makes a queue, whose files belong to the pool `home`: its last number is 0 and it has no message.
    ///
    /// No queue has the name, which would stand at the place; the name and the pool are within the limits. Where told, the site
    /// is as the journals' last call left it. Spent where there is no file for it; then no call is made.
    pub fn create<S: Site, N: Serials>(
        mut self,
        site: &mut S,
        serials: &mut N,
        name: Name,
        home: PoolId,
        at: usize,
    ) -> Result<Journals, Cause>
        requires name { IsTrue (is_queue_name name) }
        requires home { (is_partition home.part ≡ true) × (is_kib home.kib ≡ true) }
        requires place { WouldStandAt self.queues name at }
        requires fits { IfSome (S.told site.old) (OnDisk (Fits self)) }
        ensures queues { IfOk result (λ x. queues_of x ≡ with_queue (record { name = name; last = 0; messages = [] }) (queues_of self)) }
        ensures list { IfOk result (λ x. x.list ≡ self.list) }
        ensures kept { IfOk result (λ x. AreJournals (x)) }
        ensures released { IfOk result (λ x. AreReleased self.queues → AreReleased x.queues) }
        ensures told { Tells (EndsIn (λ x. Changes self (x)) (Passes IsStoreStep) result) (S.told site.old) (S.told site.new) }
        ensures alive { IfOk result (λ x. Carries (IsListAlive self) (IsListAlive (x)) (S.told site.old) (S.told site.new)) }
        ensures drawn { DrawsTaken (is_exact result) (S.told site.old) (S.told site.new) (N.drawn serials.old) (N.drawn serials.new) }
        ensures leaves { Tells (LeavesDead self) (S.told site.old) (S.told site.new) }
        ensures writes { Tells (StaysWritten result (λ x. x) self) (S.told site.old) (S.told site.new) }
        ensures homes { IfOk result (λ x. SameHomes (homes_of x) (with_home name (Some home) (homes_of self))) }
        ensures pools { Tells (Passes (TakesFromHome (with_home name (Some home) (homes_of self)))) (S.told site.old) (S.told site.new) }
        ensures had { IfOk result (λ _. Tells (HadNewQueue self home) (S.told site.old) (S.told site.new)) }
        ensures spent { result ≡ Err Cause.Spent → Tells (NewQueueStops self home) (S.told site.old) (S.told site.new) }
        ensures causes { StoreCauses (S.faults site.old) (S.faults site.new) (N.faults serials.old) (N.faults serials.new) result }
    {
        files_that_stay_stay_written();
        self.queues.reserve(1)?;
        let queue = match LiveQueue::create(self.alloc, site, &mut self.pool, serials, name, home) {
            Ok(queue) => queue,
            Err(error) => return Err(cause_of_queue(error)),
        };
        self.queues.insert(at, queue)?;
        Ok(self)
    }

    /// Takes a queue without messages away: its only file goes back to its pool, by one relocation and no write.
    ///
    /// The queue of the name stands at the place and has no message, and its dead files went back. Where told, the site is
    /// as the journals' last call left it. Only Failed and Memory are answered.
    pub fn remove<S: Site>(
        mut self,
        site: &mut S,
        name: &Name,
        at: usize,
    ) -> Result<Journals, Cause>
        requires place { StandsAt self.queues name.now at }
        requires empty { IfSome (slice_get self.queues at) (λ q. q.queue.messages ≡ []) }
        requires one { IfSome (slice_get self.queues at) IsReleased }
        requires fits { IfSome (S.told site.old) (OnDisk (Fits self)) }
        ensures queues { IfOk result (λ x. queues_of x ≡ without_queue name.now (queues_of self)) }
        ensures list { IfOk result (λ x. x.list ≡ self.list) }
        ensures kept { IfOk result (λ x. AreJournals (x)) }
        ensures released { IfOk result (λ x. AreReleased self.queues → AreReleased x.queues) }
        ensures told { Tells (EndsIn (λ x. Changes self (x)) (Passes IsStoreStep) result) (S.told site.old) (S.told site.new) }
        ensures alive { IfOk result (λ x. Carries (IsListAlive self) (IsListAlive (x)) (S.told site.old) (S.told site.new)) }
        ensures none { Tells TakesNone (S.told site.old) (S.told site.new) }
        ensures leaves { Tells (LeavesDead self) (S.told site.old) (S.told site.new) }
        ensures writes { Tells (StaysWritten result (λ x. x) self) (S.told site.old) (S.told site.new) }
        ensures homes { IfOk result (λ x. SameHomes (homes_of x) (with_home name.now None (homes_of self))) }
        ensures pools { (homes : Homes) → Tells (Passes (TakesFromHome homes)) (S.told site.old) (S.told site.new) }
        ensures causes { SiteCauses (S.faults site.old) (S.faults site.new) result }
    {
        files_that_stay_stay_written();
        let queue = self.queues.remove(at);
        match queue.drop_empty(site, &mut self.pool) {
            Ok(()) => Ok(self),
            Err(error) => Err(cause_of_queue(error)),
        }
    }

    /// Puts a message into the queue at the place, by the transaction where there is one, and answers its number. Refused as
    /// spent exactly where the last number is 2^62 - 1; then nothing changes and no call is made.
    ///
    /// The body has at most 1,048,576 bytes and the xid 1 to 128. Where told, the site is as the journals' last call left it.
    pub fn put<S: Site, N: Serials>(
        mut self,
        site: &mut S,
        serials: &mut N,
        at: usize,
        body: Bytes,
        xid: Option<Xid>,
    ) -> Result<(Journals, Result<u64, Refusal>), Cause>
        requires body { length body ≤ 1048576 }
        requires xid { IfSome xid IsXid }
        requires place { at < length self.queues }
        requires fits { IfSome (S.told site.old) (OnDisk (Fits self)) }
        ensures answer { IfOk result (λ x. IfSome (slice_get self.queues at) (λ q. x.1 ≡ put_answer q.queue)) }
        ensures refused { IfOk result (λ x. IfErr x.1 (λ _. (x.0 ≡ self) × (site.new ≡ site.old) × (serials.new ≡ serials.old))) }
        ensures ended { IfErr result (λ _. IfSome (slice_get self.queues at) (λ q. is_err (put_answer q.queue) ≡ false)) }
        ensures still { IfSome (slice_get self.queues at) (λ q. is_err (put_answer q.queue) ≡ true → (site.new ≡ site.old) × (serials.new ≡ serials.old)) }
        ensures queues { IfOk result (λ x. IfOk x.1 (λ number. IfSome (slice_get self.queues at) (λ q. queues_of x.0 ≡ change_queue q.queue.name (with_message (put_message number body xid)) (queues_of self)))) }
        ensures list { IfOk result (λ x. x.0.list ≡ self.list) }
        ensures kept { IfOk result (λ x. AreJournals (x.0)) }
        ensures released { IfOk result (λ x. AreReleased self.queues → AreReleased x.0.queues) }
        ensures told { Tells (EndsIn (λ x. Changes self (x.0)) (Passes IsStoreStep) result) (S.told site.old) (S.told site.new) }
        ensures alive { IfOk result (λ x. Carries (IsListAlive self) (IsListAlive (x.0)) (S.told site.old) (S.told site.new)) }
        ensures drawn { DrawsTaken (is_exact result) (S.told site.old) (S.told site.new) (N.drawn serials.old) (N.drawn serials.new) }
        ensures leaves { Tells (LeavesDead self) (S.told site.old) (S.told site.new) }
        ensures writes { Tells (StaysWritten result (λ x. x.0) self) (S.told site.old) (S.told site.new) }
        ensures homes { IfOk result (λ x. SameHomes (homes_of (x.0)) (homes_of self)) }
        ensures pools { Tells (Passes (TakesFromHome (homes_of self))) (S.told site.old) (S.told site.new) }
        ensures had { IfOk result (λ x. IfOk x.1 (λ _. IfSome (slice_get self.queues at) (λ q. Tells (HadRoom self journal.Queue q.queue.name (enqueue_of (q.queue.last + 1) body xid ∷ [])) (S.told site.old) (S.told site.new)))) }
        ensures spent { result ≡ Err Cause.Spent → IfSome (slice_get self.queues at) (λ q. Tells (StopsAtEnd self journal.Queue q.queue.name (enqueue_of (q.queue.last + 1) body xid ∷ [])) (S.told site.old) (S.told site.new)) }
        ensures causes { StoreCauses (S.faults site.old) (S.faults site.new) (N.faults serials.old) (N.faults serials.new) result }
    {
        files_that_stay_stay_written();
        log_has_its_room();
        match self.queues[at].put(site, &mut self.pool, serials, body, xid) {
            Ok(number) => Ok((self, Ok(number))),
            Err(error) => Ok((self, Err(refusal_or_cause(error)?))),
        }
    }

    /// Takes a message from the queue at the place, by the transaction where there is one. Refused where no message has the
    /// number, and where the message isn't ready; then nothing changes and no call is made.
    ///
    /// The xid has 1 to 128 bytes. Where told, the site is as the journals' last call left it.
    pub fn take<S: Site, N: Serials>(
        mut self,
        site: &mut S,
        serials: &mut N,
        at: usize,
        number: u64,
        xid: Option<Xid>,
    ) -> Result<(Journals, Result<(), Refusal>), Cause>
        requires xid { IfSome xid IsXid }
        requires place { at < length self.queues }
        requires fits { IfSome (S.told site.old) (OnDisk (Fits self)) }
        ensures answer { IfOk result (λ x. IfSome (slice_get self.queues at) (λ q. x.1 ≡ take_answer q.queue number)) }
        ensures refused { IfOk result (λ x. IfErr x.1 (λ _. (x.0 ≡ self) × (site.new ≡ site.old) × (serials.new ≡ serials.old))) }
        ensures ended { IfErr result (λ _. IfSome (slice_get self.queues at) (λ q. is_err (take_answer q.queue number) ≡ false)) }
        ensures still { IfSome (slice_get self.queues at) (λ q. is_err (take_answer q.queue number) ≡ true → (site.new ≡ site.old) × (serials.new ≡ serials.old)) }
        ensures queues { IfOk result (λ x. IfOk x.1 (λ _. IfSome (slice_get self.queues at) (λ q. queues_of x.0 ≡ change_queue q.queue.name (taken number xid) (queues_of self)))) }
        ensures list { IfOk result (λ x. x.0.list ≡ self.list) }
        ensures kept { IfOk result (λ x. AreJournals (x.0)) }
        ensures released { IfOk result (λ x. AreReleased self.queues → AreReleased x.0.queues) }
        ensures told { Tells (EndsIn (λ x. Changes self (x.0)) (Passes IsStoreStep) result) (S.told site.old) (S.told site.new) }
        ensures alive { IfOk result (λ x. Carries (IsListAlive self) (IsListAlive (x.0)) (S.told site.old) (S.told site.new)) }
        ensures drawn { DrawsTaken (is_exact result) (S.told site.old) (S.told site.new) (N.drawn serials.old) (N.drawn serials.new) }
        ensures leaves { Tells (LeavesDead self) (S.told site.old) (S.told site.new) }
        ensures writes { Tells (StaysWritten result (λ x. x.0) self) (S.told site.old) (S.told site.new) }
        ensures homes { IfOk result (λ x. SameHomes (homes_of (x.0)) (homes_of self)) }
        ensures pools { Tells (Passes (TakesFromHome (homes_of self))) (S.told site.old) (S.told site.new) }
        ensures had { IfOk result (λ x. IfOk x.1 (λ _. IfSome (slice_get self.queues at) (λ q. Tells (HadRoom self journal.Queue q.queue.name (dequeue_of q.queue.last number xid ∷ [])) (S.told site.old) (S.told site.new)))) }
        ensures spent { result ≡ Err Cause.Spent → IfSome (slice_get self.queues at) (λ q. Tells (StopsAtEnd self journal.Queue q.queue.name (dequeue_of q.queue.last number xid ∷ [])) (S.told site.old) (S.told site.new)) }
        ensures causes { StoreCauses (S.faults site.old) (S.faults site.new) (N.faults serials.old) (N.faults serials.new) result }
    {
        files_that_stay_stay_written();
        log_has_its_room();
        match self.queues[at].take(site, &mut self.pool, serials, number, xid) {
            Ok(()) => Ok((self, Ok(()))),
            Err(error) => Ok((self, Err(refusal_or_cause(error)?))),
        }
    }

    /// Ends transactions in the queue at the place, in order.
    ///
    /// There is at least one end, and each xid has 1 to 128 bytes. Each end is the one that the list says: a commit where
    /// that is decided there, an abort where it isn't, and none of a transaction in doubt. No queue before the place has a
    /// message that is coming or going by one of them. Where told, the site is as the journals' last call left it.
    pub fn finish<S: Site, N: Serials>(
        mut self,
        site: &mut S,
        serials: &mut N,
        at: usize,
        ends: &Seq<End>,
    ) -> Result<Journals, Cause>
        requires some { 0 < length ends.now }
        requires xids { AllByRecursion (λ e. IsXid e.xid) ends.now }
        requires decided { MayCarryOut self.list.entries ends.now }
        requires order { AreEndedBefore at (queues_of self) ends.now }
        requires place { at < length self.queues }
        requires fits { IfSome (S.told site.old) (OnDisk (Fits self)) }
        ensures queues { IfOk result (λ x. IfSome (slice_get self.queues at) (λ q. queues_of x ≡ change_queue q.queue.name (ended_by ends.now) (queues_of self))) }
        ensures list { IfOk result (λ x. x.list ≡ self.list) }
        ensures kept { IfOk result (λ x. AreJournals (x)) }
        ensures released { IfOk result (λ x. AreReleased self.queues → AreReleased x.queues) }
        ensures told { Tells (EndsIn (λ x. Changes self (x)) (Passes IsStoreStep) result) (S.told site.old) (S.told site.new) }
        ensures alive { IfOk result (λ x. Carries (IsListAlive self) (IsListAlive (x)) (S.told site.old) (S.told site.new)) }
        ensures drawn { DrawsTaken (is_exact result) (S.told site.old) (S.told site.new) (N.drawn serials.old) (N.drawn serials.new) }
        ensures leaves { Tells (LeavesDead self) (S.told site.old) (S.told site.new) }
        ensures writes { Tells (StaysWritten result (λ x. x) self) (S.told site.old) (S.told site.new) }
        ensures homes { IfOk result (λ x. SameHomes (homes_of (x)) (homes_of self)) }
        ensures pools { Tells (Passes (TakesFromHome (homes_of self))) (S.told site.old) (S.told site.new) }
        ensures had { IfOk result (λ _. IfSome (slice_get self.queues at) (λ q. Tells (HadRoom self journal.Queue q.queue.name (end_records q.queue.last ends.now)) (S.told site.old) (S.told site.new))) }
        ensures spent { result ≡ Err Cause.Spent → IfSome (slice_get self.queues at) (λ q. Tells (StopsAtEnd self journal.Queue q.queue.name (end_records q.queue.last ends.now)) (S.told site.old) (S.told site.new)) }
        ensures causes { StoreCauses (S.faults site.old) (S.faults site.new) (N.faults serials.old) (N.faults serials.new) result }
    {
        files_that_stay_stay_written();
        log_has_its_room();
        match self.queues[at].finish(site, &mut self.pool, serials, ends) {
            Ok(()) => Ok(self),
            Err(error) => Err(cause_of_queue(error)),
        }
    }

    /// Enters a transaction in the list as prepared.
    ///
    /// The xid has 1 to 128 bytes and no entry. Where told, the site is as the journals' last call left it. Spent where the
    /// list's record id is 2^62 - 1, and then no call is made, or where there is no further file.
    pub fn prepare<S: Site, N: Serials>(
        mut self,
        site: &mut S,
        serials: &mut N,
        xid: Xid,
    ) -> Result<Journals, Cause>
        requires xid { IsXid xid }
        requires none { entry_of xid self.list.entries ≡ None }
        requires fits { IfSome (S.told site.old) (OnDisk (Fits self)) }
        ensures queues { IfOk result (λ x. x.queues ≡ self.queues) }
        ensures entries { IfOk result (λ x. x.list.entries ≡ with_entry (record { xid = xid; rid = rid_of self.list + 1; state = ListState.Prepared }) self.list.entries) }
        ensures rid { IfOk result (λ x. rid_of x.list ≡ rid_of self.list + 1) }
        ensures kept { IfOk result (λ x. AreJournals (x)) }
        ensures told { Tells (EndsIn (λ x. Changes self (x)) (Passes IsStoreStep) result) (S.told site.old) (S.told site.new) }
        ensures clean { IfOk result (λ x. Tells (BecomesClean self (x)) (S.told site.old) (S.told site.new)) }
        ensures drawn { DrawsTaken (is_exact result) (S.told site.old) (S.told site.new) (N.drawn serials.old) (N.drawn serials.new) }
        ensures leaves { Tells (LeavesDead self) (S.told site.old) (S.told site.new) }
        ensures writes { Tells (StaysWritten result (λ x. x) self) (S.told site.old) (S.told site.new) }
        ensures homes { IfOk result (λ x. SameHomes (homes_of (x)) (homes_of self)) }
        ensures pools { Tells (Passes (TakesFromHome (homes_of self))) (S.told site.old) (S.told site.new) }
        ensures had { IfOk result (λ _. Tells (HadRoom self journal.List [] (prepare_records (rid_of self.list) xid)) (S.told site.old) (S.told site.new)) }
        ensures spent { result ≡ Err Cause.Spent → (rid_of self.list ≡ 2 ^ 62 - 1) ⊎ Tells (StopsAtEnd self journal.List [] (prepare_records (rid_of self.list) xid)) (S.told site.old) (S.told site.new) }
        ensures last { rid_of self.list ≡ 2 ^ 62 - 1 → (result ≡ Err Cause.Spent) × (site.new ≡ site.old) × (serials.new ≡ serials.old) }
        ensures causes { StoreCauses (S.faults site.old) (S.faults site.new) (N.faults serials.old) (N.faults serials.new) result }
    {
        files_that_stay_stay_written();
        log_has_its_room();
        match self.list.prepare(site, &mut self.pool, serials, xid) {
            Ok(()) => Ok(self),
            Err(error) => Err(cause_of_log(error)),
        }
    }

    /// Enters a transaction in the list and decides that it commits, in one batch.
    ///
    /// The xid has 1 to 128 bytes and no entry. Where told, the site is as the journals' last call left it. Spent where the
    /// list's record id is 2^62 - 1, and then no call is made, or where there is no further file.
    pub fn one_phase<S: Site, N: Serials>(
        mut self,
        site: &mut S,
        serials: &mut N,
        xid: Xid,
    ) -> Result<Journals, Cause>
        requires xid { IsXid xid }
        requires none { entry_of xid self.list.entries ≡ None }
        requires fits { IfSome (S.told site.old) (OnDisk (Fits self)) }
        ensures queues { IfOk result (λ x. x.queues ≡ self.queues) }
        ensures entries { IfOk result (λ x. x.list.entries ≡ with_entry (record { xid = xid; rid = rid_of self.list + 1; state = ListState.DecidedCommit }) self.list.entries) }
        ensures rid { IfOk result (λ x. rid_of x.list ≡ rid_of self.list + 1) }
        ensures kept { IfOk result (λ x. AreJournals (x)) }
        ensures told { Tells (EndsIn (λ x. Changes self (x)) (Passes IsStoreStep) result) (S.told site.old) (S.told site.new) }
        ensures drawn { DrawsTaken (is_exact result) (S.told site.old) (S.told site.new) (N.drawn serials.old) (N.drawn serials.new) }
        ensures leaves { Tells (LeavesDead self) (S.told site.old) (S.told site.new) }
        ensures writes { Tells (StaysWritten result (λ x. x) self) (S.told site.old) (S.told site.new) }
        ensures homes { IfOk result (λ x. SameHomes (homes_of (x)) (homes_of self)) }
        ensures pools { Tells (Passes (TakesFromHome (homes_of self))) (S.told site.old) (S.told site.new) }
        ensures had { IfOk result (λ _. Tells (HadRoom self journal.List [] (one_phase_records (rid_of self.list) xid)) (S.told site.old) (S.told site.new)) }
        ensures spent { result ≡ Err Cause.Spent → (rid_of self.list ≡ 2 ^ 62 - 1) ⊎ Tells (StopsAtEnd self journal.List [] (one_phase_records (rid_of self.list) xid)) (S.told site.old) (S.told site.new) }
        ensures last { rid_of self.list ≡ 2 ^ 62 - 1 → (result ≡ Err Cause.Spent) × (site.new ≡ site.old) × (serials.new ≡ serials.old) }
        ensures causes { StoreCauses (S.faults site.old) (S.faults site.new) (N.faults serials.old) (N.faults serials.new) result }
    {
        files_that_stay_stay_written();
        log_has_its_room();
        match self.list.one_phase(site, &mut self.pool, serials, xid) {
            Ok(()) => Ok(self),
            Err(error) => Err(cause_of_log(error)),
        }
    }

    /// Decides a prepared transaction: commit or abort.
    ///
    /// Its entry is prepared. Where told, the site is as the journals' last call left it.
    pub fn decide<S: Site, N: Serials>(
        mut self,
        site: &mut S,
        serials: &mut N,
        xid: Xid,
        commit: bool,
    ) -> Result<Journals, Cause>
        requires prepared { state_of (entry_of xid self.list.entries) ≡ Some ListState.Prepared }
        requires fits { IfSome (S.told site.old) (OnDisk (Fits self)) }
        ensures queues { IfOk result (λ x. x.queues ≡ self.queues) }
        ensures entries { IfOk result (λ x. IfSome (entry_of xid self.list.entries) (λ e. x.list.entries ≡ with_entry (record e { state = decision commit }) self.list.entries)) }
        ensures rid { IfOk result (λ x. rid_of x.list ≡ rid_of self.list) }
        ensures kept { IfOk result (λ x. AreJournals (x)) }
        ensures told { Tells (EndsIn (λ x. Changes self (x)) (Passes IsStoreStep) result) (S.told site.old) (S.told site.new) }
        ensures drawn { DrawsTaken (is_exact result) (S.told site.old) (S.told site.new) (N.drawn serials.old) (N.drawn serials.new) }
        ensures leaves { Tells (LeavesDead self) (S.told site.old) (S.told site.new) }
        ensures writes { Tells (StaysWritten result (λ x. x) self) (S.told site.old) (S.told site.new) }
        ensures homes { IfOk result (λ x. SameHomes (homes_of (x)) (homes_of self)) }
        ensures pools { Tells (Passes (TakesFromHome (homes_of self))) (S.told site.old) (S.told site.new) }
        ensures had { IfOk result (λ _. IfSome (entry_of xid self.list.entries) (λ e. Tells (HadRoom self journal.List [] (decision_of (rid_of self.list) e.rid xid commit ∷ [])) (S.told site.old) (S.told site.new))) }
        ensures spent { result ≡ Err Cause.Spent → IfSome (entry_of xid self.list.entries) (λ e. Tells (StopsAtEnd self journal.List [] (decision_of (rid_of self.list) e.rid xid commit ∷ [])) (S.told site.old) (S.told site.new)) }
        ensures causes { StoreCauses (S.faults site.old) (S.faults site.new) (N.faults serials.old) (N.faults serials.new) result }
    {
        files_that_stay_stay_written();
        log_has_its_room();
        match self.list.decide(site, &mut self.pool, serials, xid, commit) {
            Ok(()) => Ok(self),
            Err(error) => Err(cause_of_log(error)),
        }
    }

    /// Ends transactions, in one batch: their entries go.
    ///
    /// There is at least one, and none twice. The entry of each is decided or of one phase, and in no queue a message is
    /// coming or going by it. Where told, the site is as the journals' last call left it.
    pub fn end_all<S: Site, N: Serials>(
        mut self,
        site: &mut S,
        serials: &mut N,
        xids: &Seq<Xid>,
    ) -> Result<Journals, Cause>
        requires some { 0 < length xids.now }
        requires once { IsDistinct same xids.now }
        requires decided { AllByRecursion (λ x. MayEnd (entry_of x self.list.entries)) xids.now }
        requires done { AllByRecursion (λ x. NonePending x (queues_of self)) xids.now }
        requires fits { IfSome (S.told site.old) (OnDisk (Fits self)) }
        ensures queues { IfOk result (λ x. x.queues ≡ self.queues) }
        ensures entries { IfOk result (λ x. x.list.entries ≡ without_entries xids.now self.list.entries) }
        ensures rid { IfOk result (λ x. rid_of x.list ≡ rid_of self.list) }
        ensures kept { IfOk result (λ x. AreJournals (x)) }
        ensures told { Tells (EndsIn (λ x. Changes self (x)) (Passes IsStoreStep) result) (S.told site.old) (S.told site.new) }
        ensures clean { IfOk result (λ x. Tells (BecomesClean self (x)) (S.told site.old) (S.told site.new)) }
        ensures drawn { DrawsTaken (is_exact result) (S.told site.old) (S.told site.new) (N.drawn serials.old) (N.drawn serials.new) }
        ensures leaves { Tells (LeavesDead self) (S.told site.old) (S.told site.new) }
        ensures writes { Tells (StaysWritten result (λ x. x) self) (S.told site.old) (S.told site.new) }
        ensures homes { IfOk result (λ x. SameHomes (homes_of (x)) (homes_of self)) }
        ensures pools { Tells (Passes (TakesFromHome (homes_of self))) (S.told site.old) (S.told site.new) }
        ensures had { IfOk result (λ _. Tells (HadRoom self journal.List [] (list_ends (rid_of self.list) xids.now)) (S.told site.old) (S.told site.new)) }
        ensures spent { result ≡ Err Cause.Spent → Tells (StopsAtEnd self journal.List [] (list_ends (rid_of self.list) xids.now)) (S.told site.old) (S.told site.new) }
        ensures causes { StoreCauses (S.faults site.old) (S.faults site.new) (N.faults serials.old) (N.faults serials.new) result }
    {
        files_that_stay_stay_written();
        log_has_its_room();
        match self.list.end(site, &mut self.pool, serials, xids) {
            Ok(()) => Ok(self),
            Err(error) => Err(cause_of_log(error)),
        }
    }

    /// Ends a transaction: its entry goes.
    ///
    /// Its entry is decided or of one phase, and in no queue a message is coming or going by it. Where told, the site is as the
    /// journals' last call left it.
    pub fn end<S: Site, N: Serials>(
        self,
        site: &mut S,
        serials: &mut N,
        xid: Xid,
    ) -> Result<Journals, Cause>
        requires decided { MayEnd (entry_of xid self.list.entries) }
        requires done { NonePending xid (queues_of self) }
        requires fits { IfSome (S.told site.old) (OnDisk (Fits self)) }
        ensures queues { IfOk result (λ x. x.queues ≡ self.queues) }
        ensures entries { IfOk result (λ x. x.list.entries ≡ without_entry xid self.list.entries) }
        ensures rid { IfOk result (λ x. rid_of x.list ≡ rid_of self.list) }
        ensures kept { IfOk result (λ x. AreJournals (x)) }
        ensures told { Tells (EndsIn (λ x. Changes self (x)) (Passes IsStoreStep) result) (S.told site.old) (S.told site.new) }
        ensures clean { IfOk result (λ x. Tells (BecomesClean self (x)) (S.told site.old) (S.told site.new)) }
        ensures drawn { DrawsTaken (is_exact result) (S.told site.old) (S.told site.new) (N.drawn serials.old) (N.drawn serials.new) }
        ensures leaves { Tells (LeavesDead self) (S.told site.old) (S.told site.new) }
        ensures writes { Tells (StaysWritten result (λ x. x) self) (S.told site.old) (S.told site.new) }
        ensures homes { IfOk result (λ x. SameHomes (homes_of (x)) (homes_of self)) }
        ensures pools { Tells (Passes (TakesFromHome (homes_of self))) (S.told site.old) (S.told site.new) }
        ensures had { IfOk result (λ _. Tells (HadRoom self journal.List [] (end_of (rid_of self.list) xid ∷ [])) (S.told site.old) (S.told site.new)) }
        ensures spent { result ≡ Err Cause.Spent → Tells (StopsAtEnd self journal.List [] (end_of (rid_of self.list) xid ∷ [])) (S.told site.old) (S.told site.new) }
        ensures causes { StoreCauses (S.faults site.old) (S.faults site.new) (N.faults serials.old) (N.faults serials.new) result }
    {
        let mut xids = Seq::new(self.alloc);
        xids.push(xid)?;
        self.end_all(site, serials, &xids)
    }
}
