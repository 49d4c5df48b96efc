// The prepared list held live.
ghost use Rattle.std.specs.Prelude.{◌≡◌, ◌⊎◌, ℕ, ◌<◌, ◌-◌, ◌+◌, ◌^◌, not, List, [], ◌∷◌, map, None, Some, Err, IfOk, IfErr, IfSome, length, slice_get, option_map, option_copied, is_err, true, false};
ghost use Rattle.std.specs.List.{AllByRecursion, IsDistinct, filter};
ghost use Rattle.qls_model.specs.Bytes.{same};
ghost use Rattle.qls_model.specs.Limits.{is_kib, is_partition};
ghost use Rattle.qls_site.specs.Content.{Tells};
ghost use Rattle.qls_site.specs.Disk.{Disk, IsQuiet};
ghost use Rattle.qls_record.specs.Record.{is_filler};
ghost use Rattle.qls_decide.specs.Entries.{entry_of, state_of, with_entry};
ghost use Rattle.qls_meaning.specs.Reading.{Read, read_of};
ghost use Rattle.qls_meaning.specs.Replay.{decision};
ghost use Rattle.qls_reading.specs.ReadLogs.{AreGiven, rid_behind};
ghost use Rattle.qls_pool.specs.Files.{IsWholePool, OnDisk, Carries};
ghost use Rattle.qls_pool.specs.Moments.{Passes};
ghost use Rattle.qls_pool.specs.Serials.{DrawsTaken, TakesNone};
ghost use Rattle.qls_log.specs.Faults.{LogCauses, SiteCauses, Counts};
ghost use Rattle.qls_log.specs.Leaving.{NoneLeaves};
ghost use Rattle.qls_log.specs.Reads.{IsRead};
ghost use Rattle.qls_log.specs.Soundness.{IsUndamaged};
ghost use Rattle.qls_log.specs.Steps.{IsLogStep, GoesBy, is_exact};
ghost use Rattle.qls_prepared.specs.Lists.{opening_by, opened, rid_of, rid_of_log, IsXid, IsOwn, IsSound, MayEnd, ListThere, IsListWhole, StaysStill, StaysWhole, BecomesClean};
ghost use Rattle.qls_prepared.specs.Records.{prepare_records, one_phase_records, entry_records, entered_state, decision_of, end_records, without_entries};
ghost use Rattle.qls_prepared.specs.Moments.{LeavesDead, StaysWritten};
ghost use Rattle.qls_prepared.specs.Ends.{Stops, IsAtEnd, KeepsFit};
ghost use Rattle.qls_enqmap.specs.Records.{least_file};
ghost use Rattle.qls_prepared.specs.Releasing.{file_or};
ghost use Rattle.qls_prepared.specs.Writing.{syncs_by};

use crate::enter::{end_each, entered_state, entry_batch};
use crate::entries::Entries;
use crate::records::{decision_batch, end_batch};
use crate::write::write;
use qls_decide::{ListEntry, ListState};
use qls_log::{Log, LogError};
use qls_model::{PoolId, Seq, Xid};
use qls_pool::Pool;
use qls_record::Got;
use qls_site::{Serials, Site};
use std::alloc::Global;
use std::marker::Model;

/// The greatest record id.
const LAST_RID: u64 = (1 << 62) - 1;

/// The prepared list, held live over its log: what its journal's records make is its entries, before and after each call.
///
/// Between calls all that was written is flushed. A call that writes and answers an error ends the list: the disk is in
/// one of that call's moments then, and no other call may follow.
#[derive(Drop)]
pub struct PreparedList {
    alloc: Global,
    /// The pool from which the list's first file is taken.
    home: PoolId,
    /// None before the first entry.
    log: Option<Log>,
    entries: Entries,
    ended: bool,
}

impl Model for PreparedList {
    ghost use Rattle.std.specs.Prelude.{◌≡◌, false};
    ghost use Rattle.qls_prepared.specs.Lists.{PreparedState, IsSound};

    ghost Value = { PreparedState };

    ghost view = { λ p. record { home = p.home; log = p.log; entries = p.entries.entries; held = p.entries.held; ended = p.ended } };

    ghost invariant = { λ p. p.ended ≡ false → IsSound (record { home = p.home; log = p.log; entries = p.entries.entries; held = p.entries.held; ended = p.ended }) };
}

/// The least file in which the enqueue of an entry starts, and the newest where there is no entry.
fn first_needed(entries: &Entries, newest: u64) -> u64
    ensures exact { result ≡ file_or newest (least_file entries.now.held) }
{
    entries.first_file().unwrap_or(newest)
}

impl PreparedList {
    /// A list without a file and without an entry, whose files will belong to the pool `home`, which is within the
    /// limits. The site has no file of the list in use.
    pub fn new(alloc: Global, home: PoolId) -> PreparedList
        requires home { (is_partition home.part ≡ true) × (is_kib home.kib ≡ true) }
        ensures list { result ≡ record { home = home; log = None; entries = []; held = []; ended = false } }
        ensures sound { IsSound result }
    {
        PreparedList {
            alloc,
            home,
            log: None,
            entries: Entries::new(alloc),
            ended: false,
        }
    }

    /// Opens the list over its journal, which was read whole: these are its records without the fillers, oldest first. What
    /// they leave are its entries. Where the log reads these records on a disk and breaks no damage rule there, the journal
    /// says the list. Without a log there is no record, and the list's first file will be taken from the pool `home`; the
    /// files of a log stay in their own pool.
    ///
    /// The pool is within the limits. The log is the list's, isn't ended and has nothing pending; the records' rids follow
    /// from each other up to the log's. Only Memory is answered.
    pub fn open(
        alloc: Global,
        log: Option<Log>,
        reads: &Seq<Got>,
        home: PoolId,
    ) -> Result<PreparedList, LogError>
        requires home { (is_partition home.part ≡ true) × (is_kib home.kib ≡ true) }
        requires own { IsOwn log }
        requires none { log ≡ None → reads.now ≡ [] }
        requires given { (first : ℕ) × AreGiven first reads.now × (rid_of_log log ≡ rid_behind first reads.now) }
        ensures list { IfOk result (λ p. p ≡ opened home log (map read_of reads.now)) }
        ensures sound { IfOk result IsSound }
        ensures only { IfErr result (λ e. e ≡ LogError.Memory) }
        ensures whole { IfOk result (λ p. IfSome log (λ l. (d : Disk) → (kept : List Read) → IsRead l kept d → IsUndamaged l d → filter (λ r. not (is_filler r.what.kind)) kept ≡ map read_of reads.now → IsListWhole p d)) }
    {
        let mut entries = Entries::new(alloc);
        for got in reads.as_slice() {
            entries.apply(got)?;
        }
        Ok(PreparedList {
            alloc,
            home,
            log,
            entries,
            ended: false,
        })
    }

    /// Enters a transaction as prepared: its entry has the record id in force and one more. It appends one enqueue, flushes
    /// it, and then holds the entry; files that are dead then go back to their pool, oldest first. The list's first file is
    /// taken where it has none.
    ///
    /// The transaction has no entry, and its xid has 1 to 128 bytes. The list isn't ended; where told, the site has its
    /// journal as its last call left it, and the pool is the site's, with no file out. Spent where the record id in force is
    /// 2^62 - 1, and then no call is made, or where there is no further file. After an error the list is ended.
    pub fn prepare<S: Site, N: Serials>(
        &mut self,
        site: &mut S,
        pool: &mut Pool,
        serials: &mut N,
        xid: Xid,
    ) -> Result<(), LogError>
        requires unended { self.old.ended ≡ false }
        requires xid { IsXid xid }
        requires none { entry_of xid self.old.entries ≡ None }
        requires there { IfSome (S.told site.old) (OnDisk (ListThere self.old)) }
        requires pool { IfSome (S.told site.old) (OnDisk (IsWholePool pool.old)) }
        ensures ended { self.new.ended ≡ is_err result }
        ensures home { self.new.home ≡ self.old.home }
        ensures opening { IfOk result (λ _. opening_by self.new.home self.new.log ≡ opening_by self.old.home self.old.log) }
        ensures entries { IfOk result (λ _. self.new.entries ≡ with_entry (record { xid = xid; rid = rid_of self.old + 1; state = ListState.Prepared }) self.old.entries) }
        ensures rid { IfOk result (λ _. rid_of self.new ≡ rid_of self.old + 1) }
        ensures sound { IfOk result (λ _. IsSound self.new) }
        ensures there { IfOk result (λ _. IfSome (S.told site.new) (OnDisk (ListThere self.new))) }
        ensures pool { IfOk result (λ _. IfSome (S.told site.new) (OnDisk (IsWholePool pool.new))) }
        ensures limit { pool.old.greatest < 2 ^ 62 → pool.new.greatest < 2 ^ 62 }
        ensures fit { IfOk result (λ _. Tells (KeepsFit pool.old pool.new) (S.told site.old) (S.told site.new)) }
        ensures clean { IfOk result (λ _. Tells (BecomesClean self.old self.new) (S.told site.old) (S.told site.new)) }
        ensures quiet { IfOk result (λ _. Carries IsQuiet IsQuiet (S.told site.old) (S.told site.new)) }
        ensures went { Tells (GoesBy (IsLogStep (opening_by self.old.home self.old.log)) result) (S.told site.old) (S.told site.new) }
        ensures drew { DrawsTaken (is_exact result) (S.told site.old) (S.told site.new) (N.drawn serials.old) (N.drawn serials.new) }
        ensures leaves { Tells (LeavesDead self.old) (S.told site.old) (S.told site.new) }
        ensures writes { Tells (StaysWritten result self.old self.new) (S.told site.old) (S.told site.new) }
        ensures spent { result ≡ Err LogError.Spent → (rid_of self.old ≡ 2 ^ 62 - 1) ⊎ Tells (Stops self.old (prepare_records (rid_of self.old) xid)) (S.told site.old) (S.told site.new) }
        ensures last { rid_of self.old ≡ 2 ^ 62 - 1 → (result ≡ Err LogError.Spent) × (site.new ≡ site.old) × (pool.new ≡ pool.old) × (serials.new ≡ serials.old) }
        ensures at_end { rid_of self.old < 2 ^ 62 - 1 → IsAtEnd self.old (prepare_records (rid_of self.old) xid) pool.old → (result ≡ Err LogError.Spent) ⊎ (result ≡ Err LogError.Memory) }
        ensures cause { LogCauses (S.faults site.old) (S.faults site.new) (N.faults serials.old) (N.faults serials.new) result }
        ensures syncs { Counts (S.told site.old) result (syncs_by self.old (prepare_records (rid_of self.old) xid)) (S.syncs site.old) (S.syncs site.new) }
        ensures reads { S.reads site.new ≡ S.reads site.old }
    {
        self.enter(site, pool, serials, xid, false)?;
        self.release(site, pool)
    }

    /// Enters a transaction and decides that it commits, in one batch of an enqueue and a dequeue, which lie together in one
    /// sector. Its entry has the record id in force and one more. No file goes back.
    ///
    /// The conditions and the errors are those of [`PreparedList::prepare`].
    pub fn one_phase<S: Site, N: Serials>(
        &mut self,
        site: &mut S,
        pool: &mut Pool,
        serials: &mut N,
        xid: Xid,
    ) -> Result<(), LogError>
        requires unended { self.old.ended ≡ false }
        requires xid { IsXid xid }
        requires none { entry_of xid self.old.entries ≡ None }
        requires there { IfSome (S.told site.old) (OnDisk (ListThere self.old)) }
        requires pool { IfSome (S.told site.old) (OnDisk (IsWholePool pool.old)) }
        ensures ended { self.new.ended ≡ is_err result }
        ensures home { self.new.home ≡ self.old.home }
        ensures opening { IfOk result (λ _. opening_by self.new.home self.new.log ≡ opening_by self.old.home self.old.log) }
        ensures entries { IfOk result (λ _. self.new.entries ≡ with_entry (record { xid = xid; rid = rid_of self.old + 1; state = ListState.DecidedCommit }) self.old.entries) }
        ensures rid { IfOk result (λ _. rid_of self.new ≡ rid_of self.old + 1) }
        ensures sound { IfOk result (λ _. IsSound self.new) }
        ensures there { IfOk result (λ _. IfSome (S.told site.new) (OnDisk (ListThere self.new))) }
        ensures pool { IfOk result (λ _. IfSome (S.told site.new) (OnDisk (IsWholePool pool.new))) }
        ensures limit { pool.old.greatest < 2 ^ 62 → pool.new.greatest < 2 ^ 62 }
        ensures fit { IfOk result (λ _. Tells (KeepsFit pool.old pool.new) (S.told site.old) (S.told site.new)) }
        ensures whole { IfOk result (λ _. Tells (StaysWhole self.old self.new) (S.told site.old) (S.told site.new)) }
        ensures quiet { IfOk result (λ _. Carries IsQuiet IsQuiet (S.told site.old) (S.told site.new)) }
        ensures went { Tells (GoesBy (IsLogStep (opening_by self.old.home self.old.log)) result) (S.told site.old) (S.told site.new) }
        ensures drew { DrawsTaken (is_exact result) (S.told site.old) (S.told site.new) (N.drawn serials.old) (N.drawn serials.new) }
        ensures stays { Tells (Passes NoneLeaves) (S.told site.old) (S.told site.new) }
        ensures writes { Tells (StaysWritten result self.old self.new) (S.told site.old) (S.told site.new) }
        ensures spent { result ≡ Err LogError.Spent → (rid_of self.old ≡ 2 ^ 62 - 1) ⊎ Tells (Stops self.old (one_phase_records (rid_of self.old) xid)) (S.told site.old) (S.told site.new) }
        ensures last { rid_of self.old ≡ 2 ^ 62 - 1 → (result ≡ Err LogError.Spent) × (site.new ≡ site.old) × (pool.new ≡ pool.old) × (serials.new ≡ serials.old) }
        ensures at_end { rid_of self.old < 2 ^ 62 - 1 → IsAtEnd self.old (one_phase_records (rid_of self.old) xid) pool.old → (result ≡ Err LogError.Spent) ⊎ (result ≡ Err LogError.Memory) }
        ensures cause { LogCauses (S.faults site.old) (S.faults site.new) (N.faults serials.old) (N.faults serials.new) result }
        ensures syncs { Counts (S.told site.old) result (syncs_by self.old (one_phase_records (rid_of self.old) xid)) (S.syncs site.old) (S.syncs site.new) }
        ensures reads { S.reads site.new ≡ S.reads site.old }
    {
        self.enter(site, pool, serials, xid, true)
    }

    /// Decides a prepared transaction: commit or abort. It appends one dequeue and flushes it. No file goes back.
    ///
    /// The transaction's entry is prepared. The list isn't ended; where told, the site has its journal as its last call left
    /// it, and the pool is the site's, with no file out. Spent where there is no further file. After an error the list is
    /// ended.
    pub fn decide<S: Site, N: Serials>(
        &mut self,
        site: &mut S,
        pool: &mut Pool,
        serials: &mut N,
        xid: Xid,
        commit: bool,
    ) -> Result<(), LogError>
        requires unended { self.old.ended ≡ false }
        requires prepared { state_of (entry_of xid self.old.entries) ≡ Some ListState.Prepared }
        requires there { IfSome (S.told site.old) (OnDisk (ListThere self.old)) }
        requires pool { IfSome (S.told site.old) (OnDisk (IsWholePool pool.old)) }
        ensures ended { self.new.ended ≡ is_err result }
        ensures home { self.new.home ≡ self.old.home }
        ensures opening { IfOk result (λ _. opening_by self.new.home self.new.log ≡ opening_by self.old.home self.old.log) }
        ensures entries { IfOk result (λ _. IfSome (entry_of xid self.old.entries) (λ e. self.new.entries ≡ with_entry (record e { state = decision commit }) self.old.entries)) }
        ensures rid { IfOk result (λ _. rid_of self.new ≡ rid_of self.old) }
        ensures sound { IfOk result (λ _. IsSound self.new) }
        ensures there { IfOk result (λ _. IfSome (S.told site.new) (OnDisk (ListThere self.new))) }
        ensures pool { IfOk result (λ _. IfSome (S.told site.new) (OnDisk (IsWholePool pool.new))) }
        ensures limit { pool.old.greatest < 2 ^ 62 → pool.new.greatest < 2 ^ 62 }
        ensures fit { IfOk result (λ _. Tells (KeepsFit pool.old pool.new) (S.told site.old) (S.told site.new)) }
        ensures whole { IfOk result (λ _. Tells (StaysWhole self.old self.new) (S.told site.old) (S.told site.new)) }
        ensures quiet { IfOk result (λ _. Carries IsQuiet IsQuiet (S.told site.old) (S.told site.new)) }
        ensures went { Tells (GoesBy (IsLogStep (opening_by self.old.home self.old.log)) result) (S.told site.old) (S.told site.new) }
        ensures drew { DrawsTaken (is_exact result) (S.told site.old) (S.told site.new) (N.drawn serials.old) (N.drawn serials.new) }
        ensures stays { Tells (Passes NoneLeaves) (S.told site.old) (S.told site.new) }
        ensures writes { Tells (StaysWritten result self.old self.new) (S.told site.old) (S.told site.new) }
        ensures spent { result ≡ Err LogError.Spent → IfSome (entry_of xid self.old.entries) (λ e. Tells (Stops self.old (decision_of (rid_of self.old) e.rid xid commit ∷ [])) (S.told site.old) (S.told site.new)) }
        ensures at_end { IfSome (entry_of xid self.old.entries) (λ e. IsAtEnd self.old (decision_of (rid_of self.old) e.rid xid commit ∷ []) pool.old) → (result ≡ Err LogError.Spent) ⊎ (result ≡ Err LogError.Memory) }
        ensures cause { LogCauses (S.faults site.old) (S.faults site.new) (N.faults serials.old) (N.faults serials.new) result }
        ensures syncs { IfSome (entry_of xid self.old.entries) (λ e. Counts (S.told site.old) result (syncs_by self.old (decision_of (rid_of self.old) e.rid xid commit ∷ [])) (S.syncs site.old) (S.syncs site.new)) }
        ensures reads { S.reads site.new ≡ S.reads site.old }
    {
        let target = self.entries.get(&xid).unwrap().rid;
        let rid = self.rid();
        self.ended = true;
        let batch = decision_batch(self.alloc, rid, target, xid, commit)?;
        let log = &mut self.log;
        let _spot = write(self.alloc, self.home, log, site, pool, serials, &batch)?;
        self.entries.decide(&xid, commit);
        self.ended = false;
        Ok(())
    }

    /// Ends transactions: their entries go. It appends one batch with a commit record for each, flushes it, and then lets the
    /// entries go; files that are dead then go back to their pool, oldest first.
    ///
    /// There is at least one xid, none stands twice, and each has an entry that is decided or of one phase. The other
    /// conditions and the errors are those of [`PreparedList::decide`].
    pub fn end<S: Site, N: Serials>(
        &mut self,
        site: &mut S,
        pool: &mut Pool,
        serials: &mut N,
        xids: &Seq<Xid>,
    ) -> Result<(), LogError>
        requires unended { self.old.ended ≡ false }
        requires some { 0 < length xids.now }
        requires once { IsDistinct same xids.now }
        requires decided { AllByRecursion (λ x. MayEnd (entry_of x self.old.entries)) xids.now }
        requires there { IfSome (S.told site.old) (OnDisk (ListThere self.old)) }
        requires pool { IfSome (S.told site.old) (OnDisk (IsWholePool pool.old)) }
        ensures ended { self.new.ended ≡ is_err result }
        ensures home { self.new.home ≡ self.old.home }
        ensures opening { IfOk result (λ _. opening_by self.new.home self.new.log ≡ opening_by self.old.home self.old.log) }
        ensures entries { IfOk result (λ _. self.new.entries ≡ without_entries xids.now self.old.entries) }
        ensures rid { IfOk result (λ _. rid_of self.new ≡ rid_of self.old) }
        ensures sound { IfOk result (λ _. IsSound self.new) }
        ensures there { IfOk result (λ _. IfSome (S.told site.new) (OnDisk (ListThere self.new))) }
        ensures pool { IfOk result (λ _. IfSome (S.told site.new) (OnDisk (IsWholePool pool.new))) }
        ensures limit { pool.old.greatest < 2 ^ 62 → pool.new.greatest < 2 ^ 62 }
        ensures fit { IfOk result (λ _. Tells (KeepsFit pool.old pool.new) (S.told site.old) (S.told site.new)) }
        ensures clean { IfOk result (λ _. Tells (BecomesClean self.old self.new) (S.told site.old) (S.told site.new)) }
        ensures quiet { IfOk result (λ _. Carries IsQuiet IsQuiet (S.told site.old) (S.told site.new)) }
        ensures went { Tells (GoesBy (IsLogStep (opening_by self.old.home self.old.log)) result) (S.told site.old) (S.told site.new) }
        ensures drew { DrawsTaken (is_exact result) (S.told site.old) (S.told site.new) (N.drawn serials.old) (N.drawn serials.new) }
        ensures leaves { Tells (LeavesDead self.old) (S.told site.old) (S.told site.new) }
        ensures writes { Tells (StaysWritten result self.old self.new) (S.told site.old) (S.told site.new) }
        ensures spent { result ≡ Err LogError.Spent → Tells (Stops self.old (end_records (rid_of self.old) xids.now)) (S.told site.old) (S.told site.new) }
        ensures at_end { IsAtEnd self.old (end_records (rid_of self.old) xids.now) pool.old → (result ≡ Err LogError.Spent) ⊎ (result ≡ Err LogError.Memory) }
        ensures cause { LogCauses (S.faults site.old) (S.faults site.new) (N.faults serials.old) (N.faults serials.new) result }
        ensures syncs { Counts (S.told site.old) result (syncs_by self.old (end_records (rid_of self.old) xids.now)) (S.syncs site.old) (S.syncs site.new) }
        ensures reads { S.reads site.new ≡ S.reads site.old }
    {
        self.write_ends(site, pool, serials, xids.as_slice())?;
        self.release(site, pool)
    }

    /// Gives the oldest files that no entry holds any more back to their pool, oldest first, and never the newest: one
    /// relocation each, and nothing is written. Where none died it takes the same time however many entries there are. The
    /// entries stay, and so does what the journal says.
    ///
    /// The list isn't ended; where told, the site has its journal as its last call left it, and the pool is the site's, with
    /// no file out. Only Failed and Memory are answered; then the list is ended.
    pub fn release<S: Site>(&mut self, site: &mut S, pool: &mut Pool) -> Result<(), LogError>
        requires unended { self.old.ended ≡ false }
        requires there { IfSome (S.told site.old) (OnDisk (ListThere self.old)) }
        requires pool { IfSome (S.told site.old) (OnDisk (IsWholePool pool.old)) }
        ensures ended { self.new.ended ≡ is_err result }
        ensures only { IfErr result (λ e. (e ≡ LogError.Failed) ⊎ (e ≡ LogError.Memory)) }
        ensures home { self.new.home ≡ self.old.home }
        ensures opening { IfOk result (λ _. opening_by self.new.home self.new.log ≡ opening_by self.old.home self.old.log) }
        ensures entries { IfOk result (λ _. self.new.entries ≡ self.old.entries) }
        ensures rid { IfOk result (λ _. rid_of self.new ≡ rid_of self.old) }
        ensures sound { IfOk result (λ _. IsSound self.new) }
        ensures there { IfOk result (λ _. IfSome (S.told site.new) (OnDisk (ListThere self.new))) }
        ensures pool { IfOk result (λ _. IfSome (S.told site.new) (OnDisk (IsWholePool pool.new))) }
        ensures limit { pool.old.greatest < 2 ^ 62 → pool.new.greatest < 2 ^ 62 }
        ensures fit { IfOk result (λ _. Tells (KeepsFit pool.old pool.new) (S.told site.old) (S.told site.new)) }
        ensures clean { IfOk result (λ _. Tells (BecomesClean self.old self.new) (S.told site.old) (S.told site.new)) }
        ensures still { IfOk result (λ _. Tells (StaysStill self.old) (S.told site.old) (S.told site.new)) }
        ensures quiet { IfOk result (λ _. Carries IsQuiet IsQuiet (S.told site.old) (S.told site.new)) }
        ensures went { Tells (GoesBy (IsLogStep (opening_by self.old.home self.old.log)) result) (S.told site.old) (S.told site.new) }
        ensures leaves { Tells (LeavesDead self.old) (S.told site.old) (S.told site.new) }
        ensures writes { Tells (StaysWritten result self.old self.new) (S.told site.old) (S.told site.new) }
        ensures none { Tells TakesNone (S.told site.old) (S.told site.new) }
        ensures cause { SiteCauses (S.faults site.old) (S.faults site.new) result }
        ensures syncs { S.syncs site.new ≡ S.syncs site.old }
        ensures reads { S.reads site.new ≡ S.reads site.old }
    {
        let Some(log) = &mut self.log else {
            return Ok(());
        };
        let number = first_needed(&self.entries, log.newest());
        self.ended = true;
        log.release_before(site, pool, number)?;
        self.ended = false;
        Ok(())
    }

    /// The entry at a place in byte order of xid, counted from 0; None exactly where there is none.
    pub fn entry_at(&self, at: usize) -> Option<&ListEntry>
        requires unended { self.now.ended ≡ false }
        ensures exact { option_copied result ≡ slice_get self.now.entries at }
    {
        self.entries.at(at)
    }

    /// The state of a transaction's entry; None exactly where it has none.
    pub fn entry(&self, xid: &Xid) -> Option<ListState>
        requires unended { self.now.ended ≡ false }
        ensures exact { result ≡ state_of (entry_of xid.now self.now.entries) }
    {
        Some(self.entries.get(xid)?.state)
    }

    /// Whether the list is ended: a call on it that may write answered an error. No other call may follow then.
    pub fn is_ended(&self) -> bool
        ensures exact { result ≡ self.now.ended }
    {
        self.ended
    }

    /// The record id in force.
    fn rid(&self) -> u64
        requires unended { self.now.ended ≡ false }
        ensures exact { result ≡ rid_of self.now }
    {
        match &self.log {
            Some(log) => log.rid(),
            None => 0,
        }
    }

    /// Enters a transaction: as prepared, or as decided to commit in one phase.
    fn enter<S: Site, N: Serials>(
        &mut self,
        site: &mut S,
        pool: &mut Pool,
        serials: &mut N,
        xid: Xid,
        one_phase: bool,
    ) -> Result<(), LogError>
        requires unended { self.old.ended ≡ false }
        requires xid { IsXid xid }
        requires none { entry_of xid self.old.entries ≡ None }
        requires there { IfSome (S.told site.old) (OnDisk (ListThere self.old)) }
        requires pool { IfSome (S.told site.old) (OnDisk (IsWholePool pool.old)) }
        ensures ended { self.new.ended ≡ is_err result }
        ensures home { self.new.home ≡ self.old.home }
        ensures opening { IfOk result (λ _. opening_by self.new.home self.new.log ≡ opening_by self.old.home self.old.log) }
        ensures entries { IfOk result (λ _. self.new.entries ≡ with_entry (record { xid = xid; rid = rid_of self.old + 1; state = entered_state one_phase }) self.old.entries) }
        ensures rid { IfOk result (λ _. rid_of self.new ≡ rid_of self.old + 1) }
        ensures sound { IfOk result (λ _. IsSound self.new) }
        ensures there { IfOk result (λ _. IfSome (S.told site.new) (OnDisk (ListThere self.new))) }
        ensures pool { IfOk result (λ _. IfSome (S.told site.new) (OnDisk (IsWholePool pool.new))) }
        ensures limit { pool.old.greatest < 2 ^ 62 → pool.new.greatest < 2 ^ 62 }
        ensures fit { IfOk result (λ _. Tells (KeepsFit pool.old pool.new) (S.told site.old) (S.told site.new)) }
        ensures whole { IfOk result (λ _. Tells (StaysWhole self.old self.new) (S.told site.old) (S.told site.new)) }
        ensures quiet { IfOk result (λ _. Carries IsQuiet IsQuiet (S.told site.old) (S.told site.new)) }
        ensures went { Tells (GoesBy (IsLogStep (opening_by self.old.home self.old.log)) result) (S.told site.old) (S.told site.new) }
        ensures drew { DrawsTaken (is_exact result) (S.told site.old) (S.told site.new) (N.drawn serials.old) (N.drawn serials.new) }
        ensures stays { Tells (Passes NoneLeaves) (S.told site.old) (S.told site.new) }
        ensures writes { Tells (StaysWritten result self.old self.new) (S.told site.old) (S.told site.new) }
        ensures spent { result ≡ Err LogError.Spent → (rid_of self.old ≡ 2 ^ 62 - 1) ⊎ Tells (Stops self.old (entry_records (rid_of self.old) xid one_phase)) (S.told site.old) (S.told site.new) }
        ensures last { rid_of self.old ≡ 2 ^ 62 - 1 → (result ≡ Err LogError.Spent) × (site.new ≡ site.old) × (pool.new ≡ pool.old) × (serials.new ≡ serials.old) }
        ensures at_end { rid_of self.old < 2 ^ 62 - 1 → IsAtEnd self.old (entry_records (rid_of self.old) xid one_phase) pool.old → (result ≡ Err LogError.Spent) ⊎ (result ≡ Err LogError.Memory) }
        ensures cause { LogCauses (S.faults site.old) (S.faults site.new) (N.faults serials.old) (N.faults serials.new) result }
        ensures syncs { Counts (S.told site.old) result (syncs_by self.old (entry_records (rid_of self.old) xid one_phase)) (S.syncs site.old) (S.syncs site.new) }
        ensures reads { S.reads site.new ≡ S.reads site.old }
    {
        let rid = self.rid();
        self.ended = true;
        if rid == LAST_RID {
            return Err(LogError::Spent);
        }
        let batch = entry_batch(self.alloc, rid, xid, one_phase)?;
        let log = &mut self.log;
        let spot = write(self.alloc, self.home, log, site, pool, serials, &batch)?;
        let state = entered_state(one_phase);
        self.entries.add(
            ListEntry {
                xid,
                rid: rid + 1,
                state,
            },
            spot,
        )?;
        self.ended = false;
        Ok(())
    }

    /// Writes the ends of transactions as one batch, and lets their entries go.
    fn write_ends<S: Site, N: Serials>(
        &mut self,
        site: &mut S,
        pool: &mut Pool,
        serials: &mut N,
        xids: &[Xid],
    ) -> Result<(), LogError>
        requires unended { self.old.ended ≡ false }
        requires some { 0 < length xids.now }
        requires decided { AllByRecursion (λ x. MayEnd (entry_of x self.old.entries)) xids.now }
        requires there { IfSome (S.told site.old) (OnDisk (ListThere self.old)) }
        requires pool { IfSome (S.told site.old) (OnDisk (IsWholePool pool.old)) }
        ensures ended { self.new.ended ≡ is_err result }
        ensures home { self.new.home ≡ self.old.home }
        ensures opening { IfOk result (λ _. opening_by self.new.home self.new.log ≡ opening_by self.old.home self.old.log) }
        ensures entries { IfOk result (λ _. self.new.entries ≡ without_entries xids.now self.old.entries) }
        ensures rid { IfOk result (λ _. rid_of self.new ≡ rid_of self.old) }
        ensures sound { IfOk result (λ _. IsSound self.new) }
        ensures there { IfOk result (λ _. IfSome (S.told site.new) (OnDisk (ListThere self.new))) }
        ensures pool { IfOk result (λ _. IfSome (S.told site.new) (OnDisk (IsWholePool pool.new))) }
        ensures limit { pool.old.greatest < 2 ^ 62 → pool.new.greatest < 2 ^ 62 }
        ensures fit { IfOk result (λ _. Tells (KeepsFit pool.old pool.new) (S.told site.old) (S.told site.new)) }
        ensures whole { IfOk result (λ _. Tells (StaysWhole self.old self.new) (S.told site.old) (S.told site.new)) }
        ensures quiet { IfOk result (λ _. Carries IsQuiet IsQuiet (S.told site.old) (S.told site.new)) }
        ensures went { Tells (GoesBy (IsLogStep (opening_by self.old.home self.old.log)) result) (S.told site.old) (S.told site.new) }
        ensures drew { DrawsTaken (is_exact result) (S.told site.old) (S.told site.new) (N.drawn serials.old) (N.drawn serials.new) }
        ensures stays { Tells (Passes NoneLeaves) (S.told site.old) (S.told site.new) }
        ensures writes { Tells (StaysWritten result self.old self.new) (S.told site.old) (S.told site.new) }
        ensures spent { result ≡ Err LogError.Spent → Tells (Stops self.old (end_records (rid_of self.old) xids.now)) (S.told site.old) (S.told site.new) }
        ensures at_end { IsAtEnd self.old (end_records (rid_of self.old) xids.now) pool.old → (result ≡ Err LogError.Spent) ⊎ (result ≡ Err LogError.Memory) }
        ensures cause { LogCauses (S.faults site.old) (S.faults site.new) (N.faults serials.old) (N.faults serials.new) result }
        ensures syncs { Counts (S.told site.old) result (syncs_by self.old (end_records (rid_of self.old) xids.now)) (S.syncs site.old) (S.syncs site.new) }
        ensures reads { S.reads site.new ≡ S.reads site.old }
    {
        let rid = self.rid();
        self.ended = true;
        let batch = end_batch(self.alloc, rid, xids)?;
        let log = &mut self.log;
        let _spot = write(self.alloc, self.home, log, site, pool, serials, &batch)?;
        end_each(&mut self.entries, xids);
        self.ended = false;
        Ok(())
    }
}
