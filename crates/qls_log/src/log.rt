// The log of one journal.
ghost use Rattle.std.specs.Prelude.{◌≡◌, ◌⊎◌, ◌<◌, ◌^◌, [], ℕ, List, false, is_err, IfOk, IfSome, Err, length, map};
ghost use Rattle.qls_site.specs.Content.{Tells};
ghost use Rattle.qls_site.specs.Disk.{IsQuiet};
ghost use Rattle.qls_pool.specs.Pools.{PoolState, IsSpent};
ghost use Rattle.qls_pool.specs.Files.{HeadedFile, IsPoolOf, IsWholePool, OnDisk, Carries};
ghost use Rattle.qls_pool.specs.Discipline.{Orderly};
ghost use Rattle.qls_log.specs.Leaving.{NoneLeaves, LeavesFromQuiet};
ghost use Rattle.qls_pool.specs.Moments.{Passes};
ghost use Rattle.qls_pool.specs.Serials.{DrawsTaken, TakesNone};
ghost use Rattle.qls_blocks.specs.Batching.{laid_from, length_of, block_length};
ghost use Rattle.qls_blocks.specs.Plans.{plan_of};
ghost use Rattle.qls_log.specs.Logs.{IsLegalOpening, IsSound, capacity_in, without_first};
ghost use Rattle.qls_log.specs.Faults.{LogCauses, SiteCauses, Counts};
ghost use Rattle.qls_log.specs.Taking.{TakesFiles, DrawsEach, MeetsEnd};
ghost use Rattle.qls_log.specs.Spots.{spot_of};
ghost use Rattle.qls_log.specs.Returning.{GivesAll, released};
ghost use Rattle.qls_log.specs.Steps.{IsLogStep, GoesBy, MeetsEndWith, KeepsRoom, is_exact};
ghost use Rattle.qls_log.specs.Unwritten.{BeginsWritten, StaysWritten, WritesWell};
ghost use Rattle.qls_log.specs.Standing.{LogThere, StandsWith, IsUnmarkedBehind, files_on};
ghost use Rattle.qls_meaning.specs.Reading.{Read};
ghost use Rattle.qls_log.specs.Reads.{IsRead, BeginsReading, ReadsOn};
ghost use Rattle.qls_log.specs.Soundness.{IsUndamaged, BeginsUndamaged, StaysUndamaged};
ghost use Rattle.qls_log.specs.Reopening.{MayReopen, reopened};
ghost use Rattle.qls_log.specs.Trimming.{AreInRow, MayTrim, newest_first, without_last, last_number, opened_behind, GivesNewest, ReadsTheSame};
ghost use Rattle.qls_log.specs.Appending.{IsNew, FollowRids, HasAppended, TakesAndWrites, ReadsNone, StandsBehind, StandsStill, LeavesOthers, IsQuietBut, SyncsAll, SeesTheSame, ReadsInImages};

use crate::fault::LogError;
use crate::opening::Opening;
use crate::release::{count_released, give_back_each};
use crate::spot::{Spot, spots};
use crate::take::take_files;
use crate::trim::{give_back_newest, newest_of};
use crate::write::{files_from, used_behind, write_batch};
use qls_blocks::{Batch, FreshFile, sync_parts};
use qls_filehdr::JournalKind;
use qls_model::{Name, PoolId, Seq};
use qls_pool::{Linked, Pool};
use qls_site::{Serials, Site};
use std::alloc::Global;
use std::marker::Model;
use std::mem;

/// A journal as a list of records. Each batch starts at a block's end, behind the one before.
#[derive(Drop)]
pub struct Log {
    opening: Opening,
    /// The files of the journal, oldest first: those taken in earlier openings, and then those of this one.
    files: Vec<Linked>,
    /// How many of them were taken in earlier openings.
    older: usize,
    /// The number of the newest file.
    newest: u64,
    /// How many bytes of the newest file's data area are written.
    used: u64,
    /// The record id in force behind the last batch.
    rid: u64,
    /// The ids of the files in which the last batch is pending.
    unsynced: Seq<u64>,
    ended: bool,
}

impl Model for Log {
    ghost use Rattle.std.specs.Prelude.{◌≡◌, false};
    ghost use Rattle.qls_log.specs.Logs.{LogState, IsSound};

    ghost Value = { LogState };

    ghost view = { λ l. record { opening = l.opening; files = l.files.items; older = l.older; newest = l.newest; used = l.used; rid = l.rid; unsynced = l.unsynced; ended = l.ended } };

    ghost invariant = { λ l. l.ended ≡ false → IsSound (record { opening = l.opening; files = l.files.items; older = l.older; newest = l.newest; used = l.used; rid = l.rid; unsynced = l.unsynced; ended = l.ended }) };
}

impl Log {
    /// Makes a new journal of this kind and name, whose files belong to the pool `home`: it takes one file, with number
    /// and epoch 1. Where every file that came into use was unmarked, no record is read of it, and its journal breaks no
    /// damage rule. A queue's name is within its limits, and the list's is empty.
    ///
    /// Where told, the site has no file in use of that kind and name, and the pool is the site's, with no file out.
    /// After an error the site and the pool stand as the calls up to it left them.
    pub fn create<S: Site, N: Serials>(
        alloc: Global,
        site: &mut S,
        pool: &mut Pool,
        serials: &mut N,
        kind: JournalKind,
        name: Name,
        home: PoolId,
    ) -> Result<Log, LogError>
        requires legal { IsLegalOpening (record { kind = kind; name = name; home = home; epoch = 1 }) }
        requires new { IfSome (S.told site.old) (OnDisk (λ d. files_on (record { kind = kind; name = name; home = home; epoch = 1 }) d ≡ [])) }
        requires pool { IfSome (S.told site.old) (OnDisk (IsWholePool pool.old)) }
        ensures new { IfOk result (IsNew (record { kind = kind; name = name; home = home; epoch = 1 })) }
        ensures told { IfOk result (λ log. Tells (TakesFiles home pool.old pool.new log.files) (S.told site.old) (S.told site.new)) }
        ensures drawn { IfOk result (λ log. DrawsEach log.files (N.drawn serials.old) (N.drawn serials.new)) }
        ensures there { IfOk result (λ log. IfSome (S.told site.new) (OnDisk (LogThere log))) }
        ensures pool { IfOk result (λ _. IfSome (S.told site.new) (OnDisk (IsWholePool pool.new))) }
        ensures reading { IfOk result (λ log. Tells (ReadsNone log) (S.told site.old) (S.told site.new)) }
        ensures stands { IfOk result (λ log. IfSome (S.told site.new) (OnDisk (StandsWith log []))) }
        ensures legal { IfOk result IsSound }
        ensures limit { pool.old.greatest < 2 ^ 62 → pool.new.greatest < 2 ^ 62 }
        ensures begins { IfOk result (λ log. Tells (BeginsReading log) (S.told site.old) (S.told site.new)) }
        ensures sound { IfOk result (λ log. Tells (BeginsUndamaged log) (S.told site.old) (S.told site.new)) }
        ensures others { IfOk result (λ log. Tells (LeavesOthers log.files) (S.told site.old) (S.told site.new)) }
        ensures spent { result ≡ Err LogError.Spent → IsSpent home pool.new }
        ensures at_end { IsSpent home pool.old → (result ≡ Err LogError.Spent) ⊎ (result ≡ Err LogError.Memory) }
        ensures cause { LogCauses (S.faults site.old) (S.faults site.new) (N.faults serials.old) (N.faults serials.new) result }
        ensures syncs { Counts (S.told site.old) result 1 (S.syncs site.old) (S.syncs site.new) }
        ensures reads { S.reads site.new ≡ S.reads site.old }
        ensures orderly { Orderly (IsPoolOf pool.old []) result (S.told site.old) (S.told site.new) }
        ensures went { Tells (GoesBy (IsLogStep (record { kind = kind; name = name; home = home; epoch = 1 })) result) (S.told site.old) (S.told site.new) }
        ensures drew { DrawsTaken (is_exact result) (S.told site.old) (S.told site.new) (N.drawn serials.old) (N.drawn serials.new) }
        ensures quiet { IfOk result (λ _. Carries IsQuiet IsQuiet (S.told site.old) (S.told site.new)) }
        ensures stays { Tells (Passes NoneLeaves) (S.told site.old) (S.told site.new) }
        ensures writes { Tells (BeginsWritten result (λ log. log)) (S.told site.old) (S.told site.new) }
        ensures no_call { result ≡ Err LogError.Spent → site.new ≡ site.old }
        ensures spent_pool { result ≡ Err LogError.Spent → pool.new ≡ pool.old }
    {
        let opening = Opening {
            kind,
            name,
            home,
            epoch: 1,
        };
        let fresh = [FreshFile {
            first: 4096,
            rid: 0,
        }];
        let files = take_files(alloc, site, pool, serials, &opening, 0, &fresh)?;
        Ok(Log {
            opening,
            files,
            older: 0,
            newest: 1,
            used: 0,
            rid: 0,
            unsynced: Seq::new(alloc),
            ended: false,
        })
    }

    /// A log of a journal all of whose files were taken in earlier openings, at least one, oldest first: their numbers count
    /// on, up to `newest`, and `rid` is the record id in force behind what is read of them. The next batch takes a file of
    /// this opening, whose `epoch` is one more than that of the newest file; with epoch 2^62 none can be taken.
    pub fn reopen(
        alloc: Global,
        kind: JournalKind,
        name: Name,
        home: PoolId,
        epoch: u64,
        files: Vec<Linked>,
        newest: u64,
        rid: u64,
    ) -> Log
        requires may { MayReopen (record { kind = kind; name = name; home = home; epoch = epoch }) files.items newest rid }
        ensures exact { result ≡ reopened (record { kind = kind; name = name; home = home; epoch = epoch }) files.items newest rid }
        ensures sound { IsSound result }
    {
        let opening = Opening {
            kind,
            name,
            home,
            epoch,
        };
        Log {
            opening,
            older: files.len(),
            files,
            newest,
            used: opening.capacity(),
            rid,
            unsynced: Seq::new(alloc),
            ended: false,
        }
    }

    /// A log of a journal all of whose files were taken in earlier openings, without its newest ones, so many, which lie past
    /// its reading: they go back to their pool, newest first, by one relocation each, and nothing is written. What is read
    /// of the journal stays. `rid` is the record id in force behind that. The log's epoch is one more than the newest
    /// epoch of the journal.
    ///
    /// The files are in a row, and at least one stays. Where told, they are the journal's files on the site, with nothing
    /// pending, just so many lie past its reading, the journal breaks no damage rule, and the pool is the site's, with no
    /// file out. After an error the files before the one whose relocation failed are in their pool.
    pub fn trim<S: Site>(
        alloc: Global,
        site: &mut S,
        pool: &mut Pool,
        kind: JournalKind,
        name: Name,
        home: PoolId,
        files: Vec<Linked>,
        past: usize,
        rid: u64,
    ) -> Result<Log, LogError>
        requires row { AreInRow (opened_behind kind name home (without_last past files.items)) files.items }
        requires fewer { past < length files.items }
        requires rid { rid < 2 ^ 62 }
        requires may { IfSome (S.told site.old) (OnDisk (MayTrim (opened_behind kind name home (without_last past files.items)) pool.old files.items past rid)) }
        ensures log { IfOk result (λ log. log ≡ reopened (opened_behind kind name home (without_last past files.items)) (without_last past files.items) (last_number (without_last past files.items)) rid) }
        ensures legal { IfOk result IsSound }
        ensures told { Tells (GivesNewest (newest_first past files.items) result) (S.told site.old) (S.told site.new) }
        ensures there { IfOk result (λ log. IfSome (S.told site.new) (OnDisk (LogThere log))) }
        ensures read { IfOk result (λ log. Tells (ReadsTheSame log) (S.told site.old) (S.told site.new)) }
        ensures undamaged { IfOk result (λ log. IfSome (S.told site.new) (OnDisk (IsUndamaged log))) }
        ensures pool { IfOk result (λ _. IfSome (S.told site.new) (OnDisk (IsWholePool pool.new))) }
        ensures limit { pool.old.greatest < 2 ^ 62 → pool.new.greatest < 2 ^ 62 }
        ensures others { IfOk result (λ _. Tells (LeavesOthers (newest_first past files.items)) (S.told site.old) (S.told site.new)) }
        ensures went { Tells (GoesBy (IsLogStep (opened_behind kind name home (without_last past files.items))) result) (S.told site.old) (S.told site.new) }
        ensures none { Tells TakesNone (S.told site.old) (S.told site.new) }
        ensures writes { Tells WritesWell (S.told site.old) (S.told site.new) }
        ensures leaves { Tells LeavesFromQuiet (S.told site.old) (S.told site.new) }
        ensures quiet { IfOk result (λ _. Carries IsQuiet IsQuiet (S.told site.old) (S.told site.new)) }
        ensures cause { SiteCauses (S.faults site.old) (S.faults site.new) result }
        ensures syncs { S.syncs site.new ≡ S.syncs site.old }
        ensures reads { S.reads site.new ≡ S.reads site.old }
    {
        let mut kept = files;
        give_back_newest(site, pool, &mut kept, past)?;
        let newest = newest_of(&kept);
        let (epoch, number) = (newest.header().epoch + 1, newest.header().number);
        Ok(Log::reopen(alloc, kind, name, home, epoch, kept, number, rid))
    }

    /// Appends a batch: all files that it needs are taken first, and then each touched file gets one write, in file
    /// order. It answers where each record lies, fillers left out. It is pending until the next [`Log::flush`]. What is
    /// read of the journal then is what was read before, and then the batch with its fillers, and it breaks no damage rule
    /// if it broke none before, where every file that came into use was unmarked.
    ///
    /// The batch has a record; its rids follow from the log's and are below 2^62; every earlier batch is flushed; the log
    /// isn't ended. Where told, the site has the journal as the log's last call left it, and the pool is the site's, with
    /// no file out. After an error the log is ended, and the site and the pool stand as the calls up to it left them.
    pub fn append<S: Site, N: Serials>(
        &mut self,
        site: &mut S,
        pool: &mut Pool,
        serials: &mut N,
        batch: &Batch,
    ) -> Result<Seq<Spot>, LogError>
        requires unended { self.old.ended ≡ false }
        requires some { 0 < length batch.now }
        requires rids { FollowRids self.old.rid batch.now }
        requires flushed { self.old.unsynced ≡ [] }
        requires there { IfSome (S.told site.old) (OnDisk (LogThere self.old)) }
        requires pool { IfSome (S.told site.old) (OnDisk (IsPoolOf pool.old [])) }
        ensures ended { self.new.ended ≡ is_err result }
        ensures appended { IfOk result (λ _. (taken : List HeadedFile) × HasAppended batch.now self.old self.new taken × DrawsEach taken (N.drawn serials.old) (N.drawn serials.new) × Tells (TakesAndWrites batch.now self.old self.new pool.old pool.new taken) (S.told site.old) (S.told site.new)) }
        ensures spots { IfOk result (λ spots. spots ≡ map (spot_of (capacity_in self.old.opening) self.old.newest) (laid_from self.old.used batch.now)) }
        ensures there { IfOk result (λ _. IfSome (S.told site.new) (OnDisk (LogThere self.new))) }
        ensures pool { IfOk result (λ _. IfSome (S.told site.new) (OnDisk (IsPoolOf pool.new []))) }
        ensures legal { IfOk result (λ _. IsSound self.new) }
        ensures limit { pool.old.greatest < 2 ^ 62 → pool.new.greatest < 2 ^ 62 }
        ensures stands { IfOk result (λ _. Tells (StandsBehind batch.now self.old self.new) (S.told site.old) (S.told site.new)) }
        ensures reading { IfOk result (λ _. Tells (ReadsOn batch.now self.old self.new) (S.told site.old) (S.told site.new)) }
        ensures sound { IfOk result (λ _. Tells (StaysUndamaged self.old self.new) (S.told site.old) (S.told site.new)) }
        ensures others { IfOk result (λ _. Tells (LeavesOthers self.new.files) (S.told site.old) (S.told site.new)) }
        ensures spent { result ≡ Err LogError.Spent → MeetsEnd self.old.opening self.old.newest (length (plan_of batch.now self.old.used (capacity_in self.old.opening) self.old.rid).fresh) pool.new }
        ensures at_end { 0 < length (plan_of batch.now self.old.used (capacity_in self.old.opening) self.old.rid).fresh → MeetsEnd self.old.opening self.old.newest 1 pool.old → (result ≡ Err LogError.Spent) ⊎ (result ≡ Err LogError.Memory) }
        ensures cause { LogCauses (S.faults site.old) (S.faults site.new) (N.faults serials.old) (N.faults serials.new) result }
        ensures syncs { Counts (S.told site.old) result (length (plan_of batch.now self.old.used (capacity_in self.old.opening) self.old.rid).fresh) (S.syncs site.old) (S.syncs site.new) }
        ensures reads { S.reads site.new ≡ S.reads site.old }
        ensures went { Tells (GoesBy (IsLogStep self.old.opening) result) (S.told site.old) (S.told site.new) }
        ensures drew { DrawsTaken (is_exact result) (S.told site.old) (S.told site.new) (N.drawn serials.old) (N.drawn serials.new) }
        ensures pending { IfOk result (λ _. Carries IsQuiet (IsQuietBut self.new.unsynced) (S.told site.old) (S.told site.new)) }
        ensures whole { IfOk result (λ _. IfSome (S.told site.new) (OnDisk (IsWholePool pool.new))) }
        ensures ends { result ≡ Err LogError.Spent → IfSome (S.told site.new) (OnDisk (MeetsEndWith self.old (block_length (length_of batch.now)))) }
        ensures room { result ≡ Err LogError.Spent → Tells (KeepsRoom self.old) (S.told site.old) (S.told site.new) }
        ensures stays { Tells (Passes NoneLeaves) (S.told site.old) (S.told site.new) }
        ensures writes { Tells (StaysWritten result self.old self.new) (S.told site.old) (S.told site.new) }
    {
        self.ended = true;
        let opening = self.opening;
        let capacity = opening.capacity();
        let (used, newest) = (self.used, self.newest);
        let alloc = *self.files.allocator();
        let plan = batch.plan(used, capacity, self.rid)?;
        let spots = spots(alloc, batch, used, capacity, newest)?;
        let fresh = plan.fresh.as_slice();
        let mut taken = take_files(alloc, site, pool, serials, &opening, newest, fresh)?;
        let before = self.files.len();
        self.files.append(&mut taken)?;
        let over = files_from(&self.files, before - 1);
        let written = write_batch(alloc, site, over, batch, &plan, used, capacity)?;
        self.newest = newest + fresh.len() as u64;
        self.used = used_behind(used, plan.length, capacity, fresh.len() as u64);
        self.rid = batch.last_rid();
        self.unsynced = written;
        self.ended = false;
        Ok(spots)
    }

    /// Syncs each file in which the last batch is pending, in file order: one sync each. What is read of the journal stays,
    /// and a journal that broke no damage rule breaks none.
    ///
    /// The log isn't ended. Where told, the site has the journal as the log's last call left it. After an error the log is
    /// ended; the files before the one whose sync failed are synced.
    pub fn flush<S: Site>(&mut self, site: &mut S) -> Result<(), LogError>
        requires unended { self.old.ended ≡ false }
        requires there { IfSome (S.told site.old) (OnDisk (LogThere self.old)) }
        ensures ended { self.new.ended ≡ is_err result }
        ensures log { IfOk result (λ _. self.new ≡ record self.old { unsynced = [] }) }
        ensures told { Tells (SyncsAll self.old.unsynced result) (S.told site.old) (S.told site.new) }
        ensures there { IfOk result (λ _. IfSome (S.told site.new) (OnDisk (LogThere self.new))) }
        ensures reading { Tells SeesTheSame (S.told site.old) (S.told site.new) }
        ensures stands { IfOk result (λ _. Tells (StandsStill self.old self.new) (S.told site.old) (S.told site.new)) }
        ensures read { IfOk result (λ _. (reads : List Read) → Carries (IsRead self.old reads) (IsRead self.new reads) (S.told site.old) (S.told site.new)) }
        ensures sound { IfOk result (λ _. Carries (IsUndamaged self.old) (IsUndamaged self.new) (S.told site.old) (S.told site.new)) }
        ensures behind { IfOk result (λ _. Carries (IsUnmarkedBehind self.old) (IsUnmarkedBehind self.new) (S.told site.old) (S.told site.new)) }
        ensures pool { (pool : PoolState) (out : List ℕ) → Carries (IsPoolOf pool out) (IsPoolOf pool out) (S.told site.old) (S.told site.new) }
        ensures quiet { IfOk result (λ _. Carries (IsQuietBut self.old.unsynced) IsQuiet (S.told site.old) (S.told site.new)) }
        ensures images { IfOk result (λ _. Carries (IsQuietBut self.old.unsynced) (ReadsInImages self.new) (S.told site.old) (S.told site.new)) }
        ensures cause { SiteCauses (S.faults site.old) (S.faults site.new) result }
        ensures syncs { Counts (S.told site.old) result (length self.old.unsynced) (S.syncs site.old) (S.syncs site.new) }
        ensures reads { S.reads site.new ≡ S.reads site.old }
        ensures orderly { Orderly (λ _. Unit {0}) result (S.told site.old) (S.told site.new) }
        ensures went { Tells (GoesBy (IsLogStep self.old.opening) result) (S.told site.old) (S.told site.new) }
        ensures none { Tells TakesNone (S.told site.old) (S.told site.new) }
        ensures stays { Tells (Passes NoneLeaves) (S.told site.old) (S.told site.new) }
        ensures writes { Tells (StaysWritten result self.old self.new) (S.told site.old) (S.told site.new) }
    {
        self.ended = true;
        sync_parts(site, &self.unsynced)?;
        self.unsynced = Seq::new(*self.files.allocator());
        self.ended = false;
        Ok(())
    }

    /// Gives the oldest files with a lesser number than this one back to their pool, oldest first, and never the newest:
    /// one relocation each, and nothing is written. While a batch is pending none is given back.
    ///
    /// The log isn't ended. Where told, the site has the journal as the log's last call left it, and the pool is the
    /// site's, with no file out. After an error the log is ended, and the files before the one whose relocation failed are
    /// in their pool; Memory may come before the first.
    pub fn release_before<S: Site>(
        &mut self,
        site: &mut S,
        pool: &mut Pool,
        number: u64,
    ) -> Result<(), LogError>
        requires unended { self.old.ended ≡ false }
        requires there { IfSome (S.told site.old) (OnDisk (LogThere self.old)) }
        requires pool { IfSome (S.told site.old) (OnDisk (IsPoolOf pool.old [])) }
        ensures ended { self.new.ended ≡ is_err result }
        ensures legal { IsSound self.old }
        ensures log { IfOk result (λ _. self.new ≡ without_first (length (released number self.old)) self.old) }
        ensures told { Tells (GivesAll (released number self.old) result) (S.told site.old) (S.told site.new) }
        ensures there { IfOk result (λ _. IfSome (S.told site.new) (OnDisk (LogThere self.new))) }
        ensures pool { IfOk result (λ _. IfSome (S.told site.new) (OnDisk (IsPoolOf pool.new []))) }
        ensures limit { pool.old.greatest < 2 ^ 62 → pool.new.greatest < 2 ^ 62 }
        ensures others { IfOk result (λ _. Tells (LeavesOthers (released number self.old)) (S.told site.old) (S.told site.new)) }
        ensures went { Tells (GoesBy (IsLogStep self.old.opening) result) (S.told site.old) (S.told site.new) }
        ensures none { Tells TakesNone (S.told site.old) (S.told site.new) }
        ensures writes { Tells (StaysWritten result self.old self.new) (S.told site.old) (S.told site.new) }
        ensures cause { SiteCauses (S.faults site.old) (S.faults site.new) result }
        ensures syncs { S.syncs site.new ≡ S.syncs site.old }
        ensures reads { S.reads site.new ≡ S.reads site.old }
    {
        let count = count_released(&self.files, &self.unsynced, number);
        if count == 0 {
            return Ok(());
        }
        self.ended = true;
        let kept = self.files.split_off(count)?;
        let given = mem::replace(&mut self.files, kept);
        give_back_each(site, pool, given)?;
        self.older = self.older.saturating_sub(count);
        self.ended = false;
        Ok(())
    }

    /// Gives the log's only file back to its pool: one relocation, and nothing is written. The journal has no file then.
    ///
    /// The log isn't ended, and has one file. Where told, the site has the journal as the log's last call left it, and the
    /// pool is the site's, with no file out. After Failed the file is in use or in its pool.
    pub fn remove<S: Site>(self, site: &mut S, pool: &mut Pool) -> Result<(), LogError>
        requires unended { self.ended ≡ false }
        requires one { length self.files ≡ 1 }
        requires there { IfSome (S.told site.old) (OnDisk (LogThere self)) }
        requires pool { IfSome (S.told site.old) (OnDisk (IsPoolOf pool.old [])) }
        ensures legal { IsSound self }
        ensures told { Tells (GivesAll self.files result) (S.told site.old) (S.told site.new) }
        ensures gone { IfOk result (λ _. IfSome (S.told site.new) (OnDisk (λ d. files_on self.opening d ≡ []))) }
        ensures pool { IfOk result (λ _. IfSome (S.told site.new) (OnDisk (IsWholePool pool.new))) }
        ensures limit { pool.old.greatest < 2 ^ 62 → pool.new.greatest < 2 ^ 62 }
        ensures others { IfOk result (λ _. Tells (LeavesOthers self.files) (S.told site.old) (S.told site.new)) }
        ensures went { Tells (GoesBy (IsLogStep self.opening) result) (S.told site.old) (S.told site.new) }
        ensures none { Tells TakesNone (S.told site.old) (S.told site.new) }
        ensures writes { Tells WritesWell (S.told site.old) (S.told site.new) }
        ensures cause { SiteCauses (S.faults site.old) (S.faults site.new) result }
        ensures syncs { S.syncs site.new ≡ S.syncs site.old }
        ensures reads { S.reads site.new ≡ S.reads site.old }
    {
        let Log { files, .. } = self;
        give_back_each(site, pool, files)?;
        Ok(())
    }

    /// The journal's name.
    pub fn name(&self) -> &Name
        ensures exact { result.now ≡ self.now.opening.name }
    {
        &self.opening.name
    }

    /// The record id in force behind the last batch: that of the last enqueue, 0 where there is none.
    pub fn rid(&self) -> u64
        requires unended { self.now.ended ≡ false }
        ensures exact { result ≡ self.now.rid }
    {
        self.rid
    }

    /// The number of the journal's newest file.
    pub fn newest(&self) -> u64
        requires unended { self.now.ended ≡ false }
        ensures exact { result ≡ self.now.newest }
    {
        self.newest
    }

    /// Whether the log is ended: a call on it that may write answered an error. No other call may follow then.
    pub fn is_ended(&self) -> bool
        ensures exact { result ≡ self.now.ended }
    {
        self.ended
    }
}
