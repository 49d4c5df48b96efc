// A journal read whole.
ghost use Rattle.std.specs.Prelude.{◌≡◌, ◌<◌, ℕ, true, length, IfOk, IfSome};
ghost use Rattle.std.specs.List.{AllByRecursion};
ghost use Rattle.qls_site.specs.Content.{Tells, OnlyLooks};
ghost use Rattle.qls_meaning.specs.Journals.{epochs};
ghost use Rattle.qls_scan.specs.Heads.{HasLegalHeader};
ghost use Rattle.qls_reading.specs.ReadLogs.{LogCauses, first_rid};
ghost use Rattle.qls_reading.specs.Groups.{last_run, AreCounted};
ghost use Rattle.qls_reading.specs.Tested.{IsTallied};
ghost use Rattle.qls_reading.specs.Left.{AreOnSite, files_on, ReadsEpochs};

use crate::epoch::read_epoch;
use crate::fault::LogFault;
use crate::groups::run_length;
use crate::tally::Tally;
use crate::trim::{adopt_all, home_of};
use qls_filehdr::JournalKind;
use qls_log::{Log, LogError};
use qls_model::{Name, Seq};
use qls_pool::Pool;
use qls_record::Got;
use qls_scan::{HeadedFile, JournalFiles};
use qls_site::Site;
use std::alloc::Global;
use std::marker::Model;

/// A journal that was read whole: its files as they were found, and what their records tell of it.
#[derive(Drop)]
pub struct ReadLog {
    journal: JournalFiles,
    rid: u64,
    fillers: u64,
    past: u64,
}

impl Model for ReadLog {
    ghost use Rattle.qls_reading.specs.ReadLogs.{ReadLogState, IsSoundLog};

    ghost Value = { ReadLogState };

    ghost view = { λ r. record { journal = r.journal; rid = r.rid; fillers = r.fillers; past = r.past } };

    ghost invariant = { λ r. IsSoundLog (record { journal = r.journal; rid = r.rid; fillers = r.fillers; past = r.past }) };
}

impl ReadLog {
    ghost use Rattle.std.specs.Prelude.{◌≡◌, ◌⊎◌, ◌+◌, ◌^◌, ◌<◌, ◌↔◌, length, map, IfOk, IfErr, IfSome, IsSome, slice_get, option_copied};
    ghost use Rattle.qls_site.specs.Disk.{IsQuiet, full};
    ghost use Rattle.qls_site.specs.Content.{Tells, OnlyLooks};
    ghost use Rattle.qls_meaning.specs.Spent.{greatest_epoch};
    ghost use Rattle.qls_meaning.specs.Orderly.{journal_on};
    ghost use Rattle.qls_scan.specs.Found.{IsInOrder, head_of};
    ghost use Rattle.qls_pool.specs.Files.{OnDisk, IsWholePool, Carries};
    ghost use Rattle.qls_pool.specs.Serials.{TakesNone};
    ghost use Rattle.qls_log.specs.Logs.{IsSound};
    ghost use Rattle.qls_log.specs.Faults.{SiteCauses};
    ghost use Rattle.qls_log.specs.Standing.{LogThere};
    ghost use Rattle.qls_log.specs.Soundness.{IsUndamaged};
    ghost use Rattle.qls_log.specs.Steps.{IsLogStep, GoesBy};
    ghost use Rattle.qls_log.specs.Unwritten.{WritesWell};
    ghost use Rattle.qls_log.specs.Leaving.{LeavesFromQuiet};
    ghost use Rattle.qls_log.specs.Appending.{LeavesOthers};
    ghost use Rattle.qls_log.specs.Reopening.{reopened};
    ghost use Rattle.qls_log.specs.Trimming.{newest_first, without_last, last_number, GivesNewest, ReadsTheSame};
    ghost use Rattle.qls_reading.specs.ReadLogs.{journal_in, IsThere, IsGiven, LogCauses, Says, linked_files, first_home, opening_behind, AreSpelled, StandsAsRead, ReadsAs};

    /// The journal of these files, and its records in order, without the fillers.
    ///
    /// It is Damaged exactly where a rule on the reading fails, with the first that fails and the id of its file: file by
    /// file `first`, `rid`, and `order` on the records that start there, and behind all files of an epoch `end`. Failed
    /// comes only where the site's count of faults rose.
    ///
    /// There is a file at least; the files are in order, of their journal, with legal headers. Where told, they are all its
    /// files on the site, with these headers and the sizes that these tell. Each record is read once, and nothing is written.
    pub fn read<S: Site>(
        alloc: Global,
        site: &mut S,
        files: JournalFiles,
    ) -> Result<(ReadLog, Seq<Got>), LogFault>
        requires order { IsInOrder files }
        requires there { IfSome (S.told site.old) (IsThere files) }
        ensures says { IfSome (S.told site.old) (λ c. Says (journal_in (full c.now.disk) files) result) }
        ensures given { IfOk result (λ r. IsGiven files r.0 r.1) }
        ensures stands { IfOk result (λ r. IfSome (S.told site.old) (OnDisk (λ d. IsQuiet d → AreSpelled files d → StandsAsRead r.0 d × ReadsAs r.0 r.1 d))) }
        ensures told { Tells OnlyLooks (S.told site.old) (S.told site.new) }
        ensures cause { LogCauses (S.faults site.old) (S.faults site.new) result }
        ensures syncs { S.syncs site.new ≡ S.syncs site.old }
    {
        let headed = files.files.as_slice();
        let mut tally = Tally {
            reads: Seq::new(alloc),
            rid: first_rid(headed),
            fillers: 0,
        };
        let past = read_epochs(alloc, site, headed, &mut tally)?;
        let log = ReadLog {
            journal: files,
            rid: tally.rid,
            fillers: tally.fillers,
            past,
        };
        Ok((log, tally.reads))
    }

    /// The rid in force behind all records: that of the last enqueue, else that of the oldest file.
    pub fn rid(&self) -> u64
        ensures exact { result ≡ self.now.rid }
    {
        self.rid
    }

    /// How many fillers were read.
    pub fn fillers(&self) -> u64
        ensures exact { result ≡ self.now.fillers }
    {
        self.fillers
    }

    /// How many files lie past the end of the reading: they are the newest ones.
    pub fn past(&self) -> u64
        ensures exact { result ≡ self.now.past }
    {
        self.past
    }

    /// Whether the journal is a queue's or the prepared list.
    pub fn kind(&self) -> JournalKind
        ensures exact { result ≡ self.now.journal.kind }
    {
        self.journal.kind
    }

    /// The queue's name; the prepared list has the empty one.
    pub fn name(&self) -> &Name
        ensures exact { result.now ≡ self.now.journal.name }
    {
        &self.journal.name
    }

    /// The file at a place in the order of numbers, counted from 0; None exactly where there is none.
    pub fn file_at(&self, at: usize) -> Option<&HeadedFile>
        ensures there { IsSome result ↔ (at < length self.now.journal.files) }
        ensures file { option_copied result ≡ slice_get self.now.journal.files at }
    {
        self.journal.files.as_slice().get(at)
    }

    /// The journal opened: a log of its files but those past the reading, which go back to their pool, newest first, by one
    /// relocation each. Nothing is written, and what is read of the journal stays. The log's epoch is one more than the
    /// greatest of the files that were found.
    ///
    /// Where told, the journal stands on the site as it was read, with nothing pending, and the pool is the site's, with no
    /// file out. Failed comes only where the site's count of faults rose; Memory is the only other error. After an error the
    /// files before the one whose relocation failed are in their pool.
    pub fn trim<S: Site>(self, site: &mut S, pool: &mut Pool) -> Result<Log, LogError>
        requires stands { IfSome (S.told site.old) (OnDisk (StandsAsRead self)) }
        requires pool { IfSome (S.told site.old) (OnDisk (IsWholePool pool.old)) }
        ensures log { IfOk result (λ log. log ≡ reopened (opening_behind self.journal) (without_last self.past (linked_files self.journal)) (last_number (without_last self.past (linked_files self.journal))) self.rid) }
        ensures legal { IfOk result IsSound }
        ensures told { Tells (GivesNewest (newest_first self.past (linked_files self.journal)) result) (S.told site.old) (S.told site.new) }
        ensures there { IfOk result (λ log. IfSome (S.told site.new) (OnDisk (LogThere log))) }
        ensures read { IfOk result (λ log. Tells (ReadsTheSame log) (S.told site.old) (S.told site.new)) }
        ensures undamaged { IfOk result (λ log. IfSome (S.told site.new) (OnDisk (IsUndamaged log))) }
        ensures pool { IfOk result (λ _. IfSome (S.told site.new) (OnDisk (IsWholePool pool.new))) }
        ensures limit { pool.old.greatest < 2 ^ 62 → pool.new.greatest < 2 ^ 62 }
        ensures others { IfOk result (λ _. Tells (LeavesOthers (newest_first self.past (linked_files self.journal))) (S.told site.old) (S.told site.new)) }
        ensures went { Tells (GoesBy (IsLogStep (opening_behind self.journal)) result) (S.told site.old) (S.told site.new) }
        ensures none { Tells TakesNone (S.told site.old) (S.told site.new) }
        ensures writes { Tells WritesWell (S.told site.old) (S.told site.new) }
        ensures leaves { Tells LeavesFromQuiet (S.told site.old) (S.told site.new) }
        ensures quiet { IfOk result (λ _. Carries IsQuiet IsQuiet (S.told site.old) (S.told site.new)) }
        ensures cause { SiteCauses (S.faults site.old) (S.faults site.new) result }
        ensures only { IfErr result (λ e. (e ≡ LogError.Failed) ⊎ (e ≡ LogError.Memory)) }
        ensures syncs { S.syncs site.new ≡ S.syncs site.old }
        ensures reads { S.reads site.new ≡ S.reads site.old }
        ensures epoch { IfOk result (λ log. IfSome (S.told site.old) (OnDisk (λ d. log.opening.epoch ≡ greatest_epoch (journal_on d self.journal.kind self.journal.name).files + 1))) }
        ensures home { IfOk result (λ log. IfSome (S.told site.old) (OnDisk (λ d. log.opening.home ≡ first_home (map head_of (journal_on d self.journal.kind self.journal.name).files)))) }
        ensures still { self.past ≡ 0 → IfOk result (λ _. Tells (λ a b. b ≡ a) (S.told site.old) (S.told site.new)) }
    {
        let JournalFiles { kind, name, files } = self.journal;
        let home = home_of(files.as_slice());
        let files = files.into_vec();
        let alloc = *files.allocator();
        let files = adopt_all(site, files)?;
        let past = self.past as usize;
        Log::trim(alloc, site, pool, kind, name, home, files, past, self.rid)
    }
}

// The rid in the oldest file's header.
fn first_rid(files: &[HeadedFile]) -> u64
    ensures exact { result ≡ first_rid files.now }
{
    match files.first() {
        Some(file) => file.header.rid,
        None => 0,
    }
}

// Reads the epochs of these files in turn. Answers how many files lie past the end of the reading, in the last of them.
fn read_epochs<S: Site>(
    alloc: Global,
    site: &mut S,
    files: &[HeadedFile],
    tally: &mut Tally,
) -> Result<u64, LogFault>
    requires some { 0 < length files.now }
    requires legal { AllByRecursion HasLegalHeader files.now }
    requires counted { AreCounted files.now }
    requires there { IfSome (S.told site.old) (AreOnSite files.now) }
    ensures says { IfSome (S.told site.old) (λ c. ReadsEpochs true (epochs (files_on c.now.disk files.now)) tally.old tally.new result) }
    ensures given { IfOk result (λ _. (rid : ℕ) → IsTallied rid tally.old → IsTallied rid tally.new) }
    ensures within { IfOk result (λ past. past < length (last_run files.now)) }
    ensures told { Tells OnlyLooks (S.told site.old) (S.told site.new) }
    ensures cause { LogCauses (S.faults site.old) (S.faults site.new) result }
    ensures syncs { S.syncs site.new ≡ S.syncs site.old }
{
    let mut from = 0;
    let mut past = 0;
    while from < files.len() {
        let to = from + run_length(&files[from..]);
        let last = to == files.len();
        past = read_epoch(alloc, site, &files[from..to], from == 0, last, tally)?;
        from = to;
    }
    Ok(past)
}
