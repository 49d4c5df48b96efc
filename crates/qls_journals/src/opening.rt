// Journals of earlier openings: read, trimmed and held live again.
ghost use Rattle.std.specs.Prelude.{◌≡◌, ℕ, ◌<◌, ◌+◌, ◌^◌, ◌++◌, ◌∷◌, [], IfOk, IfErr, IfSome, map, true, false};
ghost use Rattle.std.specs.List.{AllByRecursion};
ghost use Rattle.qls_model.specs.Limits.{is_kib, is_partition};
ghost use Rattle.qls_model.specs.Sound.{IsNumbered};
ghost use Rattle.qls_site.specs.Disk.{IsQuiet, full};
ghost use Rattle.qls_site.specs.Content.{OnlyLooks, Tells};
ghost use Rattle.qls_scan.specs.Found.{IsInOrder, JournalsRise};
ghost use Rattle.qls_reading.specs.ReadLogs.{AreGiven, AreSpelled, IsThere, LogCauses, journal_in, opening_behind, rid_behind};
ghost use Rattle.qls_pool.specs.Files.{IsWholePool, OnDisk};
ghost use Rattle.qls_pool.specs.Moments.{EndsIn, Passes};
ghost use Rattle.qls_pool.specs.Serials.{TakesNone};
ghost use Rattle.qls_log.specs.Leaving.{LeavesInOrder};
ghost use Rattle.qls_log.specs.Logs.{IsSound as IsSoundLog};
ghost use Rattle.qls_prepared.specs.Ends.{IsFitPool};
ghost use Rattle.qls_journals.specs.Answers.{SiteCauses};
ghost use Rattle.qls_journals.specs.Moments.{IsStoreStep};
ghost use Rattle.qls_journals.specs.Opened.{IsWell, OpensOne, OpensPart, list_with, log_behind, queues_with};
ghost use Rattle.qls_journals.specs.Opening.{IsReading, MayOpen, Opens, OpensWritten, ReadsAll, StandAsRead, StandsSo, journals_in};
ghost use Rattle.qls_journals.specs.State.{AreJournals, NonePast, queues_of};

use crate::cause::{Cause, cause_of_log};
use crate::journals::Journals;
use qls_filehdr::JournalKind;
use qls_log::Log;
use qls_model::{NoMemory, PoolId, Seq};
use qls_pool::Pool;
use qls_prepared::PreparedList;
use qls_queue::LiveQueue;
use qls_reading::{LogFault, ReadLog};
use qls_record::Got;
use qls_scan::JournalFiles;
use qls_site::Site;
use std::alloc::Global;
use std::marker::Model;

/// A journal that was read whole, and its records.
#[derive(Drop)]
pub struct Reading {
    log: ReadLog,
    records: Seq<Got>,
}

impl Model for Reading {
    ghost use Rattle.qls_journals.specs.Opening.{ReadingState, IsReading};

    ghost Value = { ReadingState };

    ghost view = { λ r. record { log = r.log; records = r.records } };

    ghost invariant = { λ r. IsReading (record { log = r.log; records = r.records }) };
}

/// Reads journals whole, one after another, as far as the first that breaks a rule: it is Damaged exactly where a rule on a
/// reading fails, with the first that fails and the id of its file.
///
/// Each is in order. Where told, they are all there with all their files. Each record is read once, and nothing is written. So
/// they stand as they were read, where nothing is pending and each header has its one spelling.
pub fn read_all<S: Site>(
    alloc: Global,
    site: &mut S,
    journals: Seq<JournalFiles>,
) -> Result<Vec<Reading>, LogFault>
    requires order { AllByRecursion IsInOrder journals }
    requires there { IfSome (S.told site.old) (λ c. AllByRecursion (λ j. IsThere j c) journals) }
    ensures says { IfSome (S.told site.old) (λ c. ReadsAll (map (journal_in (full c.now.disk)) journals) result) }
    ensures journals { IfOk result (λ rs. journals_in rs.items ≡ journals) }
    ensures stand { IfOk result (λ rs. IfSome (S.told site.old) (OnDisk (λ d. IsQuiet d → AllByRecursion (λ j. AreSpelled j d) journals → StandAsRead rs.items d))) }
    ensures told { Tells OnlyLooks (S.told site.old) (S.told site.new) }
    ensures cause { LogCauses (S.faults site.old) (S.faults site.new) result }
    ensures syncs { S.syncs site.new ≡ S.syncs site.old }
{
    let mut readings = Vec::new(alloc);
    for files in journals.into_vec() {
        let (log, records) = ReadLog::read(alloc, site, files)?;
        add_reading(&mut readings, Reading { log, records })?;
    }
    Ok(readings)
}

// One more reading behind the others.
fn add_reading(readings: &mut Vec<Reading>, reading: Reading) -> Result<(), NoMemory>
    ensures added { IfOk result (λ _. readings.new.items ≡ readings.old.items ++ reading ∷ []) }
{
    readings.push(reading)?;
    Ok(())
}

impl Journals {
    /// The journals of a site, opened as they were read. In each, in their order, the files past its reading go back to their
    /// pool, newest first, by one relocation each; nothing is written. The next file of a journal has its pool, and the epoch
    /// after the greatest of the files that were found.
    ///
    /// `home` is the pool of the prepared list where it has no file, and of queues for which none is named; it is within the
    /// limits, and so is the pool of each empty file. The prepared list comes first, and then the queues by name. Where told,
    /// they are all journals of the site, which a scan found undamaged, and stand as they were read; nothing is pending, and
    /// the pool is the site's. Only Failed and Memory are answered.
    pub fn open<S: Site>(
        alloc: Global,
        site: &mut S,
        home: PoolId,
        pool: Pool,
        readings: Vec<Reading>,
    ) -> Result<Journals, Cause>
        requires home { (is_partition home.part ≡ true) × (is_kib home.kib ≡ true) }
        requires limit { pool.greatest < 2 ^ 62 }
        requires fit { IsFitPool pool }
        requires rise { JournalsRise (journals_in readings.items) }
        requires may { IfSome (S.told site.old) (OnDisk (MayOpen pool readings.items)) }
        ensures kept { IfOk result AreJournals }
        ensures home { IfOk result (λ x. x.home ≡ home) }
        ensures numbered { IfOk result (λ x. AllByRecursion IsNumbered (queues_of x)) }
        ensures told { Tells (EndsIn Opens (Passes IsStoreStep) result) (S.told site.old) (S.told site.new) }
        ensures none { Tells TakesNone (S.told site.old) (S.told site.new) }
        ensures leaves { Tells (Passes LeavesInOrder) (S.told site.old) (S.told site.new) }
        ensures writes { Tells (OpensWritten result (λ x. x)) (S.told site.old) (S.told site.new) }
        ensures still { IfOk result (λ _. Tells (λ a b. NonePast a.now.disk → b ≡ a) (S.told site.old) (S.told site.new)) }
        ensures causes { SiteCauses (S.faults site.old) (S.faults site.new) result }
    {
        let mut pool = pool;
        let mut queues = Vec::new(alloc);
        let mut list = PreparedList::new(alloc, home);
        for reading in readings {
            open_one(
                alloc,
                site,
                home,
                &mut pool,
                &mut queues,
                &mut list,
                reading,
            )?;
        }
        Ok(Journals {
            alloc,
            home,
            pool,
            queues,
            list,
        })
    }
}

// One journal more: its files past the reading go back to their pool, and what is left of it is held live.
fn open_one<S: Site>(
    alloc: Global,
    site: &mut S,
    home: PoolId,
    pool: &mut Pool,
    queues: &mut Vec<LiveQueue>,
    list: &mut PreparedList,
    reading: Reading,
) -> Result<(), Cause>
    requires home { (is_partition home.part ≡ true) × (is_kib home.kib ≡ true) }
    requires stands { IfSome (S.told site.old) (OnDisk (λ d. StandsSo d reading)) }
    requires pool { IfSome (S.told site.old) (OnDisk (IsWholePool pool.old)) }
    ensures queues { IfOk result (λ _. queues.new.items ≡ queues_with reading.log.journal.kind (log_behind reading.log) reading.records queues.old.items) }
    ensures list { IfOk result (λ _. list.new ≡ list_with home reading.log.journal.kind (log_behind reading.log) reading.records list.old) }
    ensures well { IfOk result (λ _. IsWell reading.log.journal.kind home (log_behind reading.log) reading.records) }
    ensures legal { IfOk result (λ _. IsSoundLog (log_behind reading.log)) }
    ensures reading { IsReading reading }
    ensures told { Tells (EndsIn (λ _. OpensOne home reading pool.new) (OpensPart reading) result) (S.told site.old) (S.told site.new) }
    ensures limit { pool.old.greatest < 2 ^ 62 → pool.new.greatest < 2 ^ 62 }
    ensures causes { SiteCauses (S.faults site.old) (S.faults site.new) result }
{
    let Reading { log, records } = reading;
    let kind = log.kind();
    match log.trim(site, pool) {
        Ok(log) => {
            add_journal(alloc, home, queues, list, kind, log, &records)?;
            Ok(())
        }
        Err(error) => Err(cause_of_log(error)),
    }
}

// Holds a journal live over its log: a queue behind the others, or the list.
fn add_journal(
    alloc: Global,
    home: PoolId,
    queues: &mut Vec<LiveQueue>,
    list: &mut PreparedList,
    kind: JournalKind,
    log: Log,
    records: &Seq<Got>,
) -> Result<(), Cause>
    requires home { (is_partition home.part ≡ true) × (is_kib home.kib ≡ true) }
    requires unended { log.ended ≡ false }
    requires flushed { log.unsynced ≡ [] }
    requires kind { log.opening.kind ≡ kind }
    requires name { kind ≡ JournalKind.List → log.opening.name ≡ [] }
    requires sound { IsSoundLog log }
    requires given { (first : ℕ) × AreGiven first records.now × (log.rid ≡ rid_behind first records.now) }
    ensures queues { IfOk result (λ _. queues.new.items ≡ queues_with kind log records.now queues.old.items) }
    ensures list { IfOk result (λ _. list.new ≡ list_with home kind log records.now list.old) }
    ensures well { IfOk result (λ _. IsWell kind home log records.now) }
    ensures only { IfErr result (λ e. e ≡ Cause.Memory) }
{
    match kind {
        JournalKind::List => match PreparedList::open(alloc, Some(log), records, home) {
            Ok(opened) => {
                *list = opened;
                Ok(())
            }
            Err(_) => Err(Cause::Memory),
        },
        JournalKind::Queue => match LiveQueue::open(alloc, log, records) {
            Ok(opened) => {
                queues.push(opened)?;
                Ok(())
            }
            Err(_) => Err(Cause::Memory),
        },
    }
}
