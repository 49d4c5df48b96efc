// Laws over logs. Each is the contract of a function that does nothing: calling it hands the law to the caller.
ghost use Rattle.std.specs.Prelude.{◌≡◌, ◌-◌, ◌<◌, ℕ, List, [], length, drop, true, Ok};
ghost use Rattle.std.specs.List.{filter};
ghost use Rattle.qls_site.specs.Disk.{Disk, full};
ghost use Rattle.qls_site.specs.Content.{Moment};
ghost use Rattle.qls_meaning.specs.Journals.{journals_of, epochs};
ghost use Rattle.qls_meaning.specs.History.{History, FreeArea, IsClean, now};
ghost use Rattle.qls_meaning.specs.Chance.{EachPlace, SpellsWritten};
ghost use Rattle.qls_meaning.specs.Reading.{Read};
ghost use Rattle.qls_meaning.specs.Damage.{undamaged};
ghost use Rattle.qls_meaning.specs.Dead.{oldest_number};
ghost use Rattle.qls_meaning.specs.Orderly.{journal_on};
ghost use Rattle.qls_laws.specs.Returns.{IsWholeRun, starts_elsewhere};
ghost use Rattle.qls_epochs.specs.Whole.{IsWhole};
ghost use Rattle.qls_log.specs.Logs.{LogState, IsSound, capacity_in};
ghost use Rattle.qls_log.specs.Standing.{LogThere, files_on};
ghost use Rattle.qls_log.specs.Reads.{IsRead};
ghost use Rattle.qls_log.specs.Steps.{room_behind};
ghost use Rattle.qls_log.specs.Unwritten.{IsClear, IsWrittenTo, LeaveFiles, history_with};
ghost use Rattle.qls_log.specs.Soundness.{IsUndamaged, AllBelongToLogs, log_without_oldest, IsKeptWithout};

/// A disk of which every file in use belongs to the journal of a log without damage has no damage.
pub fn undamaged_logs_make_an_undamaged_disk()
    ensures whole { (d : Disk) → AllBelongToLogs d → undamaged (full d) ≡ Ok (journals_of (full d)) }
{}

/// The journal of a log without damage is one of which the oldest file may go.
pub fn undamaged_log_is_whole()
    ensures whole { (l : LogState) (d : Disk) → IsSound l → LogThere l d → IsUndamaged l d → IsWhole (journal_on d l.opening.kind l.opening.name) }
{}

/// And it is of one epoch, where the log has no files of earlier openings.
pub fn undamaged_log_is_a_whole_run()
    ensures run { (l : LogState) (d : Disk) → l.older ≡ 0 → IsSound l → LogThere l d → IsUndamaged l d
        → IsWholeRun (journal_on d l.opening.kind l.opening.name) }
{}

/// Where the oldest file of such a log with nothing pending went and the others stayed, the log without it breaks no rule, and
/// what is read of it are the records that start in the other files.
pub fn oldest_file_of_a_log_may_go()
    ensures log { (l : LogState) (d e : Disk) (reads : List Read) → 1 < length l.files → l.unsynced ≡ [] → IsSound l → LogThere l d → IsUndamaged l d → IsRead l reads d
        → files_on l.opening e ≡ drop 1 (files_on l.opening d)
        → IsSound (log_without_oldest l) × IsKeptWithout l (filter (starts_elsewhere (oldest_number (files_on l.opening d))) reads) e }
{}

/// Behind the reading of a log's journal, the bytes that are left are those of its newest file behind the last batch, where it has a
/// file of this opening.
pub fn log_has_its_room()
    ensures room { (l : LogState) (d : Disk) (reads : List Read) → IsSound l → LogThere l d → IsRead l reads d → l.older < length l.files
        → room_behind (journal_on d l.opening.kind l.opening.name) ≡ capacity_in l.opening - l.used }
{}

/// What was written of a log's files stays so while they stay as they are, where the log is flushed.
pub fn files_that_stay_stay_written()
    ensures stays { (areas : List FreeArea) (h : History) (l : LogState) (ms : List Moment) → LogThere l (now h).disk → l.unsynced ≡ [] → LeaveFiles l (now h) ms
        → IsWrittenTo areas h l → IsWrittenTo areas (history_with h ms) l }
{}

/// No record that is read of a log's journal has a byte in an unwritten sector.
pub fn what_is_read_was_written()
    ensures written { (areas : List FreeArea) (h : History) (l : LogState) (reads : List Read) → IsSound l → LogThere l (now h).disk → IsRead l reads (now h).disk → IsWrittenTo areas h l
        → EachPlace (SpellsWritten areas h) true (epochs (files_on l.opening (now h).disk)) }
{}

/// Where the open values are clean as a history begins, no unwritten sector of it is being written.
pub fn clean_areas_stay_clear()
    ensures clear { (areas : List FreeArea) (h : History) (id : ℕ) → IsClean areas h.start.disk → IsClear areas h id }
{}
