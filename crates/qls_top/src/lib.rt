//! The top call: a script of commands, run on a site, or a look at what a site means.
#![tactic(auto)]

mod fault;
mod line;
mod script;
mod showing;
mod words;

ghost use Rattle.std.specs.Prelude.{◌≡◌, ◌↔◌, ◌≤◌, map, None, Ok, Err, IfOk, IfErr, IfSome, true, ◌==◌};
ghost use Rattle.std.specs.String.{string_bytes};
ghost use Rattle.qls_model.specs.Limits.{is_kib, is_partition};
ghost use Rattle.qls_site.specs.Content.{Tells, Rose};
ghost use Rattle.qls_top.specs.Words.{job_of};
ghost use Rattle.qls_pool.specs.Moments.{Passes};
ghost use Rattle.qls_pool.specs.Serials.{DrawsTaken};
ghost use Rattle.qls_top.specs.Moments.{AnswersQuietly, IsRunStep};
ghost use Rattle.qls_top.specs.Serials.{is_exact};
ghost use Rattle.qls_top.specs.Due.{TakesDue};
ghost use Rattle.qls_site.specs.Disk.{IsQuiet};
ghost use Rattle.qls_top.specs.Run.{IfRun, IfShow, OfRun, RunsToEnd, ReadsBytes, is_too_long, is_status, ShowsIfDamaged, EndsClean, RepliesStored, RepliesClean, HadFiles, HadClean, EndsSpent, EndsSpentIn, TakesFilesInOrder, WritesFilesInOrder, KeepsDiscipline, LeavesClean, AnswersClean, WritesClean, WorksOnCommands, WorksIn, is_exact_status, status_of_result};
ghost use Rattle.qls_top.specs.Complete.{NoneRose, Completes, CompletesShow};
ghost use Rattle.qls_top.specs.Shows.{AnswersDamage, AnswersState, OnlyShows, TellsDamage, is_show_status};
ghost use Rattle.qls_pool.specs.Files.{OnDisk};
ghost use Rattle.qls_journals.specs.Moments.{StaysQuiet};
ghost use Rattle.qls_store.specs.Stores.{Fits};
ghost use Rattle.qls_top.specs.Status.{IsOfLines};

pub use fault::Fault;
use line::run_line;
use qls_model::PoolId;
use qls_site::{Serials, Site, Source};
use qls_store::laws::clean_store_is_its_meaning;
use qls_store::{OpenFault, Store};
use script::Script;
use showing::{answer_damage, show};
use std::alloc::Global;
pub use words::{Job, parse_words, status_line};

/// Runs the job that the words ask for, and answers its status.
///
/// For `DIR run` and `DIR run PART KIB` the store of the site is opened: what an earlier run left behind is trimmed, settled
/// and given back. Then each line of the source is run and answered, before the next one is read, where nothing fails. The
/// journal of a queue grows by files from the pool of its files, which its `queue` command named, or else from that of PART
/// and KIB, partition 1 with files of 2,048 KiB where the words have none; the prepared list's grows by files from the pool of
/// its files, where it has one. A file is created only where its pool is empty.
///
/// For `DIR show` the text of the state that the store means is answered. No file changes, and neither the source nor the
/// serials are touched.
///
/// Where the store breaks a damage rule the line of the first that fails is answered, and no file changes. Where told, nothing
/// on the site is pending.
///
/// | status | comes |
/// |---|---|
/// | 0 | of a run: the source was read to its end, and every line is answered; of a show: the state is answered |
/// | 2 | exactly where the words ask for no job; no call was made |
/// | 3 | the store breaks a damage rule, and the line of the first that fails is answered |
/// | 4 | only of a run, where the source's count of faults rose |
/// | 5 | only where the site's count of faults rose |
/// | 6 | memory was wanting |
/// | 7 | exactly where byte 67,108,865 of the script was read |
/// | 8 | only of a run, where the serials' count of faults rose |
/// | 9 | only of a run: a command, or the opening, needed a further file, and no number or epoch below 2^62 was left for it, or neither an empty file nor an id; or a command needed a record id of the prepared list, and the last one was given |
///
/// So it is 0, or for want of memory 6, where no count of faults rose and none of these counters met its end, for a start that
/// breaks no damage rule and a script within the limit.
pub fn run<R: Source, S: Site, N: Serials>(
    alloc: Global,
    words: &[String],
    source: &mut R,
    site: &mut S,
    serials: &mut N,
) -> u8
    requires quiet { IfSome (S.told site.old) (OnDisk IsQuiet) }
    ensures usage { (result ≡ 2) ↔ (job_of (map string_bytes words.now) ≡ None) }
    ensures status { is_status result ≡ true }
    ensures untouched_site { result ≡ 2 → S.told site.new ≡ S.told site.old }
    ensures untouched_source { result ≡ 2 → R.left source.new ≡ R.left source.old }
    ensures untouched_serials { result ≡ 2 → N.drawn serials.new ≡ N.drawn serials.old }
    ensures done { result ≡ 0 → IfRun (job_of (map string_bytes words.now)) (λ _. RunsToEnd (S.told site.old) (S.told site.new) (R.left source.old) (R.left source.new)) }
    ensures rests { result ≡ 0 → IfSome (S.told site.new) (OnDisk IsQuiet) }
    ensures had { result ≡ 0 → IfRun (job_of (map string_bytes words.now)) (λ home. HadFiles home (S.told site.old) (S.told site.new) (R.left source.old)) }
    ensures quiet { Tells AnswersQuietly (S.told site.old) (S.told site.new) }
    ensures replied { IfRun (job_of (map string_bytes words.now)) (λ _. RepliesStored (S.told site.old) (S.told site.new) (R.left source.old)) }
    ensures orderly { Tells TakesFilesInOrder (S.told site.old) (S.told site.new) }
    ensures writes { Tells WritesFilesInOrder (S.told site.old) (S.told site.new) }
    ensures discipline { IfRun (job_of (map string_bytes words.now)) (λ _. Tells KeepsDiscipline (S.told site.old) (S.told site.new)) }
    ensures commands { IfRun (job_of (map string_bytes words.now)) (λ home. WorksOnCommands home (S.told site.old) (S.told site.new) (R.left source.old)) }
    ensures drawn { DrawsTaken (is_exact_status result) (S.told site.old) (S.told site.new) (N.drawn serials.old) (N.drawn serials.new) }
    ensures spent { result ≡ 9 → OfRun (job_of (map string_bytes words.now)) (λ home. EndsSpent home (S.told site.old) (S.told site.new) (R.left source.old)) }
    ensures source { result ≡ 4 → Rose (R.faults source.old) (R.faults source.new) }
    ensures site { result ≡ 5 → Rose (S.faults site.old) (S.faults site.new) }
    ensures serials { result ≡ 8 → Rose (N.faults serials.old) (N.faults serials.new) }
    ensures too_long { ReadsBytes (result == 7) (R.left source.old) (R.left source.new) }
    ensures complete { NoneRose (S.faults site.old) (S.faults site.new) (R.faults source.old) (R.faults source.new) (N.faults serials.old) (N.faults serials.new) → IfRun (job_of (map string_bytes words.now)) (λ home. Completes result home (S.told site.old) (S.told site.new) (R.left source.old)) }
    ensures complete_show { (Rose (S.faults site.old) (S.faults site.new) → ⊥) → IfShow (job_of (map string_bytes words.now)) (CompletesShow result (S.told site.old)) }
    ensures shown { result ≡ 0 → IfShow (job_of (map string_bytes words.now)) (Tells AnswersState (S.told site.old) (S.told site.new)) }
    ensures damaged { result ≡ 3 → Tells AnswersDamage (S.told site.old) (S.told site.new) }
    ensures damaged_start { IfSome (job_of (map string_bytes words.now)) (λ _. IfSome (S.told site.old) (TellsDamage result)) }
    ensures untouched_damage { IfSome (job_of (map string_bytes words.now)) (λ _. Tells ShowsIfDamaged (S.told site.old) (S.told site.new)) }
    ensures unread_damage { result ≡ 3 → source.new ≡ source.old }
    ensures show_status { IfShow (job_of (map string_bytes words.now)) (is_show_status result ≡ true) }
    ensures looks { IfShow (job_of (map string_bytes words.now)) (Tells OnlyShows (S.told site.old) (S.told site.new)) }
    ensures unread { IfShow (job_of (map string_bytes words.now)) (source.new ≡ source.old) }
    ensures undrawn { IfShow (job_of (map string_bytes words.now)) (serials.new ≡ serials.old) }
{
    match parse_words(words) {
        None => 2,
        Some(Job::Run { home }) => match run_script(alloc, home, source, site, serials) {
            Ok(()) => 0,
            Err(fault) => fault.status(),
        },
        Some(Job::Show) => show(alloc, site),
    }
}

/// Opens the store of the site and runs the script of the source, line by line; where the store is damaged, the line of its
/// first damage is answered.
fn run_script<R: Source, S: Site, N: Serials>(
    alloc: Global,
    home: PoolId,
    source: &mut R,
    site: &mut S,
    serials: &mut N,
) -> Result<(), Fault>
    requires pool { (is_partition home.part ≡ true) × (is_kib home.kib ≡ true) }
    requires quiet { IfSome (S.told site.old) (OnDisk IsQuiet) }
    ensures done { IfOk result (λ _. RunsToEnd (S.told site.old) (S.told site.new) (R.left source.old) (R.left source.new)) }
    ensures rests { IfOk result (λ _. IfSome (S.told site.new) (OnDisk IsQuiet)) }
    ensures had { IfOk result (λ _. HadFiles home (S.told site.old) (S.told site.new) (R.left source.old)) }
    ensures orderly { Tells TakesFilesInOrder (S.told site.old) (S.told site.new) }
    ensures writes { Tells WritesFilesInOrder (S.told site.old) (S.told site.new) }
    ensures discipline { Tells KeepsDiscipline (S.told site.old) (S.told site.new) }
    ensures commands { WorksOnCommands home (S.told site.old) (S.told site.new) (R.left source.old) }
    ensures quiet { Tells AnswersQuietly (S.told site.old) (S.told site.new) }
    ensures replied { RepliesStored (S.told site.old) (S.told site.new) (R.left source.old) }
    ensures drawn { DrawsTaken (is_exact result) (S.told site.old) (S.told site.new) (N.drawn serials.old) (N.drawn serials.new) }
    ensures spent { result ≡ Err Fault.Spent → EndsSpent home (S.told site.old) (S.told site.new) (R.left source.old) }
    ensures source { result ≡ Err Fault.Source → Rose (R.faults source.old) (R.faults source.new) }
    ensures site { result ≡ Err Fault.Site → Rose (S.faults site.old) (S.faults site.new) }
    ensures serials { result ≡ Err Fault.Draw → Rose (N.faults serials.old) (N.faults serials.new) }
    ensures too_long { ReadsBytes (is_too_long result) (R.left source.old) (R.left source.new) }
    ensures damaged { result ≡ Err Fault.Damaged → Tells AnswersDamage (S.told site.old) (S.told site.new) }
    ensures damaged_start { IfSome (S.told site.old) (TellsDamage (status_of_result result)) }
    ensures untouched { Tells ShowsIfDamaged (S.told site.old) (S.told site.new) }
    ensures unread { result ≡ Err Fault.Damaged → source.new ≡ source.old }
{
    let store = match Store::open(alloc, site, serials, home) {
        Ok(store) => store,
        Err(fault) => {
            return match fault {
                OpenFault::Damaged { file, rule } => answer_damage(alloc, file, rule, site),
                fault => Err(Fault::from(fault)),
            };
        }
    };
    run_lines(alloc, store, source, site, serials)
}

/// Runs the lines of the source on a store that fits the site.
fn run_lines<R: Source, S: Site, N: Serials>(
    alloc: Global,
    store: Store,
    source: &mut R,
    site: &mut S,
    serials: &mut N,
) -> Result<(), Fault>
    requires fits { IfSome (S.told site.old) (OnDisk (Fits store)) }
    ensures rests { IfOk result (λ _. Tells StaysQuiet (S.told site.old) (S.told site.new)) }
    ensures done { IfOk result (λ _. EndsClean store (S.told site.old) (S.told site.new) (R.left source.old) (R.left source.new)) }
    ensures had { IfOk result (λ _. HadClean store (S.told site.old) (S.told site.new) (R.left source.old)) }
    ensures writes { Tells (WritesClean store) (S.told site.old) (S.told site.new) }
    ensures leaves { Tells (LeavesClean store) (S.told site.old) (S.told site.new) }
    ensures answers { Tells (AnswersClean store) (S.told site.old) (S.told site.new) }
    ensures takes { Tells (TakesDue store) (S.told site.old) (S.told site.new) }
    ensures commands { WorksIn store (S.told site.old) (S.told site.new) (R.left source.old) }
    ensures went { Tells (Passes IsRunStep) (S.told site.old) (S.told site.new) }
    ensures quiet { Tells AnswersQuietly (S.told site.old) (S.told site.new) }
    ensures replied { RepliesClean store (S.told site.old) (S.told site.new) (R.left source.old) }
    ensures drawn { DrawsTaken (is_exact result) (S.told site.old) (S.told site.new) (N.drawn serials.old) (N.drawn serials.new) }
    ensures spent { result ≡ Err Fault.Spent → EndsSpentIn store (S.told site.old) (S.told site.new) (R.left source.old) }
    ensures source { result ≡ Err Fault.Source → Rose (R.faults source.old) (R.faults source.new) }
    ensures site { result ≡ Err Fault.Site → Rose (S.faults site.old) (S.faults site.new) }
    ensures serials { result ≡ Err Fault.Draw → Rose (N.faults serials.old) (N.faults serials.new) }
    ensures sites { S.faults site.old ≤ S.faults site.new }
    ensures too_long { ReadsBytes (is_too_long result) (R.left source.old) (R.left source.new) }
    ensures only { IfErr result IsOfLines }
{
    clean_store_is_its_meaning();
    let mut script = Script::new(alloc)?;
    let mut line = Vec::new(alloc);
    let mut store = store;
    while script.next_line(source, &mut line)? {
        store = run_line(alloc, store, &line, site, serials)?;
    }
    Ok(())
}
