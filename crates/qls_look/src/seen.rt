// The journals of a store, read one after another.
ghost use Rattle.std.specs.Prelude.{◌≡◌, ℕ, List, [], map, true, None, Some, if◌then◌else◌, IfOk, IfSome};
ghost use Rattle.std.specs.List.{AllByRecursion, filter_map};
ghost use Rattle.std.specs.HashMap.{get as looked_up};
ghost use Rattle.qls_shape.specs.Claims.{each};
ghost use Rattle.qls_model.specs.Bytes.{same};
ghost use Rattle.qls_model.specs.Machine.{xid_named};
ghost use Rattle.qls_decide.specs.Entries.{entry_of, state_of};
ghost use Rattle.qls_site.specs.Disk.{full};
ghost use Rattle.qls_site.specs.Content.{Tells, OnlyLooks};
ghost use Rattle.qls_meaning.specs.Damage.{reading_claims};
ghost use Rattle.qls_meaning.specs.Meaning.{in_doubt, meaning_of};
ghost use Rattle.qls_scan.specs.declared.answers.JournalFiles.{JournalFiles};
ghost use Rattle.qls_scan.specs.Found.{IsInOrder, JournalsRise, goes_before};
ghost use Rattle.qls_reading.specs.ReadLogs.{journal_in, IsThere};
ghost use Rattle.qls_look.specs.Looking.{Says, NeverTakes, LookCauses};
ghost use Rattle.qls_look.specs.Seen.{XidsRise, NamesBefore, with_doubt, seen_with, sight_of, answered};

use crate::fault::OpenFault;
use crate::list::entries_in;
use crate::queue::queue_in;
use crate::settle::States;
use qls_decide::{ListEntry, ListState};
use qls_filehdr::JournalKind;
use qls_model::{NoMemory, Seq, State};
use qls_scan::JournalFiles;
use qls_site::Site;
use std::alloc::Global;
use std::collections::HashMap;

// What is known of a store once some of its journals are read: their state, and the state of each entry of the prepared
// list.
#[derive(Drop)]
pub struct Seen {
    state: State,
    states: States,
}

/// The state that these journals mean, or the first damage of their readings. The prepared list is the first, where it is
/// there. Each is read whole before the next.
pub fn see_all<S: Site>(
    alloc: Global,
    site: &mut S,
    journals: Seq<JournalFiles>,
) -> Result<State, OpenFault>
    requires rise { JournalsRise journals }
    requires order { AllByRecursion IsInOrder journals }
    requires there { IfSome (S.told site.old) (λ c. AllByRecursion (λ j. IsThere j c) journals) }
    ensures says { IfSome (S.told site.old) (λ c. let js = map (journal_in (full c.now.disk)) journals in Says (answered (meaning_of js) (each reading_claims js)) result) }
    ensures only { NeverTakes result }
    ensures told { Tells OnlyLooks (S.told site.old) (S.told site.new) }
    ensures cause { LookCauses (S.faults site.old) (S.faults site.new) result }
    ensures syncs { S.syncs site.new ≡ S.syncs site.old }
{
    let mut seen = seen_list(alloc, &[])?;
    for files in journals.into_vec() {
        see(alloc, site, &mut seen, files)?;
    }
    Ok(seen.state)
}

// Sees one more journal, whose name comes after those of the queues that were seen.
fn see<S: Site>(
    alloc: Global,
    site: &mut S,
    seen: &mut Seen,
    files: JournalFiles,
) -> Result<(), OpenFault>
    requires order { IsInOrder files }
    requires there { IfSome (S.told site.old) (IsThere files) }
    requires after { NamesBefore files.name seen.old.state.queues }
    ensures says { IfSome (S.told site.old) (λ c. let j = journal_in (full c.now.disk) files in Says (answered (seen_with j (sight_of seen.old)) (reading_claims j)) (answered (sight_of seen.new) result)) }
    ensures next { IfOk result (λ _. (k : JournalFiles) → goes_before files k ≡ true → NamesBefore k.name seen.old.state.queues → NamesBefore k.name seen.new.state.queues) }
    ensures only { NeverTakes result }
    ensures told { Tells OnlyLooks (S.told site.old) (S.told site.new) }
    ensures cause { LookCauses (S.faults site.old) (S.faults site.new) result }
    ensures syncs { S.syncs site.new ≡ S.syncs site.old }
{
    match files.kind {
        JournalKind::List => {
            let entries = entries_in(alloc, site, files)?;
            *seen = seen_list(alloc, entries.as_slice())?;
        }
        JournalKind::Queue => {
            let queue = queue_in(alloc, site, files, &seen.states)?;
            seen.state.put_queue(queue)?;
        }
    }
    Ok(())
}

// What the entries of the prepared list tell, before any queue.
fn seen_list(alloc: Global, entries: &[ListEntry]) -> Result<Seen, NoMemory>
    requires rise { XidsRise entries.now }
    ensures state { IfOk result (λ seen. seen.state ≡ record { queues = []; xids = filter_map in_doubt entries.now }) }
    ensures states { IfOk result (λ seen. (x : List ℕ) → looked_up same seen.states x ≡ state_of (entry_of x entries.now)) }
{
    let mut seen = Seen {
        state: State::empty(alloc),
        states: HashMap::new(alloc),
    };
    for entry in entries {
        add_entry(&mut seen, entry)?;
    }
    Ok(seen)
}

// Adds an entry, whose xid is in doubt where the entry is prepared.
fn add_entry(seen: &mut Seen, entry: &ListEntry) -> Result<(), NoMemory>
    requires absent { xid_named entry.now.xid seen.old.state.xids ≡ None }
    ensures state { IfOk result (λ _. seen.new.state ≡ record seen.old.state { xids = with_doubt (in_doubt entry.now) seen.old.state.xids }) }
    ensures states { IfOk result (λ _. (x : List ℕ) → looked_up same seen.new.states x ≡ (if same entry.now.xid x then Some entry.now.state else looked_up same seen.old.states x)) }
{
    seen.states.insert(entry.xid, entry.state)?;
    match entry.state {
        ListState::Prepared => seen.state.put_prepared(entry.xid),
        _ => Ok(()),
    }
}
