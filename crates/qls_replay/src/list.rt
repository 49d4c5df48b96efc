// The prepared list's records, one after another.
use indexmap::IndexMap;
use qls_decide::{ListEntry, ListState};
use qls_model::{NoMemory, Seq, Xid};
use qls_record::{Got, Kind};
use std::alloc::Global;
use std::cmp::Ordering;
use std::marker::Model;

/// The entries that the records of the prepared list's journal leave. The records are applied in their order, oldest
/// first. Clauses see the list of the entries in byte order of xid.
#[derive(Drop)]
pub struct ListReplay {
    entries: IndexMap<Xid, (u64, ListState)>,
    // Room for the entries, so that handing them out takes no memory.
    room: Vec<ListEntry>,
}

impl Model for ListReplay {
    ghost use Rattle.std.specs.Prelude.{◌≡◌, ◌≤◌, List, [], length};
    ghost use Rattle.std.specs.Vec.{vec_capacity};
    ghost use Rattle.qls_decide.specs.declared.ListEntry.{ListEntry};
    ghost use Rattle.qls_replay.specs.Entries.{entries_of};

    ghost Value = { List ListEntry };

    ghost view = { λ a. entries_of a.entries.entries };

    ghost invariant = { λ a. (a.room.items ≡ []) × (length a.entries.entries ≤ vec_capacity a.room) };
}

impl ListReplay {
    ghost use Rattle.std.specs.Prelude.{◌≡◌, [], IfOk, IfErr};
    ghost use Rattle.qls_meaning.specs.Reading.{read_of};
    ghost use Rattle.qls_meaning.specs.Replay.{after_list_record};

    /// No entry.
    pub fn new(alloc: Global) -> ListReplay
        ensures nothing { result ≡ [] }
    {
        ListReplay {
            entries: IndexMap::new(alloc),
            room: Vec::new(alloc),
        }
    }

    /// One more record. An enqueue of a transaction makes its entry, in the place of an older one: one-phase where it is
    /// flagged, else prepared. A dequeue whose target and transaction are the record id and the transaction of an entry
    /// that is undecided decides it: commit where it is flagged, else abort. A commit ends the entry. All else changes
    /// nothing. Where memory is wanting nothing changes.
    ///
    /// It takes the same time on average, however many entries there are.
    pub fn apply(&mut self, got: &Got) -> Result<(), NoMemory>
        ensures applied { IfOk result (λ _. self.new ≡ after_list_record got.now.head.kind (read_of got.now).what self.old) }
        ensures refused { IfErr result (λ _. self.new ≡ self.old) }
    {
        match got.head.kind {
            Kind::Enqueue => prepare(&mut self.entries, &mut self.room, got),
            Kind::Dequeue => decide(&mut self.entries, got),
            Kind::Commit => {
                end(&mut self.entries, &got.xid);
                Ok(())
            }
            _ => Ok(()),
        }
    }

    /// The entries in byte order of xid. It takes no memory, and time in n log n.
    pub fn finish(self) -> Seq<ListEntry>
        ensures entries { result ≡ self }
    {
        let mut list = listed(self.entries, self.room);
        sort(&mut list);
        Seq::from_vec(list)
    }
}

ghost use Rattle.std.specs.Prelude.{◌≡◌, ◌+◌, ◌≤◌, [], length, map, IfOk, IfErr, IsSome, IsPermutation};
ghost use Rattle.std.specs.List.{IsDistinct};
ghost use Rattle.std.specs.List.Sorted.{IsSortedBy};
ghost use Rattle.std.specs.Map.{keys_of};
ghost use Rattle.std.specs.Ordering.{nat_cmp};
ghost use Rattle.std.specs.Cmp.Lexicographic.{slice_cmp};
ghost use Rattle.std.specs.Vec.{vec_capacity};
ghost use Rattle.qls_model.specs.Bytes.{same, comes_before};
ghost use Rattle.qls_decide.specs.Entries.{entry_of, with_entry, without_entry};
ghost use Rattle.qls_meaning.specs.Reading.{read_of};
ghost use Rattle.qls_meaning.specs.Replay.{xid_in, prepare_entry, decide_entry};
ghost use Rattle.qls_replay.specs.Entries.{entry_for, entries_of};

type Entries = IndexMap<Xid, (u64, ListState)>;

// The entry of an enqueue.
fn prepare(entries: &mut Entries, room: &mut Vec<ListEntry>, got: &Got) -> Result<(), NoMemory>
    requires empty { room.old.items ≡ [] }
    requires fits { length entries.old.entries ≤ vec_capacity room.old }
    ensures prepared { IfOk result (λ _. entries_of entries.new.entries ≡ prepare_entry (read_of got.now).what (xid_in got.now.xid) (entries_of entries.old.entries)) }
    ensures empty { room.new.items ≡ [] }
    ensures fits { length entries.new.entries ≤ vec_capacity room.new }
    ensures refused { IfErr result (λ _. entries.new.entries ≡ entries.old.entries) }
{
    if got.xid.as_slice().is_empty() {
        return Ok(());
    }
    room.reserve(entries.len() + 1)?;
    let state = if got.head.flagged {
        ListState::OnePhase
    } else {
        ListState::Prepared
    };
    set(entries, got.xid, got.head.rid, state)
}

// The entry in the place of an older one of its xid.
fn set(entries: &mut Entries, xid: Xid, rid: u64, state: ListState) -> Result<(), NoMemory>
    ensures set { IfOk result (λ _. entries_of entries.new.entries ≡ with_entry (record { xid = xid; rid = rid; state = state }) (entries_of entries.old.entries)) }
    ensures grows { length entries.new.entries ≤ length entries.old.entries + 1 }
    ensures known { IsSome (entry_of xid (entries_of entries.old.entries)) → length entries.new.entries ≤ length entries.old.entries }
    ensures refused { IfErr result (λ _. entries.new.entries ≡ entries.old.entries) }
{
    entries.insert(xid, (rid, state))?;
    Ok(())
}

// Decides the entry that a dequeue is of.
fn decide(entries: &mut Entries, got: &Got) -> Result<(), NoMemory>
    ensures decided { IfOk result (λ _. entries_of entries.new.entries ≡ decide_entry (read_of got.now).what (entry_of got.now.xid (entries_of entries.old.entries)) (entries_of entries.old.entries)) }
    ensures fewer { length entries.new.entries ≤ length entries.old.entries }
    ensures refused { IfErr result (λ _. entries.new.entries ≡ entries.old.entries) }
{
    match entries.get(&got.xid).copied() {
        Some((rid, state)) => {
            if rid == got.head.target && is_undecided(state) {
                set(entries, got.xid, rid, decision(got.head.flagged))
            } else {
                Ok(())
            }
        }
        None => Ok(()),
    }
}

// Ends the entry of a transaction.
fn end(entries: &mut Entries, xid: &Xid)
    ensures ended { entries_of entries.new.entries ≡ without_entry xid.now (entries_of entries.old.entries) }
    ensures fewer { length entries.new.entries ≤ length entries.old.entries }
{
    let _ended = entries.swap_remove(xid);
}

// The entries in the table's order, in the room that was kept for them.
fn listed(entries: Entries, mut list: Vec<ListEntry>) -> Vec<ListEntry>
    requires empty { list.items ≡ [] }
    requires fits { length entries.entries ≤ vec_capacity list }
    ensures listed { result.items ≡ map entry_for entries.entries }
    ensures once { IsDistinct same (keys_of entries.entries) }
{
    for (xid, (rid, state)) in entries {
        if list.push(ListEntry { xid, rid, state }).is_err() {
            break;
        }
    }
    list
}

// Sorts the entries by xid, in place.
fn sort(list: &mut Vec<ListEntry>)
    ensures same { IsPermutation list.old.items list.new.items }
    ensures sorted { IsSortedBy (λ a b. comes_before a.xid b.xid) list.new.items }
{
    list.sort_unstable_by(|first, second| by_xid(first, second));
}

// The order of two entries.
fn by_xid(first: &ListEntry, second: &ListEntry) -> Ordering
    ensures order { result ≡ slice_cmp nat_cmp first.now.xid second.now.xid }
{
    first.xid.as_slice().cmp(second.xid.as_slice())
}

ghost use Rattle.qls_meaning.specs.Replay as replay;

// Whether an entry is yet to be decided.
fn is_undecided(state: ListState) -> bool
    ensures undecided { result ≡ replay.is_undecided state }
{
    match state {
        ListState::Prepared | ListState::OnePhase => true,
        ListState::DecidedCommit | ListState::DecidedAbort => false,
    }
}

// Commit where the record is flagged, else abort.
fn decision(flagged: bool) -> ListState
    ensures decided { result ≡ replay.decision flagged }
{
    if flagged {
        ListState::DecidedCommit
    } else {
        ListState::DecidedAbort
    }
}
