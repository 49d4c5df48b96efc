// The entries of the list, by xid, and the enqueue of each, by record id.
ghost use Rattle.std.specs.Prelude.{◌≡◌, ◌≤◌, ◌++◌, [], ◌∷◌, true, None, IfOk, IfSome, length, slice_get, option_copied};
ghost use Rattle.qls_record.specs.Record.{is_enqueue};
ghost use Rattle.qls_decide.specs.Entries.{entry_of, with_entry, without_entry};
ghost use Rattle.qls_enqmap.specs.Records.{AllBelow, least_file};
ghost use Rattle.qls_meaning.specs.Reading.{read_of};
ghost use Rattle.qls_meaning.specs.Replay.{xid_in, entry_state, decision, decide_entry, prepare_entry, after_list_record};
ghost use Rattle.qls_meaning.specs.Replay as replay;
ghost use Rattle.qls_prepared.specs.Opening.{held_entered, held_after, may_decide};
ghost use Rattle.qls_prepared.specs.Lists.{XidsRise};
ghost use Rattle.qls_prepared.specs.Places.{IsPlace, WouldStandAt};
ghost use Rattle.qls_prepared.specs.Table.{held_at_spot, held_without};

use qls_decide::{ListEntry, ListState};
use qls_enqmap::{EnqMap, Held};
use qls_log::Spot;
use qls_model::{Bytes, NoMemory, Status, Xid};
use qls_record::{Got, Kind};
use std::alloc::Global;
use std::cmp::Ordering;
use std::marker::Model;

/// The entries by xid. A look-up is a binary search.
#[derive(Drop)]
pub(crate) struct Entries {
    alloc: Global,
    /// In byte order of xid.
    list: Vec<ListEntry>,
    /// The enqueue of each entry.
    held: EnqMap,
}

impl Model for Entries {
    ghost use Rattle.qls_prepared.specs.Table.{TableState};
    ghost use Rattle.qls_prepared.specs.Lists.{XidsRise};

    ghost Value = { TableState };

    ghost view = { λ e. record { entries = e.list.items; held = e.held } };

    ghost invariant = { λ e. XidsRise e.list.items };
}

/// The place of the entry of an xid, or the place at which it would stand: a binary search.
fn place_of(list: &[ListEntry], xid: &Xid) -> Result<usize, usize>
    requires rising { XidsRise list.now }
    ensures place { IsPlace list.now xid.now result }
{
    let mut low = 0;
    let mut high = list.len();
    while low < high {
        let middle = low + (high - low) / 2;
        match list[middle].xid.as_slice().cmp(xid.as_slice()) {
            Ordering::Equal => return Ok(middle),
            Ordering::Less => low = middle + 1,
            Ordering::Greater => high = middle,
        }
    }
    Err(low)
}

/// The place at which the entry of an xid would stand that has none.
fn free_place(list: &[ListEntry], xid: &Xid) -> usize
    requires rising { XidsRise list.now }
    requires none { entry_of xid.now list.now ≡ None }
    ensures place { WouldStandAt list.now xid.now result }
{
    match place_of(list, xid) {
        Ok(place) | Err(place) => place,
    }
}

/// The state of an entry that is decided: commit or abort.
fn decided(commit: bool) -> ListState
    ensures exact { result ≡ decision commit }
{
    if commit {
        ListState::DecidedCommit
    } else {
        ListState::DecidedAbort
    }
}

/// The state of the entry of an enqueue: one-phase where it is flagged, else prepared.
fn entry_state(flagged: bool) -> ListState
    ensures exact { result ≡ entry_state flagged }
{
    if flagged {
        ListState::OnePhase
    } else {
        ListState::Prepared
    }
}

/// Whether an entry is yet to be decided.
fn is_undecided(state: ListState) -> bool
    ensures exact { result ≡ replay.is_undecided state }
{
    match state {
        ListState::Prepared | ListState::OnePhase => true,
        ListState::DecidedCommit | ListState::DecidedAbort => false,
    }
}

impl Entries {
    /// No entry.
    pub(crate) fn new(alloc: Global) -> Entries
        ensures nothing { result ≡ record { entries = []; held = [] } }
    {
        Entries {
            alloc,
            list: Vec::new(alloc),
            held: EnqMap::new(alloc),
        }
    }

    /// The entry of an xid; None exactly where it has none.
    pub(crate) fn get(&self, xid: &Xid) -> Option<&ListEntry>
        ensures exact { option_copied result ≡ entry_of xid.now self.now.entries }
    {
        let place = place_of(&self.list, xid).ok()?;
        self.list.get(place)
    }

    /// The entry at a place in byte order of xid, counted from 0; None exactly where there is none.
    pub(crate) fn at(&self, at: usize) -> Option<&ListEntry>
        ensures exact { option_copied result ≡ slice_get self.now.entries at }
    {
        self.list.get(at)
    }

    /// The least file in which the enqueue of an entry starts; None exactly where there is no entry.
    pub(crate) fn first_file(&self) -> Option<u64>
        ensures exact { result ≡ least_file self.now.held }
    {
        self.held.first_file()
    }

    /// One more entry, whose enqueue lies at the spot. Its xid has none yet, and its record id is above all others.
    #[tactic(auto, using(crate::proofs::Places::rises_insert, crate::proofs::Places::with_insert))]
    pub(crate) fn add(&mut self, entry: ListEntry, spot: Spot) -> Result<(), NoMemory>
        requires none { entry_of entry.xid self.old.entries ≡ None }
        requires above { AllBelow entry.rid self.old.held }
        ensures entries { IfOk result (λ _. self.new.entries ≡ with_entry entry self.old.entries) }
        ensures held { IfOk result (λ _. self.new.held ≡ self.old.held ++ held_at_spot entry.rid spot ∷ []) }
    {
        let place = free_place(&self.list, &entry.xid);
        self.held.insert(Held {
            rid: entry.rid,
            status: Status::Ready,
            body: Bytes::from_vec(Vec::new(self.alloc)),
            file: spot.file,
            end_file: spot.end_file,
        })?;
        self.list.insert(place, entry)?;
        Ok(())
    }

    /// Decides an entry: commit or abort. Nothing changes where the xid has none.
    #[tactic(auto, using(crate::proofs::Places::rises_decided, crate::proofs::Places::with_decided))]
    pub(crate) fn decide(&mut self, xid: &Xid, commit: bool)
        ensures entries { IfSome (entry_of xid.now self.old.entries) (λ e. self.new.entries ≡ with_entry (record e { state = decision commit }) self.old.entries) }
        ensures held { self.new.held ≡ self.old.held }
    {
        if let Ok(place) = place_of(&self.list, xid) {
            self.list[place].state = decided(commit);
        }
    }

    /// Lets an entry go. Nothing changes where the xid has none.
    #[tactic(auto, using(crate::proofs::Places::rises_remove, crate::proofs::Places::without_remove, crate::proofs::Places::without_absent, crate::proofs::Places::left_held))]
    pub(crate) fn end(&mut self, xid: &Xid)
        ensures entries { self.new.entries ≡ without_entry xid.now self.old.entries }
        ensures held { self.new.held ≡ held_without (entry_of xid.now self.old.entries) self.old.held }
    {
        if let Ok(place) = place_of(&self.list, xid) {
            let entry = self.list.remove(place);
            let _held = self.held.remove(entry.rid);
        }
    }

    /// One more record of a journal that was read. An enqueue of a transaction makes its entry, in place of an older one; a
    /// dequeue decides the undecided entry that it is of; a commit ends one. All else changes nothing.
    pub(crate) fn apply(&mut self, got: &Got) -> Result<(), NoMemory>
        requires above { is_enqueue got.now.head.kind ≡ true → AllBelow got.now.head.rid self.old.held }
        ensures entries { IfOk result (λ _. self.new.entries ≡ after_list_record got.now.head.kind (read_of got.now).what self.old.entries) }
        ensures held { IfOk result (λ _. self.new.held ≡ held_after got.now.head.kind (read_of got.now) self.old) }
        ensures xid { IfOk result (λ _. length got.now.xid ≤ 128) }
    {
        // never so: an xid keeps within its limit, but doesn't tell that it does
        if got.xid.as_slice().len() > 128 {
            return Err(NoMemory);
        }
        match got.head.kind {
            Kind::Enqueue => self.enter(got)?,
            Kind::Dequeue => self.decide_by(got),
            Kind::Commit => self.end(&got.xid),
            Kind::Abort | Kind::Filler => {}
        }
        Ok(())
    }

    /// An enqueue that was read: where it is of a transaction, its entry comes in place of an older one.
    fn enter(&mut self, got: &Got) -> Result<(), NoMemory>
        requires above { AllBelow got.now.head.rid self.old.held }
        ensures entries { IfOk result (λ _. self.new.entries ≡ prepare_entry (read_of got.now).what (xid_in got.now.xid) self.old.entries) }
        ensures held { IfOk result (λ _. self.new.held ≡ held_entered (read_of got.now) (xid_in got.now.xid) self.old) }
    {
        if got.xid.as_slice().is_empty() {
            return Ok(());
        }
        self.end(&got.xid);
        let entry = ListEntry {
            xid: got.xid,
            rid: got.head.rid,
            state: entry_state(got.head.flagged),
        };
        let spot = Spot {
            file: got.file,
            at: got.at,
            end_file: got.end_file,
        };
        self.add(entry, spot)?;
        Ok(())
    }

    /// A dequeue that was read: it decides the undecided entry of its transaction whose record id is its target.
    fn decide_by(&mut self, got: &Got)
        ensures entries { self.new.entries ≡ decide_entry (read_of got.now).what (entry_of got.now.xid self.old.entries) self.old.entries }
        ensures held { self.new.held ≡ self.old.held }
    {
        if self.may_decide(got.head.target, &got.xid) {
            self.decide(&got.xid, got.head.flagged);
        }
    }

    /// Whether a transaction has an undecided entry with that record id.
    fn may_decide(&self, target: u64, xid: &Xid) -> bool
        ensures exact { result ≡ may_decide target (entry_of xid.now self.now.entries) }
    {
        match self.get(xid) {
            Some(entry) => entry.rid == target && is_undecided(entry.state),
            None => false,
        }
    }
}
