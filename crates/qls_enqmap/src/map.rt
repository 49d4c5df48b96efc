// The map of held records.
use crate::blocks::{Blocks, count_less, count_more, make_room, no_blocks};
use crate::places::{file_at_place, held_at_place, least_file_of, place_of};
use crate::slots::{find, put_last, set_status, slot_of, still_rising, take_out, tidy};
use crate::{EnqFault, Held};
use indexmap::IndexMap;
use qls_model::{NoMemory, Status, Xid};
use std::alloc::Global;
use std::marker::Model;

/// The records that a queue holds. Clauses see a list by rising record id.
///
/// A record that goes out leaves a hole, which is closed up in place once the holes are more than the records:
/// so each call takes amortised constant time, whatever the map held before, but for `first_file` where files fall
/// along the ids. Only `insert` takes memory.
#[derive(Drop)]
pub struct EnqMap {
    slots: IndexMap<u64, Option<Held>>,
    blocks: Blocks,
    count: usize,
    start: usize,
    rising: bool,
}

impl Model for EnqMap {
    ghost use Rattle.std.specs.Prelude.{List};
    ghost use Rattle.qls_enqmap.specs.declared.Held.{Held};
    ghost use Rattle.qls_enqmap.specs.Slots.{held_in, IsKept};

    ghost Value = { List Held };

    ghost view = { λ a. held_in a.slots.entries };

    ghost invariant = { λ a. IsKept a.slots.entries a.blocks a.count a.start a.rising };
}

impl EnqMap {
    ghost use Rattle.std.specs.Prelude.{◌≡◌, ◌++◌, ◌∷◌, [], IfOk, IfErr, Option, slice_get, option_copied};
    ghost use Rattle.qls_model.specs.declared.machine.Status.TheVariants.{Ready, Going};
    ghost use Rattle.qls_enqmap.specs.Records.{held_at, with_status, without, lock_answer, unlock_answer, removed, least_file, AllBelow, RidsRise};

    /// No record.
    pub fn new(alloc: Global) -> EnqMap
        ensures empty { result ≡ [] }
    {
        EnqMap {
            slots: IndexMap::new(alloc),
            blocks: no_blocks(alloc),
            count: 0,
            start: 0,
            rising: true,
        }
    }

    /// Puts a record behind all others; its id is above theirs. Where memory is wanting it is dropped, and nothing
    /// changes.
    pub fn insert(&mut self, held: Held) -> Result<(), NoMemory>
        requires above { AllBelow held.rid self.old }
        ensures inserted { IfOk result (λ _. self.new ≡ self.old ++ held ∷ []) }
        ensures refused { IfErr result (λ _. self.new ≡ self.old) }
        ensures rising { RidsRise self.new }
    {
        let place = self.slots.len();
        let rising = still_rising(&self.slots, self.rising, held.file);
        make_room(&mut self.blocks, place)?;
        put_last(&mut self.slots, held)?;
        count_more(&mut self.blocks, place);
        self.count += 1;
        self.rising = rising;
        Ok(())
    }

    /// A ready record becomes going by the transaction. Unknown exactly where there is no record of that id, Locked
    /// exactly where it isn't ready; then nothing changes.
    pub fn lock(&mut self, rid: u64, xid: Xid) -> Result<(), EnqFault>
        ensures answer { result ≡ lock_answer (held_at rid self.old) }
        ensures locked { IfOk result (λ _. self.new ≡ with_status rid (Going xid) self.old) }
        ensures refused { IfErr result (λ _. self.new ≡ self.old) }
        ensures rising { RidsRise self.new }
    {
        let answer = may_lock(find(&self.slots, rid));
        if answer.is_ok() {
            set_status(&mut self.slots, rid, Status::Going(xid));
        }
        answer
    }

    /// A record becomes ready. Unknown exactly where there is none of that id; then nothing changes.
    pub fn unlock(&mut self, rid: u64) -> Result<(), EnqFault>
        ensures answer { result ≡ unlock_answer (held_at rid self.old) }
        ensures unlocked { IfOk result (λ _. self.new ≡ with_status rid Ready self.old) }
        ensures refused { IfErr result (λ _. self.new ≡ self.old) }
        ensures rising { RidsRise self.new }
    {
        let answer = may_unlock(find(&self.slots, rid));
        if answer.is_ok() {
            set_status(&mut self.slots, rid, Status::Ready);
        }
        answer
    }

    /// Takes a record out. Unknown exactly where there is none of that id; then nothing changes.
    pub fn remove(&mut self, rid: u64) -> Result<Held, EnqFault>
        ensures answer { result ≡ removed (held_at rid self.old) }
        ensures left { IfOk result (λ _. self.new ≡ without rid self.old) }
        ensures refused { IfErr result (λ _. self.new ≡ self.old) }
        ensures rising { RidsRise self.new }
    {
        let Some(place) = slot_of(&self.slots, rid) else {
            return Err(EnqFault::Unknown);
        };
        match take_out(&mut self.slots, rid) {
            Some(held) => {
                count_less(&mut self.blocks, place);
                self.count -= 1;
                self.start = tidy(&mut self.slots, &mut self.blocks, self.count, self.start);
                Ok(held)
            }
            None => Err(EnqFault::Unknown),
        }
    }

    /// The record of this id; None exactly where there is none.
    pub fn get(&self, rid: u64) -> Option<&Held>
        ensures found { option_copied result ≡ held_at rid self.now }
        ensures rising { RidsRise self.now }
    {
        find(&self.slots, rid)
    }

    /// The record at a place by rising id, counted from 0; None exactly where there is none. It takes at most 400 steps.
    pub fn at(&self, at: usize) -> Option<&Held>
        ensures there { option_copied result ≡ slice_get self.now at }
    {
        if at >= self.count {
            return None;
        }
        let place = place_of(&self.slots, &self.blocks, self.count, self.start, at);
        held_at_place(&self.slots, place)
    }

    /// The least file in which a record starts; None exactly where there is no record. It takes the same time whatever
    /// the map holds, where the files don't fall along the ids; else it goes over all records.
    pub fn first_file(&self) -> Option<u64>
        ensures least { result ≡ least_file self.now }
    {
        if self.rising {
            file_at_place(&self.slots, self.start)
        } else {
            least_file_of(&self.slots)
        }
    }
}

// Whether a record that is found may be locked.
fn may_lock(held: Option<&Held>) -> Result<(), EnqFault>
    ensures answer { result ≡ lock_answer (option_copied held.entry) }
{
    match held {
        None => Err(EnqFault::Unknown),
        Some(held) => match held.status {
            Status::Ready => Ok(()),
            _ => Err(EnqFault::Locked),
        },
    }
}

// Whether a record that is found may be unlocked.
fn may_unlock(held: Option<&Held>) -> Result<(), EnqFault>
    ensures answer { result ≡ unlock_answer (option_copied held.entry) }
{
    match held {
        None => Err(EnqFault::Unknown),
        Some(_) => Ok(()),
    }
}

ghost use Rattle.std.specs.Prelude.{◌≡◌, option_copied};
ghost use Rattle.qls_enqmap.specs.Records.{lock_answer, unlock_answer};
