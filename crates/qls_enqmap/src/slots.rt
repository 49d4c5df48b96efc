// Slots by rising record id; each has a record, or is a hole where one went out.
ghost use Rattle.std.specs.Prelude.{◌≡◌, ℕ, None, IfSome, ◌+◌, ◌≤◌, ◌<◌, ◌^◌, Option, Some, true, not, [], ◌∷◌, ◌++◌, length, take, drop, min, slice_get, option_copied, is_some, IfNone, IfOk, IfErr, if◌then◌else◌};
ghost use Rattle.std.specs.List.{filter};
ghost use Rattle.qls_enqmap.specs.declared.Held.{Held};
ghost use Rattle.qls_enqmap.specs.Records.{held_at, with_status, without};
ghost use Rattle.qls_enqmap.specs.Slots.{before, held_in, occupied, Loses, IsSlotOf, AreCounted, none_of, first_of, last_of, all_of, last_file, slot_file, record_in, restatus, RisesFrom, RidsBelow, FilesRise};

use crate::Held;
use crate::blocks::{Blocks, count_all};
use indexmap::IndexMap;
use qls_model::{NoMemory, Status};

pub(crate) type Slots = IndexMap<u64, Option<Held>>;

// The record of this id.
pub(crate) fn find(slots: &Slots, rid: u64) -> Option<&Held>
    requires rises { RisesFrom 0 slots.now.entries }
    ensures found { option_copied result ≡ held_at rid (held_in slots.now.entries) }
{
    match slots.get(&rid) {
        Some(slot) => slot.as_ref(),
        None => None,
    }
}

// Gives the record of this id, where there is one, another status.
pub(crate) fn set_status(slots: &mut Slots, rid: u64, status: Status)
    requires rises { RisesFrom 0 slots.old.entries }
    ensures set { held_in slots.new.entries ≡ with_status rid status (held_in slots.old.entries) }
    ensures rises { RisesFrom 0 slots.new.entries }
    ensures occupied { occupied slots.new.entries ≡ occupied slots.old.entries }
    ensures long { length slots.new.entries ≡ length slots.old.entries }
    ensures before { (n : ℕ) → before slots.new.entries n ≡ before slots.old.entries n }
{
    match slots.get_mut(&rid) {
        Some(slot) => give_status(slot, status),
        None => {}
    }
}

fn give_status(slot: &mut Option<Held>, status: Status)
    ensures given { slot.new ≡ restatus status slot.old }
{
    if let Some(held) = slot {
        held.status = status;
    }
}

// The place of the slot of this id.
pub(crate) fn slot_of(slots: &Slots, rid: u64) -> Option<usize>
    requires rises { RisesFrom 0 slots.now.entries }
    ensures slot { IfSome result (λ place. IsSlotOf slots.now.entries place rid) }
    ensures none { IfNone result (held_at rid (held_in slots.now.entries) ≡ None) }
{
    match slots.get_full(&rid) {
        Some((place, _, _)) => Some(place),
        None => None,
    }
}

// Takes out the record of this id, where there is one, and leaves a hole.
pub(crate) fn take_out(slots: &mut Slots, rid: u64) -> Option<Held>
    requires rises { RisesFrom 0 slots.old.entries }
    ensures found { result ≡ held_at rid (held_in slots.old.entries) }
    ensures left { held_in slots.new.entries ≡ without rid (held_in slots.old.entries) }
    ensures rises { RisesFrom 0 slots.new.entries }
    ensures holes { (n : ℕ) → none_of (take n (occupied slots.old.entries)) ≡ true → none_of (take n (occupied slots.new.entries)) ≡ true }
    ensures long { length slots.new.entries ≡ length slots.old.entries }
    ensures unknown { IfNone result (slots.new.entries ≡ slots.old.entries) }
    ensures loses { IfSome result (λ _. (place : ℕ) → IsSlotOf slots.old.entries place rid → Loses slots.old.entries slots.new.entries place) }
    ensures fewer { length (held_in slots.new.entries) + (if is_some result then 1 else 0) ≡ length (held_in slots.old.entries) }
{
    match slots.get_mut(&rid) {
        Some(slot) => slot.take(),
        None => None,
    }
}

// Puts a record behind all others.
pub(crate) fn put_last(slots: &mut Slots, held: Held) -> Result<(), NoMemory>
    requires above { RidsBelow held.rid slots.old.entries }
    ensures put { IfOk result (λ _. slots.new.entries ≡ slots.old.entries ++ (held.rid, Some held) ∷ []) }
    ensures refused { IfErr result (λ _. slots.new.entries ≡ slots.old.entries) }
{
    slots.insert(held.rid, Some(held))?;
    Ok(())
}

// The file of the last record; 0 where there is none.
pub(crate) fn file_of_last(slots: &Slots) -> u64
    requires last { last_of (occupied slots.now.entries) ≡ true }
    ensures file { result ≡ last_file 0 (held_in slots.now.entries) }
{
    match slots.last() {
        Some((_, slot)) => file_of(slot),
        None => 0,
    }
}

// The file of the slot's record; 0 at a hole.
fn file_of(slot: &Option<Held>) -> u64
    ensures file { result ≡ slot_file slot.now }
{
    match slot {
        Some(held) => held.file,
        None => 0,
    }
}

// Whether the last slot is a hole.
fn last_is_hole(slots: &Slots) -> bool
    ensures hole { result ≡ not (last_of (occupied slots.now.entries)) }
{
    match slots.last() {
        Some((_, slot)) => slot.is_none(),
        None => false,
    }
}

// Whether the slot at a place is a hole.
fn is_hole(slots: &Slots, at: usize) -> bool
    ensures hole { result ≡ not (first_of (drop at (occupied slots.now.entries))) }
{
    match slots.get_index(at) {
        Some((_, slot)) => slot.is_none(),
        None => false,
    }
}

// Removes the holes behind the last record.
fn trim_end(slots: &mut Slots)
    ensures held { held_in slots.new.entries ≡ held_in slots.old.entries }
    ensures rises { RisesFrom 0 slots.old.entries → RisesFrom 0 slots.new.entries }
    ensures last { last_of (occupied slots.new.entries) ≡ true }
    ensures before { (n : ℕ) → before slots.new.entries n ≡ before slots.old.entries n }
    ensures shorter { length slots.new.entries ≤ length slots.old.entries }
    ensures holes { (n : ℕ) → none_of (take n (occupied slots.old.entries)) ≡ true → none_of (take n (occupied slots.new.entries)) ≡ true }
{
    while last_is_hole(slots) {
        slots.pop();
    }
}

// The place of the first record from a place on; the number of slots where there is none.
pub(crate) fn next_held(slots: &Slots, from: usize) -> usize
    requires within { from ≤ length slots.now.entries }
    ensures from { from ≤ result }
    ensures within { result ≤ length slots.now.entries }
    ensures same { held_in (take result slots.now.entries) ≡ held_in (take from slots.now.entries) }
    ensures holes { none_of (take from (occupied slots.now.entries)) ≡ true → none_of (take result (occupied slots.now.entries)) ≡ true }
    ensures first { first_of (drop result (occupied slots.now.entries)) ≡ true }
{
    let len = slots.len();
    let mut at = from;
    while at < len && is_hole(slots, at) {
        at += 1;
    }
    at
}

// Closes up all holes. It takes as many steps as there are slots; `retain` would go over the room of the whole table,
// which stays long once many records were held.
fn close_up(slots: &mut Slots)
    ensures closed { slots.new.entries ≡ filter (λ e. is_some e.1) slots.old.entries }
{
    let records = move_together(slots);
    slots.truncate(records);
}

// Moves the records in front of all holes, in their order, and answers how many they are.
fn move_together(slots: &mut Slots) -> usize
    ensures together { take result slots.new.entries ≡ filter (λ e. is_some e.1) slots.old.entries }
{
    let mut records = 0;
    for at in 0..slots.len() {
        if is_held(slots, at) {
            slots.swap_indices(records, at);
            records += 1;
        }
    }
    records
}

// Whether the slot at a place has a record.
fn is_held(slots: &Slots, at: usize) -> bool
    ensures held { result ≡ is_some (record_in (slice_get slots.now.entries at)) }
{
    match slots.get_index(at) {
        Some((_, slot)) => slot.is_some(),
        None => false,
    }
}

// Removes the holes behind the last record, closes up all holes if they are more than the records, and answers the
// place of the first record.
pub(crate) fn tidy(slots: &mut Slots, blocks: &mut Blocks, count: usize, start: usize) -> usize
    requires holes { none_of (take start (occupied slots.old.entries)) ≡ true }
    ensures held { held_in slots.new.entries ≡ held_in slots.old.entries }
    ensures rises { RisesFrom 0 slots.old.entries → RisesFrom 0 slots.new.entries }
    ensures within { result ≤ length slots.new.entries }
    ensures holes { none_of (take result (occupied slots.new.entries)) ≡ true }
    ensures first { first_of (drop result (occupied slots.new.entries)) ≡ true }
    ensures last { last_of (occupied slots.new.entries) ≡ true }
    ensures counted { AreCounted blocks.old slots.old.entries → AreCounted blocks.new slots.new.entries }
{
    trim_end(slots);
    let were = slots.len();
    if were / 2 > count {
        close_up(slots);
        count_all(blocks, slots.len(), were);
        return 0;
    }
    next_held(slots, start.min(slots.len()))
}

// Whether the files don't fall, once a record of this file is put behind the others.
pub(crate) fn still_rising(slots: &Slots, rising: bool, file: u64) -> bool
    requires last { last_of (occupied slots.now.entries) ≡ true }
    requires files { rising ≡ true → FilesRise 0 (held_in slots.now.entries) }
    ensures small { length slots.now.entries < 2 ^ 63 }
    ensures rising { result ≡ true → (h : Held) → h.file ≡ file → FilesRise 0 (held_in slots.now.entries ++ h ∷ []) }
{
    slots.len() == 0 || (rising && file_of_last(slots) <= file)
}
