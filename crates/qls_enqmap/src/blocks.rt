// How many records there are in each block of slots: by these counts the record at a place is found without going over
// all slots before it.
ghost use Rattle.std.specs.Prelude.{◌≡◌, ℕ, ◌+◌, ◌-◌, ◌*◌, ◌/◌, ◌<◌, ◌≤◌, ◌^◌, true, min, length, slice_index_or, IfOk, IfErr};
ghost use Rattle.qls_enqmap.specs.Slots.{Slots, before, occupied, all_of, Gains, Loses, IsCounted, AreCounted, HasRoom};

use qls_model::NoMemory;
use std::alloc::Global;

const SMALL: usize = 64;

const MIDDLE: usize = 4_096;

const LARGE: usize = 262_144;

const HUGE: usize = 16_777_216;

// The counts of blocks of 64, of 4,096, of 262,144 and of 16,777,216 slots. A block has 64 of the next smaller ones, and
// there are at most 144 huge ones, since the table of slots ends at 9 * 2^28.
#[derive(Drop)]
pub struct Blocks {
    pub(crate) small: Vec<usize>,
    pub(crate) middle: Vec<usize>,
    pub(crate) large: Vec<usize>,
    pub(crate) huge: Vec<usize>,
}

// Counts of no slot.
pub(crate) fn no_blocks(alloc: Global) -> Blocks
    ensures counted { (es : Slots) → length es ≡ 0 → AreCounted result es }
{
    Blocks {
        small: Vec::new(alloc),
        middle: Vec::new(alloc),
        large: Vec::new(alloc),
        huge: Vec::new(alloc),
    }
}

// Makes sure that there is a block for the slot at a place, which is the first behind all slots.
pub(crate) fn make_room(blocks: &mut Blocks, place: usize) -> Result<(), NoMemory>
    ensures counted { (es : Slots) → length es ≡ place → AreCounted blocks.old es → AreCounted blocks.new es }
    ensures room { IfOk result (λ _. (es : Slots) → length es ≡ place → AreCounted blocks.old es → HasRoom blocks.new place) }
{
    room_for(&mut blocks.small, SMALL, place)?;
    room_for(&mut blocks.middle, MIDDLE, place)?;
    room_for(&mut blocks.large, LARGE, place)?;
    room_for(&mut blocks.huge, HUGE, place)?;
    Ok(())
}

fn room_for(counts: &mut Vec<usize>, width: usize, place: usize) -> Result<(), NoMemory>
    requires wide { 0 < width }
    ensures counted { (es : Slots) → length es ≡ place → IsCounted width counts.old.items es → IsCounted width counts.new.items es }
    ensures room { IfOk result (λ _. (es : Slots) → length es ≡ place → IsCounted width counts.old.items es → place < length counts.new.items * width) }
{
    if place / width == counts.len() {
        counts.push(0)?;
    }
    Ok(())
}

// Counts one record more, in a slot at a place behind all others.
pub(crate) fn count_more(blocks: &mut Blocks, place: usize)
    ensures counted { (es us : Slots) → AreCounted blocks.old es → HasRoom blocks.old place → length es < 2 ^ 63 → length us ≡ place + 1 → Gains es us place → AreCounted blocks.new us }
{
    one_more(&mut blocks.small, SMALL, place);
    one_more(&mut blocks.middle, MIDDLE, place);
    one_more(&mut blocks.large, LARGE, place);
    one_more(&mut blocks.huge, HUGE, place);
}

fn one_more(counts: &mut Vec<usize>, width: usize, place: usize)
    requires wide { 0 < width }
    ensures counted { (es us : Slots) → IsCounted width counts.old.items es → place < length counts.old.items * width → length es < 2 ^ 63 → length us ≡ place + 1 → Gains es us place → IsCounted width counts.new.items us }
{
    let block = place / width;
    if block < counts.len() {
        counts[block] = counts[block].saturating_add(1);
    }
}

// Counts one record less, in the slot at a place.
pub(crate) fn count_less(blocks: &mut Blocks, place: usize)
    ensures counted { (es us : Slots) → AreCounted blocks.old es → place < length es → length us ≡ length es → Loses es us place → AreCounted blocks.new us }
{
    one_less(&mut blocks.small, SMALL, place);
    one_less(&mut blocks.middle, MIDDLE, place);
    one_less(&mut blocks.large, LARGE, place);
    one_less(&mut blocks.huge, HUGE, place);
}

fn one_less(counts: &mut Vec<usize>, width: usize, place: usize)
    requires wide { 0 < width }
    ensures counted { (es us : Slots) → IsCounted width counts.old.items es → place < length es → length us ≡ length es → Loses es us place → IsCounted width counts.new.items us }
{
    let block = place / width;
    if block < counts.len() {
        counts[block] = counts[block].saturating_sub(1);
    }
}

// Counts so many slots that each have a record, where there were so many before. Blocks behind those have no record, and
// aren't gone over: a table that was long once costs no more than a short one.
pub(crate) fn count_all(blocks: &mut Blocks, slots: usize, were: usize)
    ensures counted { (es us : Slots) → AreCounted blocks.old es → length es ≡ were → length us ≤ length es → length us ≡ slots → all_of (occupied us) ≡ true → AreCounted blocks.new us }
{
    fill(&mut blocks.small, SMALL, slots, were);
    fill(&mut blocks.middle, MIDDLE, slots, were);
    fill(&mut blocks.large, LARGE, slots, were);
    fill(&mut blocks.huge, HUGE, slots, were);
}

fn fill(counts: &mut Vec<usize>, width: usize, slots: usize, were: usize)
    requires wide { 0 < width }
    ensures counted { (es us : Slots) → IsCounted width counts.old.items es → length es ≡ were → length us ≤ length es → length us ≡ slots → all_of (occupied us) ≡ true → IsCounted width counts.new.items us }
{
    let blocks = counts.len().min((were / width).saturating_add(1));
    let mut left = slots;
    for block in 0..blocks {
        let filled = left.min(width);
        counts[block] = filled;
        left -= filled;
    }
}

// A place among the slots, and how many records are left to be passed from there on.
#[derive(Clone, Copy)]
pub(crate) struct Passed {
    pub(crate) place: usize,
    pub(crate) left: usize,
}

// Passes so many records, by whole blocks: fewer than a small block has are left.
pub(crate) fn pass_blocks(blocks: &Blocks, records: usize) -> Passed
    ensures passed { (es : Slots) → AreCounted blocks.now es → length es < 2 ^ 63 → records < before es (length es) → before es result.place + result.left ≡ records }
{
    let huge = pass(blocks.huge.as_slice(), 0, records);
    let large = pass(
        blocks.large.as_slice(),
        huge.block.saturating_mul(HUGE / LARGE),
        huge.left,
    );
    let middle = pass(
        blocks.middle.as_slice(),
        large.block.saturating_mul(LARGE / MIDDLE),
        large.left,
    );
    let small = pass(
        blocks.small.as_slice(),
        middle.block.saturating_mul(MIDDLE / SMALL),
        middle.left,
    );
    Passed {
        place: small.block.saturating_mul(SMALL),
        left: small.left,
    }
}

// A block, and how many records are left to be passed from its beginning on.
#[derive(Clone, Copy)]
struct Reached {
    block: usize,
    left: usize,
}

// Passes the blocks from one on, while so many records are left as each has.
fn pass(counts: &[usize], from: usize, records: usize) -> Reached
    ensures passed { (width : ℕ) (es : Slots) (n : ℕ) → IsCounted width counts.now es → before es (from * width) + records ≡ n → before es (result.block * width) + result.left ≡ n }
{
    let mut block = from;
    let mut left = records;
    while block < counts.len() && counts[block] <= left {
        left -= counts[block];
        block += 1;
    }
    Reached { block, left }
}
