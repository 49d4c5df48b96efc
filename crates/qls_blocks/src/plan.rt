// How a batch lies over files.
ghost use Rattle.std.specs.Prelude.{◌≡◌, ℕ, ◌+◌, ◌-◌, ◌*◌, ◌%◌, ◌≤◌, ◌<◌, ◌^◌, ◌++◌, List, length, drop, map, if◌then◌else◌, IfOk};
ghost use Rattle.qls_record.specs.Record.{Record, is_enqueue};
ghost use Rattle.qls_record.specs.Head.{head_record_length};
ghost use Rattle.qls_blocks.specs.Entries.{record_of};
ghost use Rattle.qls_blocks.specs.Batching.{length_of, block_length};
ghost use Rattle.qls_blocks.specs.Plans.{fresh_file, starts};

use crate::entry::Entry;
use qls_model::{NoMemory, Seq};
use qls_record::{Head, Kind, length};
use std::alloc::Global;

/// How a batch lies over files.
#[derive(Drop)]
pub struct Plan {
    /// How many bytes the batch takes, fillers and all: a multiple of 4,096.
    pub length: u64,
    /// How many fillers of 128 bytes follow the records.
    pub fillers: u64,
    /// What the header of each file behind the present one tells, in the order of the files.
    pub fresh: Seq<FreshFile>,
}

/// What the header of a file tells that is taken for a batch.
#[derive(Clone, Copy, Debug, PartialEq, Eq)]
pub struct FreshFile {
    /// The place in the file, in bytes, where the first record starts that starts in it, fillers too, or the batch's end
    /// where that lies in it: 4,096 at the least. 0 where one record covers the file to its end.
    pub first: u64,
    /// The record id in force there.
    pub rid: u64,
}

/// How far a batch was gone through: so many records, up to this place, with this record id in force.
#[derive(Clone, Copy)]
pub struct Reached {
    pub records: usize,
    pub place: u64,
    pub rid: u64,
}

/// The least multiple of 4,096 that isn't below `length`.
pub fn whole_blocks(length: u64) -> u64
    requires fits { length ≤ 2 ^ 62 }
    ensures exact { result ≡ block_length length }
{
    (length + 4095) / 4096 * 4096
}

/// The place behind `length` bytes from `used` on. Want of memory is answered where it, or what is `more` bytes behind
/// it, is no number of 64 bits.
pub fn end_of(used: u64, length: u64, more: u64) -> Result<u64, NoMemory>
    ensures exact { IfOk result (λ end. end ≡ used + length) }
    ensures room { IfOk result (λ end. end + more < 2 ^ 64) }
{
    let end = used.checked_add(length).ok_or(NoMemory)?;
    end.checked_add(more).ok_or(NoMemory)?;
    Ok(end)
}

/// The header values of so many files of one capacity, the first of which starts one capacity on.
pub fn fresh_files(
    alloc: Global,
    entries: &[Entry],
    from: Reached,
    capacity: u64,
    count: u64,
) -> Result<Seq<FreshFile>, NoMemory>
    requires start { from.records ≡ 0 }
    requires capacity { 4096 ≤ capacity }
    requires reach { (i : ℕ) → i < count → capacity * (i + 1) ≤ from.place + length_of (map record_of entries.now) }
    requires room { from.place + length_of (map record_of entries.now) + capacity < 2 ^ 64 }
    ensures exact { IfOk result (λ fresh. (fs : List Record) → fresh ≡ map (fresh_file capacity from.rid from.place (map record_of entries.now ++ fs)) (starts capacity capacity count)) }
{
    let mut fresh = Seq::new(alloc);
    let mut reached = from;
    let mut start = capacity;
    for _ in 0..count {
        reached = passed(entries, reached, start);
        fresh.push(fresh_at(reached, start, capacity))?;
        start += capacity;
    }
    Ok(fresh)
}

/// Goes on to the first record that starts at `start` or later, or to the end of the last one.
fn passed(entries: &[Entry], from: Reached, start: u64) -> Reached
    requires within { from.records ≤ length entries.now }
    requires enough { start ≤ from.place + length_of (map record_of (drop from.records entries.now)) }
    requires fits { from.place + length_of (map record_of (drop from.records entries.now)) < 2 ^ 64 }
    ensures within { result.records ≤ length entries.now }
    ensures there { start ≤ result.place }
    ensures rest { result.place + length_of (map record_of (drop result.records entries.now)) ≡ from.place + length_of (map record_of (drop from.records entries.now)) }
    ensures same { (capacity s : ℕ) (fs : List Record) → start ≤ s → fresh_file capacity result.rid result.place (map record_of (drop result.records entries.now) ++ fs) s ≡ fresh_file capacity from.rid from.place (map record_of (drop from.records entries.now) ++ fs) s }
{
    let mut reached = from;
    while reached.place < start {
        reached = after(reached, &entries[reached.records].head);
    }
    reached
}

/// Goes on past one record.
fn after(reached: Reached, head: &Head) -> Reached
    requires count { reached.records + 1 < 2 ^ 64 }
    requires xid { head.now.xid_size ≤ 128 }
    requires body { head.now.body_size ≤ 1048576 }
    requires fits { reached.place + head_record_length head.now < 2 ^ 64 }
    ensures exact { result ≡ record { records = reached.records + 1; place = reached.place + head_record_length head.now; rid = if is_enqueue head.now.kind then head.now.rid else reached.rid } }
{
    let rid = match head.kind {
        Kind::Enqueue => head.rid,
        _ => reached.rid,
    };
    Reached {
        records: reached.records + 1,
        place: reached.place + length(head),
        rid,
    }
}

/// The header values of the file that starts at `start`, where that is the place reached or lies before it, behind the
/// record before.
fn fresh_at(reached: Reached, start: u64, capacity: u64) -> FreshFile
    requires there { (4096 ≤ start) × (start ≤ reached.place) }
    ensures exact { (rs : List Record) → result ≡ fresh_file capacity reached.rid reached.place rs start }
{
    let within = reached.place - start;
    let first = if within < capacity { within + 4096 } else { 0 };
    FreshFile {
        first,
        rid: reached.rid,
    }
}
