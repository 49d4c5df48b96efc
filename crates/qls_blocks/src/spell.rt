// The bytes of a batch.
ghost use Rattle.std.specs.Prelude.{◌≡◌, ℕ, ◌+◌, ◌*◌, ◌/◌, ◌≤◌, ◌<◌, ◌^◌, ◌++◌, length, map, replicate, OnOk, IfOk};
ghost use Rattle.qls_shape.specs.declared.Version.TheVariants.{Two};
ghost use Rattle.qls_record.specs.Spelling.{spelling};
ghost use Rattle.qls_blocks.specs.Entries.{record_of};
ghost use Rattle.qls_blocks.specs.Batching.{length_of, filler_of};
ghost use Rattle.qls_blocks.specs.Spelled.{serial_at, spelled_over};

use crate::entry::Entry;
use qls_model::{Bytes, NoMemory, Xid};
use qls_record::{Head, Kind, encode_into};
use std::alloc::Global;

/// A filler of that record id.
pub fn filler(alloc: Global, rid: u64) -> Entry
    ensures exact { record_of result ≡ filler_of rid }
{
    Entry {
        head: Head {
            kind: Kind::Filler,
            flagged: false,
            rid,
            target: 0,
            xid_size: 0,
            body_size: 0,
        },
        xid: Xid::new(&[]).unwrap(),
        body: Bytes::from_vec(Vec::new(alloc)),
    }
}

/// Puts the spelling of a record at the end of the bytes.
fn spell_onto(entry: &Entry, serial: u64, into: &mut Vec<u8>) -> Result<(), NoMemory>
    ensures spelled { OnOk result (into.new.items ≡ into.old.items ++ spelling Two serial (record_of entry.now)) }
{
    let from = into.len();
    let more = entry.length() as usize;
    into.resize(from + more, 0)?;
    encode_into(
        &entry.head,
        serial,
        entry.xid.as_slice(),
        entry.body.as_slice(),
        &mut into[from..],
    );
    Ok(())
}

/// The serial of the file that holds a place.
fn serial_of(place: u64, capacity: u64, serials: &[u64]) -> u64
    requires capacity { 0 < capacity }
    requires held { place / capacity < length serials.now }
    ensures exact { result ≡ serial_at capacity serials.now place }
{
    serials[(place / capacity) as usize]
}

/// Puts the spelling of each record at the end of the bytes, for the file that holds the place where it starts, and
/// answers the place behind them. A file of the serials holds each place before `end`.
pub fn records(
    entries: &[Entry],
    from: u64,
    end: u64,
    capacity: u64,
    serials: &[u64],
    into: &mut Vec<u8>,
) -> Result<u64, NoMemory>
    requires capacity { 0 < capacity }
    requires within { from + length_of (map record_of entries.now) ≤ end }
    requires held { (p : ℕ) → p < end → p / capacity < length serials.now }
    ensures place { IfOk result (λ place. place ≡ from + length_of (map record_of entries.now)) }
    ensures spelled { OnOk result (into.new.items ≡ into.old.items ++ spelled_over capacity serials.now from (map record_of entries.now)) }
{
    let mut place = from;
    for entry in entries {
        let serial = serial_of(place, capacity, serials);
        spell_onto(entry, serial, into)?;
        place += entry.length();
    }
    Ok(place)
}

/// The same for so many fillers that are one.
pub fn fillers(
    filler: &Entry,
    count: u64,
    from: u64,
    end: u64,
    capacity: u64,
    serials: &[u64],
    into: &mut Vec<u8>,
) -> Result<(), NoMemory>
    requires capacity { 0 < capacity }
    requires within { from + length_of (replicate count (record_of filler.now)) ≤ end }
    requires held { (p : ℕ) → p < end → p / capacity < length serials.now }
    ensures spelled { OnOk result (into.new.items ≡ into.old.items ++ spelled_over capacity serials.now from (replicate count (record_of filler.now))) }
{
    let mut place = from;
    for _ in 0..count {
        let serial = serial_of(place, capacity, serials);
        spell_onto(filler, serial, into)?;
        place += filler.length();
    }
    Ok(())
}
