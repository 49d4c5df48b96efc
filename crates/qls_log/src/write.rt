// The parts of a batch, one write for each file.
ghost use Rattle.std.specs.Prelude.{◌≡◌, ℕ, ◌+◌, ◌-◌, ◌*◌, ◌/◌, ◌%◌, ◌≤◌, ◌<◌, ◌^◌, if◌then◌else◌, ◌==◌, drop, length, min, IfOk, IfSome};
ghost use Rattle.qls_site.specs.Content.{Tells, Causes};
ghost use Rattle.qls_blocks.specs.Batching.{with_fillers};
ghost use Rattle.qls_blocks.specs.Plans.{IsPlanOf};
ghost use Rattle.qls_blocks.specs.Spelled.{spelled_over};
ghost use Rattle.qls_pool.specs.Discipline.{Orderly};
ghost use Rattle.qls_pool.specs.Files.{OnDisk};
ghost use Rattle.qls_log.specs.declared.opening.Opening.{Opening};
ghost use Rattle.qls_log.specs.Logs.{ids, serials};
ghost use Rattle.qls_log.specs.Steps.{AreOwn, EndsOwn, GoesOwn};
ghost use Rattle.qls_log.specs.Faults.{SiteCauses};
ghost use Rattle.qls_log.specs.Writing.{HaveRoom, AreInUse, WritesParts, WritesAll, from_written};

use crate::fault::LogError;
use qls_blocks::{Batch, Plan, write_part};
use qls_model::{NoMemory, Seq};
use qls_pool::Linked;
use qls_site::{Site, SiteError};
use std::alloc::Global;

/// Writes a batch's bytes over the data areas of these files, from a place of the first one on: one write for each file,
/// in order. Each file has a part of it.
pub(crate) fn write_parts<S: Site>(
    site: &mut S,
    ids: &[u64],
    from: u64,
    capacity: u64,
    bytes: &[u8],
) -> Result<(), SiteError>
    requires there { IfSome (S.told site.old) (HaveRoom capacity ids.now) }
    requires from { (from % 4096 ≡ 0) × (from < capacity) }
    requires capacity { (capacity % 4096 ≡ 0) × (capacity < 2 ^ 40) }
    requires blocks { (0 < length bytes.now) × (length bytes.now % 4096 ≡ 0) }
    requires each { (i : ℕ) → i < length ids.now → capacity * i < from + length bytes.now }
    ensures told { Tells (WritesParts capacity ids.now from bytes.now result) (S.told site.old) (S.told site.new) }
    ensures cause { Causes (S.faults site.old) (S.faults site.new) result }
    ensures syncs { S.syncs site.new ≡ S.syncs site.old }
    ensures reads { S.reads site.new ≡ S.reads site.old }
    ensures orderly { Orderly (AreInUse ids.now) result (S.told site.old) (S.told site.new) }
    ensures own { EndsOwn ids.now result (S.told site.old) (S.told site.new) }
{
    let mut at = from;
    let mut done = 0;
    for id in ids {
        let more = part_length(bytes.len() - done, (capacity - at) as usize);
        write_part(site, *id, 4096 + at, &bytes[done..done + more])?;
        done += more;
        at = 0;
    }
    Ok(())
}

/// How many of the bytes that are left go into the room that a file has.
fn part_length(left: usize, room: usize) -> usize
    ensures exact { result ≡ min left room }
{
    if left < room { left } else { room }
}

/// The serials of files, in order.
fn serials_of(alloc: Global, files: &[Linked]) -> Result<Seq<u64>, NoMemory>
    ensures exact { IfOk result (λ list. list ≡ serials files.now) }
{
    let mut list = Seq::new(alloc);
    for file in files {
        list.push(file.header().serial)?;
    }
    Ok(list)
}

/// The ids of files, in order.
fn ids_of(alloc: Global, files: &[Linked]) -> Result<Seq<u64>, NoMemory>
    ensures exact { IfOk result (λ list. list ≡ ids files.now) }
{
    let mut list = Seq::new(alloc);
    for file in files {
        list.push(file.id())?;
    }
    Ok(list)
}

/// The files from one on.
pub(crate) fn files_from(files: &[Linked], at: usize) -> &[Linked]
    requires there { at ≤ length files.now }
    ensures exact { result.now ≡ drop at files.now }
{
    &files[at..]
}

/// The files with room behind `used` bytes of the first one: without that one where it is full.
fn with_room(files: &[Linked], used: u64, capacity: u64) -> &[Linked]
    requires some { 0 < length files.now }
    ensures exact { result.now ≡ from_written capacity used files.now }
{
    if used == capacity { &files[1..] } else { files }
}

/// The place behind `used` bytes of a file's data area, or the start of the next one where the file is full.
fn place_behind(used: u64, capacity: u64) -> u64
    ensures exact { result ≡ (if used == capacity then 0 else used) }
{
    if used == capacity { 0 } else { used }
}

/// How many bytes of the last file's data area are written, where `length` bytes are laid over the file of which `used`
/// bytes are taken, and over so many fresh ones behind it.
pub(crate) fn used_behind(used: u64, length: u64, capacity: u64, fresh: u64) -> u64
    requires capacity { (0 < capacity) × (capacity % 4096 ≡ 0) }
    requires used { (used % 4096 ≡ 0) × (used ≤ capacity) }
    requires length { (0 < length) × (length % 4096 ≡ 0) }
    requires fresh { fresh ≡ (used + length - 1) / capacity }
    ensures exact { result + capacity * fresh ≡ used + length }
    ensures blocks { result % 4096 ≡ 0 }
    ensures within { result ≤ capacity }
{
    if fresh == 0 {
        used + length
    } else {
        length - (capacity - used) - capacity * (fresh - 1)
    }
}

/// Spells a batch for these files, the first of which has `used` bytes taken, and writes each its part. It answers the
/// ids of the files that were written.
pub(crate) fn write_batch<S: Site>(
    alloc: Global,
    site: &mut S,
    files: &[Linked],
    batch: &Batch,
    plan: &Plan,
    used: u64,
    capacity: u64,
) -> Result<Seq<u64>, LogError>
    requires some { 0 < length batch.now }
    requires capacity { (0 < capacity) × (capacity % 4096 ≡ 0) × (capacity < 2 ^ 40) }
    requires used { (used % 4096 ≡ 0) × (used ≤ capacity) }
    requires planned { IsPlanOf batch.now used capacity plan.now }
    requires files { length files.now ≡ length plan.now.fresh + 1 }
    requires there { IfSome (S.told site.old) (HaveRoom capacity (ids files.now)) }
    ensures written { IfOk result (λ written. written ≡ ids (from_written capacity used files.now)) }
    ensures told { IfOk result (λ written. Tells (WritesAll capacity written (if used == capacity then 0 else used) (spelled_over capacity (serials files.now) used (with_fillers batch.now))) (S.told site.old) (S.told site.new)) }
    ensures cause { SiteCauses (S.faults site.old) (S.faults site.new) result }
    ensures syncs { S.syncs site.new ≡ S.syncs site.old }
    ensures reads { S.reads site.new ≡ S.reads site.old }
    ensures orderly { Orderly (AreInUse (ids files.now)) result (S.told site.old) (S.told site.new) }
    ensures own { (o : Opening) → IfSome (S.told site.old) (OnDisk (AreOwn o (ids files.now))) → Tells (GoesOwn o result) (S.told site.old) (S.told site.new) }
    ensures parts { Tells (WritesParts capacity (ids (from_written capacity used files.now)) (if used == capacity then 0 else used) (spelled_over capacity (serials files.now) used (with_fillers batch.now)) result) (S.told site.old) (S.told site.new) }
{
    let list = serials_of(alloc, files)?;
    let bytes = batch.spell(plan, used, capacity, &list)?;
    let written = ids_of(alloc, with_room(files, used, capacity))?;
    let from = place_behind(used, capacity);
    write_parts(site, written.as_slice(), from, capacity, bytes.as_slice())?;
    Ok(written)
}
