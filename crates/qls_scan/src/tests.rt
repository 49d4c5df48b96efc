// Sites made of images: what a scan finds, and the first rule that fails on each changed one.
ghost use Rattle.std.specs.Prelude.{◌≡◌, IfOk};

use crate::{ScanFault, scan};
use qls_filehdr::{JournalKind, Rule};
use qls_memsite::{CallKind, MemSite};
use qls_model::{Bytes, NoMemory, Seq};
use qls_site::{ImageFile, Place};
use std::alloc::Global;
use std::test::Fail;

/// A queue's first file: serial 7, pool 1 4, named `a`. Zeros follow up to its end at 8,192.
const FIRST_FILE: [u8; 65] = [
    0x51, 0x4c, 0x53, 0x66, 0x02, 0x00, 0x00, 0x00, 0x07, 0x00, 0x00, 0x00, 0x00, 0x00, 0x00, 0x00,
    0x00, 0x00, 0x00, 0x00, 0x00, 0x00, 0x00, 0x00, 0x01, 0x00, 0x00, 0x00, 0x04, 0x00, 0x00, 0x00,
    0x00, 0x10, 0x00, 0x00, 0x00, 0x00, 0x00, 0x00, 0x01, 0x00, 0x00, 0x00, 0x00, 0x00, 0x00, 0x00,
    0x01, 0x00, 0x00, 0x00, 0x00, 0x00, 0x00, 0x00, 0x01, 0x00, 0x01, 0x00, 0x61, 0xda, 0x01, 0x70,
    0x54,
];

// A file in use that begins with these bytes.
fn file_in_use(alloc: Global, id: u64, head: &[u8], size: usize) -> Result<ImageFile, NoMemory>
    ensures id { IfOk result (λ file. file.id ≡ id) }
{
    let mut bytes = Vec::new(alloc);
    bytes.extend_from_slice(head)?;
    bytes.resize(size, 0)?;
    Ok(ImageFile {
        id,
        place: Place::InUse,
        bytes: Bytes::from_vec(bytes),
    })
}

// The first file with this id, of as many bytes, one of them changed.
fn changed_file(
    alloc: Global,
    id: u64,
    size: usize,
    at: usize,
    byte: u8,
) -> Result<ImageFile, NoMemory>
    ensures id { IfOk result (λ file. file.id ≡ id) }
{
    let mut bytes = Vec::new(alloc);
    bytes.extend_from_slice(&FIRST_FILE)?;
    bytes.resize(size, 0)?;
    if let Some(old) = bytes.get_mut(at) {
        *old = byte;
    }
    Ok(ImageFile {
        id,
        place: Place::InUse,
        bytes: Bytes::from_vec(bytes),
    })
}

// A file of the queue with this letter as its name, of this partition, number and epoch; the sum is the Adler-32 of the first 61 bytes.
fn queue_file(
    alloc: Global,
    id: u64,
    letter: u8,
    counts: (u8, u8, u8),
    sum: u32,
) -> Result<ImageFile, NoMemory>
    ensures id { IfOk result (λ file. file.id ≡ id) }
{
    let (part, number, epoch) = counts;
    let mut head = FIRST_FILE;
    head[24] = part;
    head[40] = number;
    head[48] = epoch;
    head[60] = letter;
    head[61..].copy_from_slice(&sum.to_le_bytes());
    file_in_use(alloc, id, &head, 8192)
}

// A file of the prepared list; the sum is the Adler-32 of the first 60 bytes.
fn list_file(alloc: Global, id: u64, number: u8, sum: u32) -> Result<ImageFile, NoMemory>
    ensures id { IfOk result (λ file. file.id ≡ id) }
{
    let mut head = FIRST_FILE;
    head[40] = number;
    head[56] = 2;
    head[58] = 0;
    head[60..64].copy_from_slice(&sum.to_le_bytes());
    head[64] = 0;
    file_in_use(alloc, id, &head, 8192)
}

// An empty file of a pool with as many bytes.
fn empty_file(
    alloc: Global,
    id: u64,
    part: u16,
    kib: u32,
    size: usize,
) -> Result<ImageFile, NoMemory>
    ensures id { IfOk result (λ file. file.id ≡ id) }
{
    let mut bytes = Vec::new(alloc);
    bytes.resize(size, 0)?;
    Ok(ImageFile {
        id,
        place: Place::Empty { part, kib },
        bytes: Bytes::from_vec(bytes),
    })
}

#[test]
fn a_changed_file_breaks_its_rule(rt: HostRuntime) -> Result<(), Fail> {
    for (id, size, at, byte, rule) in [
        (0, 8192, 65, 0x00, Rule::Id),
        (1 << 62, 8192, 65, 0x00, Rule::Id),
        (1, 4095, 65, 0x00, Rule::Short),
        (1, 8192, 0, 0x00, Rule::Magic),
        (1, 8192, 4, 0x09, Rule::Version),
        (1, 8192, 6, 0x10, Rule::Flags),
        (1, 8192, 24, 0x00, Rule::Partition),
        (1, 8192, 28, 0x05, Rule::Kib),
        (1, 8192, 32, 0x01, Rule::Place),
        (1, 8192, 48, 0x00, Rule::Counter),
        (1, 8192, 56, 0x03, Rule::Kind),
        (1, 8192, 60, 0x20, Rule::Name),
        (1, 8192, 48, 0x03, Rule::Checksum),
        (1, 8192, 4095, 0x01, Rule::Zeros),
        (1, 8704, 65, 0x00, Rule::Size),
    ] {
        let alloc = rt.alloc();
        let mut files = Seq::new(alloc);
        files.push(changed_file(alloc, id, size, at, byte)?)?;
        let mut site = MemSite::from_image(alloc, files)?;
        let fault = scan(alloc, &mut site).err();
        assert_eq!(rt;
            fault,
            Some(ScanFault::Damaged { file: id, rule }),
            "byte {at} of {size}"
        );
    }
    Ok(())
}

#[test]
fn an_empty_file_comes_before_headers(rt: HostRuntime) -> Result<(), Fail> {
    for (part, kib, size, byte, wanted) in [
        (1, 4, 4096, 0x51, Some((2, Rule::Pool))),
        (1, 4, 4096, 0x00, Some((2, Rule::Pool))),
        (0, 4, 8192, 0x51, Some((2, Rule::Pool))),
        (1, 5, 9216, 0x51, Some((2, Rule::Pool))),
        (1, 4, 8192, 0x00, Some((1, Rule::Magic))),
        (1, 4, 8192, 0x51, None),
    ] {
        let alloc = rt.alloc();
        let mut files = Seq::new(alloc);
        files.push(changed_file(alloc, 1, 8192, 0, byte)?)?;
        files.push(empty_file(alloc, 2, part, kib, size)?)?;
        let mut site = MemSite::from_image(alloc, files)?;
        let wanted = wanted.map(|(file, rule)| ScanFault::Damaged { file, rule });
        assert_eq!(rt; scan(alloc, &mut site).err(), wanted, "{part} {kib} {size}");
    }
    Ok(())
}

#[test]
fn a_file_in_a_row_breaks_its_rule(rt: HostRuntime) -> Result<(), Fail> {
    for (epoch, first_sum, second, second_sum, wanted) in [
        (
            1,
            0x5470_01da,
            (1, 3, 1),
            0x549a_01dc,
            Some((2, Rule::Number)),
        ),
        (
            1,
            0x5470_01da,
            (1, 1, 1),
            0x5470_01da,
            Some((2, Rule::Number)),
        ),
        (
            2,
            0x547d_01db,
            (1, 2, 1),
            0x5485_01db,
            Some((2, Rule::Epoch)),
        ),
        (
            1,
            0x5470_01da,
            (2, 2, 1),
            0x54aa_01dc,
            Some((2, Rule::Home)),
        ),
        (1, 0x5470_01da, (1, 2, 1), 0x5485_01db, None),
    ] {
        let alloc = rt.alloc();
        let mut files = Seq::new(alloc);
        files.push(queue_file(alloc, 1, b'a', (1, 1, epoch), first_sum)?)?;
        files.push(queue_file(alloc, 2, b'a', second, second_sum)?)?;
        let mut site = MemSite::from_image(alloc, files)?;
        let wanted = wanted.map(|(file, rule)| ScanFault::Damaged { file, rule });
        assert_eq!(rt; scan(alloc, &mut site).err(), wanted, "{second_sum:x}");
    }
    Ok(())
}

// Two queues and the list, their files not in the order of their ids, and two empty files.
fn three_journals(alloc: Global) -> Result<MemSite, NoMemory> {
    let mut files = Seq::new(alloc);
    files.push(list_file(alloc, 2, 2, 0x52ac_017a)?)?;
    files.push(queue_file(alloc, 3, b'b', (1, 2, 1), 0x5486_01dc)?)?;
    files.push(list_file(alloc, 4, 1, 0x5298_0179)?)?;
    files.push(queue_file(alloc, 5, b'b', (1, 1, 1), 0x5471_01db)?)?;
    files.push(empty_file(alloc, 7, 1, 4, 8192)?)?;
    files.push(queue_file(alloc, 8, b'a', (1, 1, 1), 0x5470_01da)?)?;
    files.push(empty_file(alloc, 9, 2, 8, 12_288)?)?;
    MemSite::from_image(alloc, files)
}

#[test]
fn the_journals_are_found_in_order(rt: HostRuntime) -> Result<(), Fail> {
    let alloc = rt.alloc();
    let mut site = three_journals(alloc)?;
    let found = scan(alloc, &mut site)?;
    assert_eq!(rt;
        (found.greatest, found.empties.len(), found.journals.len()),
        (9, 2, 3)
    );
    for (at, kind, name, first, last) in [
        (0, JournalKind::List, "", 4, 2),
        (1, JournalKind::Queue, "a", 8, 8),
        (2, JournalKind::Queue, "b", 5, 3),
    ] {
        let journal = found.journals.get(at).ok_or("no journal")?;
        assert_eq!(rt; journal.kind, kind);
        assert_eq!(rt; journal.name.as_slice(), name.as_bytes());
        let files = journal.files.as_slice();
        let ends = (
            files.first().map(|file| file.id),
            files.last().map(|file| file.id),
        );
        assert_eq!(rt; ends, (Some(first), Some(last)), "{name}");
    }
    Ok(())
}

#[test]
fn a_failed_read_ends_the_scan(rt: HostRuntime) -> Result<(), Fail> {
    let alloc = rt.alloc();
    let mut site = three_journals(alloc)?;
    site.fail_call(CallKind::Read, 3)?;
    assert_eq!(rt; scan(alloc, &mut site).err(), Some(ScanFault::Failed));
    assert_eq!(rt; site.moment_count(), 5);
    assert!(rt; scan(alloc, &mut site).is_ok());
    Ok(())
}
