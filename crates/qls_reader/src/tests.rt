// Readings of two files of 4 KiB in memory: a record over both, and fillers behind it.
ghost use Rattle.std.specs.Prelude.{◌≡◌, ◌+◌, ◌≤◌, length, IsTrue, OnOk, IfOk, IfSome};
ghost use Rattle.qls_record.specs.Head.{is_legal_head, head_record_length};
ghost use Rattle.qls_site.specs.Disk.{file_of};
ghost use Rattle.qls_memsite.specs.Memory.{content_of};
ghost use Rattle.qls_reader.specs.Spots.{HasSize, AreThere};
ghost use Rattle.qls_reader.specs.States.{ReadsAhead};

use crate::{FileSpot, Next, ReadFault, Reader};
use qls_memsite::{CallKind, MemSite};
use qls_model::{Bytes, NoMemory, Seq};
use qls_record::{Head, Kind, encode_into, length as record_length};
use qls_site::{ImageFile, Place, Site};
use std::alloc::Global;
use std::test::Fail;

// The head of an enqueue of 4,033 bytes: its record takes 4,224.
fn enqueue() -> Head
    ensures legal { IsTrue (is_legal_head result) }
    ensures xid { result.xid_size ≡ 0 }
    ensures body { result.body_size ≡ 4033 }
    ensures length { head_record_length result ≡ 4224 }
{
    Head {
        kind: Kind::Enqueue,
        flagged: false,
        rid: 1,
        target: 0,
        xid_size: 0,
        body_size: 4033,
    }
}

// The head of a filler behind it.
fn filler() -> Head
    ensures legal { IsTrue (is_legal_head result) }
    ensures xid { result.xid_size ≡ 0 }
    ensures body { result.body_size ≡ 0 }
    ensures length { head_record_length result ≡ 128 }
{
    Head {
        kind: Kind::Filler,
        flagged: false,
        rid: 1,
        target: 0,
        xid_size: 0,
        body_size: 0,
    }
}

// Puts the record of that head at the end, for the serial.
fn add(bytes: &mut Vec<u8>, head: &Head, serial: u64, body: &[u8]) -> Result<(), NoMemory>
    requires legal { IsTrue (is_legal_head head.now) }
    requires xid { head.now.xid_size ≡ 0 }
    requires body { length body.now ≡ head.now.body_size }
    requires size { head.now.body_size ≤ 1048576 }
    ensures length { OnOk result (length bytes.new.items ≡ length bytes.old.items + head_record_length head.now) }
{
    let from = bytes.len();
    bytes.resize(from + record_length(head) as usize, 0)?;
    encode_into(head, serial, b"", body, &mut bytes[from..]);
    Ok(())
}

// The data areas of the two files: the record of a body of 4,033 bytes for serial 7, and 31 fillers for serial 8.
fn areas(alloc: Global) -> Result<Vec<u8>, NoMemory>
    ensures length { IfOk result (λ bytes. length bytes.items ≡ 8192) }
{
    let mut bytes = Vec::new(alloc);
    let body = vec![in alloc; 0x5au8; 4033]?;
    add(&mut bytes, &enqueue(), 7, &body)?;
    for _ in 0..31u64 {
        add(&mut bytes, &filler(), 8, b"")?;
    }
    Ok(bytes)
}

// A file of that data area, behind a header of zeros.
fn file(alloc: Global, id: u64, area: &[u8]) -> Result<ImageFile, NoMemory>
    requires size { length area.now ≡ 4096 }
    ensures id { IfOk result (λ f. f.id ≡ id) }
    ensures size { IfOk result (λ f. length f.bytes ≡ 8192) }
{
    let mut bytes = Bytes::new(alloc, &[0; 4096])?;
    bytes.add(area)?;
    Ok(ImageFile {
        id,
        place: Place::InUse,
        bytes,
    })
}

// A site that has the two data areas.
fn site_of(alloc: Global, areas: &[u8]) -> Result<MemSite, NoMemory>
    requires size { length areas.now ≡ 8192 }
    ensures first { IfOk result (λ site. HasSize 8192 (file_of 1 (content_of site).now.disk)) }
    ensures second { IfOk result (λ site. HasSize 8192 (file_of 2 (content_of site).now.disk)) }
{
    let (first, second) = areas.split_at(4096);
    let mut files = Seq::new(alloc);
    files.push(file(alloc, 1, first)?)?;
    files.push(file(alloc, 2, second)?)?;
    MemSite::from_image(alloc, files)
}

fn spot(id: u64, serial: u64, first: u64) -> FileSpot
    ensures exact { result ≡ record { id = id; number = id; serial = serial; kib = 4; first = first } }
{
    FileSpot {
        id,
        number: id,
        serial,
        kib: 4,
        first,
    }
}

// What was read: record id, file, place, last file and body length of each record, and where the reading ended.
#[derive(Drop)]
struct Reading {
    records: Vec<[u64; 5]>,
    end: [u64; 2],
}

// Reads on to the end, a hundred records at most.
fn read_all<S: Site>(alloc: Global, reader: &mut Reader, site: &mut S) -> Result<Reading, ReadFault>
    requires there { IfSome (S.told site.old) (AreThere reader.old.files) }
    requires ahead { IfSome (S.told site.old) (λ c. ReadsAhead c.now.disk reader.old) }
    ensures there { IfSome (S.told site.new) (AreThere reader.new.files) }
    ensures ahead { IfSome (S.told site.new) (λ c. ReadsAhead c.now.disk reader.new) }
{
    let mut records = Vec::new(alloc);
    for _ in 0..100 {
        match reader.next(site)? {
            Next::End { file, at } => {
                return Ok(Reading {
                    records,
                    end: [file, at],
                });
            }
            Next::Got(got) => {
                let body = got.body.as_slice().len() as u64;
                if records
                    .push([got.head.rid, got.file, got.at, got.end_file, body])
                    .is_err()
                {
                    return Err(ReadFault::Memory);
                }
            }
        }
    }
    Ok(Reading {
        records,
        end: [0, 0],
    })
}

#[test]
fn a_record_over_two_files_is_read(rt: HostRuntime) -> Result<(), Fail> {
    let alloc = rt.alloc();
    let mut site = site_of(alloc, &areas(alloc)?)?;
    let mut files = Seq::new(alloc);
    files.push(spot(1, 7, 4096))?;
    files.push(spot(2, 8, 4224))?;
    let mut reader = Reader::new(alloc, files, true);
    let reading = read_all(alloc, &mut reader, &mut site)?;
    assert_eq!(rt; reading.records.len(), 32);
    assert_eq!(rt;
        reading.records.first().copied(),
        Some([1, 1, 4096, 2, 4033])
    );
    assert_eq!(rt; reading.records.get(1).copied(), Some([1, 2, 4224, 2, 0]));
    assert_eq!(rt; reading.records.last().copied(), Some([1, 2, 8064, 2, 0]));
    assert_eq!(rt; reading.end, [2, 8192]);
    Ok(())
}

#[test]
fn a_torn_record_ends_the_reading(rt: HostRuntime) -> Result<(), Fail> {
    let alloc = rt.alloc();
    let mut bytes = areas(alloc)?;
    bytes[4096..4224].fill(0);
    let mut site = site_of(alloc, &bytes)?;
    let mut files = Seq::new(alloc);
    files.push(spot(1, 7, 4096))?;
    files.push(spot(2, 8, 4224))?;
    let mut reader = Reader::new(alloc, files, true);
    let reading = read_all(alloc, &mut reader, &mut site)?;
    assert_eq!(rt;
        reading.records.len(),
        0,
        "the fillers behind it are not read"
    );
    assert_eq!(rt; reading.end, [1, 4096]);
    Ok(())
}

#[test]
fn the_oldest_epoch_begins_at_a_first_place(rt: HostRuntime) -> Result<(), Fail> {
    let alloc = rt.alloc();
    for (oldest, wanted, end) in [(true, 31, [2, 8192]), (false, 0, [1, 4096])] {
        let mut site = site_of(alloc, &areas(alloc)?)?;
        let mut files = Seq::new(alloc);
        files.push(spot(1, 9, 0))?;
        files.push(spot(2, 8, 4224))?;
        let mut reader = Reader::new(alloc, files, oldest);
        let reading = read_all(alloc, &mut reader, &mut site)?;
        assert_eq!(rt; reading.records.len(), wanted, "{oldest}");
        assert_eq!(rt; reading.end, end, "{oldest}");
    }
    Ok(())
}

#[test]
fn after_a_fault_the_record_is_read(rt: HostRuntime) -> Result<(), Fail> {
    let alloc = rt.alloc();
    let mut site = site_of(alloc, &areas(alloc)?)?;
    site.fail_call(CallKind::Read, 2)?;
    let mut files = Seq::new(alloc);
    files.push(spot(1, 7, 4096))?;
    files.push(spot(2, 8, 4224))?;
    let mut reader = Reader::new(alloc, files, true);
    let failed = read_all(alloc, &mut reader, &mut site);
    assert!(rt; matches!(failed, Err(ReadFault::Failed)));
    let reading = read_all(alloc, &mut reader, &mut site)?;
    assert_eq!(rt; reading.records.len(), 32);
    Ok(())
}

#[test]
fn each_file_is_read_once(rt: HostRuntime) -> Result<(), Fail> {
    let alloc = rt.alloc();
    let mut site = site_of(alloc, &areas(alloc)?)?;
    site.fail_call(CallKind::Read, 3)?;
    let mut files = Seq::new(alloc);
    files.push(spot(1, 7, 4096))?;
    files.push(spot(2, 8, 4224))?;
    let mut reader = Reader::new(alloc, files, true);
    let reading = read_all(alloc, &mut reader, &mut site)?;
    assert_eq!(rt; reading.records.len(), 32, "a third read would fail");
    Ok(())
}
