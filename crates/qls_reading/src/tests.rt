// Journals of five files in memory, over two epochs: what is read of them, and the first rule that fails.
ghost use Rattle.std.specs.Prelude.{◌≡◌, ◌<◌, ◌≤◌, length, IsTrue, IfOk};
ghost use Rattle.qls_filehdr.specs.Limits.{is_legal_header};
ghost use Rattle.qls_record.specs.Head.{is_legal_head};

use crate::{LogFault, ReadLog};
use qls_filehdr::{FileHeader, JournalKind, Rule};
use qls_memsite::{CallKind, MemSite};
use qls_model::{Bytes, Name, NoMemory, Seq};
use qls_record::{Got, Head, Kind, encode_into, length as record_length};
use qls_scan::scan;
use qls_site::{ImageFile, Place};
use std::alloc::Global;
use std::test::Fail;

/// What a header says: its epoch, its first place and its rid.
pub type Told = (u64, u64, u64);

/// The first record covers the first file and a unit of the second. The last file is past the reading, so nothing of its
/// header is tested.
const HEADERS: [Told; 5] = [
    (1, 4096, 0),
    (1, 4224, 1),
    (2, 4096, 1),
    (2, 4096, 2),
    (2, 0, 9),
];

/// The records that stand in their data areas, one kind in each word, and how many of it: `b` an enqueue of 4,224 bytes,
/// `e` one of 128, `s` one that skips a rid, `f` a filler, `z` 128 zeros.
const RECORDS: &str = "b01 f31 e01 f31 e02";

fn digit(byte: u8) -> u64
    ensures small { result < 256 }
{
    u64::from(byte.saturating_sub(b'0'))
}

// The head of a record of that letter, behind the rid in force.
fn head(letter: u8, rid: u64) -> Head
    ensures legal { IsTrue (is_legal_head result) }
    ensures xid { result.xid_size ≡ 0 }
    ensures body { result.body_size ≤ 4033 }
{
    let head = Head {
        kind: Kind::Enqueue,
        flagged: false,
        rid: rid.saturating_add(1),
        target: 0,
        xid_size: 0,
        body_size: 0,
    };
    match letter {
        b'b' => Head {
            body_size: 4033,
            ..head
        },
        b's' => Head {
            rid: rid.saturating_add(2),
            ..head
        },
        b'f' => Head {
            kind: Kind::Filler,
            rid,
            ..head
        },
        _ => head,
    }
}

// Puts the record of that letter at the end, and answers the rid in force behind it. Each file's serial is its id.
fn add(bytes: &mut Vec<u8>, letter: u8, rid: u64) -> Result<u64, NoMemory> {
    let from = bytes.len();
    if letter == b'z' {
        bytes.resize(from + 128, 0)?;
        return Ok(rid);
    }
    let head = head(letter, rid);
    let body = [0x5a; 4033];
    bytes.resize(from + record_length(&head) as usize, 0)?;
    let serial = 1 + from as u64 / 4096;
    encode_into(
        &head,
        serial,
        b"",
        &body[..head.body_size as usize],
        &mut bytes[from..],
    );
    Ok(head.rid)
}

// The five data areas, joined.
pub fn areas(alloc: Global, text: &str) -> Result<Vec<u8>, NoMemory>
    ensures length { IfOk result (λ bytes. length bytes.items ≡ 20480) }
{
    let mut bytes = Vec::new(alloc);
    let mut rid = 0;
    for word in text.split_ascii_whitespace() {
        let [letter, tens, ones] = *word.as_bytes() else {
            return Err(NoMemory);
        };
        for _ in 0..digit(tens) * 10 + digit(ones) {
            rid = add(&mut bytes, letter, rid)?;
        }
    }
    bytes.resize(20_480, 0)?;
    Ok(bytes)
}

// The header of the file of this number, which is its serial too, of the queue `a`.
fn header(number: u64, told: Told) -> Result<FileHeader, Fail>
    ensures legal { IfOk result (λ h. IsTrue (is_legal_header h)) }
{
    let (epoch, first, rid) = told;
    if number == 0 || number > 5 || epoch == 0 || epoch > 9 || rid > 9 {
        return Err("count".into());
    }
    if first != 0 && first != 4096 && first != 4224 {
        return Err("first".into());
    }
    let Some(name) = Name::new(b"a") else {
        return Err("name".into());
    };
    Ok(FileHeader {
        serial: number,
        rid,
        part: 1,
        kib: 4,
        first,
        number,
        epoch,
        kind: JournalKind::Queue,
        name,
    })
}

// The file with that header, under its number as its id, and its part of the joined data areas.
pub fn file(alloc: Global, number: u64, told: Told, areas: &[u8]) -> Result<ImageFile, Fail>
    requires number { (1 ≤ number) × (number ≤ 5) }
    requires areas { length areas.now ≡ 20480 }
    ensures id { IfOk result (λ f. f.id ≡ number) }
{
    let mut bytes = vec![in alloc; 0u8; 4096]?;
    header(number, told)?.encode_into(&mut bytes);
    let from = 4096 * (number as usize - 1);
    bytes.extend_from_slice(&areas[from..from + 4096])?;
    Ok(ImageFile {
        id: number,
        place: Place::InUse,
        bytes: Bytes::from_vec(bytes),
    })
}

// A site with these headers and records.
fn site_of(alloc: Global, headers: &[Told; 5], text: &str) -> Result<MemSite, Fail> {
    let bytes = areas(alloc, text)?;
    let mut files = Seq::new(alloc);
    files.push(file(alloc, 1, headers[0], &bytes)?)?;
    files.push(file(alloc, 2, headers[1], &bytes)?)?;
    files.push(file(alloc, 3, headers[2], &bytes)?)?;
    files.push(file(alloc, 4, headers[3], &bytes)?)?;
    files.push(file(alloc, 5, headers[4], &bytes)?)?;
    Ok(MemSite::from_image(alloc, files)?)
}

// Reads the one journal that a scan finds.
fn read(alloc: Global, site: &mut MemSite) -> Result<Result<(ReadLog, Seq<Got>), LogFault>, Fail> {
    let found = scan(alloc, site)?;
    let mut journals = found.journals;
    let Some(files) = journals.pop() else {
        return Err("journal".into());
    };
    Ok(ReadLog::read(alloc, site, files))
}

// How many records were handed out, the rid behind them, how many fillers there were, and how many files are past.
type Counts = (usize, u64, u64, u64);

fn counts(read: &(ReadLog, Seq<Got>)) -> Counts {
    let (log, reads) = read;
    (reads.len(), log.rid(), log.fillers(), log.past())
}

#[test]
fn a_journal_is_read_whole(rt: HostRuntime) -> Result<(), Fail> {
    let full = "b01 f31 e01 f31 e02 f30";
    for (at, told, text, wanted) in [
        (0, (1, 4096, 0), RECORDS, (4, 4, 62, 1)),
        (0, (1, 4096, 0), "b01 f31 e01 f31", (2, 2, 62, 1)),
        (0, (1, 0, 1), RECORDS, (3, 4, 62, 1)),
        (4, (2, 4096, 4), full, (4, 4, 92, 0)),
        (
            4,
            (2, 4096, 4),
            "b01 f31 e01 f31 e02 f30 e01 f31",
            (5, 5, 123, 0),
        ),
    ] {
        let alloc = rt.alloc();
        let mut headers = HEADERS;
        if let Some(header) = headers.get_mut(at) {
            *header = told;
        }
        let mut site = site_of(alloc, &headers, text)?;
        let whole = read(alloc, &mut site)?;
        assert_eq!(rt; whole.as_ref().ok().map(counts), Some(wanted), "{text}");
    }
    Ok(())
}

#[test]
fn the_first_rule_that_fails_is_answered(rt: HostRuntime) -> Result<(), Fail> {
    for (at, told, text, file, rule) in [
        (1, (1, 4096, 1), RECORDS, 2, Rule::First),
        (1, (1, 4224, 0), RECORDS, 2, Rule::Rid),
        (2, (2, 0, 1), RECORDS, 3, Rule::First),
        (2, (2, 4096, 0), RECORDS, 3, Rule::Rid),
        (3, (2, 0, 2), RECORDS, 4, Rule::First),
        (3, (2, 4096, 1), RECORDS, 4, Rule::Rid),
        (0, (1, 0, 2), RECORDS, 2, Rule::Rid),
        (0, (1, 4096, 0), "b01 f31 s01 f31 e02", 3, Rule::Order),
        (0, (1, 4096, 1), RECORDS, 1, Rule::Order),
        (3, (2, 0, 0), "b01 f31 e01 s01 f30 e02", 3, Rule::Order),
        (2, (2, 0, 0), "b01 f30 s01 e01 f31 e02", 2, Rule::Order),
        (0, (1, 4096, 0), "z64 e01 f31 e02", 1, Rule::End),
        (4, (2, 0, 9), "b01 f31 e01 f31 e02 f30", 5, Rule::First),
    ] {
        let alloc = rt.alloc();
        let mut headers = HEADERS;
        if let Some(header) = headers.get_mut(at) {
            *header = told;
        }
        let mut site = site_of(alloc, &headers, text)?;
        let fault = read(alloc, &mut site)?.err();
        assert_eq!(rt;
            fault,
            Some(LogFault::Damaged { file, rule }),
            "{at} {text}"
        );
    }
    Ok(())
}

#[test]
fn the_records_come_in_order(rt: HostRuntime) -> Result<(), Fail> {
    let alloc = rt.alloc();
    let mut site = site_of(alloc, &HEADERS, RECORDS)?;
    let (log, reads) = read(alloc, &mut site)??;
    for (at, wanted) in [
        (0, [1, 1, 4096, 2]),
        (1, [2, 3, 4096, 3]),
        (2, [3, 4, 4096, 4]),
        (3, [4, 4, 4224, 4]),
    ] {
        let got = reads.get(at).ok_or("record")?;
        assert_eq!(rt; [got.head.rid, got.file, got.at, got.end_file], wanted);
    }
    assert_eq!(rt; log.file_at(4).map(|file| file.id), Some(5));
    assert!(rt; log.file_at(5).is_none());
    assert!(rt; matches!(log.kind(), JournalKind::Queue));
    assert_eq!(rt; log.name().as_slice(), b"a".as_slice());
    assert_eq!(rt; site.sync_count(), 0);
    Ok(())
}

#[test]
fn a_read_that_fails_is_answered(rt: HostRuntime) -> Result<(), Fail> {
    for n in [6, 7, 9] {
        let alloc = rt.alloc();
        let mut site = site_of(alloc, &HEADERS, RECORDS)?;
        site.fail_call(CallKind::Read, n)?;
        assert_eq!(rt; read(alloc, &mut site)?.err(), Some(LogFault::Failed));
        assert!(rt; read(alloc, &mut site)?.is_ok());
    }
    Ok(())
}

// Behind the five headers the four files that the reading comes to are read in one piece each: a tenth read would fail.
#[test]
fn each_file_is_read_once(rt: HostRuntime) -> Result<(), Fail> {
    let alloc = rt.alloc();
    let mut site = site_of(alloc, &HEADERS, RECORDS)?;
    site.fail_call(CallKind::Read, 10)?;
    assert!(rt; read(alloc, &mut site)?.is_ok());
    Ok(())
}
