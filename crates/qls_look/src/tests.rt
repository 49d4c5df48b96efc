// Looks at a store in memory: two queues, and a prepared list with an entry of each kind.
ghost use Rattle.std.specs.Prelude.{◌≡◌, ◌<◌, ◌≤◌, ◌^◌, length, IsTrue, IfOk};
ghost use Rattle.qls_filehdr.specs.Limits.{is_name};
ghost use Rattle.qls_record.specs.Head.{is_legal_head};

use crate::{OpenFault, look};
use qls_filehdr::{FileHeader, JournalKind, Rule};
use qls_memsite::{CallKind, MemSite};
use qls_model::{Bytes, Message, Name, NoMemory, Phase, Seq, State, Status};
use qls_record::{Head, Kind, encode_into, length as record_length};
use qls_site::{ImageFile, Place};
use std::alloc::Global;
use std::process::Abort;
use std::test::Fail;

// Records, one in each word: `e` an enqueue, `d` a dequeue, `g` and `t` flagged ones, `c` a commit, `f` a filler; then the
// target in two digits, and the transaction. The body of an enqueue is its record id.
const A: &str = "e00 f00 e00p e00q e00o e00n d01p";

const B: &str = "e00 e00m c00m d42q d43n e00o f00";

// `p` is prepared, `q` decided, `o` of one phase, and `m` has ended. No entry is of `n`.
const LIST: &str = "e00p e00q t02q g00o f00 e00m c00m";

fn digit(byte: u8) -> u64
    ensures small { result < 256 }
{
    u64::from(byte.saturating_sub(b'0'))
}

fn head(letter: u8, rid: u64, target: u64, xid_size: u64) -> Head
    requires xid { xid_size ≤ 128 }
    ensures legal { IsTrue (is_legal_head result) }
    ensures xid { result.xid_size ≤ xid_size }
    ensures body { result.body_size ≤ 8 }
{
    let head = Head {
        kind: Kind::Filler,
        flagged: false,
        rid,
        target: 0,
        xid_size: 0,
        body_size: 0,
    };
    match letter {
        b'e' | b'g' => Head {
            kind: Kind::Enqueue,
            flagged: letter == b'g',
            xid_size,
            body_size: 8,
            ..head
        },
        b'd' | b't' => Head {
            kind: Kind::Dequeue,
            flagged: letter == b't',
            target,
            xid_size,
            ..head
        },
        b'c' if xid_size > 0 => Head {
            kind: Kind::Commit,
            xid_size,
            ..head
        },
        _ => head,
    }
}

// Puts the record of a word at the end, for the serial, and answers the record id in force behind it.
fn add(bytes: &mut Vec<u8>, serial: u64, rid: u64, word: &[u8]) -> Result<u64, NoMemory> {
    let (front, xid) = word.split_at(word.len().min(3));
    let [letter, tens, ones] = *front else {
        return Err(NoMemory);
    };
    if xid.len() > 128 {
        return Err(NoMemory);
    }
    let rid = match letter {
        b'e' | b'g' => rid.saturating_add(1),
        _ => rid,
    };
    let head = head(
        letter,
        rid,
        digit(tens) * 10 + digit(ones),
        xid.len() as u64,
    );
    let from = bytes.len();
    bytes.resize(from + record_length(&head) as usize, 0)?;
    encode_into(
        &head,
        serial,
        &xid[..head.xid_size as usize],
        &rid.to_le_bytes()[..head.body_size as usize],
        &mut bytes[from..],
    );
    Ok(rid)
}

// A journal's only file, whose header has one rid and whose records go on from another.
fn file(
    alloc: Global,
    id: u64,
    kind: JournalKind,
    name: Name,
    rids: (u64, u64),
    text: &str,
) -> Result<ImageFile, NoMemory>
    requires name { IsTrue (is_name kind name) }
    requires rid { rids.0 < 2 ^ 62 }
    ensures id { IfOk result (λ f. f.id ≡ id) }
{
    let header = FileHeader {
        serial: id,
        rid: rids.0,
        part: 1,
        kib: 4,
        first: 4096,
        number: 3,
        epoch: 2,
        kind,
        name,
    };
    let mut bytes = vec![in alloc; 0u8; 4096]?;
    header.encode_into(&mut bytes);
    let mut rid = rids.1;
    for word in text.split_ascii_whitespace() {
        rid = add(&mut bytes, id, rid, word.as_bytes())?;
    }
    bytes.resize(8192, 0)?;
    Ok(ImageFile {
        id,
        place: Place::InUse,
        bytes: Bytes::from_vec(bytes),
    })
}

// The store, where the headers of `a`, `b` and the list have these rids.
fn site_of(alloc: Global, rids: [u64; 3]) -> Result<MemSite, Fail> {
    let [a, b, list] = rids;
    if a > 99 || b > 99 || list > 99 {
        return Err("rids".into());
    }
    let mut files = Seq::new(alloc);
    let name = Name::new(b"").ok_or("name")?;
    files.push(file(alloc, 3, JournalKind::List, name, (list, 0), LIST)?)?;
    let name = Name::new(b"b").ok_or("name")?;
    files.push(file(alloc, 2, JournalKind::Queue, name, (b, 41), B)?)?;
    let name = Name::new(b"a").ok_or("name")?;
    files.push(file(alloc, 1, JournalKind::Queue, name, (a, 0), A)?)?;
    Ok(MemSite::from_image(alloc, files)?)
}

// `r` for ready, `c` for coming and `g` for going, with the transaction.
fn shown(status: &Status) -> (u8, &[u8]) {
    match status {
        Status::Ready => (b'r', b""),
        Status::Coming(xid) => (b'c', xid.as_slice()),
        Status::Going(xid) => (b'g', xid.as_slice()),
    }
}

fn check_messages(rt: &impl Abort, messages: &[Message], wanted: &[(u64, u8, &[u8])]) {
    assert_eq!(rt; messages.len(), wanted.len());
    for (message, (number, letter, xid)) in messages.iter().zip(wanted) {
        assert_eq!(rt; message.number, *number);
        assert_eq!(rt; message.body.as_slice(), number.to_le_bytes().as_slice());
        let (status, by) = shown(&message.status);
        assert_eq!(rt; status, *letter);
        assert_eq!(rt; by, *xid);
    }
}

fn check_queue(
    rt: &impl Abort,
    state: &State,
    at: usize,
    wanted: (&[u8], u64, &[(u64, u8, &[u8])]),
) -> Result<(), Fail> {
    let (name, last, messages) = wanted;
    let queue = state.queue_at(at).ok_or("queue")?;
    assert_eq!(rt; queue.name.as_slice(), name);
    assert_eq!(rt; queue.last, last);
    check_messages(rt, queue.messages.as_slice(), messages);
    Ok(())
}

#[test]
fn a_store_is_seen(rt: HostRuntime) -> Result<(), Fail> {
    let alloc = rt.alloc();
    let mut site = site_of(alloc, [0, 41, 0])?;
    let state = look(alloc, &mut site)?;
    assert_eq!(rt; state.queue_count(), 2);
    check_queue(
        &rt,
        &state,
        0,
        (b"a", 5, &[(1, b'g', b"p"), (2, b'c', b"p"), (3, b'r', b"")]),
    )?;
    check_queue(&rt, &state, 1, (b"b", 44, &[(43, b'r', b"")]))?;
    assert_eq!(rt; state.xid_count(), 1);
    let (xid, phase) = state.xid_at(0).ok_or("xid")?;
    assert_eq!(rt; xid.as_slice(), b"p".as_slice());
    assert_eq!(rt; phase, Phase::Prepared);
    Ok(())
}

#[test]
fn nothing_is_written(rt: HostRuntime) -> Result<(), Fail> {
    let alloc = rt.alloc();
    let mut site = site_of(alloc, [0, 41, 0])?;
    look(alloc, &mut site)?;
    let moments = site.moment_count();
    assert!(rt; moments > 1);
    if moments > 1 {
        let files = site.image(moments - 1, &Seq::new(alloc))?;
        let first = site.image(0, &Seq::new(alloc))?;
        assert_eq!(rt; files.len(), 3);
        for (file, old) in files.as_slice().iter().zip(first.as_slice()) {
            assert_eq!(rt; file.bytes.as_slice(), old.bytes.as_slice());
        }
    }
    assert_eq!(rt; site.sync_count(), 0);
    Ok(())
}

#[test]
fn the_first_damage_is_answered(rt: HostRuntime) -> Result<(), Fail> {
    for (rids, id) in [
        ([1, 41, 0], 1u64),
        ([0, 42, 0], 2),
        ([0, 41, 1], 3),
        ([1, 42, 0], 1),
        ([1, 42, 1], 3),
    ] {
        let alloc = rt.alloc();
        let mut site = site_of(alloc, rids)?;
        let fault = look(alloc, &mut site).err();
        let rule = Rule::Order;
        assert_eq!(rt; fault, Some(OpenFault::Damaged { file: id, rule }));
    }
    Ok(())
}

#[test]
fn a_call_that_fails_is_answered(rt: HostRuntime) -> Result<(), Fail> {
    for (kind, n) in [
        (CallKind::List, 1),
        (CallKind::Read, 1),
        (CallKind::Read, 3),
        (CallKind::Read, 4),
        (CallKind::Read, 6),
    ] {
        let alloc = rt.alloc();
        let mut site = site_of(alloc, [0, 41, 0])?;
        site.fail_call(kind, n)?;
        assert_eq!(rt; look(alloc, &mut site).err(), Some(OpenFault::Failed));
    }
    Ok(())
}

#[test]
fn an_empty_site_means_nothing(rt: HostRuntime) -> Result<(), Fail> {
    let alloc = rt.alloc();
    let state = look(alloc, &mut MemSite::new(alloc))?;
    assert_eq!(rt; state.queue_count(), 0);
    assert_eq!(rt; state.xid_count(), 0);
    Ok(())
}
