// Thirty records of a queue and seventeen of the prepared list, with each that changes nothing.
ghost use Rattle.std.specs.Prelude.{◌≡◌, ◌<◌, IfOk};

use crate::{ListReplay, QueueReplay};
use qls_decide::ListState;
use qls_enqmap::EnqMap;
use qls_model::{Bytes, NoMemory, Status, Xid};
use qls_record::{Got, Head, Kind};
use qls_txnmap::{Op, TxnMap};
use std::alloc::Global;
use std::process::Abort;
use std::test::Fail;

// Records, one in each word: `e` an enqueue, `d` a dequeue, `g` and `t` flagged ones, `c` a commit, `a` an abort, `f` a
// filler; then the target in two digits, and the transaction. A record's id is its place, counted from 0.
const QUEUE: &str =
    "f00 e00 e00x e00 d01 d01 d02 d02y d03y d03 d03x d99 d99x c00z a00z e00y g00 t16 e00 d18x e00z d20 \
    a00z c00x c00x e00w d02w e00 t27v a00y";

const LIST: &str =
    "f00 e00a g00b e00 d01b t01a d01a d02b c00z a00a e00c g00c d10c e00d c00d d13d e00A";

fn kind(letter: u8) -> Kind {
    match letter {
        b'e' | b'g' => Kind::Enqueue,
        b'd' | b't' => Kind::Dequeue,
        b'c' => Kind::Commit,
        b'a' => Kind::Abort,
        _ => Kind::Filler,
    }
}

fn digit(byte: u8) -> u64
    ensures small { result < 256 }
{
    u64::from(byte.saturating_sub(b'0'))
}

fn got(alloc: Global, word: &[u8], rid: u64) -> Result<Got, NoMemory>
    ensures rid { IfOk result (λ got. got.head.rid ≡ rid) }
{
    let (head, xid) = word.split_at(word.len().min(3));
    let [letter, tens, ones] = *head else {
        return Err(NoMemory);
    };
    Ok(Got {
        head: Head {
            kind: kind(letter),
            flagged: letter == b'g' || letter == b't',
            rid,
            target: digit(tens) * 10 + digit(ones),
            xid_size: 0,
            body_size: 8,
        },
        xid: Xid::new(xid).ok_or(NoMemory)?,
        body: Bytes::new(alloc, &rid.to_le_bytes())?,
        file: rid,
        at: 4096,
        end_file: rid.saturating_add(1),
    })
}

fn words(alloc: Global, text: &str) -> Result<Vec<&[u8]>, NoMemory> {
    let mut words = Vec::new(alloc);
    for word in text.split_ascii_whitespace() {
        words.push(word.as_bytes())?;
    }
    Ok(words)
}

fn replay_queue(alloc: Global, words: &[&[u8]]) -> Result<QueueReplay, NoMemory> {
    let mut replay = QueueReplay::new(alloc);
    for (place, word) in words.iter().enumerate() {
        replay.apply(&got(alloc, word, place as u64)?)?;
    }
    Ok(replay)
}

fn letter(status: &Status) -> u8 {
    match status {
        Status::Ready => b'r',
        Status::Coming(_) => b'c',
        Status::Going(_) => b'g',
    }
}

fn check_held(rt: &impl Abort, held: &EnqMap) -> Result<(), Fail> {
    for (place, (rid, status)) in [(2u64, b'g'), (3, b'r'), (25, b'c'), (27, b'g')]
        .iter()
        .enumerate()
    {
        let found = held.at(place).ok_or("held")?;
        assert_eq!(rt; found.rid, *rid);
        assert_eq!(rt; found.file, *rid);
        assert_eq!(rt; found.body.as_slice(), rid.to_le_bytes().as_slice());
        assert_eq!(rt; letter(&found.status), *status);
    }
    assert!(rt; held.at(4).is_none());
    assert_eq!(rt; held.first_file(), Some(2));
    Ok(())
}

fn check_txns(rt: &impl Abort, mut txns: TxnMap) -> Result<(), Fail> {
    let v = Xid::new(b"v").ok_or("length")?;
    let w = Xid::new(b"w").ok_or("length")?;
    let pending = txns.pending()?;
    assert_eq!(rt; pending.len(), 2);
    for (xid, wanted) in pending.as_slice().iter().zip([v, w]) {
        assert_eq!(rt; xid.as_slice(), wanted.as_slice());
    }
    let ops = txns.finish(&w).ok_or("pending")?;
    assert_eq!(rt; ops.as_slice(), [Op::Put(25), Op::Take(2)].as_slice());
    let ops = txns.finish(&v).ok_or("pending")?;
    assert_eq!(rt; ops.as_slice(), [Op::Take(27)].as_slice());
    Ok(())
}

#[test]
fn queue(rt: HostRuntime) -> Result<(), Fail> {
    let alloc = rt.alloc();
    let words = words(alloc, QUEUE)?;
    let replayed = replay_queue(alloc, words.as_slice())?.finish();
    check_held(&rt, &replayed.0)?;
    check_txns(&rt, replayed.1)
}

#[test]
fn list(rt: HostRuntime) -> Result<(), Fail> {
    let alloc = rt.alloc();
    let words = words(alloc, LIST)?;
    let mut replay = ListReplay::new(alloc);
    for (rid, word) in words.iter().enumerate() {
        replay.apply(&got(alloc, word, rid as u64)?)?;
    }
    let entries = replay.finish();
    let wanted = [
        (b'A', 16u64, ListState::Prepared),
        (b'a', 1, ListState::DecidedCommit),
        (b'b', 2, ListState::DecidedAbort),
        (b'c', 11, ListState::OnePhase),
    ];
    assert_eq!(rt; entries.len(), wanted.len());
    for (entry, (xid, rid, state)) in entries.as_slice().iter().zip(wanted) {
        assert_eq!(rt; entry.xid.as_slice(), [xid].as_slice());
        assert_eq!(rt; entry.rid, rid);
        assert_eq!(rt; entry.state, state);
    }
    Ok(())
}
