// A queue over a site in memory: what it answers, what its messages are, and which records stand in its journal.
ghost use Rattle.std.specs.Prelude.{◌≡◌, ◌<◌, ◌≤◌, [], false, List, IfOk, IfSome};
ghost use Rattle.qls_pool.specs.Files.{IsPoolOf, IsWholePool, OnDisk};
ghost use Rattle.qls_queue.specs.Live.{QueueThere};
ghost use Rattle.qls_queue.specs.Records.{IsXid};

use crate::{LiveQueue, QueueError};
use qls_decide::End;
use qls_memsite::{CallKind, MemSerials, MemSite};
use qls_model::{Bytes, Name, NoMemory, PoolId, Seq, Status, Xid};
use qls_pool::Pool;
use qls_record::{Kind, read_whole};
use qls_site::{ImageFile, Serials, Site};
use std::alloc::Global;
use std::process::Abort;
use std::test::Fail;

/// The pool of partition 1 whose files have 8 KiB of data, two blocks.
pub(crate) const HOME: PoolId = PoolId { part: 1, kib: 8 };

/// The pools of a site without files.
pub(crate) fn open_pools<S: Site>(alloc: Global, site: &mut S) -> Result<Pool, Fail>
    requires fits { IfSome (S.told site.old) (OnDisk (λ d. d ≡ [])) }
    ensures pool { IfOk result (λ pool. IfSome (S.told site.new) (OnDisk (IsWholePool pool))) }
    ensures empty { IfOk result (λ _. IfSome (S.told site.new) (OnDisk (λ d. d ≡ []))) }
{
    let files = site.list(alloc)?;
    let pool = Pool::open(alloc, 0, &files)?;
    Ok(pool)
}

/// The queue `a`, on a site without files.
fn make<S: Site, N: Serials>(
    alloc: Global,
    site: &mut S,
    pool: &mut Pool,
    serials: &mut N,
) -> Result<LiveQueue, QueueError>
    requires pool { IfSome (S.told site.old) (OnDisk (IsWholePool pool.old)) }
    requires empty { IfSome (S.told site.old) (OnDisk (λ d. d ≡ [])) }
    ensures open { IfOk result (λ q. q.ended ≡ false) }
    ensures there { IfOk result (λ q. IfSome (S.told site.new) (OnDisk (QueueThere q))) }
    ensures pool { IfOk result (λ _. IfSome (S.told site.new) (OnDisk (IsPoolOf pool.new []))) }
{
    let name = Name::new(b"a").ok_or(QueueError::Memory)?;
    LiveQueue::create(alloc, site, pool, serials, name, HOME)
}

/// The xid of one letter, and none where that is a dash.
pub(crate) fn by(letter: u8) -> Option<Xid>
    ensures xid { IfSome result IsXid }
{
    if letter == b'-' {
        return None;
    }
    Xid::new(&[letter])
}

/// One command of three bytes: `p` puts a body of that digit, `t` takes that number, `c` and `a` end a transaction.
fn step<S: Site, N: Serials>(
    alloc: Global,
    queue: &mut LiveQueue,
    site: &mut S,
    pool: &mut Pool,
    serials: &mut N,
    word: &[u8],
) -> Result<u64, QueueError>
    requires open { queue.old.ended ≡ false }
    requires there { IfSome (S.told site.old) (OnDisk (QueueThere queue.old)) }
    requires pool { IfSome (S.told site.old) (OnDisk (IsPoolOf pool.old [])) }
    ensures there { queue.new.ended ≡ false → IfSome (S.told site.new) (OnDisk (QueueThere queue.new)) }
    ensures pool { queue.new.ended ≡ false → IfSome (S.told site.new) (OnDisk (IsPoolOf pool.new [])) }
{
    let [letter, digit, xid] = *word else {
        return Ok(0);
    };
    let xid = by(xid);
    match letter {
        b'p' => {
            let body = Bytes::new(alloc, &[digit])?;
            queue.put(site, pool, serials, body, xid)
        }
        b't' => {
            let number = u64::from(digit.saturating_sub(b'0'));
            queue.take(site, pool, serials, number, xid)?;
            Ok(0)
        }
        _ => end(alloc, queue, site, pool, serials, xid, letter == b'c'),
    }
}

/// Ends the transaction.
fn end<S: Site, N: Serials>(
    alloc: Global,
    queue: &mut LiveQueue,
    site: &mut S,
    pool: &mut Pool,
    serials: &mut N,
    xid: Option<Xid>,
    commit: bool,
) -> Result<u64, QueueError>
    requires open { queue.old.ended ≡ false }
    requires xid { IfSome xid IsXid }
    requires there { IfSome (S.told site.old) (OnDisk (QueueThere queue.old)) }
    requires pool { IfSome (S.told site.old) (OnDisk (IsPoolOf pool.old [])) }
    ensures there { queue.new.ended ≡ false → IfSome (S.told site.new) (OnDisk (QueueThere queue.new)) }
    ensures pool { queue.new.ended ≡ false → IfSome (S.told site.new) (OnDisk (IsPoolOf pool.new [])) }
{
    let Some(xid) = xid else {
        return Ok(0);
    };
    let mut ends = Seq::new(alloc);
    ends.push(End { xid, commit })?;
    queue.finish(site, pool, serials, &ends)?;
    Ok(0)
}

/// What a command answers, as a byte: the digit of a number or 0, or the first letter of the error.
fn answer(outcome: Result<u64, QueueError>) -> u8 {
    match outcome {
        Ok(number) => number.to_le_bytes()[0].saturating_add(b'0'),
        Err(QueueError::Unknown) => b'u',
        Err(QueueError::Locked) => b'l',
        Err(QueueError::Numbers) => b'n',
        Err(QueueError::Failed) => b'f',
        Err(QueueError::Draw) => b'd',
        Err(QueueError::Spent) => b's',
        Err(QueueError::Memory) => b'm',
    }
}

/// Runs the commands until the queue is ended, and gives their answers.
pub(crate) fn run<S: Site, N: Serials>(
    alloc: Global,
    queue: &mut LiveQueue,
    site: &mut S,
    pool: &mut Pool,
    serials: &mut N,
    text: &str,
) -> Result<Vec<u8>, NoMemory>
    requires open { queue.old.ended ≡ false }
    requires there { IfSome (S.told site.old) (OnDisk (QueueThere queue.old)) }
    requires pool { IfSome (S.told site.old) (OnDisk (IsPoolOf pool.old [])) }
    ensures there { IfOk result (λ _. queue.new.ended ≡ false → IfSome (S.told site.new) (OnDisk (QueueThere queue.new))) }
    ensures pool { IfOk result (λ _. queue.new.ended ≡ false → IfSome (S.told site.new) (OnDisk (IsPoolOf pool.new []))) }
{
    let mut answers = Vec::new(alloc);
    for word in text.split_ascii_whitespace() {
        if queue.is_ended() {
            break;
        }
        let outcome = step(alloc, queue, site, pool, serials, word.as_bytes());
        answers.push(answer(outcome))?;
    }
    Ok(answers)
}

/// The letter of a status.
fn letter(status: &Status) -> u8 {
    match status {
        Status::Ready => b'r',
        Status::Coming(_) => b'c',
        Status::Going(_) => b'g',
    }
}

/// The queue has these messages, by number, and no other.
pub(crate) fn check_messages(
    rt: &impl Abort,
    queue: &LiveQueue,
    wanted: &[(u64, u8)],
) -> Result<(), Fail>
    requires open { queue.now.ended ≡ false }
{
    for (at, (number, status)) in wanted.iter().enumerate() {
        let (found, as_it_is) = queue.message_at(at).ok_or("a message")?;
        assert_eq!(rt; (found, letter(&as_it_is)), (*number, *status));
    }
    assert!(rt; queue.message_at(wanted.len()).is_none());
    Ok(())
}

/// These xids of one letter are pending, and no other.
pub(crate) fn check_pending(rt: &impl Abort, queue: &LiveQueue, wanted: &[u8]) -> Result<(), Fail>
    requires open { queue.now.ended ≡ false }
{
    let pending = queue.pending()?;
    assert_eq!(rt; pending.len(), wanted.len());
    for (xid, letter) in pending.as_slice().iter().zip(wanted) {
        assert_eq!(rt; xid.as_slice(), [*letter].as_slice());
    }
    Ok(())
}

/// The files as they stand now, with nothing of what is pending.
pub(crate) fn now(alloc: Global, site: &MemSite) -> Result<Seq<ImageFile>, Fail> {
    let moments = site.moment_count();
    if moments == 0 {
        return Err("no moment".into());
    }
    let files = site.image(moments - 1, &Seq::new(alloc))?;
    Ok(files)
}

/// The record of this serial at the front of a block, where each file has two: the letter of its kind, its record id and
/// its target.
fn record_at(files: &Seq<ImageFile>, block: usize, serial: u64) -> Option<(u8, u64, u64)> {
    let file = files.get(block / 2)?;
    let from = file.bytes.as_slice().get(4096 + block % 2 * 4096..)?;
    let head = read_whole(from, serial)?;
    let kind = match head.kind {
        Kind::Enqueue => b'e',
        Kind::Dequeue => b'd',
        Kind::Commit => b'c',
        Kind::Abort => b'a',
        Kind::Filler => b'f',
    };
    Some((kind, head.rid, head.target))
}

/// Thirteen commands in two runs on a queue, and what it has behind each run.
fn each_answer<S: Site, N: Serials>(
    rt: &impl Abort,
    alloc: Global,
    queue: &mut LiveQueue,
    site: &mut S,
    pool: &mut Pool,
    serials: &mut N,
) -> Result<(), Fail>
    requires open { queue.old.ended ≡ false }
    requires there { IfSome (S.told site.old) (OnDisk (QueueThere queue.old)) }
    requires pool { IfSome (S.told site.old) (OnDisk (IsPoolOf pool.old [])) }
{
    check_messages(rt, queue, &[])?;
    let text = "p5- p6x t1- t9- t2- t1- p7- t3y t3-";
    let answers = run(alloc, queue, site, pool, serials, text)?;
    assert_eq!(rt; answers.as_slice(), b"120ulu30l".as_slice());
    if queue.is_ended() {
        return Err("ended".into());
    }
    check_messages(rt, queue, &[(2, b'c'), (3, b'g')])?;
    check_pending(rt, queue, b"xy")?;
    let answers = run(alloc, queue, site, pool, serials, "c-x a-y t2- c-z")?;
    assert_eq!(rt; answers.as_slice(), b"0000".as_slice());
    if queue.is_ended() {
        return Err("ended".into());
    }
    check_messages(rt, queue, &[(3, b'r')])?;
    check_pending(rt, queue, b"")?;
    check_body(rt, queue, site)
}

/// The message 3 is the last one, and has the body `7`; there is no message 2.
fn check_body<S: Site>(rt: &impl Abort, queue: &mut LiveQueue, site: &mut S) -> Result<(), Fail>
    requires open { queue.old.ended ≡ false }
{
    assert_eq!(rt; queue.last(), 3);
    let body = queue.body(site, 3).map_err(|_| "a body")?;
    assert_eq!(rt; body.as_slice(), b"7".as_slice());
    let none = queue.body(site, 2);
    assert!(rt; matches!(none, Err(QueueError::Unknown)));
    Ok(())
}

/// The commands on a new queue, on a site without files.
fn begin<S: Site, N: Serials>(
    rt: &impl Abort,
    alloc: Global,
    site: &mut S,
    serials: &mut N,
) -> Result<(), Fail>
    requires empty { IfSome (S.told site.old) (OnDisk (λ d. d ≡ [])) }
{
    let mut pool = open_pools(alloc, site)?;
    let mut queue = make(alloc, site, &mut pool, serials)?;
    each_answer(rt, alloc, &mut queue, site, &mut pool, serials)
}

#[test]
fn each_answer_once(rt: HostRuntime) -> Result<(), Fail> {
    let alloc = rt.alloc();
    let mut site = MemSite::new(alloc);
    let mut serials = MemSerials::counting(7);
    begin(&rt, alloc, &mut site, &mut serials)?;
    check_records(&rt, &now(alloc, &site)?)
}

/// The records of the test above, block for block: the first file went back when its messages were gone, and the last
/// commit took it again, with the next serial.
fn check_records(rt: &impl Abort, files: &Seq<ImageFile>) -> Result<(), Fail> {
    let wanted = [
        (11, b'c', 3, 0),
        (7, b'e', 2, 0),
        (8, b'd', 2, 1),
        (8, b'e', 3, 0),
        (9, b'd', 3, 3),
        (9, b'c', 3, 0),
        (10, b'a', 3, 0),
        (10, b'd', 3, 2),
    ];
    assert_eq!(rt; files.len(), 4);
    for (block, (serial, kind, rid, target)) in wanted.iter().enumerate() {
        let record = record_at(files, block, *serial);
        assert_eq!(rt; record, Some((*kind, *rid, *target)), "{block}");
    }
    Ok(())
}

/// What four puts answer on a new queue, on a site without files.
fn puts<S: Site, N: Serials>(alloc: Global, site: &mut S, serials: &mut N) -> Result<Vec<u8>, Fail>
    requires empty { IfSome (S.told site.old) (OnDisk (λ d. d ≡ [])) }
{
    let mut pool = open_pools(alloc, site)?;
    let mut queue = make(alloc, site, &mut pool, serials)?;
    let text = "p1- p1- p1- p1-";
    let answers = run(alloc, &mut queue, site, &mut pool, serials, text)?;
    Ok(answers)
}

/// The same where the n-th call of this kind fails, or this draw.
fn fails(alloc: Global, kind: CallKind, n: u64, draw: u64) -> Result<Vec<u8>, Fail> {
    let mut site = MemSite::new(alloc);
    site.fail_call(kind, n)?;
    let mut serials = MemSerials::counting(7);
    serials.fail_draw(draw);
    puts(alloc, &mut site, &mut serials)
}

#[test]
fn what_fails_ends_the_queue(rt: HostRuntime) -> Result<(), Fail> {
    let alloc = rt.alloc();
    for (kind, n, draw, wanted) in [
        (CallKind::Any, 0, 0, "1234"),
        (CallKind::Write, 2, 0, "f"),
        (CallKind::Sync, 2, 0, "f"),
        (CallKind::Write, 3, 0, "1f"),
        (CallKind::Sync, 3, 0, "1f"),
        (CallKind::Create, 2, 0, "12f"),
        (CallKind::Write, 4, 0, "12f"),
        (CallKind::Sync, 4, 0, "12f"),
        (CallKind::Relocate, 2, 0, "12f"),
        (CallKind::Write, 5, 0, "12f"),
        (CallKind::Sync, 5, 0, "12f"),
        (CallKind::Any, 0, 2, "12d"),
    ] {
        let answers = fails(alloc, kind, n, draw)?;
        assert_eq!(rt; answers.as_slice(), wanted.as_bytes(), "{n} {draw}");
    }
    Ok(())
}
