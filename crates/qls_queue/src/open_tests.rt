// Queues opened over journals whose records are given: what they have then.
ghost use Rattle.std.specs.Prelude.{◌≡◌, ◌<◌, ◌^◌, [], length, false, IfOk, IfSome, IsTrue};
ghost use Rattle.qls_record.specs.Head.{is_legal_head};
ghost use Rattle.qls_record.specs.Record.{rid_given};
ghost use Rattle.qls_pool.specs.Files.{IsPoolOf, OnDisk};
ghost use Rattle.qls_log.specs.Standing.{LogThere};

use crate::heads::{dequeue, enqueue, xid_or_none};
use crate::live::LAST_NUMBER;
use crate::tests::{HOME, by, check_messages, check_pending, open_pools};
use crate::write::write_one;
use crate::{LiveQueue, QueueError};
use qls_filehdr::JournalKind;
use qls_log::Log;
use qls_memsite::{MemSerials, MemSite};
use qls_model::{Bytes, Name, Seq, Xid};
use qls_pool::Pool;
use qls_record::{Got, Head};
use qls_site::{Serials, Site};
use std::alloc::Global;
use std::process::Abort;
use std::test::Fail;

/// One more record in the journal, as it is read.
fn add<S: Site, N: Serials>(
    alloc: Global,
    log: &mut Log,
    site: &mut S,
    pool: &mut Pool,
    serials: &mut N,
    head: Head,
    xid: Xid,
    body: Bytes,
) -> Result<Got, QueueError>
    requires legal { IsTrue (is_legal_head head) }
    requires xid { length xid ≡ head.xid_size }
    requires body { length body ≡ head.body_size }
    requires next { head.rid ≡ rid_given log.old.rid head.kind }
    requires fits { head.rid < 2 ^ 62 }
    requires unended { log.old.ended ≡ false }
    requires kind { log.old.opening.kind ≡ JournalKind.Queue }
    requires files { 0 < length log.old.files }
    requires flushed { log.old.unsynced ≡ [] }
    requires there { IfSome (S.told site.old) (OnDisk (LogThere log.old)) }
    requires pool { IfSome (S.told site.old) (OnDisk (IsPoolOf pool.old [])) }
    ensures next { IfOk result (λ got. got.head.rid ≡ rid_given log.old.rid got.head.kind) }
    ensures fits { IfOk result (λ got. got.head.rid < 2 ^ 62) }
    ensures rid { IfOk result (λ got. log.new.rid ≡ got.head.rid) }
    ensures unended { IfOk result (λ _. log.new.ended ≡ false) }
    ensures kind { IfOk result (λ _. log.new.opening.kind ≡ JournalKind.Queue) }
    ensures files { IfOk result (λ _. 0 < length log.new.files) }
    ensures flushed { IfOk result (λ _. log.new.unsynced ≡ []) }
    ensures there { IfOk result (λ _. IfSome (S.told site.new) (OnDisk (LogThere log.new))) }
    ensures pool { IfOk result (λ _. IfSome (S.told site.new) (OnDisk (IsPoolOf pool.new []))) }
{
    let got = write_one(alloc, log, site, pool, serials, head, xid, body)?;
    Ok(got)
}

/// The record of a word of three bytes: `p` puts a body of that digit, `t` takes that number, by the xid of that letter.
fn write<S: Site, N: Serials>(
    alloc: Global,
    log: &mut Log,
    site: &mut S,
    pool: &mut Pool,
    serials: &mut N,
    word: &[u8],
) -> Result<Got, QueueError>
    requires rid { log.old.rid < 2 ^ 62 }
    requires unended { log.old.ended ≡ false }
    requires kind { log.old.opening.kind ≡ JournalKind.Queue }
    requires files { 0 < length log.old.files }
    requires flushed { log.old.unsynced ≡ [] }
    requires there { IfSome (S.told site.old) (OnDisk (LogThere log.old)) }
    requires pool { IfSome (S.told site.old) (OnDisk (IsPoolOf pool.old [])) }
    ensures next { IfOk result (λ got. got.head.rid ≡ rid_given log.old.rid got.head.kind) }
    ensures fits { IfOk result (λ got. got.head.rid < 2 ^ 62) }
    ensures rid { IfOk result (λ got. log.new.rid ≡ got.head.rid) }
    ensures unended { IfOk result (λ _. log.new.ended ≡ false) }
    ensures kind { IfOk result (λ _. log.new.opening.kind ≡ JournalKind.Queue) }
    ensures files { IfOk result (λ _. 0 < length log.new.files) }
    ensures flushed { IfOk result (λ _. log.new.unsynced ≡ []) }
    ensures there { IfOk result (λ _. IfSome (S.told site.new) (OnDisk (LogThere log.new))) }
    ensures pool { IfOk result (λ _. IfSome (S.told site.new) (OnDisk (IsPoolOf pool.new []))) }
{
    let [letter, digit, xid] = *word else {
        return Err(QueueError::Memory);
    };
    let xid = xid_or_none(by(xid));
    let last = log.rid();
    if letter != b'p' {
        let head = dequeue(last, u64::from(digit.saturating_sub(b'0')), &xid);
        let nothing = Bytes::from_vec(Vec::new(alloc));
        return add(alloc, log, site, pool, serials, head, xid, nothing);
    }
    if last == LAST_NUMBER {
        return Err(QueueError::Numbers);
    }
    let body = Bytes::new(alloc, &[digit])?;
    let head = enqueue(last + 1, &xid, &body);
    add(alloc, log, site, pool, serials, head, xid, body)
}

/// The queue `a` opened over a new journal of these records, on a site without files.
fn opened<S: Site, N: Serials>(
    alloc: Global,
    site: &mut S,
    serials: &mut N,
    text: &str,
) -> Result<LiveQueue, Fail>
    requires empty { IfSome (S.told site.old) (OnDisk (λ d. d ≡ [])) }
    ensures open { IfOk result (λ q. q.ended ≡ false) }
{
    let mut pool = open_pools(alloc, site)?;
    let name = Name::new(b"a").ok_or(QueueError::Memory)?;
    let mut log = Log::create(
        alloc,
        site,
        &mut pool,
        serials,
        JournalKind::Queue,
        name,
        HOME,
    )?;
    let mut reads = Seq::new(alloc);
    for word in text.split_ascii_whitespace() {
        let got = write(alloc, &mut log, site, &mut pool, serials, word.as_bytes())?;
        reads.push(got)?;
    }
    let queue = LiveQueue::open(alloc, log, &reads)?;
    Ok(queue)
}

/// The messages have these bodies of one digit.
fn check_bodies(rt: &impl Abort, queue: &LiveQueue, wanted: &str) -> Result<(), Fail>
    requires open { queue.now.ended ≡ false }
{
    let messages = queue.messages()?;
    for (message, digit) in messages.as_slice().iter().zip(wanted.as_bytes()) {
        assert_eq!(rt; message.body.as_slice(), [*digit].as_slice());
    }
    Ok(())
}

#[test]
fn records_make_the_queue(rt: HostRuntime) -> Result<(), Fail> {
    let alloc = rt.alloc();
    for (text, messages, bodies, pending, last) in [
        ("", [].as_slice(), "", "", 0),
        ("p5- p6x", [(1, b'r'), (2, b'c')].as_slice(), "56", "x", 2),
        ("p5- t1-", [].as_slice(), "", "", 1),
        ("p5- p6x t1- t2-", [(2, b'c')].as_slice(), "6", "x", 2),
        (
            "p5- p6x t1- p7- t3y",
            [(2, b'c'), (3, b'g')].as_slice(),
            "67",
            "xy",
            3,
        ),
    ] {
        let mut site = MemSite::new(alloc);
        let mut serials = MemSerials::counting(7);
        let queue = opened(alloc, &mut site, &mut serials, text)?;
        check_messages(&rt, &queue, messages)?;
        check_bodies(&rt, &queue, bodies)?;
        check_pending(&rt, &queue, pending.as_bytes())?;
        assert_eq!(rt; queue.last(), last, "{text}");
    }
    Ok(())
}
