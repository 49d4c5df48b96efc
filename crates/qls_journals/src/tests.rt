// Open journals over a site in memory: what each call answers, what their queues hold then, and what ends them.
ghost use Rattle.std.specs.Prelude.{◌≡◌, ◌<◌, ◌≤◌, [], None, Some, Ok, IfOk, IfSome, IsTrue, false, length, take};
ghost use Rattle.qls_decide.specs.Entries.{entry_of, state_of, verdict_by};
ghost use Rattle.qls_model.specs.Limits.{is_queue_name};
ghost use Rattle.qls_pool.specs.Files.{IsWholePool, OnDisk};
ghost use Rattle.qls_prepared.specs.Lists.{MayEnd};
ghost use Rattle.qls_queue.specs.Answers.{is_pending};
ghost use Rattle.qls_queue.specs.Records.{IsXid};
ghost use Rattle.qls_replay.specs.Ops.{is_moved, verdict_if};
ghost use Rattle.qls_journals.specs.Deciding.{NonePending};
ghost use Rattle.qls_journals.specs.State.{queues_of, AreReleased, Fits};

use crate::{Cause, Journals};
use qls_decide::{End, ListState, Verdict, verdict_of};
use qls_memsite::{CallKind, MemSerials, MemSite};
use qls_model::{Bytes, Name, NoMemory, PoolId, QueueState, Refusal, Seq, Status, Xid};
use qls_pool::Pool;
use qls_site::{Serials, Site};
use std::alloc::Global;
use std::process::Abort;
use std::test::Fail;

/// The pool of partition 1 whose files have 8 KiB of data, two blocks.
pub(crate) const HOME: PoolId = PoolId { part: 1, kib: 8 };

/// The pools of a site without files.
fn open_pools<S: Site>(alloc: Global, site: &mut S) -> Result<Pool, Fail>
    requires empty { IfSome (S.told site.old) (OnDisk (λ d. d ≡ [])) }
    ensures pool { IfOk result (λ pool. IfSome (S.told site.new) (OnDisk (IsWholePool pool))) }
    ensures empty { IfOk result (λ _. IfSome (S.told site.new) (OnDisk (λ d. d ≡ []))) }
{
    let files = site.list(alloc)?;
    let pool = Pool::open(alloc, 0, &files)?;
    Ok(pool)
}

/// Journals without a queue, on a site without files.
#[tactic(auto, using(crate::proofs::Tested::nothing_fits))]
pub(crate) fn open<S: Site>(alloc: Global, site: &mut S) -> Result<Journals, Fail>
    requires empty { IfSome (S.told site.old) (OnDisk (λ d. d ≡ [])) }
    ensures fits { IfOk result (λ journals. IfSome (S.told site.new) (OnDisk (Fits journals))) }
    ensures released { IfOk result (λ journals. AreReleased journals.queues) }
{
    let pool = open_pools(alloc, site)?;
    Ok(Journals::new(alloc, HOME, pool))
}

/// The queue `b`, or else `a`.
fn name_of(letter: u8) -> Result<Name, NoMemory>
    ensures legal { IfOk result (λ name. IsTrue (is_queue_name name)) }
{
    let name = if letter == b'b' {
        Name::new(b"b")
    } else {
        Name::new(b"a")
    };
    name.ok_or(NoMemory)
}

/// The xid of one letter, and none where that is a dash.
fn by(letter: u8) -> Option<Xid>
    ensures xid { IfSome result IsXid }
{
    if letter == b'-' {
        return None;
    }
    Xid::new(&[letter])
}

/// The place of a queue that there is.
fn place(journals: &Journals, letter: u8) -> Result<Option<usize>, NoMemory>
    ensures within { IfOk result (λ found. IfSome found (λ at. at < length journals.now.queues)) }
{
    let name = name_of(letter)?;
    Ok(journals.place_of(&name).ok())
}

/// The list's first entry: its xid and its state.
fn first(journals: &Journals) -> Option<(Xid, ListState)>
    ensures state { IfSome result (λ e. state_of (entry_of e.0 journals.now.list.entries) ≡ Some e.1) }
    ensures none { result ≡ None → journals.now.list.entries ≡ [] }
{
    let entry = journals.entry_at(0)?;
    Some((entry.xid, entry.state))
}

/// Makes the queue.
fn make<S: Site, N: Serials>(
    journals: Journals,
    site: &mut S,
    serials: &mut N,
    letter: u8,
) -> Result<(Journals, u8), Cause>
    requires fits { IfSome (S.told site.old) (OnDisk (Fits journals)) }
    requires released { AreReleased journals.queues }
    ensures fits { IfOk result (λ r. IfSome (S.told site.new) (OnDisk (Fits r.0))) }
    ensures released { IfOk result (λ r. AreReleased r.0.queues) }
{
    let name = name_of(letter)?;
    match journals.place_of(&name) {
        Ok(_) => Ok((journals, b'e')),
        Err(at) => Ok((journals.create(site, serials, name, HOME, at)?, b'0')),
    }
}

/// Takes the queue away.
#[tactic(auto, using(crate::proofs::Tested::released_at))]
fn unmake<S: Site>(journals: Journals, site: &mut S, letter: u8) -> Result<(Journals, u8), Cause>
    requires fits { IfSome (S.told site.old) (OnDisk (Fits journals)) }
    requires released { AreReleased journals.queues }
    ensures fits { IfOk result (λ r. IfSome (S.told site.new) (OnDisk (Fits r.0))) }
    ensures released { IfOk result (λ r. AreReleased r.0.queues) }
{
    let name = name_of(letter)?;
    let Ok(at) = journals.place_of(&name) else {
        return Ok((journals, b'q'));
    };
    if journals.has_message(at) {
        return Ok((journals, b'b'));
    }
    Ok((journals.remove(site, &name, at)?, b'0'))
}

/// The letter of a refusal by a queue.
fn refused(refusal: Refusal) -> u8 {
    match refusal {
        Refusal::Message => b'm',
        Refusal::Locked => b'l',
        _ => b's',
    }
}

/// Puts a message whose body is the digit.
fn put<S: Site, N: Serials>(
    alloc: Global,
    journals: Journals,
    site: &mut S,
    serials: &mut N,
    word: (u8, u8, u8),
) -> Result<(Journals, u8), Cause>
    requires fits { IfSome (S.told site.old) (OnDisk (Fits journals)) }
    requires released { AreReleased journals.queues }
    ensures fits { IfOk result (λ r. IfSome (S.told site.new) (OnDisk (Fits r.0))) }
    ensures released { IfOk result (λ r. AreReleased r.0.queues) }
{
    let (letter, digit, xid) = word;
    let Some(at) = place(&journals, letter)? else {
        return Ok((journals, b'q'));
    };
    let body = Bytes::new(alloc, &[digit])?;
    let (journals, answer) = journals.put(site, serials, at, body, by(xid))?;
    let answer = match answer {
        Ok(number) => number.to_le_bytes()[0].saturating_add(b'0'),
        Err(refusal) => refused(refusal),
    };
    Ok((journals, answer))
}

/// Takes the message whose number is the digit.
fn take<S: Site, N: Serials>(
    journals: Journals,
    site: &mut S,
    serials: &mut N,
    word: (u8, u8, u8),
) -> Result<(Journals, u8), Cause>
    requires fits { IfSome (S.told site.old) (OnDisk (Fits journals)) }
    requires released { AreReleased journals.queues }
    ensures fits { IfOk result (λ r. IfSome (S.told site.new) (OnDisk (Fits r.0))) }
    ensures released { IfOk result (λ r. AreReleased r.0.queues) }
{
    let (letter, digit, xid) = word;
    let Some(at) = place(&journals, letter)? else {
        return Ok((journals, b'q'));
    };
    let number = u64::from(digit.saturating_sub(b'0'));
    let (journals, answer) = journals.take(site, serials, at, number, by(xid))?;
    let answer = match answer {
        Ok(()) => b'0',
        Err(refusal) => refused(refusal),
    };
    Ok((journals, answer))
}

/// Whether the list says that the transaction commits or that it aborts; None in doubt.
fn decision(journals: &Journals, xid: &Xid) -> Option<bool>
    ensures decided { IfSome result (λ commit. verdict_by journals.now.list.entries xid.now ≡ verdict_if commit) }
{
    match verdict_of(journals.entry(xid)) {
        Verdict::Commit => Some(true),
        Verdict::Abort => Some(false),
        Verdict::Doubt => None,
    }
}

/// Whether the message's status is by the transaction.
fn is_by(status: &Status, xid: &Xid) -> bool
    ensures exact { result ≡ is_moved xid.now status.now }
{
    match status {
        Status::Ready => false,
        Status::Coming(by) | Status::Going(by) => xid.as_slice() == by.as_slice(),
    }
}

/// Whether a message of the queue is coming or going by the transaction.
fn has_pending(queue: &QueueState, xid: &Xid) -> bool
    ensures exact { result ≡ is_pending xid.now queue.now }
{
    queue
        .messages
        .as_slice()
        .iter()
        .any(|message| is_by(&message.status, xid))
}

/// Whether one of the first so many queues has a message that is coming or going by the transaction.
#[tactic(auto, using(crate::proofs::Tested::none_in_next))]
fn is_pending_in(journals: &Journals, count: usize, xid: &Xid) -> Result<bool, NoMemory>
    requires within { count ≤ length journals.now.queues }
    ensures none { result ≡ Ok false → NonePending xid.now (take count (queues_of journals.now)) }
{
    for at in 0..count {
        let queue = journals.queue_at(at)?;
        if has_pending(&queue, xid) {
            return Ok(true);
        }
    }
    Ok(false)
}

/// Ends the transaction in the queue as the list says, if it has ended in those before; not one in doubt.
fn finish<S: Site, N: Serials>(
    alloc: Global,
    journals: Journals,
    site: &mut S,
    serials: &mut N,
    word: (u8, u8, u8),
) -> Result<(Journals, u8), Cause>
    requires fits { IfSome (S.told site.old) (OnDisk (Fits journals)) }
    requires released { AreReleased journals.queues }
    ensures fits { IfOk result (λ r. IfSome (S.told site.new) (OnDisk (Fits r.0))) }
    ensures released { IfOk result (λ r. AreReleased r.0.queues) }
{
    let (letter, _, xid) = word;
    let Some(at) = place(&journals, letter)? else {
        return Ok((journals, b'q'));
    };
    let Some(xid) = by(xid) else {
        return Ok((journals, b'?'));
    };
    let Some(commit) = decision(&journals, &xid) else {
        return Ok((journals, b'd'));
    };
    if is_pending_in(&journals, at, &xid)? {
        return Ok((journals, b'n'));
    }
    let mut ends = Seq::new(alloc);
    ends.push(End { xid, commit })?;
    Ok((journals.finish(site, serials, at, &ends)?, b'0'))
}

/// Enters the transaction `x` in an empty list, in one phase where that is said.
fn enter<S: Site, N: Serials>(
    journals: Journals,
    site: &mut S,
    serials: &mut N,
    one_phase: bool,
) -> Result<(Journals, u8), Cause>
    requires fits { IfSome (S.told site.old) (OnDisk (Fits journals)) }
    requires released { AreReleased journals.queues }
    ensures fits { IfOk result (λ r. IfSome (S.told site.new) (OnDisk (Fits r.0))) }
    ensures released { IfOk result (λ r. AreReleased r.0.queues) }
{
    if first(&journals).is_some() {
        return Ok((journals, b'?'));
    }
    let Some(xid) = by(b'x') else {
        return Ok((journals, b'?'));
    };
    if one_phase {
        return Ok((journals.one_phase(site, serials, xid)?, b'0'));
    }
    Ok((journals.prepare(site, serials, xid)?, b'0'))
}

/// Decides the first entry, if it is prepared.
fn decide<S: Site, N: Serials>(
    journals: Journals,
    site: &mut S,
    serials: &mut N,
    commit: bool,
) -> Result<(Journals, u8), Cause>
    requires fits { IfSome (S.told site.old) (OnDisk (Fits journals)) }
    requires released { AreReleased journals.queues }
    ensures fits { IfOk result (λ r. IfSome (S.told site.new) (OnDisk (Fits r.0))) }
    ensures released { IfOk result (λ r. AreReleased r.0.queues) }
{
    match first(&journals) {
        Some((xid, ListState::Prepared)) => {
            Ok((journals.decide(site, serials, xid, commit)?, b'0'))
        }
        _ => Ok((journals, b'?')),
    }
}

/// Ends the transaction's entry, if no queue has a message by it.
#[tactic(auto, using(crate::proofs::Tested::none_in_all))]
fn end_entry<S: Site, N: Serials>(
    journals: Journals,
    site: &mut S,
    serials: &mut N,
    xid: Xid,
) -> Result<(Journals, u8), Cause>
    requires decided { MayEnd (entry_of xid journals.list.entries) }
    requires fits { IfSome (S.told site.old) (OnDisk (Fits journals)) }
    requires released { AreReleased journals.queues }
    ensures fits { IfOk result (λ r. IfSome (S.told site.new) (OnDisk (Fits r.0))) }
    ensures released { IfOk result (λ r. AreReleased r.0.queues) }
{
    if is_pending_in(&journals, journals.queue_count(), &xid)? {
        return Ok((journals, b'n'));
    }
    Ok((journals.end(site, serials, xid)?, b'0'))
}

/// Ends the first entry, if it is decided.
fn end<S: Site, N: Serials>(
    journals: Journals,
    site: &mut S,
    serials: &mut N,
) -> Result<(Journals, u8), Cause>
    requires fits { IfSome (S.told site.old) (OnDisk (Fits journals)) }
    requires released { AreReleased journals.queues }
    ensures fits { IfOk result (λ r. IfSome (S.told site.new) (OnDisk (Fits r.0))) }
    ensures released { IfOk result (λ r. AreReleased r.0.queues) }
{
    match first(&journals) {
        Some((xid, ListState::DecidedCommit)) => end_entry(journals, site, serials, xid),
        Some((xid, ListState::DecidedAbort)) => end_entry(journals, site, serials, xid),
        _ => Ok((journals, b'?')),
    }
}

/// One command of four bytes: what is done, and the queue, the digit or verdict, and the xid for which. Commands on the
/// list, in capitals, have no more.
fn step<S: Site, N: Serials>(
    alloc: Global,
    journals: Journals,
    site: &mut S,
    serials: &mut N,
    word: &[u8],
) -> Result<(Journals, u8), Cause>
    requires fits { IfSome (S.told site.old) (OnDisk (Fits journals)) }
    requires released { AreReleased journals.queues }
    ensures fits { IfOk result (λ r. IfSome (S.told site.new) (OnDisk (Fits r.0))) }
    ensures released { IfOk result (λ r. AreReleased r.0.queues) }
{
    let [what, letter, digit, xid] = *word else {
        return Ok((journals, b'?'));
    };
    let rest = (letter, digit, xid);
    match what {
        b'+' => make(journals, site, serials, letter),
        b'-' => unmake(journals, site, letter),
        b'p' => put(alloc, journals, site, serials, rest),
        b't' => take(journals, site, serials, rest),
        b'f' => finish(alloc, journals, site, serials, rest),
        b'P' => enter(journals, site, serials, false),
        b'O' => enter(journals, site, serials, true),
        b'D' => decide(journals, site, serials, letter == b'c'),
        _ => end(journals, site, serials),
    }
}

/// The letter of what ended the journals.
fn ended(cause: Cause) -> u8 {
    match cause {
        Cause::Failed => b'F',
        Cause::Draw => b'D',
        Cause::Spent => b'S',
        Cause::Memory => b'M',
    }
}

/// Runs the commands until one ends the journals: their answers, and the journals where none did.
fn run<S: Site, N: Serials>(
    alloc: Global,
    journals: Journals,
    site: &mut S,
    serials: &mut N,
    text: &str,
) -> Result<(Option<Journals>, Vec<u8>), NoMemory>
    requires fits { IfSome (S.told site.old) (OnDisk (Fits journals)) }
    requires released { AreReleased journals.queues }
    ensures fits { IfOk result (λ r. IfSome r.0 (λ journals. IfSome (S.told site.new) (OnDisk (Fits journals)))) }
    ensures released { IfOk result (λ r. IfSome r.0 (λ journals. AreReleased journals.queues)) }
{
    let mut answers = Vec::new(alloc);
    let mut open = journals;
    for word in text.split_ascii_whitespace() {
        match step(alloc, open, site, serials, word.as_bytes()) {
            Ok((next, answer)) => {
                open = next;
                answers.push(answer)?;
            }
            Err(cause) => {
                answers.push(ended(cause))?;
                return Ok((None, answers));
            }
        }
    }
    Ok((Some(open), answers))
}

/// The letter of a status.
pub(crate) fn letter_of(status: &Status) -> u8 {
    match status {
        Status::Ready => b'r',
        Status::Coming(_) => b'c',
        Status::Going(_) => b'g',
    }
}

/// The queue stands at this place by name and has these messages, by number, and no other.
fn check_messages(
    rt: &impl Abort,
    journals: &Journals,
    letter: u8,
    wanted_at: usize,
    wanted: &[(u64, u8)],
) -> Result<(), Fail> {
    let at = place(journals, letter)?.ok_or("a queue")?;
    assert_eq!(rt; at, wanted_at);
    assert_eq!(rt; journals.has_message(at), !wanted.is_empty());
    let messages = journals.messages(at)?;
    let queue = journals.queue_at(at)?;
    assert_eq!(rt; queue.name.as_slice(), [letter].as_slice());
    assert_eq!(rt; queue.messages.len(), wanted.len());
    assert_eq!(rt; messages.len(), wanted.len());
    for (message, (number, status)) in messages.as_slice().iter().zip(wanted) {
        assert_eq!(rt;
            (message.number, letter_of(&message.status)),
            (*number, *status)
        );
    }
    Ok(())
}

/// By these xids, a letter each, messages of the queue are pending, and the list has these entries.
fn check_xids(
    rt: &impl Abort,
    journals: &Journals,
    letter: u8,
    pending: &str,
    entries: &str,
) -> Result<(), Fail> {
    let at = place(journals, letter)?.ok_or("a queue")?;
    let xids = journals.pending(at)?;
    assert_eq!(rt; xids.len(), pending.len());
    for (xid, wanted) in xids.as_slice().iter().zip(pending.as_bytes()) {
        assert_eq!(rt; xid.as_slice(), [*wanted].as_slice());
    }
    let listed = journals.entries()?;
    assert_eq!(rt; listed.len(), entries.len());
    for (entry, wanted) in listed.as_slice().iter().zip(entries.as_bytes()) {
        assert_eq!(rt; entry.xid.as_slice(), [*wanted].as_slice());
    }
    Ok(())
}

/// Runs the commands, whose answers are wanted to be these, and none of which ends the journals.
pub(crate) fn run_all<S: Site, N: Serials>(
    rt: &impl Abort,
    alloc: Global,
    journals: Journals,
    site: &mut S,
    serials: &mut N,
    text: &str,
    wanted: &str,
) -> Result<Journals, Fail>
    requires fits { IfSome (S.told site.old) (OnDisk (Fits journals)) }
    requires released { AreReleased journals.queues }
    ensures fits { IfOk result (λ journals. IfSome (S.told site.new) (OnDisk (Fits journals))) }
    ensures released { IfOk result (λ journals. AreReleased journals.queues) }
{
    let (open, answers) = run(alloc, journals, site, serials, text)?;
    assert_eq!(rt; answers.as_slice(), wanted.as_bytes(), "{text}");
    let open = open.ok_or("ended")?;
    Ok(open)
}

/// Commands on two queues and on the list, and what the queues have between them.
fn each_answer<S: Site, N: Serials>(
    rt: &impl Abort,
    alloc: Global,
    site: &mut S,
    serials: &mut N,
) -> Result<(), Fail>
    requires empty { IfSome (S.told site.old) (OnDisk (λ d. d ≡ [])) }
{
    let journals = open(alloc, site)?;
    let text = "+b-- +a-- pa5- pb6x pa7- ta1- ta2y";
    let journals = run_all(rt, alloc, journals, site, serials, text, "0011200")?;
    check_messages(rt, &journals, b'a', 0, &[(2, b'g')])?;
    check_messages(rt, &journals, b'b', 1, &[(1, b'c')])?;
    check_xids(rt, &journals, b'a', "y", "")?;
    let journals = run_all(rt, alloc, journals, site, serials, "P---", "0")?;
    check_xids(rt, &journals, b'b', "x", "x")?;
    let text = "fb-x Dc-- E--- pa8x fb-x fa-x fb-x E--- ta3- fa-y +a-- -a-- ta9- ta2z ta2-";
    let journals = run_all(rt, alloc, journals, site, serials, text, "d0n3n00000ebm0l")?;
    check_messages(rt, &journals, b'a', 0, &[(2, b'g')])?;
    check_messages(rt, &journals, b'b', 1, &[(1, b'r')])?;
    let text = "fa-z ta2- tb1- -b-- -b--";
    let journals = run_all(rt, alloc, journals, site, serials, text, "0000q")?;
    check_messages(rt, &journals, b'a', 0, &[])?;
    assert_eq!(rt; journals.queue_count(), 1);
    let text = "-a-- -a--";
    let journals = run_all(rt, alloc, journals, site, serials, text, "0q")?;
    let text = "E--- P--- P--- Dc-- E--- O--- E--- P--- Da-- E---";
    run_all(rt, alloc, journals, site, serials, text, "?0?0000000")?;
    Ok(())
}

#[test]
fn each_answer_once(rt: HostRuntime) -> Result<(), Fail> {
    let alloc = rt.alloc();
    let mut site = MemSite::new(alloc);
    let mut serials = MemSerials::counting(7);
    each_answer(&rt, alloc, &mut site, &mut serials)
}

/// What the commands answer on a site without files.
fn answers<S: Site, N: Serials>(
    alloc: Global,
    site: &mut S,
    serials: &mut N,
    text: &str,
) -> Result<Vec<u8>, Fail>
    requires empty { IfSome (S.told site.old) (OnDisk (λ d. d ≡ [])) }
{
    let journals = open(alloc, site)?;
    let (_open, answers) = run(alloc, journals, site, serials, text)?;
    Ok(answers)
}

/// The same where the n-th call of this kind fails, or this draw.
fn fails(alloc: Global, text: &str, kind: CallKind, n: u64, draw: u64) -> Result<Vec<u8>, Fail> {
    let mut site = MemSite::new(alloc);
    site.fail_call(kind, n)?;
    let mut serials = MemSerials::counting(7);
    serials.fail_draw(draw);
    answers(alloc, &mut site, &mut serials, text)
}

#[test]
fn what_fails_ends_the_journals(rt: HostRuntime) -> Result<(), Fail> {
    let alloc = rt.alloc();
    let puts = "+a-- pa1- pa1- pa1-";
    let list = "P--- Dc-- E---";
    for (text, kind, n, draw, wanted) in [
        (puts, CallKind::Any, 0, 0, "0123"),
        (puts, CallKind::Create, 1, 0, "F"),
        (puts, CallKind::Write, 1, 0, "F"),
        (puts, CallKind::Sync, 1, 0, "F"),
        (puts, CallKind::Relocate, 1, 0, "F"),
        (puts, CallKind::Any, 0, 1, "D"),
        (puts, CallKind::Sync, 2, 0, "0F"),
        (puts, CallKind::Create, 2, 0, "012F"),
        (puts, CallKind::Any, 0, 2, "012D"),
        ("+a-- -a--", CallKind::Relocate, 2, 0, "0F"),
        (list, CallKind::Any, 0, 0, "000"),
        (list, CallKind::Create, 1, 0, "F"),
        (list, CallKind::Any, 0, 1, "D"),
        (list, CallKind::Sync, 3, 0, "0F"),
        (list, CallKind::Create, 2, 0, "00F"),
    ] {
        let answers = fails(alloc, text, kind, n, draw)?;
        assert_eq!(rt; answers.as_slice(), wanted.as_bytes(), "{text} {n} {draw}");
    }
    Ok(())
}
