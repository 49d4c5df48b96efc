// What each command does to the two tables.
ghost use Rattle.std.specs.Prelude.{◌≡◌, [], ◌∷◌, None, IfOk, IfErr, filter};
ghost use Rattle.qls_model.specs.Machine.{first_true, refusals, accepted, step, settle, queue_named, with_queue, with_xid, ended, messages_of, doubts, is_prepared};
ghost use Rattle.qls_model.specs.Sound.{IsSound};
ghost use Rattle.qls_model.specs.Settling.{open_xids, aborted_in_turn};

use crate::bytes::{NoMemory, Seq};
use crate::ends::end_in_queues;
use crate::machine::{Command, Message, Phase, QueueState, Reply, Verdict, XidState};
use crate::name::{Name, Xid};
use crate::refusals::admit;
use crate::tables::{add_queue, add_xid, find_queue, prepare, put, remove_queue, remove_xid, take};
use std::alloc::{AllocError, Global};

/// One step of the plain machine over its tables.
pub fn step_tables(
    queues: &mut Vec<QueueState>,
    xids: &mut Vec<XidState>,
    command: &Command,
) -> Result<Reply, NoMemory>
    requires { IsSound queues.old.items xids.old.items }
    ensures stepped { IfOk result (λ reply. (record { queues = queues.new.items; xids = xids.new.items }, reply) ≡ step (record { queues = queues.old.items; xids = xids.old.items }) command.now) }
    ensures kept_queues { IfErr result (λ _. queues.new.items ≡ queues.old.items) }
    ensures kept_xids { IfErr result (λ _. xids.new.items ≡ xids.old.items) }
    ensures sound { IsSound queues.new.items xids.new.items }
{
    match admit(queues, xids, command) {
        Ok(()) => accept(queues, xids, command),
        Err(refusal) => Ok(Reply::Refused(refusal)),
    }
}

/// Does what a command asks that is not refused.
fn accept(
    queues: &mut Vec<QueueState>,
    xids: &mut Vec<XidState>,
    command: &Command,
) -> Result<Reply, NoMemory>
    requires sound { IsSound queues.old.items xids.old.items }
    requires admitted { first_true (refusals (record { queues = queues.old.items; xids = xids.old.items }) command.now) ≡ None }
    ensures accepted { IfOk result (λ reply. (record { queues = queues.new.items; xids = xids.new.items }, reply) ≡ accepted (record { queues = queues.old.items; xids = xids.old.items }) command.now) }
    ensures kept_queues { IfErr result (λ _. queues.new.items ≡ queues.old.items) }
    ensures kept_xids { IfErr result (λ _. xids.new.items ≡ xids.old.items) }
{
    match command {
        Command::Queue { name, .. } => make_queue(queues, name),
        Command::Drop { name } => {
            remove_queue(queues, name);
            Ok(Reply::Done)
        }
        Command::Put { name, body, xid } => Ok(Reply::Number(put(queues, name, body, xid)?)),
        Command::Take { name, number, xid } => {
            take(queues, name, *number, xid);
            Ok(Reply::Done)
        }
        Command::Begin { xid } => begin(xids, xid),
        Command::Prepare { xid } => {
            prepare(xids, xid);
            Ok(Reply::Done)
        }
        Command::Commit { xid } => Ok(end(queues, xids, xid, Verdict::Commit)),
        Command::Abort { xid } => Ok(end(queues, xids, xid, Verdict::Abort)),
        Command::List { name } => Ok(Reply::Messages(list(queues, name)?)),
        Command::Doubt => Ok(Reply::Doubts(doubts(xids)?)),
    }
}

/// Makes an empty queue whose last number is 0.
fn make_queue(queues: &mut Vec<QueueState>, name: &Name) -> Result<Reply, NoMemory>
    ensures done { IfOk result (λ reply. reply ≡ Reply.Done) }
    ensures added { IfOk result (λ _. queues.new.items ≡ with_queue (record { name = name.now; last = 0; messages = [] }) queues.old.items) }
    ensures kept { IfErr result (λ _. queues.new.items ≡ queues.old.items) }
{
    let queue = QueueState {
        name: *name,
        last: 0,
        messages: Seq::new(*queues.allocator()),
    };
    add_queue(queues, queue)?;
    Ok(Reply::Done)
}

/// The xid becomes open.
fn begin(xids: &mut Vec<XidState>, xid: &Xid) -> Result<Reply, NoMemory>
    ensures done { IfOk result (λ reply. reply ≡ Reply.Done) }
    ensures added { IfOk result (λ _. xids.new.items ≡ with_xid (record { xid = xid.now; phase = Phase.Open }) xids.old.items) }
    ensures kept { IfErr result (λ _. xids.new.items ≡ xids.old.items) }
{
    let entry = XidState {
        xid: *xid,
        phase: Phase::Open,
    };
    add_xid(xids, entry)?;
    Ok(Reply::Done)
}

/// The transaction ends in all queues, and leaves the table.
fn end(queues: &mut Vec<QueueState>, xids: &mut Vec<XidState>, xid: &Xid, verdict: Verdict) -> Reply
    ensures done { result ≡ Reply.Done }
    ensures ended { record { queues = queues.new.items; xids = xids.new.items } ≡ ended xid.now verdict (record { queues = queues.old.items; xids = xids.old.items }) }
{
    end_in_queues(queues, xid, verdict);
    remove_xid(xids, xid);
    Reply::Done
}

fn copy_message(message: &Message) -> Result<Message, NoMemory>
    ensures { IfOk result (λ copy. copy ≡ message.now) }
{
    Ok(Message {
        number: message.number,
        body: message.body.copy()?,
        status: message.status,
    })
}

fn copy_messages(alloc: Global, messages: &[Message]) -> Result<Seq<Message>, NoMemory>
    ensures { IfOk result (λ copies. copies ≡ messages.now) }
{
    let mut copies = Seq::new(alloc);
    for message in messages {
        copies.push(copy_message(message)?)?;
    }
    Ok(copies)
}

/// Copies of the messages of the queue of this name; none where there is no such queue.
fn list(queues: &Vec<QueueState>, name: &Name) -> Result<Seq<Message>, NoMemory>
    ensures { IfOk result (λ copies. copies ≡ messages_of (queue_named name.now queues.now.items)) }
{
    let alloc = *queues.allocator();
    match find_queue(queues, name) {
        Some(queue) => copy_messages(alloc, queue.messages.as_slice()),
        None => Ok(Seq::new(alloc)),
    }
}

/// The prepared xids.
fn doubts(xids: &Vec<XidState>) -> Result<Seq<Xid>, NoMemory>
    ensures { IfOk result (λ found. found ≡ doubts xids.now.items) }
{
    let found = prepared_xids(*xids.allocator(), xids)?;
    Ok(Seq::from_vec(found))
}

fn prepared_xids(alloc: Global, xids: &[XidState]) -> Result<Vec<Xid>, AllocError>
    ensures { IfOk result (λ found. found.items ≡ doubts xids.now) }
{
    xids.iter()
        .filter(|entry| entry.phase == Phase::Prepared)
        .map(|entry| entry.xid)
        .collect(alloc)
}

fn abort_if_open(queues: &mut Vec<QueueState>, entry: &XidState)
    ensures { queues.new.items ≡ aborted_in_turn (open_xids (entry.now ∷ [])) queues.old.items }
{
    if entry.phase == Phase::Open {
        end_in_queues(queues, &entry.xid, Verdict::Abort);
    }
}

/// Aborts each open xid in turn.
fn abort_open(queues: &mut Vec<QueueState>, xids: &[XidState])
    ensures { queues.new.items ≡ aborted_in_turn (open_xids xids.now) queues.old.items }
{
    for entry in xids {
        abort_if_open(queues, entry);
    }
}

/// Settles the tables.
pub fn settle_tables(queues: &mut Vec<QueueState>, xids: &mut Vec<XidState>)
    requires { IsSound queues.old.items xids.old.items }
    ensures settled { record { queues = queues.new.items; xids = xids.new.items } ≡ settle (record { queues = queues.old.items; xids = xids.old.items }) }
    ensures sound { IsSound queues.new.items xids.new.items }
{
    abort_open(queues, xids);
    retain_prepared(xids);
}

fn retain_prepared(xids: &mut Vec<XidState>)
    ensures { xids.new.items ≡ filter (λ e. is_prepared e.phase) xids.old.items }
{
    xids.retain(|entry| entry.phase == Phase::Prepared);
}
