// The heads of the records that a queue writes, which messages are taken, and records that were read.
ghost use Rattle.std.specs.Prelude.{◌≡◌, ◌≤◌, ◌<◌, ◌^◌, false, length, option_map, option_copied, IfOk, IsTrue};
ghost use Rattle.qls_record.specs.Head.{is_legal_head};
ghost use Rattle.qls_meaning.specs.Reading.{read_of};
ghost use Rattle.qls_replay.specs.Held.{message_of, messages_of, held_after, IsAbove};
ghost use Rattle.qls_queue.specs.Answers.{take_answer, BodyAnswer};
ghost use Rattle.qls_queue.specs.Records.{xid_of};

use crate::fault::QueueError;
use qls_enqmap::{EnqMap, Held};
use qls_model::{Bytes, Message, NoMemory, Seq, Status, Xid};
use qls_record::{Got, Head, Kind};
use qls_replay::QueueReplay;
use std::alloc::Global;

/// The xid as a record has it: empty where there is none.
pub(crate) fn xid_or_none(xid: Option<Xid>) -> Xid
    ensures exact { result ≡ xid_of xid }
{
    match xid {
        Some(xid) => xid,
        None => Xid::new(&[]).unwrap(),
    }
}

/// The head of the enqueue of a message.
pub(crate) fn enqueue(number: u64, xid: &Xid, body: &Bytes) -> Head
    requires number { number < 2 ^ 62 }
    requires xid { length xid.now ≤ 128 }
    requires body { length body.now ≤ 1048576 }
    ensures legal { IsTrue (is_legal_head result) }
    ensures xid { length xid.now ≡ result.xid_size }
    ensures body { length body.now ≡ result.body_size }
    ensures exact { result ≡ record { kind = Kind.Enqueue; flagged = false; rid = number; target = 0; xid_size = length xid.now; body_size = length body.now } }
{
    Head {
        kind: Kind::Enqueue,
        flagged: false,
        rid: number,
        target: 0,
        xid_size: xid.as_slice().len() as u64,
        body_size: body.as_slice().len() as u64,
    }
}

/// The head of the dequeue of a message, where the rid in force is `last`.
pub(crate) fn dequeue(last: u64, number: u64, xid: &Xid) -> Head
    requires last { last < 2 ^ 62 }
    requires xid { length xid.now ≤ 128 }
    ensures legal { IsTrue (is_legal_head result) }
    ensures xid { length xid.now ≡ result.xid_size }
    ensures exact { result ≡ record { kind = Kind.Dequeue; flagged = false; rid = last; target = number; xid_size = length xid.now; body_size = 0 } }
{
    Head {
        kind: Kind::Dequeue,
        flagged: false,
        rid: last,
        target: number,
        xid_size: xid.as_slice().len() as u64,
        body_size: 0,
    }
}

/// Whether a message that is found may be taken: only a ready one is.
pub(crate) fn may_take(held: Option<&Held>) -> Result<(), QueueError>
    ensures answer { result ≡ take_answer (option_map message_of (option_copied held.entry)) }
{
    match held {
        None => Err(QueueError::Unknown),
        Some(held) => match held.status {
            Status::Ready => Ok(()),
            _ => Err(QueueError::Locked),
        },
    }
}

/// A copy of the body of a message that is found.
pub(crate) fn body_copy(held: Option<&Held>) -> Result<Bytes, QueueError>
    ensures answer { BodyAnswer (option_map (λ h. h.body) (option_copied held.entry)) result }
{
    match held {
        None => Err(QueueError::Unknown),
        Some(held) => Ok(held.body.copy()?),
    }
}

/// A copy of a message that is held.
fn message_copy(held: &Held) -> Result<Message, NoMemory>
    ensures exact { IfOk result (λ message. message ≡ message_of held.now) }
{
    Ok(Message {
        number: held.rid,
        body: held.body.copy()?,
        status: held.status,
    })
}

/// Copies of all messages that are held, in order.
pub(crate) fn copy_messages(alloc: Global, held: &EnqMap) -> Result<Seq<Message>, NoMemory>
    ensures exact { IfOk result (λ messages. messages ≡ messages_of held.now) }
{
    let mut messages = Seq::new(alloc);
    while let Some(one) = held.at(messages.len()) {
        messages.push(message_copy(one)?)?;
    }
    Ok(messages)
}

/// One more record of a journal that was read.
pub(crate) fn apply_read(tables: &mut QueueReplay, got: &Got) -> Result<(), NoMemory>
    requires above { IsAbove got.now.head.kind got.now.head.rid tables.old.held }
    ensures held { IfOk result (λ _. tables.new.held ≡ held_after got.now.head.kind (read_of got.now) tables.old.held) }
    ensures xid { IfOk result (λ _. length got.now.xid ≤ 128) }
{
    // never so: an xid keeps within its limit, but doesn't tell that it does
    if got.xid.as_slice().len() > 128 {
        return Err(NoMemory);
    }
    tables.apply(got)
}
