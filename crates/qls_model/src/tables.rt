// The tables of the plain machine: queues by name, and transactions by xid.
ghost use Rattle.std.specs.Prelude.{◌≡◌, ◌+◌, ◌<◌, ◌^◌, Some, IfOk, IfErr, map, option_copied, IsSome, IsSomeAnd, position, filter, not, ◌==◌, if◌then◌else◌};
ghost use Rattle.qls_model.specs.Bytes.{same, comes_before};
ghost use Rattle.qls_model.specs.Messages.{with_message, going_if, status_of};
ghost use Rattle.qls_model.specs.Sound.{NamesOnce};
ghost use Rattle.qls_model.specs.Machine.{next_number, queue_named, xid_named, with_queue, with_xid, without_queue, without_xid, change_queue, put_message, taken, prepared};

use crate::bytes::{Bytes, NoMemory};
use crate::machine::{Message, Phase, QueueState, Status, XidState};
use crate::name::{Name, Xid};

/// The queue of this name.
pub fn find_queue<'a>(queues: &'a [QueueState], name: &Name) -> Option<&'a QueueState>
    ensures { option_copied result ≡ queue_named name.now queues.now }
{
    queues
        .iter()
        .find(|queue| queue.name.as_slice() == name.as_slice())
}

/// The entry of this xid.
pub fn find_xid<'a>(xids: &'a [XidState], xid: &Xid) -> Option<&'a XidState>
    ensures { option_copied result ≡ xid_named xid.now xids.now }
{
    xids.iter()
        .find(|entry| entry.xid.as_slice() == xid.as_slice())
}

fn is_before(first: &[u8], second: &[u8]) -> bool
    ensures { result ≡ comes_before first.now second.now }
{
    first.cmp(second).is_lt()
}

/// The place of the first queue whose name comes after this one.
fn place_before(queues: &[QueueState], name: &Name) -> Option<usize>
    ensures { result ≡ position (λ r. comes_before name.now r.name) queues.now }
{
    queues
        .iter()
        .position(|queue| is_before(name.as_slice(), queue.name.as_slice()))
}

fn xid_place_before(xids: &[XidState], xid: &Xid) -> Option<usize>
    ensures { result ≡ position (λ f. comes_before xid.now f.xid) xids.now }
{
    xids.iter()
        .position(|entry| is_before(xid.as_slice(), entry.xid.as_slice()))
}

/// Puts the queue at its place by name.
pub fn add_queue(queues: &mut Vec<QueueState>, queue: QueueState) -> Result<(), NoMemory>
    ensures added { IfOk result (λ _. queues.new.items ≡ with_queue queue queues.old.items) }
    ensures kept { IfErr result (λ _. queues.new.items ≡ queues.old.items) }
{
    let place = place_before(queues, &queue.name).unwrap_or(queues.len());
    queues.insert(place, queue)?;
    Ok(())
}

/// Puts the entry at its place by xid.
pub fn add_xid(xids: &mut Vec<XidState>, entry: XidState) -> Result<(), NoMemory>
    ensures added { IfOk result (λ _. xids.new.items ≡ with_xid entry xids.old.items) }
    ensures kept { IfErr result (λ _. xids.new.items ≡ xids.old.items) }
{
    let place = xid_place_before(xids, &entry.xid).unwrap_or(xids.len());
    xids.insert(place, entry)?;
    Ok(())
}

pub fn remove_queue(queues: &mut Vec<QueueState>, name: &Name)
    ensures { queues.new.items ≡ without_queue name.now queues.old.items }
{
    queues.retain(|queue| queue.name.as_slice() != name.as_slice());
}

pub fn remove_xid(xids: &mut Vec<XidState>, xid: &Xid)
    ensures { xids.new.items ≡ without_xid xid.now xids.old.items }
{
    xids.retain(|entry| entry.xid.as_slice() != xid.as_slice());
}

fn prepare_if_named(entry: &mut XidState, xid: &Xid)
    ensures { entry.new ≡ prepared xid.now entry.old }
{
    if entry.xid.as_slice() == xid.as_slice() {
        entry.phase = Phase::Prepared;
    }
}

pub fn prepare(xids: &mut [XidState], xid: &Xid)
    ensures { xids.new ≡ map (prepared xid.now) xids.old }
{
    for entry in xids.iter_mut() {
        prepare_if_named(entry, xid);
    }
}

/// A status: coming by the transaction, where there is one.
fn status_of(xid: &Option<Xid>) -> Status
    ensures { result ≡ status_of xid.now }
{
    match xid {
        None => Status::Ready,
        Some(xid) => Status::Coming(*xid),
    }
}

/// Puts a message with a copy of the body at the queue's end, and answers its number.
fn put_at_end(queue: &mut QueueState, body: &Bytes, xid: &Option<Xid>) -> Result<u64, NoMemory>
    requires { queue.old.last + 1 < 2 ^ 62 }
    ensures number { IfOk result (λ number. number ≡ queue.old.last + 1) }
    ensures added { IfOk result (λ number. queue.new ≡ with_message (put_message number body.now xid.now) queue.old) }
    ensures kept { IfErr result (λ _. queue.new ≡ queue.old) }
{
    let number = queue.last + 1;
    let message = Message {
        number,
        body: body.copy()?,
        status: status_of(xid),
    };
    queue.messages.push(message)?;
    queue.last = number;
    Ok(number)
}

fn find_place(queues: &[QueueState], name: &Name) -> Option<usize>
    ensures { result ≡ position (λ q. same q.name name.now) queues.now }
{
    queues
        .iter()
        .position(|queue| queue.name.as_slice() == name.as_slice())
}

/// The place of the queue of this name, which is there.
fn place_of(queues: &[QueueState], name: &Name) -> usize
    requires { IsSome (queue_named name.now queues.now) }
    ensures { position (λ q. same q.name name.now) queues.now ≡ Some result }
{
    match find_place(queues, name) {
        Some(place) => place,
        None => unreachable!(),
    }
}

/// Puts a message at the end of the queue of this name, and answers its number.
pub fn put(
    queues: &mut Vec<QueueState>,
    name: &Name,
    body: &Bytes,
    xid: &Option<Xid>,
) -> Result<u64, NoMemory>
    requires once { NamesOnce queues.old.items }
    requires room { IsSomeAnd (queue_named name.now queues.old.items) (λ q. q.last + 1 < 2 ^ 62) }
    ensures number { IfOk result (λ number. number ≡ next_number (queue_named name.now queues.old.items)) }
    ensures added { IfOk result (λ number. queues.new.items ≡ change_queue name.now (with_message (put_message number body.now xid.now)) queues.old.items) }
    ensures kept { IfErr result (λ _. queues.new.items ≡ queues.old.items) }
{
    let place = place_of(queues, name);
    put_at_end(&mut queues[place], body, xid)
}

fn set_going_if(message: &mut Message, number: u64, xid: &Xid)
    ensures { message.new ≡ going_if number xid.now message.old }
{
    if message.number == number {
        message.status = Status::Going(*xid);
    }
}

fn set_going(messages: &mut [Message], number: u64, xid: &Xid)
    ensures { messages.new ≡ map (going_if number xid.now) messages.old }
{
    for message in messages.iter_mut() {
        set_going_if(message, number, xid);
    }
}

fn remove_message(messages: &mut Vec<Message>, number: u64)
    ensures { messages.new.items ≡ filter (λ m. not (m.number == number)) messages.old.items }
{
    messages.retain(|message| message.number != number);
}

fn take_message(queue: &mut QueueState, number: u64, xid: &Option<Xid>)
    ensures { queue.new ≡ taken number xid.now queue.old }
{
    match xid {
        None => remove_message(queue.messages.as_mut_vec(), number),
        Some(xid) => set_going(queue.messages.as_mut_vec(), number, xid),
    }
}

fn take_if_named(queue: &mut QueueState, name: &Name, number: u64, xid: &Option<Xid>)
    ensures { queue.new ≡ (if same queue.old.name name.now then taken number xid.now queue.old else queue.old) }
{
    if queue.name.as_slice() == name.as_slice() {
        take_message(queue, number, xid);
    }
}

/// Takes the message out of the queue of this name, or lets it go by the transaction.
pub fn take(queues: &mut [QueueState], name: &Name, number: u64, xid: &Option<Xid>)
    ensures { queues.new ≡ change_queue name.now (taken number xid.now) queues.old }
{
    for queue in queues.iter_mut() {
        take_if_named(queue, name, number, xid);
    }
}
