// What the end of a transaction leaves of the messages.
ghost use Rattle.std.specs.Prelude.{◌≡◌, map, filter};
ghost use Rattle.qls_model.specs.Bytes.{same};
ghost use Rattle.qls_model.specs.Messages.{only, decided};
ghost use Rattle.qls_model.specs.Ends.{messages_left, status_left, with_status_left, stays};

use crate::machine::{Message, QueueState, Status, Verdict};
use crate::name::Xid;

/// The status that the verdict on the transaction leaves a message; None where the message goes.
fn left_status(status: &Status, xid: &Xid, verdict: Verdict) -> Option<Status>
    ensures { result ≡ status_left (only xid.now verdict) status.now }
{
    match (status, verdict) {
        (Status::Coming(by), Verdict::Commit) if is_same(by, xid) => Some(Status::Ready),
        (Status::Coming(by), Verdict::Abort) if is_same(by, xid) => None,
        (Status::Going(by), Verdict::Commit) if is_same(by, xid) => None,
        (Status::Going(by), Verdict::Abort) if is_same(by, xid) => Some(Status::Ready),
        _ => Some(*status),
    }
}

fn is_same(first: &Xid, second: &Xid) -> bool
    ensures { result ≡ same first.now second.now }
{
    first.as_slice() == second.as_slice()
}

/// Gives the message the status that the verdict leaves, where there is one.
fn set_left_status(message: &mut Message, xid: &Xid, verdict: Verdict)
    ensures { message.new ≡ with_status_left (only xid.now verdict) message.old }
{
    if let Some(status) = left_status(&message.status, xid, verdict) {
        message.status = status;
    }
}

fn set_left_statuses(messages: &mut [Message], xid: &Xid, verdict: Verdict)
    ensures { messages.new ≡ map (with_status_left (only xid.now verdict)) messages.old }
{
    for message in messages.iter_mut() {
        set_left_status(message, xid, verdict);
    }
}

/// Drops the messages that the verdict leaves no status.
fn retain_staying(messages: &mut Vec<Message>, xid: &Xid, verdict: Verdict)
    ensures { messages.new.items ≡ filter (stays (only xid.now verdict)) messages.old.items }
{
    messages.retain(|message| left_status(&message.status, xid, verdict).is_some());
}

/// Ends the transaction in a queue's messages.
fn end_in_messages(messages: &mut Vec<Message>, xid: &Xid, verdict: Verdict)
    ensures { messages.new.items ≡ messages_left (only xid.now verdict) messages.old.items }
{
    retain_staying(messages, xid, verdict);
    set_left_statuses(messages, xid, verdict);
}

fn end_in_queue(queue: &mut QueueState, xid: &Xid, verdict: Verdict)
    ensures { queue.new ≡ decided (only xid.now verdict) queue.old }
{
    end_in_messages(queue.messages.as_mut_vec(), xid, verdict);
}

/// Ends the transaction in all queues.
pub fn end_in_queues(queues: &mut [QueueState], xid: &Xid, verdict: Verdict)
    ensures { queues.new ≡ map (decided (only xid.now verdict)) queues.old }
{
    for queue in queues.iter_mut() {
        end_in_queue(queue, xid, verdict);
    }
}
