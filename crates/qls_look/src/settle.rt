// The transactions of a queue, ended as the prepared list says.
ghost use Rattle.std.specs.Prelude.{◌≡◌, ◌++◌, None, [], option_to_list, IfOk};
ghost use Rattle.qls_model.specs.Messages.{left_by};
ghost use Rattle.qls_model.specs.Ends.{status_left, messages_left};
ghost use Rattle.qls_enqmap.specs.Records.{RidsRise};
ghost use Rattle.qls_replay.specs.Held.{message_of, messages_of};
ghost use Rattle.qls_look.specs.Seen.{verdict_in};

use qls_decide::{ListState, verdict_of};
use qls_enqmap::{EnqMap, Held};
use qls_model::{Message, NoMemory, Seq, Status, Verdict, Xid};
use std::alloc::Global;
use std::collections::HashMap;

// The states of the prepared list's entries by xid.
pub type States = HashMap<Xid, ListState>;

// The messages of the records that are held, as the verdicts leave them. Bodies are not copied.
pub fn messages_in(alloc: Global, held: EnqMap, states: &States) -> Result<Seq<Message>, NoMemory>
    requires rising { RidsRise held }
    ensures left { IfOk result (λ messages. messages ≡ messages_left (verdict_in states.now) (messages_of held)) }
{
    let mut held = held;
    let mut messages = Seq::new(alloc);
    while let Some(first) = take_first(&mut held) {
        add_left(&mut messages, first, states)?;
    }
    Ok(messages)
}

// Takes out the record with the least id; None exactly where there is no record.
fn take_first(held: &mut EnqMap) -> Option<Held>
    requires rising { RidsRise held.old }
    ensures first { held.old ≡ option_to_list result ++ held.new }
    ensures none { result ≡ None → held.new ≡ [] }
    ensures rising { RidsRise held.new }
{
    let rid = held.at(0)?.rid;
    held.remove(rid).ok()
}

// Puts what is left of the record's message at the end.
fn add_left(messages: &mut Seq<Message>, held: Held, states: &States) -> Result<(), NoMemory>
    ensures added { IfOk result (λ _. messages.new ≡ messages.old ++ option_to_list (left_by (verdict_in states.now) held.status (message_of held))) }
{
    match status_left(states, &held.status) {
        Some(status) => messages.push(Message {
            number: held.rid,
            body: held.body,
            status,
        }),
        None => Ok(()),
    }
}

// The status that the verdict on its transaction leaves; None where the message goes.
fn status_left(states: &States, status: &Status) -> Option<Status>
    ensures left { result ≡ status_left (verdict_in states.now) status.now }
{
    match status {
        Status::Ready => Some(Status::Ready),
        Status::Coming(xid) => match verdict(states, xid) {
            Verdict::Commit => Some(Status::Ready),
            Verdict::Abort => None,
            Verdict::Doubt => Some(*status),
        },
        Status::Going(xid) => match verdict(states, xid) {
            Verdict::Commit => None,
            Verdict::Abort => Some(Status::Ready),
            Verdict::Doubt => Some(*status),
        },
    }
}

// What becomes of a transaction.
fn verdict(states: &States, xid: &Xid) -> Verdict
    ensures verdict { result ≡ verdict_in states.now xid.now }
{
    verdict_of(states.get(xid).copied())
}
