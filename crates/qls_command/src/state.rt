//! A state as text.
ghost use Rattle.std.specs.Prelude.{◌≡◌, ◌++◌, ◌+◌, ◌<◌, IfOk, length, drop, option_to_list};
ghost use Rattle.std.specs.List.{flat_map};
ghost use Rattle.qls_model.specs.Machine.{doubts};
ghost use Rattle.qls_command.specs.Texts.{queue_line, queue_text, xid_line, state_text as text_of_state};

use crate::pieces::{put, put_count, put_decimal, put_messages, put_xid};
use qls_model::{Bytes, NoMemory, Phase, QueueState, State, Xid};
use std::alloc::Global;

/// The text of a state: its queues by the bytes of their names, each with its messages by number, and the prepared
/// xids in byte order. Open xids have no line. `NoMemory` comes where the text's memory was refused.
pub fn state_text(alloc: Global, state: &State) -> Result<Bytes, NoMemory>
    ensures text { IfOk result (λ b. b ≡ text_of_state state.now) }
{
    let mut out = Vec::new(alloc);
    put_count(&mut out, b"queues", state.queue_count() as u64)?;
    put_queues(&mut out, state)?;
    put_count(&mut out, b"doubt", doubt_count(state))?;
    put_doubts(&mut out, state)?;
    Ok(Bytes::from_vec(out))
}

fn put_queues(out: &mut Vec<u8>, state: &State) -> Result<(), NoMemory>
    ensures put { IfOk result (λ _. out.new.items ≡ out.old.items ++ flat_map queue_text state.now.queues) }
{
    for at in 0..state.queue_count() {
        let queue = state.queue_at(at).unwrap();
        put_queue(out, queue)?;
    }
    Ok(())
}

/// A queue's line and those of its messages.
fn put_queue(out: &mut Vec<u8>, queue: &QueueState) -> Result<(), NoMemory>
    ensures put { IfOk result (λ _. out.new.items ≡ out.old.items ++ queue_text queue.now) }
{
    put_queue_line(out, queue)?;
    put_messages(out, queue.messages.as_slice())
}

fn put_queue_line(out: &mut Vec<u8>, queue: &QueueState) -> Result<(), NoMemory>
    ensures put { IfOk result (λ _. out.new.items ≡ out.old.items ++ queue_line queue.now) }
{
    put(out, b"queue ")?;
    put(out, queue.name.as_slice())?;
    put(out, b" last ")?;
    put_decimal(out, queue.last)?;
    put(out, b" ")?;
    put_count(out, b"messages", queue.messages.len() as u64)
}

/// The xid at this place, if it is prepared.
fn prepared_at(state: &State, at: usize) -> Option<Xid>
    requires there { at < length state.now.xids }
    ensures prepared { doubts (drop at state.now.xids) ≡ option_to_list result ++ doubts (drop (at + 1) state.now.xids) }
{
    let (xid, phase) = state.xid_at(at).unwrap();
    match phase {
        Phase::Prepared => Some(xid),
        Phase::Open => None,
    }
}

/// How many xids are prepared.
fn doubt_count(state: &State) -> u64
    ensures counted { result ≡ length (doubts state.now.xids) }
{
    let mut count = 0;
    for at in 0..state.xid_count() {
        if prepared_at(state, at).is_some() {
            count += 1;
        }
    }
    count
}

fn put_doubts(out: &mut Vec<u8>, state: &State) -> Result<(), NoMemory>
    ensures put { IfOk result (λ _. out.new.items ≡ out.old.items ++ flat_map xid_line (doubts state.now.xids)) }
{
    for at in 0..state.xid_count() {
        if let Some(xid) = prepared_at(state, at) {
            put_xid(out, &xid)?;
        }
    }
    Ok(())
}
