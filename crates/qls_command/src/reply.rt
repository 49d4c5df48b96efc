//! Replies as text.
ghost use Rattle.std.specs.Prelude.{◌≡◌, ◌++◌, IfOk};
ghost use Rattle.qls_command.specs.Texts.{refusal_word, reply_text as text_of_reply};

use crate::pieces::{put, put_count, put_messages, put_xids};
use qls_model::{Bytes, NoMemory, Refusal, Reply};
use std::alloc::Global;

/// The text of a reply: its lines, each ended by an LF; bodies and xids in lower-case hex, and an empty body as a dash.
/// `NoMemory` comes where the text's memory was refused.
pub fn reply_text(alloc: Global, reply: &Reply) -> Result<Bytes, NoMemory>
    ensures text { IfOk result (λ b. b ≡ text_of_reply reply.now) }
{
    let mut out = Vec::new(alloc);
    put_reply(&mut out, reply)?;
    Ok(Bytes::from_vec(out))
}

fn put_reply(out: &mut Vec<u8>, reply: &Reply) -> Result<(), NoMemory>
    ensures put { IfOk result (λ _. out.new.items ≡ out.old.items ++ text_of_reply reply.now) }
{
    match reply {
        Reply::Done => put(out, b"ok\n"),
        Reply::Number(number) => put_count(out, b"ok", *number),
        Reply::Messages(messages) => {
            let messages = messages.as_slice();
            put_count(out, b"ok", messages.len() as u64)?;
            put_messages(out, messages)
        }
        Reply::Doubts(xids) => {
            let xids = xids.as_slice();
            put_count(out, b"ok", xids.len() as u64)?;
            put_xids(out, xids)
        }
        Reply::Refused(refusal) => {
            put(out, b"refused ")?;
            put(out, refusal_text(*refusal))?;
            put(out, b"\n")
        }
    }
}

fn refusal_text(refusal: Refusal) -> &'static [u8]
    ensures word { result.now ≡ refusal_word refusal }
{
    match refusal {
        Refusal::Line => b"line",
        Refusal::Exists => b"exists",
        Refusal::Queue => b"queue",
        Refusal::Xid => b"xid",
        Refusal::Phase => b"phase",
        Refusal::Message => b"message",
        Refusal::Locked => b"locked",
        Refusal::Busy => b"busy",
        Refusal::Spent => b"spent",
    }
}
