//! The pieces of texts, each put at the end of a buffer.
ghost use Rattle.std.specs.Prelude.{◌≡◌, ◌++◌, ◌∷◌, [], ◌≤◌, IfOk, length};
ghost use Rattle.std.specs.List.{flat_map};
ghost use Rattle.std.specs.Fmt.{decimal};
ghost use Rattle.hex.specs.Hex.{encode_lower};
ghost use Rattle.qls_command.specs.Texts.{hex_word, spaced, status_words, message_line, xid_line, line as line_of_words};

use qls_model::{Message, NoMemory, Status, Xid};
use std::io::Write;

/// How many bytes are turned to hex at once.
const CHUNK: usize = 256;

/// A line of a word and a number.
pub fn put_count(out: &mut Vec<u8>, word: &[u8], count: u64) -> Result<(), NoMemory>
    ensures put { IfOk result (λ _. out.new.items ≡ out.old.items ++ line_of_words (word.now ∷ decimal count ∷ [])) }
{
    put(out, word)?;
    put(out, b" ")?;
    put_decimal(out, count)?;
    put(out, b"\n")
}

pub fn put_messages(out: &mut Vec<u8>, messages: &[Message]) -> Result<(), NoMemory>
    ensures put { IfOk result (λ _. out.new.items ≡ out.old.items ++ flat_map message_line messages.now) }
{
    for message in messages {
        put_message(out, message)?;
    }
    Ok(())
}

pub fn put_message(out: &mut Vec<u8>, message: &Message) -> Result<(), NoMemory>
    ensures put { IfOk result (λ _. out.new.items ≡ out.old.items ++ message_line message.now) }
{
    put_decimal(out, message.number)?;
    put(out, b" ")?;
    put_status(out, &message.status)?;
    put_hex(out, message.body.as_slice())?;
    put(out, b"\n")
}

/// The words of a status, each with a space behind it.
fn put_status(out: &mut Vec<u8>, status: &Status) -> Result<(), NoMemory>
    ensures put { IfOk result (λ _. out.new.items ≡ out.old.items ++ spaced (status_words status.now)) }
{
    match status {
        Status::Ready => put(out, b"ready "),
        Status::Coming(xid) => {
            put(out, b"coming ")?;
            put_hex(out, xid.as_slice())?;
            put(out, b" ")
        }
        Status::Going(xid) => {
            put(out, b"going ")?;
            put_hex(out, xid.as_slice())?;
            put(out, b" ")
        }
    }
}

pub fn put_xids(out: &mut Vec<u8>, xids: &[Xid]) -> Result<(), NoMemory>
    ensures put { IfOk result (λ _. out.new.items ≡ out.old.items ++ flat_map xid_line xids.now) }
{
    for xid in xids {
        put_xid(out, xid)?;
    }
    Ok(())
}

pub fn put_xid(out: &mut Vec<u8>, xid: &Xid) -> Result<(), NoMemory>
    ensures put { IfOk result (λ _. out.new.items ≡ out.old.items ++ xid_line xid.now) }
{
    put_hex(out, xid.as_slice())?;
    put(out, b"\n")
}

/// Lower-case hex, or a dash for no bytes.
pub fn put_hex(out: &mut Vec<u8>, bytes: &[u8]) -> Result<(), NoMemory>
    ensures put { IfOk result (λ _. out.new.items ≡ out.old.items ++ hex_word bytes.now) }
{
    if bytes.is_empty() {
        return put(out, b"-");
    }
    put_digits(out, bytes)
}

fn put_digits(out: &mut Vec<u8>, bytes: &[u8]) -> Result<(), NoMemory>
    ensures put { IfOk result (λ _. out.new.items ≡ out.old.items ++ encode_lower bytes.now) }
{
    let mut rest = bytes;
    while !rest.is_empty() {
        let (chunk, behind) = rest.split_at(rest.len().min(CHUNK));
        put_chunk(out, chunk)?;
        rest = behind;
    }
    Ok(())
}

fn put_chunk(out: &mut Vec<u8>, chunk: &[u8]) -> Result<(), NoMemory>
    requires small { length chunk.now ≤ 256 }
    ensures put { IfOk result (λ _. out.new.items ≡ out.old.items ++ encode_lower chunk.now) }
{
    let mut digits = [0; 2 * CHUNK];
    let digits = &mut digits[..2 * chunk.len()];
    hex::encode_to_slice(chunk, digits).unwrap();
    put(out, digits)
}

pub fn put_decimal(out: &mut Vec<u8>, number: u64) -> Result<(), NoMemory>
    ensures put { IfOk result (λ _. out.new.items ≡ out.old.items ++ decimal number) }
{
    match write!(out, "{number}") {
        Ok(()) => Ok(()),
        Err(_) => Err(NoMemory),
    }
}

pub fn put(out: &mut Vec<u8>, bytes: &[u8]) -> Result<(), NoMemory>
    ensures put { IfOk result (λ _. out.new.items ≡ out.old.items ++ bytes.now) }
{
    out.extend_from_slice(bytes)?;
    Ok(())
}
