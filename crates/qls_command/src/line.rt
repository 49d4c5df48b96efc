//! A line as a command.
ghost use Rattle.std.specs.Prelude.{◌≡◌, ◌∷◌, [], Some, IfOk, IfSome, option_copied};
ghost use Rattle.qls_command.specs.Within.{IsWithin};
ghost use Rattle.qls_command.specs.Lines.{words, words_behind, command_of_words, command_of, parsed, put_words, take_words};

use crate::word::{body, message_number, pool, queue_name, xid};
use qls_model::{Command, NoMemory, Xid};
use std::alloc::Global;

/// The most bytes of a line, its LF not counted.
const LINE_LIMIT: usize = 2_100_000;

/// What a line is: a command, or nothing of the grammar.
#[derive(Drop)]
pub enum Parsed {
    /// The command that the line asks.
    Good(Command),
    /// No command: it is answered `refused line`.
    Bad,
}

/// The command that a line is, the line without its LF. `Bad` exactly where the line isn't of the grammar, a
/// limit of a name, number, xid, body or pool is passed, or the line has more than 2,100,000 bytes. So the name, xid,
/// body and pool of a good command are within their limits.
///
/// A body is decoded once, into the bytes that the command keeps; no other memory is taken. `NoMemory` comes only where
/// that was refused.
pub fn parse_line(alloc: Global, line: &[u8]) -> Result<Parsed, NoMemory>
    ensures read { IfOk result (λ p. parsed p ≡ command_of line.now) }
    ensures within { IfOk result (λ p. IfSome (parsed p) IsWithin) }
{
    if line.len() > LINE_LIMIT {
        return Ok(Parsed::Bad);
    }
    match command_in(alloc, line)? {
        Some(command) => Ok(Parsed::Good(command)),
        None => Ok(Parsed::Bad),
    }
}

/// The first word, and what is behind the space after it.
fn cut_word(text: &[u8]) -> (&[u8], Option<&[u8]>)
    ensures cut { words text.now ≡ result.0.now ∷ words_behind (option_copied result.1) }
{
    for (at, byte) in text.iter().enumerate() {
        if *byte == b' ' {
            return (&text[..at], Some(&text[at + 1..]));
        }
    }
    (text, None)
}

/// The command of a line of any length.
#[tactic(auto, using(crate::proofs::Cutting::six_words))]
fn command_in(alloc: Global, line: &[u8]) -> Result<Option<Command>, NoMemory>
    ensures read { IfOk result (λ c. c ≡ command_of_words (words line.now)) }
{
    let (first, rest) = cut_word(line);
    let Some(rest) = rest else {
        return Ok(of_one_word(first));
    };
    let (second, rest) = cut_word(rest);
    let Some(rest) = rest else {
        return Ok(of_two_words(first, second));
    };
    let (third, rest) = cut_word(rest);
    let Some(rest) = rest else {
        return of_three_words(alloc, first, second, third);
    };
    let (fourth, rest) = cut_word(rest);
    let Some(rest) = rest else {
        return Ok(of_four_words(first, second, third, fourth));
    };
    let (fifth, rest) = cut_word(rest);
    match rest {
        None => of_five_words(alloc, first, second, third, fourth, fifth),
        Some(_) => Ok(None),
    }
}

fn of_one_word(first: &[u8]) -> Option<Command>
    ensures { result ≡ command_of_words (first.now ∷ []) }
{
    if first == b"doubt".as_slice() {
        return Some(Command::Doubt);
    }
    None
}

fn of_two_words(first: &[u8], second: &[u8]) -> Option<Command>
    ensures { result ≡ command_of_words (first.now ∷ second.now ∷ []) }
{
    if first == b"queue".as_slice() {
        return Some(Command::Queue {
            name: queue_name(second)?,
            home: None,
        });
    }
    if first == b"drop".as_slice() {
        return Some(Command::Drop {
            name: queue_name(second)?,
        });
    }
    if first == b"list".as_slice() {
        return Some(Command::List {
            name: queue_name(second)?,
        });
    }
    if first == b"begin".as_slice() {
        return Some(Command::Begin { xid: xid(second)? });
    }
    if first == b"prepare".as_slice() {
        return Some(Command::Prepare { xid: xid(second)? });
    }
    if first == b"commit".as_slice() {
        return Some(Command::Commit { xid: xid(second)? });
    }
    if first == b"abort".as_slice() {
        return Some(Command::Abort { xid: xid(second)? });
    }
    None
}

fn of_three_words(
    alloc: Global,
    first: &[u8],
    second: &[u8],
    third: &[u8],
) -> Result<Option<Command>, NoMemory>
    ensures read { IfOk result (λ c. c ≡ command_of_words (first.now ∷ second.now ∷ third.now ∷ [])) }
{
    if first == b"put".as_slice() {
        return put(alloc, second, third, None);
    }
    if first == b"take".as_slice() {
        return Ok(take(second, third, None));
    }
    Ok(None)
}

fn of_four_words(first: &[u8], second: &[u8], third: &[u8], fourth: &[u8]) -> Option<Command>
    ensures { result ≡ command_of_words (first.now ∷ second.now ∷ third.now ∷ fourth.now ∷ []) }
{
    if first == b"queue".as_slice() {
        let name = queue_name(second)?;
        let home = pool(third, fourth)?;
        return Some(Command::Queue {
            name,
            home: Some(home),
        });
    }
    None
}

fn of_five_words(
    alloc: Global,
    first: &[u8],
    second: &[u8],
    third: &[u8],
    fourth: &[u8],
    fifth: &[u8],
) -> Result<Option<Command>, NoMemory>
    ensures read { IfOk result (λ c. c ≡ command_of_words (first.now ∷ second.now ∷ third.now ∷ fourth.now ∷ fifth.now ∷ [])) }
{
    if fourth != b"in".as_slice() {
        return Ok(None);
    }
    let Some(xid) = xid(fifth) else {
        return Ok(None);
    };
    if first == b"put".as_slice() {
        return put(alloc, second, third, Some(xid));
    }
    if first == b"take".as_slice() {
        return Ok(take(second, third, Some(xid)));
    }
    Ok(None)
}

fn put(
    alloc: Global,
    queue: &[u8],
    text: &[u8],
    xid: Option<Xid>,
) -> Result<Option<Command>, NoMemory>
    ensures read { IfOk result (λ c. c ≡ put_words queue.now text.now xid) }
{
    let Some(name) = queue_name(queue) else {
        return Ok(None);
    };
    match body(alloc, text)? {
        Some(body) => Ok(Some(Command::Put { name, body, xid })),
        None => Ok(None),
    }
}

fn take(queue: &[u8], number: &[u8], xid: Option<Xid>) -> Option<Command>
    ensures { result ≡ take_words queue.now number.now xid }
{
    let name = queue_name(queue)?;
    let number = message_number(number)?;
    Some(Command::Take { name, number, xid })
}
