use super::*;
use qls_model::{Bytes, Command, Message, Name, Refusal, Reply, Seq, State, Status, Xid, step};
use std::alloc::{AllocError, Global};
use std::test::Fail;

/// Lines and what each is: a command in other words, or nothing of the grammar.
const LINES: [(&str, &str); 83] = [
    // queues and pools
    ("queue a", "make a"),
    ("queue !~", "make !~"),
    ("queue queue", "make queue"),
    ("queue in", "make in"),
    ("queue a 1 4", "make a at 1 4"),
    ("queue a 999 65536", "make a at 999 65536"),
    ("queue a 10 100", "make a at 10 100"),
    ("queue a 0 4", "bad"),
    ("queue a 1000 4", "bad"),
    ("queue a 01 4", "bad"),
    ("queue a 1 0", "bad"),
    ("queue a 1 2", "bad"),
    ("queue a 1 6", "bad"),
    ("queue a 1 65537", "bad"),
    ("queue a 1 65540", "bad"),
    ("queue a 1 04", "bad"),
    ("queue a 1 +4", "bad"),
    ("queue a 1 18446744073709551620", "bad"),
    ("queue a 1", "bad"),
    ("queue a 1 4 4", "bad"),
    ("queue a in 4", "bad"),
    ("queue", "bad"),
    ("queue ", "bad"),
    ("queue a ", "bad"),
    ("queue  a", "bad"),
    (" queue a", "bad"),
    ("Queue a", "bad"),
    ("queue\ta", "bad"),
    ("queue a\tb", "bad"),
    ("queue \u{7f}", "bad"),
    ("queue \u{e9}", "bad"),
    ("drop a", "drop a"),
    ("drop", "bad"),
    ("drop a b", "bad"),
    ("list a", "list a"),
    ("list", "bad"),
    ("list a b", "bad"),
    // messages
    ("put a 6869", "put a [104, 105]"),
    ("put a fFAb", "put a [255, 171]"),
    ("put a 00", "put a [0]"),
    ("put a -", "put a []"),
    ("put a - in 01", "put a [] by [1]"),
    ("put a 6869 in 00ff", "put a [104, 105] by [0, 255]"),
    ("put in 69 in 01", "put in [105] by [1]"),
    ("put a 686", "bad"),
    ("put a 6", "bad"),
    ("put a 6g", "bad"),
    ("put a --", "bad"),
    ("put a 0x68", "bad"),
    ("put a ", "bad"),
    ("put a", "bad"),
    ("put a 6869 in", "bad"),
    ("put a 6869 in ", "bad"),
    ("put a 6869 in -", "bad"),
    ("put a 6869 in 0", "bad"),
    ("put a 6869 by 01", "bad"),
    ("put a 6869 01", "bad"),
    ("put a 6869  in 01", "bad"),
    ("put a 6869 in 01 ", "bad"),
    ("put a 6869 in 01 02", "bad"),
    ("take a 1", "take a 1"),
    ("take a 10 in 7A", "take a 10 by [122]"),
    ("take a 4611686018427387903", "take a 4611686018427387903"),
    ("take a 4611686018427387904", "bad"),
    ("take a 18446744073709551617", "bad"),
    ("take a 0", "bad"),
    ("take a 01", "bad"),
    ("take a -1", "bad"),
    ("take a 1x", "bad"),
    ("take a 1 in", "bad"),
    ("take a", "bad"),
    // transactions
    ("begin 01", "begin [1]"),
    ("begin -", "bad"),
    ("begin 1", "bad"),
    ("begin", "bad"),
    ("prepare aB", "prepare [171]"),
    ("commit 0102", "commit [1, 2]"),
    ("abort ff", "abort [255]"),
    ("abort ff in 01", "bad"),
    // and the rest
    ("doubt", "doubt"),
    ("doubt ", "bad"),
    ("", "bad"),
    (" ", "bad"),
];

#[test]
fn lines(rt: HostRuntime) -> Result<(), Fail> {
    let alloc = rt.alloc();
    for (line, meant) in LINES {
        let parsed = parse_line(alloc, line.as_bytes())?;
        let shown = shown_line(alloc, &parsed)?;
        assert_eq!(rt; shown.as_str(), meant, "{line:?}");
    }
    Ok(())
}

/// Lines with a word of one repeated byte, and what each is.
const LONG_LINES: [(&str, u8, usize, &str, &str); 9] = [
    ("queue ", b'q', 200, "", "make 200 x 113"),
    ("queue ", b'q', 201, "", "bad"),
    ("begin ", b'1', 256, "", "begin 128 x 17"),
    ("begin ", b'1', 258, "", "bad"),
    ("put a 61 in ", b'f', 256, "", "put a [97] by 128 x 255"),
    ("put a ", b'A', 2_097_152, "", "put a 1048576 x 170"),
    ("put a ", b'A', 2_097_154, "", "bad"),
    (
        "put a ",
        b'9',
        2_097_152,
        " in 02",
        "put a 1048576 x 153 by [2]",
    ),
    ("queue ", b'q', 2_099_995, "", "bad"),
];

#[test]
fn long_lines(rt: HostRuntime) -> Result<(), Fail> {
    let alloc = rt.alloc();
    for (front, byte, size, back, meant) in LONG_LINES {
        let mut line = Vec::new(alloc);
        line.extend_from_slice(front.as_bytes())?;
        for _ in 0..size {
            line.push(byte)?;
        }
        line.extend_from_slice(back.as_bytes())?;
        let parsed = parse_line(alloc, line.as_slice())?;
        let shown = shown_line(alloc, &parsed)?;
        assert_eq!(rt; shown.as_str(), meant, "{front:?} and {size} bytes");
    }
    Ok(())
}

#[test]
fn replies(rt: HostRuntime) -> Result<(), Fail> {
    let alloc = rt.alloc();
    let mut messages = Seq::new(alloc);
    messages.push(message(alloc, 1, &[], Status::Ready)?)?;
    messages.push(message(alloc, 20, &[0, 171, 16], Status::Coming(xid(&[1])?))?)?;
    messages.push(message(
        alloc,
        4_611_686_018_427_387_903,
        &[255],
        Status::Going(xid(&[2, 254])?),
    )?)?;
    let mut doubts = Seq::new(alloc);
    doubts.push(xid(&[10])?)?;
    doubts.push(xid(&[10, 0])?)?;
    let table = [
        (Reply::Done, "ok\n"),
        (Reply::Number(1), "ok 1\n"),
        (Reply::Messages(Seq::new(alloc)), "ok 0\n"),
        (
            Reply::Messages(messages),
            "ok 3\n1 ready -\n20 coming 01 00ab10\n4611686018427387903 going 02fe ff\n",
        ),
        (Reply::Doubts(Seq::new(alloc)), "ok 0\n"),
        (Reply::Doubts(doubts), "ok 2\n0a\n0a00\n"),
        (Reply::Refused(Refusal::Line), "refused line\n"),
        (Reply::Refused(Refusal::Exists), "refused exists\n"),
        (Reply::Refused(Refusal::Queue), "refused queue\n"),
        (Reply::Refused(Refusal::Xid), "refused xid\n"),
        (Reply::Refused(Refusal::Phase), "refused phase\n"),
        (Reply::Refused(Refusal::Message), "refused message\n"),
        (Reply::Refused(Refusal::Locked), "refused locked\n"),
        (Reply::Refused(Refusal::Busy), "refused busy\n"),
        (Reply::Refused(Refusal::Spent), "refused spent\n"),
    ];
    for (reply, text) in &table {
        let answered = reply_text(alloc, reply)?;
        assert_eq!(rt; answered.as_slice(), text.as_bytes(), "{text:?}");
    }
    Ok(())
}

/// The first commands of seed 7.
const OF_SEED_7: [&str; 24] = [
    "make q1",
    "make q2",
    "make q3",
    "make q4",
    "list q3",
    "list q4",
    "begin [0, 0, 0, 0, 0, 0, 0, 7]",
    "put q2 108 x 252 by [0, 0, 0, 0, 0, 0, 0, 7]",
    "put q2 23 x 255",
    "put q4 88 x 90",
    "put q1 283 x 2",
    "take q1 1",
    "take q4 1",
    "put q3 27 x 144",
    "put q4 56 x 58",
    "put q4 133 x 55 by [0, 0, 0, 0, 0, 0, 0, 7]",
    "put q1 226 x 33",
    "put q1 227 x 82 by [0, 0, 0, 0, 0, 0, 0, 7]",
    "commit [0, 0, 0, 0, 0, 0, 0, 7]",
    "put q3 205 x 110",
    "list q2",
    "begin [0, 0, 0, 0, 0, 0, 0, 22]",
    "put q1 237 x 24",
    "abort [0, 0, 0, 0, 0, 0, 0, 22]",
];

/// Those of seed 44, with a transaction that is prepared.
const OF_SEED_44: [&str; 12] = [
    "make q1",
    "make q2",
    "make q3",
    "make q4",
    "put q1 113 x 20",
    "take q1 1",
    "put q2 114 x 186",
    "put q4 224 x 226",
    "begin [0, 0, 0, 0, 0, 0, 0, 9]",
    "prepare [0, 0, 0, 0, 0, 0, 0, 9]",
    "list q2",
    "take q2 1",
];

#[test]
fn generated(rt: HostRuntime) -> Result<(), Fail> {
    let alloc = rt.alloc();
    let table = [
        (7, 0, OF_SEED_7.as_slice()),
        (7, 3, OF_SEED_7.as_slice()),
        (7, 5, OF_SEED_7.as_slice()),
        (7, 24, OF_SEED_7.as_slice()),
        (44, 12, OF_SEED_44.as_slice()),
        (u64::MAX, 20_000, &OF_SEED_44[..4]),
    ];
    for (seed, count, meant) in &table {
        let commands = generate(alloc, *seed, *count)?;
        assert_eq!(rt; commands.len() as u64, *count);
        for (command, meant) in commands.as_slice().iter().zip(*meant) {
            let shown = shown_command(alloc, command)?;
            assert_eq!(rt; shown.as_str(), *meant, "seed {seed}");
        }
    }
    Ok(())
}

/// Commands in a row, and the text of the state after each.
const STATES: [(&str, &str); 7] = [
    (
        "queue q1",
        "queues 1\nqueue q1 last 0 messages 0\ndoubt 0\n",
    ),
    (
        "queue a",
        "queues 2\nqueue a last 0 messages 0\nqueue q1 last 0 messages 0\ndoubt 0\n",
    ),
    (
        "put q1 AB",
        "queues 2\nqueue a last 0 messages 0\nqueue q1 last 1 messages 1\n1 ready ab\ndoubt 0\n",
    ),
    (
        "begin 0C",
        "queues 2\nqueue a last 0 messages 0\nqueue q1 last 1 messages 1\n1 ready ab\ndoubt 0\n",
    ),
    (
        "put q1 - in 0c",
        "queues 2\nqueue a last 0 messages 0\nqueue q1 last 2 messages 2\n1 ready ab\n2 coming 0c -\ndoubt 0\n",
    ),
    (
        "take q1 1 in 0c",
        "queues 2\nqueue a last 0 messages 0\nqueue q1 last 2 messages 2\n1 going 0c ab\n2 coming 0c -\ndoubt 0\n",
    ),
    (
        "prepare 0c",
        "queues 2\nqueue a last 0 messages 0\nqueue q1 last 2 messages 2\n1 going 0c ab\n2 coming 0c -\ndoubt 1\n0c\n",
    ),
];

#[test]
fn states(rt: HostRuntime) -> Result<(), Fail> {
    let alloc = rt.alloc();
    let mut state = State::empty(alloc);
    let none = state_text(alloc, &state)?;
    assert_eq!(rt; none.as_slice(), b"queues 0\ndoubt 0\n".as_slice());
    for (line, text) in STATES {
        run_line(alloc, &mut state, line.as_bytes())?;
        let shown = state_text(alloc, &state)?;
        assert_eq!(rt; shown.as_slice(), text.as_bytes(), "after {line:?}");
    }
    Ok(())
}

/// The published sum of the text of one empty queue.
#[test]
fn sum_of_one_queue(rt: HostRuntime) -> Result<(), Fail> {
    let alloc = rt.alloc();
    let mut state = State::empty(alloc);
    run_line(alloc, &mut state, b"queue q1")?;
    let shown = state_text(alloc, &state)?;
    assert_eq!(rt; shown.as_slice().len(), 44);
    assert_eq!(rt; qls_shape::adler(shown.as_slice()), 0x5101_0e49);
    Ok(())
}

fn run_line(alloc: Global, state: &mut State, line: &[u8]) -> Result<(), Fail> {
    match parse_line(alloc, line)? {
        Parsed::Good(command) => {
            step(state, &command)?;
            Ok(())
        }
        Parsed::Bad => Ok(()),
    }
}

fn message(alloc: Global, number: u64, body: &[u8], status: Status) -> Result<Message, Fail> {
    Ok(Message {
        number,
        body: Bytes::new(alloc, body)?,
        status,
    })
}

fn xid(bytes: &[u8]) -> Result<Xid, Fail> {
    Ok(Xid::new(bytes).ok_or("an xid has at most 128 bytes")?)
}

fn shown_line(alloc: Global, parsed: &Parsed) -> Result<String, AllocError> {
    match parsed {
        Parsed::Good(command) => shown_command(alloc, command),
        Parsed::Bad => String::from_str(alloc, "bad"),
    }
}

/// A command in other words than its line has.
fn shown_command(alloc: Global, command: &Command) -> Result<String, AllocError> {
    let mut text = String::new(alloc);
    match command {
        Command::Queue { name, home } => {
            show_name(&mut text, "make", name)?;
            if let Some(pool) = home {
                write!(text, " at {} {}", pool.part, pool.kib)?;
            }
        }
        Command::Drop { name } => show_name(&mut text, "drop", name)?,
        Command::Put { name, body, xid } => {
            show_name(&mut text, "put", name)?;
            show_bytes(&mut text, " ", body.as_slice())?;
            show_by(&mut text, xid)?;
        }
        Command::Take { name, number, xid } => {
            show_name(&mut text, "take", name)?;
            write!(text, " {number}")?;
            show_by(&mut text, xid)?;
        }
        Command::Begin { xid } => show_bytes(&mut text, "begin ", xid.as_slice())?,
        Command::Prepare { xid } => show_bytes(&mut text, "prepare ", xid.as_slice())?,
        Command::Commit { xid } => show_bytes(&mut text, "commit ", xid.as_slice())?,
        Command::Abort { xid } => show_bytes(&mut text, "abort ", xid.as_slice())?,
        Command::List { name } => show_name(&mut text, "list", name)?,
        Command::Doubt => text.push_str("doubt")?,
    }
    Ok(text)
}

fn show_name(text: &mut String, word: &str, name: &Name) -> Result<(), AllocError> {
    write!(text, "{word} ")?;
    let name = name.as_slice();
    if name.len() > 8 {
        return show_bytes(text, "", name);
    }
    for byte in name {
        text.push(char::from(*byte))?;
    }
    Ok(())
}

fn show_by(text: &mut String, xid: &Option<Xid>) -> Result<(), AllocError> {
    match xid {
        Some(xid) => show_bytes(text, " by ", xid.as_slice()),
        None => Ok(()),
    }
}

/// A few bytes one by one; of more the size and the last one.
fn show_bytes(text: &mut String, before: &str, bytes: &[u8]) -> Result<(), AllocError> {
    match bytes.last() {
        Some(last) if bytes.len() > 8 => write!(text, "{before}{} x {last}", bytes.len()),
        _ => write!(text, "{before}{bytes:?}"),
    }
}
