// Transactions: what their lines are answered, and what they leave in the prepared list's journal and in the pools.
use crate::growing::number_at;
use crate::outside::{image_before_end, new_site, run_on};
use crate::returning::{POOL, check_place, left_by};
use qls_command::{Parsed, parse_line, reply_text};
use qls_model::{Bytes, NoMemory, Refusal, Reply, Seq, State, step};
use qls_site::{ImageFile, Place};
use std::alloc::Global;
use std::process::Abort;
use std::test::Fail;

// Scripts, and their answers.
const SCRIPTS: [(&str, &str); 9] = [
    (
        "queue a\nqueue b\nbegin 01\nput a 0a in 01\nput b 0b in 01\nprepare 01\ndoubt\nlist a\n",
        "ok\nok\nok\nok 1\nok 1\nok\nok 1\n01\nok 1\n1 coming 01 0a\n",
    ),
    (
        "queue a\nqueue b\nbegin 01\nput a 0a in 01\nput b 0b in 01\nprepare 01\ncommit 01\nlist a\nlist b\ndoubt\n",
        "ok\nok\nok\nok 1\nok 1\nok\nok\nok 1\n1 ready 0a\nok 1\n1 ready 0b\nok 0\n",
    ),
    (
        "queue a\nqueue b\nbegin 01\nput a 0a in 01\nput b 0b in 01\nprepare 01\nabort 01\nlist a\nlist b\nput a 0c\n",
        "ok\nok\nok\nok 1\nok 1\nok\nok\nok 0\nok 0\nok 2\n",
    ),
    (
        "queue a\nput a 0a\nbegin 01\nbegin 02\ntake a 1 in 01\ntake a 1 in 01\ntake a 1 in 02\nabort 01\ntake a 1 in 02\n",
        "ok\nok 1\nok\nok\nok\nrefused locked\nrefused locked\nok\nok\n",
    ),
    (
        "queue a\nqueue a\ntake b 1\nput a 01 in 05\nbegin 05\nprepare 05\nput a 01 in 05\ncommit 05\nput a 01\ntake a 9\ndrop a\ntake a 1\ndrop a\nlist a\n",
        "ok\nrefused exists\nrefused queue\nrefused xid\nok\nok\nrefused phase\nok\nok 1\nrefused message\nrefused busy\nok\nok\nrefused queue\n",
    ),
    (
        "queue orders\nqueue audit.log\nput orders 7b226964223a317d\nbegin 8F01\ntake orders 1 in 8f01\nput audit.log 7b226964223a317d in 8f01\ncommit 8f01\nlist orders\nlist audit.log\n",
        "ok\nok\nok 1\nok\nok\nok 1\nok\nok 0\nok 1\n1 ready 7b226964223a317d\n",
    ),
    (
        "begin 01\nbegin 01\nprepare 02\ncommit 02\nabort 02\nprepare 01\nprepare 01\nbegin 01\nabort 01\nbegin 01\ncommit 01\n",
        "ok\nrefused exists\nrefused xid\nrefused xid\nrefused xid\nok\nrefused phase\nrefused exists\nok\nok\nok\n",
    ),
    (
        "queue a\nbegin 02\nbegin 01\nprepare 02\nprepare 01\ndoubt\ncommit 01\ndoubt\n",
        "ok\nok\nok\nok\nok\nok 2\n01\n02\nok\nok 1\n02\n",
    ),
    (
        "queue a\nput a 0a\nbegin 01\ntake a 1 in 01\nlist a\ndrop a\nput a 0b in 01\ncommit 01\nlist a\n",
        "ok\nok 1\nok\nok\nok 1\n1 going 01 0a\nrefused busy\nok 2\nok\nok 1\n2 ready 0b\n",
    ),
];

#[test]
fn transactions_are_answered(rt: HostRuntime) -> Result<(), Fail> {
    let alloc = rt.alloc();
    for (script, answers) in SCRIPTS {
        let mut site = new_site(alloc);
        let bytes = Bytes::new(alloc, script.as_bytes())?;
        let status = run_on(alloc, "d run 1 4", bytes, 65_536, &mut site)?;
        assert_eq!(rt; status, 0, "{script}");
        assert_eq!(rt; site.answered(), answers.as_bytes(), "{script}");
    }
    Ok(())
}

// A file of the prepared list lies there, with this number, serial and rid in its header.
fn check_list(
    rt: &impl Abort,
    files: &Seq<ImageFile>,
    at: usize,
    number: u64,
    serial: u64,
    rid: u64,
) {
    for (from, wanted) in [
        (8, serial),
        (16, rid),
        (32, 4_096),
        (40, number),
        (48, 1),
        (56, 2),
    ] {
        let found = number_at(files, at, from).map(|found| found % (1 << 32));
        assert_eq!(rt; found, Some(wanted), "{from}");
    }
}

// Each entry's file goes back once the entry is gone and a later one stands.
#[test]
fn the_list_gives_its_files_back(rt: HostRuntime) -> Result<(), Fail> {
    let alloc = rt.alloc();
    let script = "begin 01\nprepare 01\ncommit 01\nbegin 02\nprepare 02\n";
    let files = left_by(&rt, alloc, script, "ok\nok\nok\nok\nok\n")?;
    assert_eq!(rt; files.len(), 3);
    check_place(&rt, &files, 0, 1, Place::InUse);
    check_place(&rt, &files, 1, 2, POOL);
    check_place(&rt, &files, 2, 3, POOL);
    check_list(&rt, &files, 0, 4, 10, 1);
    Ok(())
}

// The commit of an open transaction goes through the list, also where all its operations are in one queue.
#[test]
fn an_open_commit_goes_through_the_list(rt: HostRuntime) -> Result<(), Fail> {
    let alloc = rt.alloc();
    let script = "queue a\nbegin 01\nput a 0a in 01\ncommit 01\nqueue b 2 8\n";
    let files = left_by(&rt, alloc, script, "ok\nok\nok 1\nok\nok\n")?;
    assert_eq!(rt; files.len(), 5);
    for (at, place) in [
        (0, Place::InUse),
        (1, POOL),
        (2, Place::InUse),
        (3, Place::InUse),
        (4, Place::InUse),
    ] {
        check_place(&rt, &files, at, at as u64 + 1, place);
    }
    check_list(&rt, &files, 3, 2, 10, 1);
    let last = files.get(4).ok_or("no file")?;
    assert_eq!(rt; last.bytes.as_slice().len(), 12_288);
    assert_eq!(rt; number_at(&files, 4, 8), Some(11));
    assert_eq!(rt; number_at(&files, 4, 24), Some(2 + (8 << 32)));
    Ok(())
}

// The records of a prepare, and of a commit in one phase: an enqueue and a decision in one sector.
#[test]
fn decisions_stand_in_the_list(rt: HostRuntime) -> Result<(), Fail> {
    let alloc = rt.alloc();
    let files = left_by(&rt, alloc, "begin 01\nprepare 01\n", "ok\nok\n")?;
    assert_eq!(rt; files.len(), 1);
    check_list(&rt, &files, 0, 1, 7, 0);
    for (at, wanted) in [
        (4_096, 0x0000_0002_6553_4c51),
        (4_104, 7),
        (4_112, 1),
        (4_120, 1),
        (4_128, 0),
    ] {
        assert_eq!(rt; number_at(&files, 0, at), Some(wanted), "{at}");
    }
    let files = left_by(&rt, alloc, "begin 01\ncommit 01\n", "ok\nok\n")?;
    assert_eq!(rt; files.len(), 2);
    check_place(&rt, &files, 0, 1, POOL);
    check_list(&rt, &files, 1, 2, 8, 1);
    for (at, wanted) in [
        (4_096, 0x0010_0002_6553_4c51),
        (4_112, 1),
        (4_224, 0x0010_0002_6453_4c51),
        (4_240, 1),
        (4_248, 1),
        (4_256, 1),
    ] {
        assert_eq!(rt; number_at(&files, 0, at), Some(wanted), "{at}");
    }
    Ok(())
}

// An open transaction that aborts writes nothing in the list, and one that begins writes nothing at all.
#[test]
fn an_open_abort_leaves_the_list_alone(rt: HostRuntime) -> Result<(), Fail> {
    let alloc = rt.alloc();
    let files = left_by(&rt, alloc, "begin 01\nabort 01\n", "ok\nok\n")?;
    assert_eq!(rt; files.len(), 0);
    let script = "queue a\nbegin 01\nput a 0a in 01\nabort 01\n";
    let files = left_by(&rt, alloc, script, "ok\nok\nok 1\nok\n")?;
    assert_eq!(rt; files.len(), 2);
    check_place(&rt, &files, 0, 1, POOL);
    check_place(&rt, &files, 1, 2, Place::InUse);
    Ok(())
}

// What stands at the head of a file's data area: a record's magic, with its version and flags.
fn head_at(files: &Seq<ImageFile>, id: u64) -> u64 {
    for at in 0..files.len() {
        if files.get(at).map(|file| file.id) == Some(id) {
            return number_at(files, at, 4_096).unwrap_or(0);
        }
    }
    0
}

const DECISION: u64 = 0x0010_0002_6453_4c51;

const COMMIT: u64 = 0x0000_0002_6353_4c51;

// The steps of a commit over two queues, each with the file that it takes: the decision in the list, a, b, the end in the
// list. What a step writes is written only where the step before is on the disk for good.
#[test]
fn each_step_of_a_commit_is_synced_before_the_next(rt: HostRuntime) -> Result<(), Fail> {
    let alloc = rt.alloc();
    let script =
        "queue b\nqueue a\nbegin 01\nput b 0b in 01\nput a 0a in 01\nprepare 01\ncommit 01\n";
    let mut site = new_site(alloc);
    let bytes = Bytes::new(alloc, script.as_bytes())?;
    let status = run_on(alloc, "d run 1 4", bytes, 65_536, &mut site)?;
    assert_eq!(rt; status, 0);
    let steps = [(4, DECISION), (5, COMMIT), (6, COMMIT), (7, COMMIT)];
    let mut all = Seq::new(alloc);
    for _ in 0..64 {
        all.push(true)?;
    }
    let none = Seq::new(alloc);
    for moment in 0..site.moment_count() {
        let written = site.image(moment, &all)?;
        let synced = site.image(moment, &none)?;
        for (before, after) in steps.iter().zip(steps.iter().skip(1)) {
            let follows = head_at(&written, after.0) == after.1;
            let stands = head_at(&synced, before.0) == before.1;
            assert!(rt; !follows || stands, "{moment}");
        }
    }
    let files = image_before_end(&rt, alloc, &site, 0)?;
    for (id, head) in steps {
        assert_eq!(rt; head_at(&files, id), head, "{id}");
    }
    for (at, kind, name) in [(4, 1, 0x61), (5, 1, 0x62)] {
        let found = number_at(&files, at, 56).map(|found| found % (1 << 40));
        assert_eq!(rt; found, Some(kind + (1 << 16) + (name << 32)), "{at}");
    }
    Ok(())
}

// Two hundred transactions over five queues, up to eight of them open at once, each with four operations.
fn interleaved(alloc: Global) -> Result<Bytes, Fail> {
    let mut script = Bytes::new(alloc, b"queue q0\nqueue q1\nqueue q2\nqueue q3\nqueue q4\n")?;
    for turn in 0..1_600_u64 {
        let slot = turn % 8;
        let xid = turn / 64 * 8 + slot;
        let queue = (turn * 7 + turn / 8) % 5;
        let line = match turn / 8 % 8 {
            0 => format!(in alloc; "begin {xid:04x}\n")?,
            1 | 3 => format!(in alloc; "put q{queue} {turn:04x} in {xid:04x}\n")?,
            2 | 4 => format!(in alloc; "take q{queue} {} in {xid:04x}\n", turn / 40 + 1)?,
            5 if xid % 3 > 0 => format!(in alloc; "prepare {xid:04x}\n")?,
            5 => format!(in alloc; "put q{queue} {turn:04x}\n")?,
            6 => format!(in alloc; "list q{queue}\ndoubt\n")?,
            _ if xid % 4 == 1 => format!(in alloc; "abort {xid:04x}\n")?,
            _ => format!(in alloc; "commit {xid:04x}\n")?,
        };
        script.add(line.as_bytes())?;
    }
    Ok(script)
}

// What the plain machine answers to a script.
fn answers_of_the_machine(alloc: Global, script: &Bytes) -> Result<Bytes, NoMemory> {
    let mut state = State::empty(alloc);
    let mut answers = Bytes::new(alloc, b"")?;
    for line in script.as_slice().split(|byte| *byte == b'\n') {
        if line.is_empty() {
            continue;
        }
        let reply = match parse_line(alloc, line)? {
            Parsed::Good(command) => step(&mut state, &command)?,
            Parsed::Bad => Reply::Refused(Refusal::Line),
        };
        answers.add(reply_text(alloc, &reply)?.as_slice())?;
    }
    Ok(answers)
}

#[test]
fn interleaved_transactions_are_the_machines(rt: HostRuntime) -> Result<(), Fail> {
    let alloc = rt.alloc();
    let script = interleaved(alloc)?;
    let answers = answers_of_the_machine(alloc, &script)?;
    let mut site = new_site(alloc);
    let status = run_on(alloc, "d run 1 8", script, 65_536, &mut site)?;
    assert_eq!(rt; status, 0);
    assert!(rt; site.answered() == answers.as_slice());
    assert!(rt; answers.as_slice().len() > 10_000);
    let files = image_before_end(&rt, alloc, &site, 0)?;
    assert!(rt; files.len() > 5);
    Ok(())
}
