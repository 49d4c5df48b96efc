// Two scripts from outside, and each other public call once with ample memory.
use crate::{
    Bytes, Command, Message, Name, NoMemory, Phase, PoolId, QueueState, Refusal, Reply, Seq, State,
    Status, Xid, settle, step,
};
use std::alloc::Global;
use std::process::Abort;
use std::test::Fail;

/// A reply as far as the scripts tell it; a listing by how many entries it has.
#[derive(Clone, Copy, Debug, PartialEq, Eq)]
enum Outcome {
    Done,
    Number(u64),
    Listed(usize),
    Refused(Refusal),
}

fn told(reply: &Reply) -> Outcome {
    match reply {
        Reply::Done => Outcome::Done,
        Reply::Number(number) => Outcome::Number(*number),
        Reply::Messages(messages) => Outcome::Listed(messages.len()),
        Reply::Doubts(xids) => Outcome::Listed(xids.len()),
        Reply::Refused(refusal) => Outcome::Refused(*refusal),
    }
}

/// A step that is refused memory is tried once more: the state is as before.
fn step_with_luck(state: &mut State, command: &Command) -> Result<Reply, NoMemory> {
    match step(state, command) {
        Ok(reply) => Ok(reply),
        Err(NoMemory) => step(state, command),
    }
}

fn run(rt: &impl Abort, state: &mut State, script: &[(Command, Outcome)]) -> Result<(), NoMemory> {
    for (at, (command, wanted)) in script.iter().enumerate() {
        let reply = step_with_luck(state, command)?;
        assert_eq!(rt; told(&reply), *wanted, "at line {at}");
    }
    Ok(())
}

fn put(alloc: Global, name: Name, byte: u8, xid: Option<Xid>) -> Result<Command, NoMemory> {
    let body = Bytes::new(alloc, &[byte])?;
    Ok(Command::Put { name, body, xid })
}

fn take(name: Name, number: u64, xid: Option<Xid>) -> Command {
    Command::Take { name, number, xid }
}

fn queue(name: Name) -> Command {
    Command::Queue { name, home: None }
}

#[test]
fn a_message_is_locked_by_one_transaction(rt: HostRuntime) -> Result<(), Fail> {
    let alloc = rt.alloc();
    let a = Name::new(b"a").expect(&rt, "a name");
    let first = Xid::new(&[1]).expect(&rt, "an xid");
    let second = Xid::new(&[2]).expect(&rt, "an xid");
    let locked = Outcome::Refused(Refusal::Locked);
    let script = [
        (queue(a), Outcome::Done),
        (put(alloc, a, 0x0a, None)?, Outcome::Number(1)),
        (Command::Begin { xid: first }, Outcome::Done),
        (Command::Begin { xid: second }, Outcome::Done),
        (take(a, 1, Some(first)), Outcome::Done),
        (take(a, 1, Some(first)), locked),
        (take(a, 1, Some(second)), locked),
        (Command::Abort { xid: first }, Outcome::Done),
        (take(a, 1, Some(second)), Outcome::Done),
    ];
    run(&rt, &mut State::empty(alloc), &script)?;
    Ok(())
}

#[test]
fn each_refusal_has_its_command(rt: HostRuntime) -> Result<(), Fail> {
    let alloc = rt.alloc();
    let a = Name::new(b"a").expect(&rt, "a name");
    let b = Name::new(b"b").expect(&rt, "a name");
    let xid = Xid::new(&[5]).expect(&rt, "an xid");
    let script = [
        (queue(a), Outcome::Done),
        (queue(a), Outcome::Refused(Refusal::Exists)),
        (take(b, 1, None), Outcome::Refused(Refusal::Queue)),
        (put(alloc, a, 1, Some(xid))?, Outcome::Refused(Refusal::Xid)),
        (Command::Begin { xid }, Outcome::Done),
        (Command::Prepare { xid }, Outcome::Done),
        (
            put(alloc, a, 1, Some(xid))?,
            Outcome::Refused(Refusal::Phase),
        ),
        (Command::Commit { xid }, Outcome::Done),
        (put(alloc, a, 1, None)?, Outcome::Number(1)),
        (take(a, 9, None), Outcome::Refused(Refusal::Message)),
        (Command::Drop { name: a }, Outcome::Refused(Refusal::Busy)),
        (take(a, 1, None), Outcome::Done),
        (Command::Drop { name: a }, Outcome::Done),
        (Command::List { name: a }, Outcome::Refused(Refusal::Queue)),
    ];
    run(&rt, &mut State::empty(alloc), &script)?;
    Ok(())
}

#[test]
fn a_state_is_made_and_settled(rt: HostRuntime) -> Result<(), Fail> {
    let alloc = rt.alloc();
    let name = Name::new(b"spent").expect(&rt, "a name");
    let open = Xid::new(&[1]).expect(&rt, "an xid");
    let prepared = Xid::new(&[0]).expect(&rt, "an xid");
    let mut messages = Seq::new(alloc);
    messages.push(Message {
        number: (1 << 62) - 1,
        body: Bytes::new(alloc, &[1])?,
        status: Status::Ready,
    })?;
    let mut state = State::empty(alloc);
    state.put_queue(QueueState {
        name,
        last: (1 << 62) - 1,
        messages,
    })?;
    state.put_prepared(prepared)?;
    let script = [
        (put(alloc, name, 2, None)?, Outcome::Refused(Refusal::Spent)),
        (Command::Begin { xid: open }, Outcome::Done),
        (take(name, (1 << 62) - 1, Some(open)), Outcome::Done),
    ];
    run(&rt, &mut state, &script)?;
    assert_eq!(rt; state.xid_count(), 2);
    settle(&mut state);
    let script = [
        (Command::Doubt, Outcome::Listed(1)),
        (Command::List { name }, Outcome::Listed(1)),
    ];
    run(&rt, &mut state, &script)?;
    assert_eq!(rt; state.queue_count(), 1);
    assert_eq!(rt; state.xid_count(), 1);
    let (xid, phase) = state.xid_at(0).expect(&rt, "an xid in doubt");
    assert_eq!(rt; xid.as_slice(), [0].as_slice());
    assert_eq!(rt; phase, Phase::Prepared);
    let queue = state.queue_at(0).expect(&rt, "a queue");
    assert_eq!(rt; queue.name.as_slice(), b"spent".as_slice());
    let message = queue.messages.get(0).expect(&rt, "a message");
    assert!(rt; matches!(message.status, Status::Ready));
    Ok(())
}

#[test]
fn values_keep_what_they_are_given(rt: HostRuntime) -> Result<(), Fail> {
    let alloc = rt.alloc();
    let mut bytes = Bytes::new(alloc, &[1, 2])?;
    bytes.add(&[3])?;
    assert_eq!(rt; bytes.copy()?.as_slice(), [1, 2, 3].as_slice());
    let again = Bytes::from_vec(bytes.into_vec());
    assert_eq!(rt; again.as_slice(), [1, 2, 3].as_slice());
    let mut numbers = Seq::from_vec(vec![in alloc; 1, 2]?);
    numbers.push(3)?;
    numbers.reverse();
    assert_eq!(rt; numbers.as_slice(), [3, 2, 1].as_slice());
    assert_eq!(rt; numbers.pop(), Some(1));
    assert_eq!(rt; numbers.into_vec().len(), 2);
    assert!(rt; Name::new(&[b'n'; 200]).is_some() && Name::new(&[b'n'; 201]).is_none());
    assert!(rt; Xid::new(&[7; 128]).is_some() && Xid::new(&[7; 129]).is_none());
    assert_eq!(rt;
        PoolId::new(999, 65_536),
        Some(PoolId {
            part: 999,
            kib: 65_536
        })
    );
    for (part, kib) in [(0, 4), (1000, 4), (1, 0), (1, 6), (1, 65_540)] {
        assert_eq!(rt; PoolId::new(part, kib), None, "at {part} {kib}");
    }
    Ok(())
}
