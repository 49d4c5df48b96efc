// The types of the plain machine.
use crate::bytes::{Bytes, Seq};
use crate::name::{Name, Xid};

/// A pool of empty files: its partition, 1 to 999, and the KiB of data of its files, 4 to 65,536 and a multiple of 4.
#[derive(Clone, Copy, Debug, PartialEq, Eq)]
pub struct PoolId {
    pub part: u16,
    pub kib: u32,
}

impl PoolId {
    ghost use Rattle.std.specs.Prelude.{◌≡◌, ◌&&◌, Some, None, if◌then◌else◌};
    ghost use Rattle.qls_model.specs.Limits.{is_partition, is_kib};

    /// The pool of these numbers; Some exactly within the limits.
    pub fn new(part: u64, kib: u64) -> Option<PoolId>
        ensures limits { result ≡ (if is_partition part && is_kib kib then Some (record { part = part; kib = kib }) else None) }
    {
        if part < 1 || part > 999 || kib < 4 || kib > 65_536 || kib % 4 != 0 {
            return None;
        }
        Some(PoolId {
            part: part as u16,
            kib: kib as u32,
        })
    }
}

/// How a message stands: ready, or put or taken by a transaction that has not ended.
#[derive(Clone, Copy)]
pub enum Status {
    Ready,
    Coming(Xid),
    Going(Xid),
}

/// A message of a queue: its number there, from 1 on, its body of at most 1,048,576 bytes, and how it stands.
#[derive(Drop)]
pub struct Message {
    pub number: u64,
    pub body: Bytes,
    pub status: Status,
}

/// A queue: the last number that it gave, below 2^62, and its messages by rising number.
#[derive(Drop)]
pub struct QueueState {
    pub name: Name,
    pub last: u64,
    pub messages: Seq<Message>,
}

/// How far a transaction is that has begun.
#[derive(Clone, Copy, Debug, PartialEq, Eq)]
pub enum Phase {
    Open,
    Prepared,
}

/// A command. With an xid a put or a take is part of that transaction, and counts once it commits; `home` is the pool of
/// a new queue's files, which the plain machine does not look at.
#[derive(Drop)]
pub enum Command {
    Queue {
        name: Name,
        home: Option<PoolId>,
    },
    Drop {
        name: Name,
    },
    Put {
        name: Name,
        body: Bytes,
        xid: Option<Xid>,
    },
    Take {
        name: Name,
        number: u64,
        xid: Option<Xid>,
    },
    Begin {
        xid: Xid,
    },
    Prepare {
        xid: Xid,
    },
    Commit {
        xid: Xid,
    },
    Abort {
        xid: Xid,
    },
    List {
        name: Name,
    },
    Doubt,
}

/// Why a command was refused, in the order in which refusals are tested. A refused command changes nothing.
#[derive(Clone, Copy, Debug, PartialEq, Eq)]
pub enum Refusal {
    /// The line is no command, or passes a limit.
    Line,
    /// The queue is there already, or the xid in the table.
    Exists,
    /// There is no such queue.
    Queue,
    /// The xid is not in the table.
    Xid,
    /// The xid is prepared.
    Phase,
    /// The queue has no message of that number.
    Message,
    /// The message is coming or going.
    Locked,
    /// The queue holds a message.
    Busy,
    /// The queue's last number is 2^62 - 1.
    Spent,
}

/// What a command answers: a put its number, `list` the messages, `doubt` the prepared xids in byte order.
#[derive(Drop)]
pub enum Reply {
    Done,
    Number(u64),
    Messages(Seq<Message>),
    Doubts(Seq<Xid>),
    Refused(Refusal),
}

/// What becomes of a transaction: it commits, it aborts, or it stays in doubt.
#[derive(Clone, Copy, Debug, PartialEq, Eq)]
pub enum Verdict {
    Commit,
    Abort,
    Doubt,
}

/// A transaction that has begun, and how far it is.
#[derive(Clone, Copy)]
pub struct XidState {
    pub xid: Xid,
    pub phase: Phase,
}
