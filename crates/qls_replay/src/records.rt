// The records of a queue that put and take messages.
ghost use Rattle.std.specs.Prelude.{◌≡◌, ◌++◌, ◌∷◌, [], Some, None, IfOk, IfErr, option_copied};
ghost use Rattle.qls_model.specs.Messages.{status_of};
ghost use Rattle.qls_enqmap.specs.Records.{AllBelow, RidsRise};
ghost use Rattle.qls_txnmap.specs.Pending.{Table};
ghost use Rattle.qls_meaning.specs.Reading.{read_of};
ghost use Rattle.qls_meaning.specs.Replay.{xid_in, left_by_take};
ghost use Rattle.qls_replay.specs.Held.{held_of, left_held, may_take, IsSound};
ghost use Rattle.qls_replay.specs.Ops.{Agrees};

use qls_enqmap::{EnqMap, Held};
use qls_model::{NoMemory, Status, Xid};
use qls_record::Got;
use qls_txnmap::{Op, TxnMap};

// Coming by the transaction; ready where the record has none.
fn coming(xid: Xid) -> Status
    ensures coming { result ≡ status_of (xid_in xid) }
{
    if xid.as_slice().is_empty() {
        Status::Ready
    } else {
        Status::Coming(xid)
    }
}

// The message of an enqueue, with its files and a copy of its body.
pub(crate) fn held_copy(got: &Got) -> Result<Held, NoMemory>
    ensures held { IfOk result (λ h. h ≡ held_of (read_of got.now)) }
{
    Ok(Held {
        rid: got.head.rid,
        status: coming(got.xid),
        body: got.body.copy()?,
        file: got.file,
        end_file: got.end_file,
    })
}

// The message of an enqueue, with its files and its body.
pub(crate) fn held_whole(got: Got) -> Held
    ensures held { result ≡ held_of (read_of got) }
{
    Held {
        rid: got.head.rid,
        status: coming(got.xid),
        body: got.body,
        file: got.file,
        end_file: got.end_file,
    }
}

// Holds the message of an enqueue that has this xid.
pub(crate) fn put(
    held: &mut EnqMap,
    txns: &mut TxnMap,
    message: Held,
    xid: Xid,
) -> Result<(), NoMemory>
    requires sound { IsSound held.old txns.old }
    requires above { AllBelow message.rid held.old }
    requires status { message.status ≡ status_of (xid_in xid) }
    ensures put { IfOk result (λ _. held.new ≡ held.old ++ message ∷ []) }
    ensures sound { IsSound held.new txns.new }
    ensures refused { IfErr result (λ _. held.new ≡ held.old) }
    ensures txns_refused { IfErr result (λ _. txns.new ≡ txns.old) }
{
    let rid = message.rid;
    held.insert(message)?;
    if xid.as_slice().is_empty() {
        return Ok(());
    }
    match txns.add(xid, Op::Put(rid)) {
        Ok(()) => Ok(()),
        Err(refused) => {
            let _taken_back = held.remove(rid);
            Err(refused)
        }
    }
}

// Takes the target of a dequeue.
pub(crate) fn take(held: &mut EnqMap, txns: &mut TxnMap, got: &Got) -> Result<(), NoMemory>
    requires sound { IsSound held.old txns.old }
    ensures taken { IfOk result (λ _. held.new ≡ left_held (left_by_take got.now.head.target (xid_in got.now.xid)) held.old) }
    ensures sound { IsSound held.new txns.new }
    ensures refused { IfErr result (λ _. held.new ≡ held.old) }
    ensures txns_refused { IfErr result (λ _. txns.new ≡ txns.old) }
{
    if got.xid.as_slice().is_empty() {
        take_out(held, got.head.target);
        return Ok(());
    }
    take_by(held, txns, got.head.target, got.xid)
}

// Takes a ready message out.
fn take_out(held: &mut EnqMap, target: u64)
    requires rising { RidsRise held.old }
    ensures taken { held.new ≡ left_held (left_by_take target None) held.old }
    ensures rising { RidsRise held.new }
    ensures agrees { (t : Table) → Agrees held.old t → Agrees held.new t }
{
    if is_takeable(held.get(target)) {
        let _taken = held.remove(target);
    }
}

// Makes a ready message going by the transaction.
fn take_by(held: &mut EnqMap, txns: &mut TxnMap, target: u64, xid: Xid) -> Result<(), NoMemory>
    requires sound { IsSound held.old txns.old }
    ensures taken { IfOk result (λ _. held.new ≡ left_held (left_by_take target (Some xid)) held.old) }
    ensures sound { IsSound held.new txns.new }
    ensures refused { IfErr result (λ _. held.new ≡ held.old) }
    ensures txns_refused { IfErr result (λ _. txns.new ≡ txns.old) }
{
    if held.lock(target, xid).is_err() {
        return Ok(());
    }
    match txns.add(xid, Op::Take(target)) {
        Ok(()) => Ok(()),
        Err(refused) => {
            let _taken_back = held.unlock(target);
            Err(refused)
        }
    }
}

// Whether what is found is ready.
fn is_takeable(held: Option<&Held>) -> bool
    ensures ready { result ≡ may_take (option_copied held.entry) }
{
    match held {
        None => false,
        Some(held) => match held.status {
            Status::Ready => true,
            _ => false,
        },
    }
}
