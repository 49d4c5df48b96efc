// The batches that the list writes.
ghost use Rattle.std.specs.Prelude.{◌≡◌, ◌<◌, ◌^◌, ◌++◌, ◌∷◌, [], length, true, false, IfOk, IsTrue};
ghost use Rattle.std.specs.List.{AllByRecursion};
ghost use Rattle.qls_record.specs.Head.{is_legal_head, record_with};
ghost use Rattle.qls_prepared.specs.Lists.{IsXid};
ghost use Rattle.qls_prepared.specs.Records.{enqueue_of, decision_of, end_of, end_records};

use qls_blocks::Batch;
use qls_model::{Bytes, NoMemory, Xid};
use qls_record::{Head, Kind};
use std::alloc::Global;

/// The head of the enqueue of a transaction: in one phase or prepared.
fn enqueue(rid: u64, xid: &Xid, one_phase: bool) -> Head
    requires rid { rid < 2 ^ 62 }
    requires xid { IsXid xid.now }
    ensures legal { IsTrue (is_legal_head result) }
    ensures xid { length xid.now ≡ result.xid_size }
    ensures body { result.body_size ≡ 0 }
    ensures exact { record_with result xid.now [] ≡ enqueue_of rid xid.now one_phase }
{
    Head {
        kind: Kind::Enqueue,
        flagged: one_phase,
        rid,
        target: 0,
        xid_size: xid.as_slice().len() as u64,
        body_size: 0,
    }
}

/// The head of the decision of the entry with the record id `target`: commit or abort.
fn decision(rid: u64, target: u64, xid: &Xid, commit: bool) -> Head
    requires rid { rid < 2 ^ 62 }
    requires xid { IsXid xid.now }
    ensures legal { IsTrue (is_legal_head result) }
    ensures xid { length xid.now ≡ result.xid_size }
    ensures body { result.body_size ≡ 0 }
    ensures exact { record_with result xid.now [] ≡ decision_of rid target xid.now commit }
{
    Head {
        kind: Kind::Dequeue,
        flagged: commit,
        rid,
        target,
        xid_size: xid.as_slice().len() as u64,
        body_size: 0,
    }
}

/// The head of the end of a transaction.
fn end(rid: u64, xid: &Xid) -> Head
    requires rid { rid < 2 ^ 62 }
    requires xid { IsXid xid.now }
    ensures legal { IsTrue (is_legal_head result) }
    ensures xid { length xid.now ≡ result.xid_size }
    ensures body { result.body_size ≡ 0 }
    ensures exact { record_with result xid.now [] ≡ end_of rid xid.now }
{
    Head {
        kind: Kind::Commit,
        flagged: false,
        rid,
        target: 0,
        xid_size: xid.as_slice().len() as u64,
        body_size: 0,
    }
}

/// Puts a record behind a batch; it has no body.
fn push(batch: &mut Batch, alloc: Global, head: Head, xid: Xid) -> Result<(), NoMemory>
    requires legal { IsTrue (is_legal_head head) }
    requires xid { length xid ≡ head.xid_size }
    requires body { head.body_size ≡ 0 }
    ensures pushed { IfOk result (λ _. batch.new ≡ batch.old ++ record_with head xid [] ∷ []) }
{
    batch.push(head, xid, Bytes::from_vec(Vec::new(alloc)))
}

/// The enqueue of a transaction that is prepared, with this record id.
pub(crate) fn prepare_batch(alloc: Global, rid: u64, xid: Xid) -> Result<Batch, NoMemory>
    requires rid { rid < 2 ^ 62 }
    requires xid { IsXid xid }
    ensures exact { IfOk result (λ batch. batch ≡ enqueue_of rid xid false ∷ []) }
{
    let mut batch = Batch::new(alloc);
    push(&mut batch, alloc, enqueue(rid, &xid, false), xid)?;
    Ok(batch)
}

/// The enqueue of a transaction that commits in one phase, with this record id, and its decision.
pub(crate) fn one_phase_batch(alloc: Global, rid: u64, xid: Xid) -> Result<Batch, NoMemory>
    requires rid { rid < 2 ^ 62 }
    requires xid { IsXid xid }
    ensures exact { IfOk result (λ batch. batch ≡ enqueue_of rid xid true ∷ decision_of rid rid xid true ∷ []) }
{
    let mut batch = Batch::new(alloc);
    push(&mut batch, alloc, enqueue(rid, &xid, true), xid)?;
    push(&mut batch, alloc, decision(rid, rid, &xid, true), xid)?;
    Ok(batch)
}

/// The decision of the entry with the record id `target`, where `rid` is in force.
pub(crate) fn decision_batch(
    alloc: Global,
    rid: u64,
    target: u64,
    xid: Xid,
    commit: bool,
) -> Result<Batch, NoMemory>
    requires rid { rid < 2 ^ 62 }
    requires xid { IsXid xid }
    ensures exact { IfOk result (λ batch. batch ≡ decision_of rid target xid commit ∷ []) }
{
    let mut batch = Batch::new(alloc);
    push(&mut batch, alloc, decision(rid, target, &xid, commit), xid)?;
    Ok(batch)
}

/// The ends of these transactions, in order, where `rid` is in force.
pub(crate) fn end_batch(alloc: Global, rid: u64, xids: &[Xid]) -> Result<Batch, NoMemory>
    requires rid { rid < 2 ^ 62 }
    requires xids { AllByRecursion IsXid xids.now }
    ensures exact { IfOk result (λ batch. batch ≡ end_records rid xids.now) }
{
    let mut batch = Batch::new(alloc);
    for xid in xids {
        push(&mut batch, alloc, end(rid, xid), *xid)?;
    }
    Ok(batch)
}
