// Ends of transactions: their records, and what they leave.
ghost use Rattle.std.specs.Prelude.{◌≡◌, ◌<◌, ◌^◌, [], length, IfOk, IsTrue};
ghost use Rattle.std.specs.List.{AllByRecursion};
ghost use Rattle.qls_record.specs.Head.{is_legal_head, record_with};
ghost use Rattle.qls_queue.specs.Records.{IsXid, end_kind, end_record, end_records, held_ended};

use qls_blocks::Batch;
use qls_decide::End;
use qls_model::{Bytes, NoMemory};
use qls_record::{Head, Kind};
use qls_replay::QueueReplay;
use std::alloc::Global;

/// The kind of the record of an end.
fn kind_of(end: &End) -> Kind
    ensures exact { result ≡ end_kind end.now.commit }
{
    if end.commit {
        Kind::Commit
    } else {
        Kind::Abort
    }
}

/// The head of the record of an end, where the rid in force is `last`.
fn head_of(last: u64, end: &End) -> Head
    requires last { last < 2 ^ 62 }
    requires xid { IsXid end.now.xid }
    ensures legal { IsTrue (is_legal_head result) }
    ensures xid { length end.now.xid ≡ result.xid_size }
    ensures body { result.body_size ≡ 0 }
    ensures exact { record_with result end.now.xid [] ≡ end_record last end.now }
{
    Head {
        kind: kind_of(end),
        flagged: false,
        rid: last,
        target: 0,
        xid_size: end.xid.as_slice().len() as u64,
        body_size: 0,
    }
}

/// A batch of the records of these ends, where the rid in force is `last`.
pub(crate) fn batch_of_ends(alloc: Global, last: u64, ends: &[End]) -> Result<Batch, NoMemory>
    requires last { last < 2 ^ 62 }
    requires xids { AllByRecursion (λ e. IsXid e.xid) ends.now }
    ensures exact { IfOk result (λ batch. batch ≡ end_records last ends.now) }
{
    let mut batch = Batch::new(alloc);
    for end in ends {
        let head = head_of(last, end);
        batch.push(head, end.xid, Bytes::from_vec(Vec::new(alloc)))?;
    }
    Ok(batch)
}

/// Carries out these ends, in order.
pub(crate) fn end_all(tables: &mut QueueReplay, ends: &[End])
    ensures held { tables.new.held ≡ held_ended ends.now tables.old.held }
{
    for end in ends {
        tables.end(&end.xid, end.commit);
    }
}
