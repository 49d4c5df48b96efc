// The end of a transaction in a queue.
ghost use Rattle.std.specs.Prelude.{◌≡◌, ℕ, List, if◌then◌else◌};
ghost use Rattle.qls_model.specs.declared.machine.Status.TheVariants.{Ready};
ghost use Rattle.qls_enqmap.specs.Records.{with_status, without, RidsRise};
ghost use Rattle.qls_txnmap.specs.Pending.{ops_of, ops_without};
ghost use Rattle.qls_replay.specs.Held.{ended_held};
ghost use Rattle.qls_replay.specs.Ops.{ended, ended_all, verdict_if, Agrees};

use qls_enqmap::EnqMap;
use qls_model::Xid;
use qls_txnmap::{Op, TxnMap};

/// Ends a transaction in what a queue holds. With a commit what it put stays and is ready, and what it took goes; with
/// an abort it is the other way round. A transaction without operations changes nothing.
///
/// It takes the time of the transaction's operations, whatever else the queue holds.
pub fn end_transaction(held: &mut EnqMap, txns: &mut TxnMap, xid: &Xid, commit: bool)
    requires rising { RidsRise held.old }
    requires agrees { Agrees held.old txns.old }
    ensures ended { held.new ≡ ended_held xid.now (verdict_if commit) held.old }
    ensures finished { (x : List ℕ) → ops_of x txns.new ≡ ops_without xid.now txns.old x }
    ensures rising { RidsRise held.new }
    ensures agrees { Agrees held.new txns.new }
{
    match txns.finish(xid) {
        Some(ops) => end_ops(held, ops.as_slice(), commit),
        None => {}
    }
}

// Carries out each operation.
fn end_ops(held: &mut EnqMap, ops: &[Op], commit: bool)
    ensures ended { held.new ≡ ended_all commit ops.now held.old }
    ensures rising { RidsRise held.old → RidsRise held.new }
{
    for op in ops {
        end_op(held, *op, commit);
    }
}

// Carries out an operation.
fn end_op(held: &mut EnqMap, op: Op, commit: bool)
    ensures ended { held.new ≡ ended commit op held.old }
    ensures rising { RidsRise held.new }
{
    match op {
        Op::Put(rid) => decide(held, rid, commit),
        Op::Take(rid) => decide(held, rid, !commit),
    }
}

// The record of this id stays, and is ready, or it goes.
fn decide(held: &mut EnqMap, rid: u64, stays: bool)
    ensures decided { held.new ≡ (if stays then with_status rid Ready held.old else without rid held.old) }
    ensures rising { RidsRise held.new }
{
    if stays {
        let _known = held.unlock(rid);
    } else {
        let _gone = held.remove(rid);
    }
}
