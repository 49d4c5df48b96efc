// A queue's records, one after another.
use crate::ends::end_transaction;
use crate::records::{held_copy, held_whole, put, take};
use qls_enqmap::EnqMap;
use qls_model::{NoMemory, Seq, Xid};
use qls_record::{Got, Kind};
use qls_txnmap::TxnMap;
use std::alloc::Global;
use std::marker::Model;

/// What the records of a queue's journal leave: the messages that are held, each with its files, and the operations of
/// the transactions that are pending. The records are applied in their order, oldest first.
#[derive(Drop)]
pub struct QueueReplay {
    held: EnqMap,
    txns: TxnMap,
}

impl Model for QueueReplay {
    ghost use Rattle.qls_replay.specs.Held.{Replayed, IsSound};

    ghost Value = { Replayed };

    ghost view = { λ a. record { held = a.held; txns = a.txns } };

    ghost invariant = { λ a. IsSound a.held a.txns };
}

impl QueueReplay {
    ghost use Rattle.std.specs.Prelude.{◌≡◌, ℕ, List, [], IfOk, IfErr};
    ghost use Rattle.qls_model.specs.declared.machine.QueueState.{QueueState};
    ghost use Rattle.qls_enqmap.specs.Records.{RidsRise};
    ghost use Rattle.qls_txnmap.specs.Pending.{ops_of};
    ghost use Rattle.qls_meaning.specs.Reading.{read_of};
    ghost use Rattle.qls_meaning.specs.Replay.{after_record};
    ghost use Rattle.qls_replay.specs.Held.{held_after, ended_held, messages_of, IsAbove};
    ghost use Rattle.qls_replay.specs.Ops.{Agrees, moves_by, verdict_if};
    ghost use Rattle.std.specs.List.{list_any};
    ghost use Rattle.std.specs.List.Sorted.{IsStrictlySortedBy};
    ghost use Rattle.std.specs.Ordering.{nat_cmp};
    ghost use Rattle.std.specs.Cmp.Lexicographic.{slice_cmp};
    ghost use Rattle.qls_model.specs.Bytes.{is_listed};

    /// No record yet.
    pub fn new(alloc: Global) -> QueueReplay
        ensures nothing { result.held ≡ [] }
    {
        QueueReplay {
            held: EnqMap::new(alloc),
            txns: TxnMap::new(alloc),
        }
    }

    /// One more record. An enqueue holds a message, coming by its transaction where it has one. A dequeue takes a ready
    /// message of its target out, or makes it going by its transaction. A commit and an abort end a transaction. Every
    /// other record, and each of these where its target or its transaction isn't there, changes nothing; so does a flag.
    ///
    /// An enqueue's record id is above those that are held. Where memory is wanting nothing changes.
    pub fn apply(&mut self, got: &Got) -> Result<(), NoMemory>
        requires above { IsAbove got.now.head.kind got.now.head.rid self.old.held }
        ensures held { IfOk result (λ _. self.new.held ≡ held_after got.now.head.kind (read_of got.now) self.old.held) }
        ensures messages { IfOk result (λ _. (q : QueueState) → q.messages ≡ messages_of self.old.held → (after_record got.now.head.kind (read_of got.now).what q).messages ≡ messages_of self.new.held) }
        ensures refused { IfErr result (λ _. self.new ≡ self.old) }
    {
        match got.head.kind {
            Kind::Enqueue => put(&mut self.held, &mut self.txns, held_copy(got)?, got.xid),
            Kind::Dequeue => take(&mut self.held, &mut self.txns, got),
            Kind::Commit => {
                end_transaction(&mut self.held, &mut self.txns, &got.xid, true);
                Ok(())
            }
            Kind::Abort => {
                end_transaction(&mut self.held, &mut self.txns, &got.xid, false);
                Ok(())
            }
            Kind::Filler => Ok(()),
        }
    }

    /// One more record, as [`QueueReplay::apply`] has it, whose body is held without a copy. Where memory is wanting the
    /// record is dropped, and nothing changes.
    pub fn take_in(&mut self, got: Got) -> Result<(), NoMemory>
        requires above { IsAbove got.head.kind got.head.rid self.old.held }
        ensures held { IfOk result (λ _. self.new.held ≡ held_after got.head.kind (read_of got) self.old.held) }
        ensures refused { IfErr result (λ _. self.new ≡ self.old) }
    {
        match got.head.kind {
            Kind::Enqueue => {
                let xid = got.xid;
                put(&mut self.held, &mut self.txns, held_whole(got), xid)
            }
            _ => self.apply(&got),
        }
    }

    /// Ends a transaction, as its commit or abort does. It takes no memory.
    pub fn end(&mut self, xid: &Xid, commit: bool)
        ensures held { self.new.held ≡ ended_held xid.now (verdict_if commit) self.old.held }
    {
        end_transaction(&mut self.held, &mut self.txns, xid, commit);
    }

    /// The messages that are held.
    pub fn held(&self) -> &EnqMap
        ensures same { result.now ≡ self.now.held }
        ensures rising { RidsRise self.now.held }
    {
        &self.held
    }

    /// The xids by which a message is coming or going, in byte order and each once.
    pub fn pending(&self) -> Result<Seq<Xid>, NoMemory>
        ensures in_order { IfOk result (λ xids. IsStrictlySortedBy (slice_cmp nat_cmp) xids) }
        ensures exact { IfOk result (λ xids. (x : List ℕ) → is_listed x xids ≡ list_any (moves_by x) self.now.held) }
    {
        self.txns.pending()
    }

    /// The messages that are held, and the operations of pending transactions: just those that coming and going
    /// messages show.
    pub fn finish(self) -> (EnqMap, TxnMap)
        ensures held { result.0 ≡ self.held }
        ensures txns { result.1 ≡ self.txns }
        ensures rising { RidsRise result.0 }
        ensures agrees { Agrees result.0 result.1 }
    {
        (self.held, self.txns)
    }
}
