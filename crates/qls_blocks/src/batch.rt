// A batch of records.
use crate::entry::Entry;
use crate::plan::{self, Plan, Reached};
use crate::spell;
use qls_model::{Bytes, NoMemory, Seq, Xid};
use qls_record::{Head, length};
use std::alloc::Global;
use std::marker::Model;

/// How many bytes a batch may take: no memory holds more.
const MOST: u64 = 1 << 62;

/// Records that are written together, in the order in which they were pushed.
#[derive(Drop)]
pub struct Batch {
    entries: Vec<Entry>,
    /// How many bytes the records take, without fillers.
    length: u64,
    /// The record id of the last record, and 0 where there is none.
    last_rid: u64,
}

impl Model for Batch {
    ghost use Rattle.std.specs.Prelude.{◌≡◌, ◌≤◌, ◌^◌, List, map};
    ghost use Rattle.qls_record.specs.Record.{Record};
    ghost use Rattle.qls_blocks.specs.Entries.{record_of};
    ghost use Rattle.qls_blocks.specs.Batching.{length_of, last_rid as last_rid_of};

    ghost Value = { List Record };

    ghost view = { λ b. map record_of b.entries.items };

    ghost invariant = { λ b. (b.length ≡ length_of (map record_of b.entries.items)) × (b.length ≤ 2 ^ 62) × (b.last_rid ≡ last_rid_of 0 (map record_of b.entries.items)) };
}

impl Batch {
    ghost use Rattle.std.specs.Prelude.{◌≡◌, ◌+◌, ◌%◌, ◌≤◌, ◌<◌, ◌++◌, ◌∷◌, [], List, Some, None, length, slice_get, IsTrue, IfOk, IfErr};
    ghost use Rattle.std.specs.List.{AllByRecursion};
    ghost use Rattle.qls_shape.specs.declared.Version.TheVariants.{Two};
    ghost use Rattle.qls_record.specs.Record.{Record, is_legal, record_length};
    ghost use Rattle.qls_record.specs.Head.{is_legal_head, record_with};
    ghost use Rattle.qls_blocks.specs.Batching.{with_fillers, last_rid};
    ghost use Rattle.qls_blocks.specs.Plans.{plan_of, IsPlanOf};
    ghost use Rattle.qls_blocks.specs.Spelled.{spelled_over};

    /// The empty batch.
    pub fn new(alloc: Global) -> Batch
        ensures empty { result ≡ [] }
    {
        Batch {
            entries: Vec::new(alloc),
            length: 0,
            last_rid: 0,
        }
    }

    /// Puts a record at the end. Its head is legal, and tells the sizes of the xid and of the body, in bytes.
    ///
    /// Where memory is wanting the record is dropped and the batch is as it was; a batch of more than 2^62 bytes is
    /// answered so too.
    #[tactic(auto, using(crate::proofs::Lengths::pushed_length, crate::proofs::Lengths::pushed_rid, crate::proofs::Lengths::legal_xid, crate::proofs::Lengths::legal_body, crate::proofs::Lengths::length_within))]
    pub fn push(&mut self, head: Head, xid: Xid, body: Bytes) -> Result<(), NoMemory>
        requires legal { IsTrue (is_legal_head head) }
        requires xid { length xid ≡ head.xid_size }
        requires body { length body ≡ head.body_size }
        ensures pushed { IfOk result (λ _. self.new ≡ self.old ++ record_with head xid body ∷ []) }
        ensures refused { IfErr result (λ _. self.new ≡ self.old) }
    {
        let more = length(&head);
        if self.length + more > MOST {
            return Err(NoMemory);
        }
        self.entries.push(Entry { head, xid, body })?;
        self.length += more;
        self.last_rid = head.rid;
        Ok(())
    }

    /// How many records the batch has. Each of them is legal.
    #[tactic(auto, using(crate::proofs::Legal::all_legal))]
    pub fn len(&self) -> usize
        ensures exact { result ≡ length self.now }
        ensures legal { AllByRecursion (λ r. IsTrue (is_legal Two r)) self.now }
    {
        self.entries.len()
    }

    /// How many bytes a record of the batch takes, padding included; the first one is at 0.
    pub fn length_at(&self, at: usize) -> u64
        requires there { at < length self.now }
        ensures exact { (r : Record) → slice_get self.now at ≡ Some r → result ≡ record_length Two r }
        ensures few { result ≤ 1048832 }
    {
        self.entries[at].length()
    }

    /// The record id of the last record, which is in force behind it; 0 where there is none.
    pub fn last_rid(&self) -> u64
        ensures exact { result ≡ last_rid 0 self.now }
    {
        self.last_rid
    }

    /// The body of the last record, without a copy; None exactly where there is no record.
    pub fn into_body(self) -> Option<Bytes>
        ensures last { (rs : List Record) (r : Record) → self ≡ rs ++ r ∷ [] → result ≡ Some r.body }
        ensures none { self ≡ [] → result ≡ None }
    {
        let mut entries = self.entries;
        match entries.pop() {
            Some(entry) => Some(entry.body),
            None => None,
        }
    }

    /// How the batch lies over files: its length in bytes with fillers, how many fillers, and what the header of each
    /// file behind the present one tells. `used` bytes of the present file's data area are taken; it and each fresh file
    /// have `capacity` bytes; `rid` is the record id in force before the batch.
    ///
    /// Where memory is wanting the batch is as it was; places past 2^64 bytes are answered so too.
    pub fn plan(&self, used: u64, capacity: u64, rid: u64) -> Result<Plan, NoMemory>
        requires capacity { (0 < capacity) × (capacity % 4096 ≡ 0) }
        requires used { (used % 4096 ≡ 0) × (used ≤ capacity) }
        ensures exact { IfOk result (λ plan. plan ≡ plan_of self.now used capacity rid) }
        ensures own { IfOk result (λ plan. IsPlanOf self.now used capacity plan) }
    {
        let length = plan::whole_blocks(self.length);
        let end = plan::end_of(used, length, capacity)?;
        let count = end.saturating_sub(1) / capacity;
        let from = Reached {
            records: 0,
            place: used,
            rid,
        };
        let alloc = *self.entries.allocator();
        let fresh = plan::fresh_files(alloc, &self.entries, from, capacity, count)?;
        Ok(Plan {
            length,
            fillers: (length - self.length) / 128,
            fresh,
        })
    }

    /// The batch's bytes, fillers and all: each record is spelled for the serial of the file where it starts. `plan` is
    /// what [`Batch::plan`] answers for this batch, `used` and `capacity`; the serials are those of the present file
    /// and of each fresh one.
    ///
    /// Where memory is wanting the batch is as it was.
    pub fn spell(
        &self,
        plan: &Plan,
        used: u64,
        capacity: u64,
        serials: &Seq<u64>,
    ) -> Result<Bytes, NoMemory>
        requires capacity { 0 < capacity }
        requires planned { IsPlanOf self.now used capacity plan.now }
        requires serials { length serials.now ≡ length plan.now.fresh + 1 }
        ensures exact { IfOk result (λ bytes. bytes ≡ spelled_over capacity serials.now used (with_fillers self.now)) }
        ensures length { IfOk result (λ bytes. length bytes ≡ plan.now.length) }
    {
        let alloc = *self.entries.allocator();
        let mut bytes = Vec::new(alloc);
        bytes.reserve(plan.length as usize)?;
        let end = plan::end_of(used, plan.length, 0)?;
        let serials = serials.as_slice();
        let place = spell::records(&self.entries, used, end, capacity, serials, &mut bytes)?;
        let filler = spell::filler(alloc, self.last_rid);
        spell::fillers(
            &filler,
            plan.fillers,
            place,
            end,
            capacity,
            serials,
            &mut bytes,
        )?;
        Ok(Bytes::from_vec(bytes))
    }
}
