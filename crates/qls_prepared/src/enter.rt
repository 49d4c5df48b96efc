// Transactions that enter, and those that end.
ghost use Rattle.std.specs.Prelude.{◌≡◌, ◌<◌, ◌+◌, ◌^◌, IfOk};
ghost use Rattle.qls_prepared.specs.Lists.{IsXid};
ghost use Rattle.qls_prepared.specs.Records.{entry_records, entered_state};
ghost use Rattle.qls_prepared.specs.Ending.{ended_entries, ended_held};

use crate::entries::Entries;
use crate::records::{one_phase_batch, prepare_batch};
use qls_blocks::Batch;
use qls_decide::ListState;
use qls_model::{NoMemory, Xid};
use std::alloc::Global;

/// The records of a transaction that enters, where `rid` is in force.
pub(crate) fn entry_batch(
    alloc: Global,
    rid: u64,
    xid: Xid,
    one_phase: bool,
) -> Result<Batch, NoMemory>
    requires rid { rid + 1 < 2 ^ 62 }
    requires xid { IsXid xid }
    ensures exact { IfOk result (λ batch. batch ≡ entry_records rid xid one_phase) }
{
    if one_phase {
        Ok(one_phase_batch(alloc, rid + 1, xid)?)
    } else {
        Ok(prepare_batch(alloc, rid + 1, xid)?)
    }
}

/// The state of its entry.
pub(crate) fn entered_state(one_phase: bool) -> ListState
    ensures exact { result ≡ entered_state one_phase }
{
    if one_phase {
        ListState::DecidedCommit
    } else {
        ListState::Prepared
    }
}

/// Lets the entries of these xids go.
pub(crate) fn end_each(entries: &mut Entries, xids: &[Xid])
    ensures entries { entries.new.entries ≡ ended_entries xids.now entries.old.entries }
    ensures held { entries.new.held ≡ ended_held xids.now entries.old.entries entries.old.held }
{
    for xid in xids {
        entries.end(xid);
    }
}
