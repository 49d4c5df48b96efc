// The transactions of a store that is opened: those in doubt.
ghost use Rattle.std.specs.Prelude.{◌≡◌, ◌+◌, ◌<◌, [], IfOk, length, map, take};
ghost use Rattle.qls_prepared.specs.Lists.{XidsRise};
ghost use Rattle.qls_journals.specs.State.{AreJournals, NamesRise, names_of, queues_of};
ghost use Rattle.qls_store.specs.Settling.{doubt_in};

use crate::transactions::Transactions;
use qls_journals::Journals;
use qls_model::NoMemory;
use std::alloc::Global;

/// The transactions that have an entry in the list, as prepared, each with the queues in which a message is coming or going
/// by it.
pub(crate) fn in_doubt(alloc: Global, journals: &Journals) -> Result<Transactions, NoMemory>
    requires journals { AreJournals journals.now }
    ensures doubts { IfOk result (λ ts. ts ≡ map (doubt_in (queues_of journals.now)) journals.now.list.entries) }
{
    let count = journals.queue_count();
    let mut transactions = prepare_each(alloc, journals)?;
    for at in 0..count {
        touch_pending(&mut transactions, journals, at)?;
    }
    Ok(transactions)
}

/// The transactions that have an entry in the list, as prepared, with no queue.
fn prepare_each(alloc: Global, journals: &Journals) -> Result<Transactions, NoMemory>
    requires rising { XidsRise journals.now.list.entries }
    ensures prepared { IfOk result (λ ts. ts ≡ map (doubt_in []) journals.now.list.entries) }
{
    let entries = journals.entries()?;
    let list = entries.as_slice();
    let mut transactions = Transactions::new(alloc);
    for entry in list {
        transactions.begin(entry.xid)?;
        transactions.prepare(&entry.xid);
    }
    Ok(transactions)
}

/// Adds the queue at the place to the transactions by which a message of it is coming or going. They have those before it.
fn touch_pending(
    transactions: &mut Transactions,
    journals: &Journals,
    at: usize,
) -> Result<(), NoMemory>
    requires place { at < length journals.now.queues }
    requires rising { XidsRise journals.now.list.entries }
    requires names { NamesRise (names_of journals.now.queues) }
    requires before { transactions.old ≡ map (doubt_in (take at (queues_of journals.now))) journals.now.list.entries }
    ensures touched { IfOk result (λ _. transactions.new ≡ map (doubt_in (take (at + 1) (queues_of journals.now))) journals.now.list.entries) }
{
    let pending = journals.pending(at)?;
    let xids = pending.as_slice();
    let name = *journals.name_at(at);
    for xid in xids {
        transactions.touch(&Some(*xid), name)?;
    }
    Ok(())
}
