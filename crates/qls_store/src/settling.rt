// What an earlier run left pending, ended as a store is opened.
ghost use Rattle.std.specs.Prelude.{◌≡◌, ◌<◌, Err, IfOk, IfSome, length, map, slice_get, take};
ghost use Rattle.std.specs.List.{AllByRecursion};
ghost use Rattle.std.specs.List.Sorted.{IsStrictlySortedBy};
ghost use Rattle.std.specs.Ordering.{nat_cmp};
ghost use Rattle.std.specs.Cmp.Lexicographic.{slice_cmp};
ghost use Rattle.qls_model.specs.Machine.{change_queue};
ghost use Rattle.qls_model.specs.Messages.{decided};
ghost use Rattle.qls_site.specs.Content.{Tells};
ghost use Rattle.qls_decide.specs.Entries.{verdict_by};
ghost use Rattle.qls_pool.specs.Files.{OnDisk};
ghost use Rattle.qls_queue.specs.Records.{IsXid};
ghost use Rattle.qls_prepared.specs.Lists.{rid_of};
ghost use Rattle.qls_journals.specs.Deciding.{MayCarryOut};
ghost use Rattle.qls_journals.specs.State.{AreJournals, AreReleased, Fits, queues_of};
ghost use Rattle.qls_store.specs.Calls.{Calls};
ghost use Rattle.qls_store.specs.Opening.{AreItsEnds, settled_xids as xids_that_end};
ghost use Rattle.qls_store.specs.Settling.{EndsClean, IsDoubted, IsSettledSo, StaysIfClean, StopsInList, StopsInQueue, StopsInQueues, StopsSettling, entries_kept};
ghost use Rattle.qls_decide.specs.declared.ListState.TheVariants as listed;

use qls_decide::{End, ListEntry, ListState, plan_settle};
use qls_journals::{Cause, Journals};
use qls_model::{NoMemory, Seq, Xid};
use qls_site::{Serials, Site};
use std::alloc::Global;

/// Ends what is to end, and gives the files that are dead then back.
pub(crate) fn settle_and_release<S: Site, N: Serials>(
    alloc: Global,
    journals: Journals,
    site: &mut S,
    serials: &mut N,
) -> Result<Journals, Cause>
    requires fits { IfSome (S.told site.old) (OnDisk (Fits journals)) }
    ensures queues { IfOk result (λ s. queues_of s ≡ map (decided (verdict_by journals.list.entries)) (queues_of journals)) }
    ensures entries { IfOk result (λ s. s.list.entries ≡ entries_kept journals.list.entries) }
    ensures rid { IfOk result (λ s. rid_of s.list ≡ rid_of journals.list) }
    ensures kept { IfOk result AreJournals }
    ensures released { IfOk result (λ s. AreReleased s.queues) }
    ensures called { Calls result journals (S.told site.old) (S.told site.new) (N.drawn serials.old) (N.drawn serials.new) (S.faults site.old) (S.faults site.new) (N.faults serials.old) (N.faults serials.new) }
    ensures clean { IfOk result (λ s. Tells (EndsClean journals s) (S.told site.old) (S.told site.new)) }
    ensures still { IfOk result (λ _. IsSettledSo journals → Tells (StaysIfClean journals) (S.told site.old) (S.told site.new)) }
    ensures spent { result ≡ Err Cause.Spent → Tells (StopsSettling journals) (S.told site.old) (S.told site.new) }
{
    let settled = settle(alloc, journals, site, serials)?;
    settled.release(site)
}

/// Ends what is pending in the queues and not in doubt, queue by queue in the order of their names, and then the entries of
/// the list that are decided or of one phase.
fn settle<S: Site, N: Serials>(
    alloc: Global,
    journals: Journals,
    site: &mut S,
    serials: &mut N,
) -> Result<Journals, Cause>
    requires fits { IfSome (S.told site.old) (OnDisk (Fits journals)) }
    ensures queues { IfOk result (λ s. queues_of s ≡ map (decided (verdict_by journals.list.entries)) (queues_of journals)) }
    ensures entries { IfOk result (λ s. s.list.entries ≡ entries_kept journals.list.entries) }
    ensures rid { IfOk result (λ s. rid_of s.list ≡ rid_of journals.list) }
    ensures kept { IfOk result AreJournals }
    ensures called { Calls result journals (S.told site.old) (S.told site.new) (N.drawn serials.old) (N.drawn serials.new) (S.faults site.old) (S.faults site.new) (N.faults serials.old) (N.faults serials.new) }
    ensures still { IsSettledSo journals → IfOk result (λ s. (s ≡ journals) × (site.new ≡ site.old)) }
    ensures spent { result ≡ Err Cause.Spent → Tells (StopsSettling journals) (S.told site.old) (S.told site.new) }
{
    let entries = journals.entries()?;
    let settled = settle_queues(alloc, journals, site, serials, &entries)?;
    settle_list(alloc, settled, site, serials, &entries)
}

/// Ends what is pending in the queues and not in doubt by these entries, the list's: queue by queue, in the order of their
/// names.
fn settle_queues<S: Site, N: Serials>(
    alloc: Global,
    journals: Journals,
    site: &mut S,
    serials: &mut N,
    entries: &Seq<ListEntry>,
) -> Result<Journals, Cause>
    requires entries { entries.now ≡ journals.list.entries }
    requires journals { AreJournals journals }
    requires fits { IfSome (S.told site.old) (OnDisk (Fits journals)) }
    ensures queues { IfOk result (λ s. queues_of s ≡ map (decided (verdict_by entries.now)) (queues_of journals)) }
    ensures list { IfOk result (λ s. s.list ≡ journals.list) }
    ensures kept { IfOk result AreJournals }
    ensures called { Calls result journals (S.told site.old) (S.told site.new) (N.drawn serials.old) (N.drawn serials.new) (S.faults site.old) (S.faults site.new) (N.faults serials.old) (N.faults serials.new) }
    ensures still { AllByRecursion (IsDoubted (verdict_by entries.now)) (queues_of journals) → IfOk result (λ s. (s ≡ journals) × (site.new ≡ site.old)) }
    ensures spent { result ≡ Err Cause.Spent → Tells (StopsInQueues journals) (S.told site.old) (S.told site.new) }
{
    let count = journals.queue_count();
    let mut settled = journals;
    for at in 0..count {
        settled = settle_queue(alloc, settled, site, serials, at, entries)?;
    }
    Ok(settled)
}

/// Ends what is pending in the queue at the place and not in doubt by these entries, the list's. What is pending in the
/// queues before the place is in doubt.
fn settle_queue<S: Site, N: Serials>(
    alloc: Global,
    journals: Journals,
    site: &mut S,
    serials: &mut N,
    at: usize,
    entries: &Seq<ListEntry>,
) -> Result<Journals, Cause>
    requires place { at < length journals.queues }
    requires entries { entries.now ≡ journals.list.entries }
    requires before { AllByRecursion (IsDoubted (verdict_by entries.now)) (take at (queues_of journals)) }
    requires journals { AreJournals journals }
    requires fits { IfSome (S.told site.old) (OnDisk (Fits journals)) }
    ensures queues { IfOk result (λ s. IfSome (slice_get (queues_of journals) at) (λ q. queues_of s ≡ change_queue q.name (decided (verdict_by entries.now)) (queues_of journals))) }
    ensures list { IfOk result (λ s. s.list ≡ journals.list) }
    ensures kept { IfOk result AreJournals }
    ensures called { Calls result journals (S.told site.old) (S.told site.new) (N.drawn serials.old) (N.drawn serials.new) (S.faults site.old) (S.faults site.new) (N.faults serials.old) (N.faults serials.new) }
    ensures still { IfSome (slice_get (queues_of journals) at) (λ q. IsDoubted (verdict_by entries.now) q → IfOk result (λ s. (s ≡ journals) × (site.new ≡ site.old))) }
    ensures spent { result ≡ Err Cause.Spent → IfSome (slice_get (queues_of journals) at) (λ q. Tells (StopsInQueue journals q) (S.told site.old) (S.told site.new)) }
{
    let ends = ends_in(alloc, &journals, at, entries)?;
    if ends.len() == 0 {
        return Ok(journals);
    }
    journals.finish(site, serials, at, &ends)
}

/// The ends of what is pending in the queue at the place and not in doubt by these entries, in byte order of xid.
fn ends_in(
    alloc: Global,
    journals: &Journals,
    at: usize,
    entries: &Seq<ListEntry>,
) -> Result<Seq<End>, NoMemory>
    requires place { at < length journals.now.queues }
    ensures planned { IfOk result (λ ends. IfSome (slice_get (queues_of journals.now) at) (λ q. AreItsEnds entries.now q ends)) }
    ensures once { IfOk result (λ ends. IsStrictlySortedBy (slice_cmp nat_cmp) (map (λ e. e.xid) ends)) }
    ensures xids { IfOk result (λ ends. AllByRecursion (λ e. IsXid e.xid) ends) }
    ensures decided { IfOk result (λ ends. MayCarryOut entries.now ends) }
{
    let pending = journals.pending(at)?;
    if pending.len() == 0 {
        return Ok(Seq::new(alloc));
    }
    plan_settle(alloc, &pending, entries)
}

/// Ends the entries of the list that are decided or of one phase, in one batch. What is pending in the queues is in doubt.
fn settle_list<S: Site, N: Serials>(
    alloc: Global,
    journals: Journals,
    site: &mut S,
    serials: &mut N,
    entries: &Seq<ListEntry>,
) -> Result<Journals, Cause>
    requires entries { entries.now ≡ journals.list.entries }
    requires doubted { AllByRecursion (IsDoubted (verdict_by entries.now)) (queues_of journals) }
    requires journals { AreJournals journals }
    requires fits { IfSome (S.told site.old) (OnDisk (Fits journals)) }
    ensures queues { IfOk result (λ s. queues_of s ≡ queues_of journals) }
    ensures entries { IfOk result (λ s. s.list.entries ≡ entries_kept entries.now) }
    ensures rid { IfOk result (λ s. rid_of s.list ≡ rid_of journals.list) }
    ensures kept { IfOk result AreJournals }
    ensures called { Calls result journals (S.told site.old) (S.told site.new) (N.drawn serials.old) (N.drawn serials.new) (S.faults site.old) (S.faults site.new) (N.faults serials.old) (N.faults serials.new) }
    ensures still { AllByRecursion (λ e. e.state ≡ listed.Prepared) entries.now → IfOk result (λ s. (s ≡ journals) × (site.new ≡ site.old)) }
    ensures spent { result ≡ Err Cause.Spent → Tells (StopsInList journals) (S.told site.old) (S.told site.new) }
{
    let xids = settled_xids(alloc, entries.as_slice())?;
    if xids.len() == 0 {
        return Ok(journals);
    }
    journals.end_all(site, serials, &xids)
}

/// The xids of the entries that are decided or of one phase.
fn settled_xids(alloc: Global, entries: &[ListEntry]) -> Result<Seq<Xid>, NoMemory>
    ensures xids { IfOk result (λ xids. xids ≡ xids_that_end entries.now) }
{
    let mut xids = Seq::new(alloc);
    for entry in entries {
        if entry.state == ListState::Prepared {
            continue;
        }
        xids.push(entry.xid)?;
    }
    Ok(xids)
}
