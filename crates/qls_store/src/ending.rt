// The end of a transaction on the open journals: in the prepared list, in its queues, and in the list again.
ghost use Rattle.std.specs.Prelude.{◌≡◌, ◌+◌, [], ◌∷◌, None, Some, Err, IfOk, IfSome, IsSome, length, map, not, true, false, if◌then◌else◌};
ghost use Rattle.std.specs.List.{AllByRecursion};
ghost use Rattle.qls_model.specs.Machine.{change_queue, is_prepared, queue_named};
ghost use Rattle.qls_site.specs.Content.{Tells};
ghost use Rattle.qls_decide.specs.Entries.{entry_of, state_of, without_entry};
ghost use Rattle.qls_pool.specs.Files.{Carries, OnDisk};
ghost use Rattle.qls_queue.specs.Records.{ended_by, IsXid};
ghost use Rattle.qls_prepared.specs.Lists.{rid_of, MayEnd};
ghost use Rattle.qls_journals.specs.State.{queues_of, AreJournals, Fits, IsListAlive};
ghost use Rattle.qls_journals.specs.Moments.{BecomesClean};
ghost use Rattle.qls_journals.specs.Deciding.{MayCarryOut, NonePending};
ghost use Rattle.qls_store.specs.Stores.{touched};
ghost use Rattle.qls_store.specs.Ends.{all_needs, end_need, list_need};
ghost use Rattle.qls_store.specs.Calls.{ended_in, state_by, Calls, ComesFirst, HadFirst, StaysClean, StopsInOne};

use qls_decide::End;
use qls_journals::{Cause, Journals};
use qls_model::{Name, NoMemory, Phase, Seq, Xid};
use qls_site::{Serials, Site};
use std::alloc::Global;

/// Ends a transaction in the queue of this name, the first that it has touched.
pub(crate) fn end_in_one<S: Site, N: Serials>(
    journals: Journals,
    site: &mut S,
    serials: &mut N,
    name: &Name,
    ends: &Seq<End>,
) -> Result<Journals, Cause>
    requires one { length ends.now ≡ 1 }
    requires xids { AllByRecursion (λ e. IsXid e.xid) ends.now }
    requires decided { MayCarryOut journals.list.entries ends.now }
    requires order { AllByRecursion (λ e. ComesFirst name.now (touched e.xid (queues_of journals))) ends.now }
    requires there { IsSome (queue_named name.now (queues_of journals)) }
    requires fits { IfSome (S.told site.old) (OnDisk (Fits journals)) }
    ensures queues { IfOk result (λ s. queues_of s ≡ change_queue name.now (ended_by ends.now) (queues_of journals)) }
    ensures list { IfOk result (λ s. s.list ≡ journals.list) }
    ensures kept { IfOk result (λ s. AreJournals s) }
    ensures called { Calls result journals (S.told site.old) (S.told site.new) (N.drawn serials.old) (N.drawn serials.new) (S.faults site.old) (S.faults site.new) (N.faults serials.old) (N.faults serials.new) }
    ensures alive { IfOk result (λ s. Carries (IsListAlive journals) (IsListAlive s) (S.told site.old) (S.told site.new)) }
    ensures had { IfOk result (λ _. Tells (HadFirst journals false (end_need name.now ∷ [])) (S.told site.old) (S.told site.new)) }
    ensures spent { result ≡ Err Cause.Spent → Tells (StopsInOne journals false (end_need name.now ∷ [])) (S.told site.old) (S.told site.new) }
{
    match journals.place_of(name) {
        Ok(at) => journals.finish(site, serials, at, ends),
        Err(_) => Ok(journals),
    }
}

/// Ends a transaction in each of these queues, in order: all that it has touched.
pub(crate) fn end_in_each<S: Site, N: Serials>(
    journals: Journals,
    site: &mut S,
    serials: &mut N,
    names: &[Name],
    ends: &Seq<End>,
) -> Result<Journals, Cause>
    requires one { length ends.now ≡ 1 }
    requires xids { AllByRecursion (λ e. IsXid e.xid) ends.now }
    requires decided { MayCarryOut journals.list.entries ends.now }
    requires journals { AreJournals journals }
    requires all { AllByRecursion (λ e. touched e.xid (queues_of journals) ≡ names.now) ends.now }
    requires there { AllByRecursion (λ n. IsSome (queue_named n (queues_of journals))) names.now }
    requires fits { IfSome (S.told site.old) (OnDisk (Fits journals)) }
    ensures queues { IfOk result (λ s. queues_of s ≡ ended_in names.now ends.now (queues_of journals)) }
    ensures list { IfOk result (λ s. s.list ≡ journals.list) }
    ensures kept { IfOk result (λ s. AreJournals s) }
    ensures called { Calls result journals (S.told site.old) (S.told site.new) (N.drawn serials.old) (N.drawn serials.new) (S.faults site.old) (S.faults site.new) (N.faults serials.old) (N.faults serials.new) }
    ensures alive { IfOk result (λ s. Carries (IsListAlive journals) (IsListAlive s) (S.told site.old) (S.told site.new)) }
    ensures had { IfOk result (λ _. Tells (HadFirst journals false (map end_need names.now)) (S.told site.old) (S.told site.new)) }
    ensures spent { result ≡ Err Cause.Spent → Tells (StopsInOne journals false (map end_need names.now)) (S.told site.old) (S.told site.new) }
{
    let mut journals = journals;
    for name in names {
        journals = end_in_one(journals, site, serials, name, ends)?;
    }
    Ok(journals)
}

/// The end of one transaction.
pub(crate) fn one_end(alloc: Global, xid: Xid, commit: bool) -> Result<Seq<End>, NoMemory>
    ensures one { IfOk result (λ ends. ends ≡ record { xid = xid; commit = commit } ∷ []) }
{
    let mut ends = Seq::new(alloc);
    ends.push(End { xid, commit })?;
    Ok(ends)
}

/// Decides a transaction in the list: an open one commits in one phase.
pub(crate) fn decide_in_list<S: Site, N: Serials>(
    journals: Journals,
    site: &mut S,
    serials: &mut N,
    xid: Xid,
    phase: Phase,
    commit: bool,
) -> Result<Journals, Cause>
    requires xid { IsXid xid }
    requires journals { AreJournals journals }
    requires entry { state_of (entry_of xid journals.list.entries) ≡ state_by phase }
    requires commits { phase ≡ Phase.Open → commit ≡ true }
    requires fits { IfSome (S.told site.old) (OnDisk (Fits journals)) }
    ensures queues { IfOk result (λ s. queues_of s ≡ queues_of journals) }
    ensures carried { IfOk result (λ s. MayCarryOut s.list.entries (record { xid = xid; commit = commit } ∷ [])) }
    ensures entries { IfOk result (λ s. without_entry xid s.list.entries ≡ without_entry xid journals.list.entries) }
    ensures decided { IfOk result (λ s. MayEnd (entry_of xid s.list.entries)) }
    ensures rid { IfOk result (λ s. rid_of s.list ≡ (if is_prepared phase then rid_of journals.list else rid_of journals.list + 1)) }
    ensures kept { IfOk result (λ s. AreJournals s) }
    ensures called { Calls result journals (S.told site.old) (S.told site.new) (N.drawn serials.old) (N.drawn serials.new) (S.faults site.old) (S.faults site.new) (N.faults serials.old) (N.faults serials.new) }
    ensures had { IfOk result (λ _. Tells (HadFirst journals (not (is_prepared phase)) (list_need ∷ [])) (S.told site.old) (S.told site.new)) }
    ensures spent { result ≡ Err Cause.Spent → Tells (StopsInOne journals (not (is_prepared phase)) (list_need ∷ [])) (S.told site.old) (S.told site.new) }
{
    qls_journals::laws::whole_journals_are_their_meaning();
    match phase {
        Phase::Open => journals.one_phase(site, serials, xid),
        Phase::Prepared => journals.decide(site, serials, xid, commit),
    }
}

/// Ends a transaction in the list.
pub(crate) fn end_in_list<S: Site, N: Serials>(
    journals: Journals,
    site: &mut S,
    serials: &mut N,
    xid: Xid,
) -> Result<Journals, Cause>
    requires xid { IsXid xid }
    requires decided { MayEnd (entry_of xid journals.list.entries) }
    requires done { NonePending xid (queues_of journals) }
    requires fits { IfSome (S.told site.old) (OnDisk (Fits journals)) }
    ensures queues { IfOk result (λ s. queues_of s ≡ queues_of journals) }
    ensures entries { IfOk result (λ s. s.list.entries ≡ without_entry xid journals.list.entries) }
    ensures rid { IfOk result (λ s. rid_of s.list ≡ rid_of journals.list) }
    ensures kept { IfOk result (λ s. AreJournals s) }
    ensures called { Calls result journals (S.told site.old) (S.told site.new) (N.drawn serials.old) (N.drawn serials.new) (S.faults site.old) (S.faults site.new) (N.faults serials.old) (N.faults serials.new) }
    ensures clean { IfOk result (λ s. Tells (BecomesClean journals s) (S.told site.old) (S.told site.new)) }
    ensures spent { result ≡ Err Cause.Spent → Tells (StopsInOne journals false (list_need ∷ [])) (S.told site.old) (S.told site.new) }
{
    journals.end(site, serials, xid)
}

/// Decides a transaction in the list, ends it in each of these queues, in order, and then in the list.
pub(crate) fn end_decided<S: Site, N: Serials>(
    journals: Journals,
    site: &mut S,
    serials: &mut N,
    names: &[Name],
    ends: &Seq<End>,
    xid: Xid,
    commit: bool,
    phase: Phase,
) -> Result<Journals, Cause>
    requires xid { IsXid xid }
    requires one { ends.now ≡ record { xid = xid; commit = commit } ∷ [] }
    requires journals { AreJournals journals }
    requires entry { state_of (entry_of xid journals.list.entries) ≡ state_by phase }
    requires commits { phase ≡ Phase.Open → commit ≡ true }
    requires all { names.now ≡ touched xid (queues_of journals) }
    requires there { AllByRecursion (λ n. IsSome (queue_named n (queues_of journals))) names.now }
    requires fits { IfSome (S.told site.old) (OnDisk (Fits journals)) }
    ensures queues { IfOk result (λ s. queues_of s ≡ ended_in names.now (record { xid = xid; commit = commit } ∷ []) (queues_of journals)) }
    ensures entries { IfOk result (λ s. s.list.entries ≡ without_entry xid journals.list.entries) }
    ensures rid { IfOk result (λ s. rid_of s.list ≡ (if is_prepared phase then rid_of journals.list else rid_of journals.list + 1)) }
    ensures kept { IfOk result (λ s. AreJournals s) }
    ensures called { Calls result journals (S.told site.old) (S.told site.new) (N.drawn serials.old) (N.drawn serials.new) (S.faults site.old) (S.faults site.new) (N.faults serials.old) (N.faults serials.new) }
    ensures clean { IfOk result (λ s. Tells (BecomesClean journals s) (S.told site.old) (S.told site.new)) }
    ensures had { IfOk result (λ _. Tells (HadFirst journals (not (is_prepared phase)) (all_needs names.now)) (S.told site.old) (S.told site.new)) }
    ensures spent { result ≡ Err Cause.Spent → Tells (StopsInOne journals (not (is_prepared phase)) (all_needs names.now)) (S.told site.old) (S.told site.new) }
{
    let decided = decide_in_list(journals, site, serials, xid, phase, commit)?;
    let ended = end_in_each(decided, site, serials, names, ends)?;
    end_in_list(ended, site, serials, xid)
}

/// Aborts a transaction in each of these queues, in order: a prepared one by a decision in the list, and an open one in its
/// queues alone.
pub(crate) fn end_aborted<S: Site, N: Serials>(
    journals: Journals,
    site: &mut S,
    serials: &mut N,
    names: &[Name],
    ends: &Seq<End>,
    xid: Xid,
    phase: Phase,
) -> Result<Journals, Cause>
    requires xid { IsXid xid }
    requires one { ends.now ≡ record { xid = xid; commit = false } ∷ [] }
    requires journals { AreJournals journals }
    requires entry { state_of (entry_of xid journals.list.entries) ≡ state_by phase }
    requires all { names.now ≡ touched xid (queues_of journals) }
    requires there { AllByRecursion (λ n. IsSome (queue_named n (queues_of journals))) names.now }
    requires fits { IfSome (S.told site.old) (OnDisk (Fits journals)) }
    ensures queues { IfOk result (λ s. queues_of s ≡ ended_in names.now (record { xid = xid; commit = false } ∷ []) (queues_of journals)) }
    ensures entries { IfOk result (λ s. s.list.entries ≡ without_entry xid journals.list.entries) }
    ensures rid { IfOk result (λ s. rid_of s.list ≡ rid_of journals.list) }
    ensures kept { IfOk result (λ s. AreJournals s) }
    ensures called { Calls result journals (S.told site.old) (S.told site.new) (N.drawn serials.old) (N.drawn serials.new) (S.faults site.old) (S.faults site.new) (N.faults serials.old) (N.faults serials.new) }
    ensures clean { IfOk result (λ s. Tells (StaysClean journals s) (S.told site.old) (S.told site.new)) }
    ensures had { IfOk result (λ _. Tells (HadFirst journals false (if is_prepared phase then all_needs names.now else map end_need names.now)) (S.told site.old) (S.told site.new)) }
    ensures spent { result ≡ Err Cause.Spent → Tells (StopsInOne journals false (if is_prepared phase then all_needs names.now else map end_need names.now)) (S.told site.old) (S.told site.new) }
{
    match phase {
        Phase::Open => end_in_each(journals, site, serials, names, ends),
        Phase::Prepared => end_decided(journals, site, serials, names, ends, xid, false, phase),
    }
}
