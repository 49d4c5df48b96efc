// The ends that settle the pending transactions of one queue.
ghost use Rattle.std.specs.Prelude.{◌≡◌, ◌++◌, ℕ, List, map, option_to_list, IfOk, IfErr};
ghost use Rattle.std.specs.List.Sorted.{IsStrictlySortedBy};
ghost use Rattle.std.specs.Ordering.{nat_cmp};
ghost use Rattle.std.specs.Cmp.Lexicographic.{slice_cmp};
ghost use Rattle.std.specs.HashMap.{get as looked_up};
ghost use Rattle.qls_model.specs.Bytes.{same, is_listed};
ghost use Rattle.qls_decide.specs.Entries.{entry_of, state_of};
ghost use Rattle.qls_decide.specs.Ends.{end_by, end_of, planned_end};

use crate::{End, ListEntry, ListState, verdict_of};
use qls_model::{NoMemory, Seq, Verdict, Xid};
use std::alloc::Global;
use std::collections::{BTreeSet, HashMap};

/// The ends of one queue's pending transactions by the verdicts of the prepared list's entries, in byte order and
/// each once; those in doubt are left out. Of two entries of one xid the first counts.
///
/// It takes time in n log n. Err is want of memory.
pub fn plan_settle(
    alloc: Global,
    pending: &Seq<Xid>,
    entries: &Seq<ListEntry>,
) -> Result<Seq<End>, NoMemory>
    ensures once_in_order { IfOk result (λ ends. IsStrictlySortedBy (slice_cmp nat_cmp) (map (λ e. e.xid) ends)) }
    ensures each { IfOk result (λ ends. (x : List ℕ) → end_of x ends ≡ planned_end x pending.now entries.now) }
{
    let states = states_by_xid(alloc, entries.as_slice())?;
    let mut xids = in_order(alloc, pending.as_slice())?;
    let mut ends = Seq::new(alloc);
    while let Some(xid) = xids.pop_first() {
        let state = states.get(&xid).copied();
        add_end(&mut ends, xid, verdict_of(state))?;
    }
    Ok(ends)
}

// The xids in byte order, each once.
fn in_order(alloc: Global, pending: &[Xid]) -> Result<BTreeSet<Xid>, NoMemory>
    ensures ordered { IfOk result (λ xids. IsStrictlySortedBy (slice_cmp nat_cmp) xids.keys) }
    ensures listed { IfOk result (λ xids. (x : List ℕ) → is_listed x xids.keys ≡ is_listed x pending.now) }
{
    let mut xids = BTreeSet::new(alloc);
    for xid in pending {
        xids.insert(*xid)?;
    }
    Ok(xids)
}

// The states of the entries by xid. It goes from the last, so that the first entry of an xid counts.
fn states_by_xid(alloc: Global, entries: &[ListEntry]) -> Result<HashMap<Xid, ListState>, NoMemory>
    ensures states { IfOk result (λ states. (x : List ℕ) → looked_up same states x ≡ state_of (entry_of x entries.now)) }
{
    let mut states = HashMap::new(alloc);
    for at in (0..entries.len()).rev() {
        let entry = &entries[at];
        states.insert(entry.xid, entry.state)?;
    }
    Ok(states)
}

// Puts the end that carries out the verdict at the end; in doubt there is none.
fn add_end(ends: &mut Seq<End>, xid: Xid, verdict: Verdict) -> Result<(), NoMemory>
    ensures added { IfOk result (λ _. ends.new ≡ ends.old ++ option_to_list (end_by verdict xid)) }
{
    match verdict {
        Verdict::Commit => ends.push(End { xid, commit: true })?,
        Verdict::Abort => ends.push(End { xid, commit: false })?,
        Verdict::Doubt => {}
    }
    Ok(())
}
