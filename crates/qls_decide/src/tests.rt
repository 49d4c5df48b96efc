// The verdicts, and a plan with each kind of entry.
use crate::{ListEntry, ListState, Verdict, plan_settle, verdict_of};
use qls_model::{NoMemory, Seq, Xid};
use std::alloc::Global;
use std::test::Fail;

fn xids(alloc: Global, texts: &[&[u8]]) -> Result<Seq<Xid>, NoMemory> {
    let mut xids = Seq::new(alloc);
    for text in texts {
        if let Some(xid) = Xid::new(text) {
            xids.push(xid)?;
        }
    }
    Ok(xids)
}

fn entries(alloc: Global, rows: &[(&[u8], ListState)]) -> Result<Seq<ListEntry>, NoMemory> {
    let mut entries = Seq::new(alloc);
    for (text, state) in rows {
        if let Some(xid) = Xid::new(text) {
            entries.push(ListEntry {
                xid,
                rid: 1,
                state: *state,
            })?;
        }
    }
    Ok(entries)
}

#[test]
fn verdicts(rt: HostRuntime) {
    for (entry, verdict) in [
        (None, Verdict::Abort),
        (Some(ListState::Prepared), Verdict::Doubt),
        (Some(ListState::OnePhase), Verdict::Abort),
        (Some(ListState::DecidedCommit), Verdict::Commit),
        (Some(ListState::DecidedAbort), Verdict::Abort),
    ] {
        assert_eq!(rt; verdict_of(entry), verdict);
    }
}

#[test]
fn plan(rt: HostRuntime) -> Result<(), Fail> {
    let alloc = rt.alloc();
    let pending = xids(
        alloc,
        &[b"\xff", b"b", b"a\0", b"c", b"a", b"b", b"one", b"p"],
    )?;
    let entries = entries(
        alloc,
        &[
            (b"c", ListState::DecidedAbort),
            (b"p", ListState::Prepared),
            (b"one", ListState::OnePhase),
            (b"b", ListState::DecidedCommit),
            (b"a\0", ListState::DecidedCommit),
            (b"other", ListState::DecidedCommit),
        ],
    )?;
    let ends = plan_settle(alloc, &pending, &entries)?;
    let wanted: [(&[u8], bool); 6] = [
        (b"a", false),
        (b"a\0", true),
        (b"b", true),
        (b"c", false),
        (b"one", false),
        (b"\xff", false),
    ];
    assert_eq!(rt; ends.len(), wanted.len());
    for (end, (xid, commit)) in ends.as_slice().iter().zip(wanted) {
        assert_eq!(rt; end.xid.as_slice(), xid);
        assert_eq!(rt; end.commit, commit);
    }
    Ok(())
}
