// Lists opened over journals whose records are given: their entries, and which files go back then.
ghost use Rattle.std.specs.Prelude.{◌≡◌, ◌+◌, ◌<◌, ◌^◌, [], false, true, IfOk, IfSome};
ghost use Rattle.qls_site.specs.Disk.{full};
ghost use Rattle.qls_meaning.specs.Journals.{in_use};
ghost use Rattle.qls_pool.specs.Files.{IsWholePool, OnDisk};
ghost use Rattle.qls_record.specs.Record.{rid_given};
ghost use Rattle.qls_reading.specs.ReadLogs.{AreGiven, rid_behind};
ghost use Rattle.qls_prepared.specs.Lists.{rid_of_log, IsXid, IsOwn, ThereBy, ListThere};

use crate::PreparedList;
use crate::records::prepare_batch;
use crate::tests::{HOME, check_entries, now, open_pools, places, run};
use crate::write::write;
use qls_log::{Log, LogError};
use qls_memsite::{MemSerials, MemSite};
use qls_model::{Bytes, PoolId, Seq, Xid};
use qls_pool::Pool;
use qls_record::{Got, Head, Kind};
use qls_site::{Serials, Site};
use std::alloc::Global;
use std::process::Abort;
use std::test::Fail;

/// The default pool of these openings; the files of the log are of another one.
const OTHER: PoolId = PoolId { part: 2, kib: 8 };

/// The kind of a letter, and its flag: `p` prepares, `o` enters in one phase, `c` and `a` decide, `e` ends, and any other is
/// an abort, which says nothing in the list.
fn kind_of(letter: u8) -> (Kind, bool) {
    match letter {
        b'p' => (Kind::Enqueue, false),
        b'o' => (Kind::Enqueue, true),
        b'c' => (Kind::Dequeue, true),
        b'a' => (Kind::Dequeue, false),
        b'e' => (Kind::Commit, false),
        _ => (Kind::Abort, false),
    }
}

/// The record of a word of three bytes: a letter, the target's digit, and an xid of one letter, or none where that is a
/// dash. The record lies in the file whose number is its record id.
fn record(alloc: Global, rid: u64, word: &[u8]) -> Option<Got> {
    let [letter, target, xid] = *word else {
        return None;
    };
    let (kind, flagged) = kind_of(letter);
    let xid = if xid == b'-' {
        Xid::new(&[])?
    } else {
        Xid::new(&[xid])?
    };
    let rid = if kind == Kind::Enqueue {
        rid.checked_add(1)?
    } else {
        rid
    };
    let head = Head {
        kind,
        flagged,
        rid,
        target: u64::from(target.saturating_sub(b'0')),
        xid_size: xid.as_slice().len() as u64,
        body_size: 0,
    };
    Some(Got {
        head,
        xid,
        body: Bytes::from_vec(Vec::new(alloc)),
        file: rid,
        at: 4096,
        end_file: rid,
    })
}

/// Whether a record carries the rid that follows from this one.
fn follows(rid: u64, got: &Got) -> bool
    ensures given { result ≡ true → (got.now.head.rid ≡ rid_given rid got.now.head.kind) × (got.now.head.rid < 2 ^ 62) }
{
    let given = if got.head.kind == Kind::Enqueue {
        rid.saturating_add(1)
    } else {
        rid
    };
    got.head.rid == given && got.head.rid < 1 << 62
}

/// Whether the records' rids follow from each other, from 0 up to the last one.
fn are_given(reads: &[Got], last: u64) -> bool
    ensures given { result ≡ true → AreGiven 0 reads.now × (last ≡ rid_behind 0 reads.now) }
{
    let mut rid = 0;
    for got in reads {
        if !follows(rid, got) {
            return false;
        }
        rid = got.head.rid;
    }
    rid == last
}

/// One more enqueue in the journal of the list.
fn put<S: Site, N: Serials>(
    alloc: Global,
    log: &mut Option<Log>,
    site: &mut S,
    pool: &mut Pool,
    serials: &mut N,
    rid: u64,
    xid: Xid,
) -> Result<(), LogError>
    requires rid { rid_of_log log.old + 1 ≡ rid }
    requires limit { rid < 2 ^ 62 }
    requires xid { IsXid xid }
    requires own { IsOwn log.old }
    requires there { IfSome (S.told site.old) (OnDisk (ThereBy HOME log.old)) }
    requires pool { IfSome (S.told site.old) (OnDisk (IsWholePool pool.old)) }
    ensures rid { IfOk result (λ _. rid_of_log log.new ≡ rid) }
    ensures own { IfOk result (λ _. IsOwn log.new) }
    ensures there { IfOk result (λ _. IfSome (S.told site.new) (OnDisk (ThereBy HOME log.new))) }
    ensures pool { IfOk result (λ _. IfSome (S.told site.new) (OnDisk (IsWholePool pool.new))) }
{
    let batch = prepare_batch(alloc, rid, xid)?;
    let _spot = write(alloc, HOME, log, site, pool, serials, &batch)?;
    Ok(())
}

/// The list opened over these records, on a site without files. Its log has the enqueues alone, each in a file of its own:
/// no other record raises its rid.
fn opened<S: Site, N: Serials>(
    alloc: Global,
    site: &mut S,
    pool: &mut Pool,
    serials: &mut N,
    text: &str,
) -> Result<PreparedList, Fail>
    requires pool { IfSome (S.told site.old) (OnDisk (IsWholePool pool.old)) }
    requires free { IfSome (S.told site.old) (OnDisk (λ d. in_use (full d) ≡ [])) }
    ensures open { IfOk result (λ list. list.ended ≡ false) }
    ensures there { IfOk result (λ list. IfSome (S.told site.new) (OnDisk (ListThere list))) }
    ensures pool { IfOk result (λ _. IfSome (S.told site.new) (OnDisk (IsWholePool pool.new))) }
{
    let mut log = None;
    let mut reads = Seq::new(alloc);
    let mut rid = 0;
    for word in text.split_ascii_whitespace() {
        let got = record(alloc, rid, word.as_bytes()).ok_or("a record")?;
        if got.head.kind == Kind::Enqueue {
            let xid = Xid::new(b"x").ok_or("an xid")?;
            if rid >= (1 << 61) {
                return Err("a rid".into());
            }
            rid += 1;
            put(alloc, &mut log, site, pool, serials, rid, xid)?;
        }
        reads.push(got)?;
    }
    if log.is_none() {
        let list = PreparedList::open(alloc, None, &Seq::new(alloc), HOME)?;
        return Ok(list);
    }
    if !are_given(reads.as_slice(), rid) {
        return Err("rids".into());
    }
    let list = PreparedList::open(alloc, log, &reads, OTHER)?;
    Ok(list)
}

#[test]
fn records_make_the_entries(rt: HostRuntime) -> Result<(), Fail> {
    let alloc = rt.alloc();
    for (text, wanted) in [
        ("", ""),
        ("p-b p-a", "aP bP"),
        ("p-- p-a", "aP"),
        ("o-a p-b", "aO bP"),
        ("p-a p-b c1a a2b", "aC bA"),
        ("o-a c1a", "aC"),
        ("p-a c2a c1b", "aP"),
        ("p-a a1a c1a", "aA"),
        ("p-a p-a c1a", "aP"),
        ("p-a p-a c2a", "aC"),
        ("p-a p-b e-a", "bP"),
        ("p-a e-b x-a", "aP"),
    ] {
        let mut site = MemSite::new(alloc);
        let mut serials = MemSerials::counting(7);
        let mut pool = open_pools(alloc, &mut site)?;
        let list = opened(alloc, &mut site, &mut pool, &mut serials, text)?;
        check_entries(&rt, &list, wanted)?;
    }
    Ok(())
}

/// The files of the entries' enqueues stay, and those before the first of them go back, whatever the default pool is.
#[test]
fn calls_go_on_behind_an_opening(rt: HostRuntime) -> Result<(), Fail> {
    let alloc = rt.alloc();
    for (text, calls, answers, left) in [
        ("p-a p-b", "r-", ".", "uu"),
        ("p-a p-b e-a", "r-", ".", "eu"),
        ("p-a p-b e-b", "r-", ".", "uu"),
        ("p-a p-b p-a", "r-", ".", "euu"),
        ("p-a p-b c1a", "ea", ".", "euu"),
        ("p-a p-b c1a", "ea pc", "..", "uuu"),
    ] {
        let mut site = MemSite::new(alloc);
        let mut serials = MemSerials::counting(7);
        let mut pool = open_pools(alloc, &mut site)?;
        let mut list = opened(alloc, &mut site, &mut pool, &mut serials, text)?;
        let found = run(alloc, &mut list, &mut site, &mut pool, &mut serials, calls)?;
        assert_eq!(rt; found.as_slice(), answers.as_bytes(), "{text}");
        let files = now(alloc, &site)?;
        assert_eq!(rt;
            places(alloc, &files)?.as_slice(),
            left.as_bytes(),
            "{text}"
        );
        for file in files.as_slice() {
            assert_eq!(rt; file.bytes.as_slice().len(), 8192, "{text}");
        }
    }
    Ok(())
}
