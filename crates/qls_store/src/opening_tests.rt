// A store that is opened over what an earlier one left: what it holds, and what was written for it.
ghost use Rattle.std.specs.Prelude.{◌≡◌, IfOk, IfSome, None, false, true};
ghost use Rattle.qls_site.specs.Disk.{IsQuiet};
ghost use Rattle.qls_pool.specs.Files.{OnDisk};
ghost use Rattle.qls_memsite.specs.Seen.{IdsDiffer, seen_of};
ghost use Rattle.qls_memsite.specs.Memory.{content_of};
ghost use Rattle.qls_store.specs.Stores.{Fits};

use crate::tests::{HOME, LINES, run};
use crate::{OpenFault, Store};
use qls_command::state_text;
use qls_filehdr::Rule;
use qls_memsite::{MemSerials, MemSite};
use qls_model::{Bytes, Phase, Seq};
use qls_site::{ImageFile, Serials, Site};
use std::alloc::Global;
use std::process::Abort;
use std::test::Fail;

/// A site without a file.
#[tactic(auto, using(crate::proofs::Tested::begins_at_rest))]
fn new_site(alloc: Global) -> MemSite
    ensures quiet { IsQuiet (content_of result).now.disk }
{
    MemSite::new(alloc)
}

/// Whether a file has that id.
fn is_among(files: &[ImageFile], id: u64) -> bool
    ensures among { result ≡ false → seen_of id files.now ≡ None }
{
    for file in files {
        if file.id == id {
            return true;
        }
    }
    false
}

/// Whether no two files have the same id.
fn differ(files: &[ImageFile]) -> bool
    ensures differ { result ≡ true → IdsDiffer files.now }
{
    let mut left = files;
    while let [first, rest @ ..] = left {
        if is_among(rest, first.id) {
            return false;
        }
        left = rest;
    }
    true
}

/// A site that begins on these files.
#[tactic(auto, using(crate::proofs::Tested::begins_at_rest))]
fn site_on(alloc: Global, files: Seq<ImageFile>) -> Result<MemSite, Fail>
    ensures quiet { IfOk result (λ site. IsQuiet (content_of site).now.disk) }
{
    if differ(files.as_slice()) {
        return Ok(MemSite::from_image(alloc, files)?);
    }
    Err("ids".into())
}

/// What a crash leaves so many moments before the last, with nothing of what is pending.
fn image_before_end(
    rt: &impl Abort,
    alloc: Global,
    site: &MemSite,
    back: usize,
) -> Result<Seq<ImageFile>, Fail> {
    let count = site.moment_count();
    assert!(rt; back < count);
    Ok(site.image(count - 1 - back, &Seq::new(alloc))?)
}

/// The files are those that were there.
fn check_same(rt: &impl Abort, was: &Seq<ImageFile>, now: &Seq<ImageFile>) {
    assert_eq!(rt; now.len(), was.len());
    for (old, new) in was.as_slice().iter().zip(now.as_slice()) {
        assert_eq!(rt; (new.id, new.place), (old.id, old.place));
        assert!(rt; new.bytes.as_slice() == old.bytes.as_slice());
    }
}

/// Opens the store that lies there, and runs the commands.
fn run_over<S: Site, N: Serials>(
    alloc: Global,
    site: &mut S,
    serials: &mut N,
    lines: &[&str],
) -> Result<Store, Fail>
    requires quiet { IfSome (S.told site.old) (OnDisk IsQuiet) }
    ensures fits { IfOk result (λ store. IfSome (S.told site.new) (OnDisk (Fits store))) }
{
    let store = Store::open(alloc, site, serials, HOME)?;
    run(alloc, store, site, serials, lines)
}

/// Opens the store that lies there, runs the commands, and checks the text of its state and which transactions it knows: they
/// are prepared.
fn check_over<S: Site, N: Serials>(
    rt: &impl Abort,
    alloc: Global,
    site: &mut S,
    serials: &mut N,
    lines: &[&str],
    wanted: (&str, &[&[u8]]),
) -> Result<(), Fail>
    requires quiet { IfSome (S.told site.old) (OnDisk IsQuiet) }
{
    let (text, doubts) = wanted;
    let mut store = run_over(alloc, site, serials, lines)?;
    let state = store.state(site)?;
    assert_eq!(rt; state_text(alloc, &state)?.as_slice(), text.as_bytes());
    assert_eq!(rt; state.xid_count(), doubts.len());
    for (at, wanted) in doubts.iter().enumerate() {
        let (xid, phase) = state.xid_at(at).ok_or("a transaction")?;
        assert_eq!(rt; xid.as_slice(), *wanted);
        assert_eq!(rt; phase, Phase::Prepared);
    }
    Ok(())
}

/// Opens the store that lies there, which has nothing to do: no file changes, and no serial is drawn.
fn check_settled(
    rt: &impl Abort,
    alloc: Global,
    files: Seq<ImageFile>,
    wanted: (&str, &[&[u8]]),
) -> Result<(), Fail> {
    let mut site = site_on(alloc, files)?;
    let mut serials = MemSerials::counting(107);
    let files = image_before_end(rt, alloc, &site, 0)?;
    check_over(rt, alloc, &mut site, &mut serials, &[], wanted)?;
    assert_eq!(rt; site.sync_count(), 0);
    check_same(rt, &files, &image_before_end(rt, alloc, &site, 0)?);
    assert_eq!(rt; serials.draw(), Ok(107));
    Ok(())
}

/// What lies there once the commands ran on a site without a file.
fn left_by(rt: &impl Abort, alloc: Global, lines: &[&str]) -> Result<Seq<ImageFile>, Fail> {
    let mut site = new_site(alloc);
    let mut serials = MemSerials::counting(7);
    run_over(alloc, &mut site, &mut serials, lines)?;
    image_before_end(rt, alloc, &site, 0)
}

#[test]
fn a_site_without_a_file_is_an_empty_store(rt: HostRuntime) -> Result<(), Fail> {
    let alloc = rt.alloc();
    check_settled(&rt, alloc, Seq::new(alloc), ("queues 0\ndoubt 0\n", &[]))
}

/// The state of the lines once their open transaction is aborted.
const SETTLED: &str = "\
queues 2
queue a last 3 messages 3
1 ready 01
2 ready 02
3 coming 01 04
queue b last 2 messages 1
2 ready -
doubt 1
01
";

/// The same once the transaction in doubt is committed.
const COMMITTED: &str = "\
queues 2
queue a last 3 messages 3
1 ready 01
2 ready 02
3 ready 04
queue b last 2 messages 1
2 ready -
doubt 0
";

/// The open transaction is aborted, and its ends are written, so that the next opening finds nothing to do.
#[test]
fn a_store_is_opened_as_it_was_left(rt: HostRuntime) -> Result<(), Fail> {
    let alloc = rt.alloc();
    let mut site = site_on(alloc, left_by(&rt, alloc, &LINES)?)?;
    let mut serials = MemSerials::counting(57);
    let doubts: [&[u8]; 1] = [&[1]];
    check_over(&rt, alloc, &mut site, &mut serials, &[], (SETTLED, &doubts))?;
    assert!(rt; 0 < site.sync_count());
    let files = image_before_end(&rt, alloc, &site, 0)?;
    check_settled(&rt, alloc, files, (SETTLED, &doubts))
}

#[test]
fn a_transaction_in_doubt_is_committed(rt: HostRuntime) -> Result<(), Fail> {
    let alloc = rt.alloc();
    let mut site = site_on(alloc, left_by(&rt, alloc, &LINES)?)?;
    let mut serials = MemSerials::counting(57);
    let lines = ["commit 01"];
    check_over(
        &rt,
        alloc,
        &mut site,
        &mut serials,
        &lines,
        (COMMITTED, &[]),
    )?;
    let files = image_before_end(&rt, alloc, &site, 0)?;
    check_settled(&rt, alloc, files, (COMMITTED, &[]))
}

/// Two queues, and a transaction that puts into each.
const TWO: [&str; 5] = [
    "queue a",
    "queue b",
    "begin 01",
    "put a 01 in 01",
    "put b 02 in 01",
];

/// Their state without the messages.
const NONE: &str = "queues 2\nqueue a last 1 messages 0\nqueue b last 1 messages 0\ndoubt 0\n";

/// Their state with the messages.
const BOTH: &str = "\
queues 2
queue a last 1 messages 1
1 ready 01
queue b last 1 messages 1
1 ready 02
doubt 0
";

/// Their state where the transaction is in doubt.
const DOUBT: &str = "\
queues 2
queue a last 1 messages 1
1 coming 01 01
queue b last 1 messages 1
1 coming 01 02
doubt 1
01
";

/// Commands after those and one more, and what a store is opened as before that one and after it.
const ENDED: [(&[&str], &str, &str, &str); 4] = [
    (&[], "prepare 01", NONE, DOUBT),
    (&[], "commit 01", NONE, BOTH),
    (&["prepare 01"], "commit 01", DOUBT, BOTH),
    (&["prepare 01"], "abort 01", DOUBT, NONE),
];

/// The text of the store that lies there.
fn text_over<S: Site>(alloc: Global, site: &mut S) -> Result<Bytes, Fail>
    requires quiet { IfSome (S.told site.old) (OnDisk IsQuiet) }
{
    let mut serials = MemSerials::counting(57);
    let mut store = run_over(alloc, site, &mut serials, &[])?;
    let state = store.state(site)?;
    Ok(state_text(alloc, &state)?)
}

/// Opened over any of these moments the store is the old one, and from some moment on the new one; and what was opened is
/// settled.
fn check_moments(
    rt: &impl Abort,
    alloc: Global,
    site: &MemSite,
    first: usize,
    texts: (&str, &str),
) -> Result<(), Fail> {
    let (mut wanted, new) = texts;
    for moment in first..site.moment_count() {
        let mut opened = site_on(alloc, site.image(moment, &Seq::new(alloc))?)?;
        let text = text_over(alloc, &mut opened)?;
        if first < moment && text.as_slice() == new.as_bytes() {
            wanted = new;
        }
        assert_eq!(rt; text.as_slice(), wanted.as_bytes(), "{moment}");
        let mut again = site_on(alloc, image_before_end(rt, alloc, &opened, 0)?)?;
        let text = text_over(alloc, &mut again)?;
        assert_eq!(rt; text.as_slice(), wanted.as_bytes(), "{moment}");
        assert_eq!(rt; again.sync_count(), 0, "{moment}");
    }
    assert_eq!(rt; wanted, new);
    Ok(())
}

#[test]
fn a_transaction_ends_in_all_queues_or_in_none(rt: HostRuntime) -> Result<(), Fail> {
    let alloc = rt.alloc();
    for (before, command, old, new) in ENDED {
        let mut site = new_site(alloc);
        let mut serials = MemSerials::counting(7);
        let store = run_over(alloc, &mut site, &mut serials, &TWO)?;
        let store = run(alloc, store, &mut site, &mut serials, before)?;
        let last = site.moment_count().saturating_sub(1);
        run(alloc, store, &mut site, &mut serials, &[command])?;
        check_moments(&rt, alloc, &site, last, (old, new))?;
    }
    Ok(())
}

/// A byte of the last file's header is another one.
#[test]
fn a_damaged_header_is_answered_before_a_write(rt: HostRuntime) -> Result<(), Fail> {
    let alloc = rt.alloc();
    let mut files = left_by(&rt, alloc, &LINES)?;
    let ImageFile { id, place, bytes } = files.pop().ok_or("a file")?;
    let mut bytes = bytes.into_vec();
    let byte = bytes.get_mut(48).ok_or("a header")?;
    *byte |= 64;
    let bytes = Bytes::from_vec(bytes);
    files.push(ImageFile { id, place, bytes })?;
    let mut site = site_on(alloc, files)?;
    let mut serials = MemSerials::counting(57);
    let files = image_before_end(&rt, alloc, &site, 0)?;
    let fault = Store::open(alloc, &mut site, &mut serials, HOME).err();
    let rule = Rule::Checksum;
    assert_eq!(rt; fault, Some(OpenFault::Damaged { file: id, rule }));
    assert_eq!(rt; site.sync_count(), 0);
    check_same(&rt, &files, &image_before_end(&rt, alloc, &site, 0)?);
    assert_eq!(rt; serials.draw(), Ok(57));
    Ok(())
}
