// The prepared list over a site in memory: which entries it has, which files, and what stands in them.
ghost use Rattle.std.specs.Prelude.{◌≡◌, ◌<◌, ◌∷◌, [], true, false, length, IfOk, IfSome};
ghost use Rattle.qls_site.specs.Disk.{full};
ghost use Rattle.qls_memsite.specs.Memory.{content_of};
ghost use Rattle.qls_meaning.specs.Journals.{is_in_use, in_use};
ghost use Rattle.qls_pool.specs.Files.{IsWholePool, FitsPlace, FitsPools, OnDisk};
ghost use Rattle.qls_decide.specs.Entries.{entry_of};
ghost use Rattle.qls_prepared.specs.Lists.{IsXid, MayEnd, ListThere};

use crate::PreparedList;
use qls_decide::ListState;
use qls_log::LogError;
use qls_memsite::{CallKind, MemSerials, MemSite};
use qls_model::{Bytes, NoMemory, PoolId, Seq, Xid};
use qls_pool::Pool;
use qls_site::{ImageFile, Place, Serials, Site};
use std::alloc::Global;
use std::process::Abort;
use std::test::Fail;

/// The pool of partition 1 whose files have 4 KiB of data, one block: each batch fills a file.
pub(crate) const HOME: PoolId = PoolId { part: 1, kib: 4 };

/// The greatest id of a file.
const LAST_ID: u64 = (1 << 62) - 1;

/// The pools of a site without files.
pub(crate) fn open_pools<S: Site>(alloc: Global, site: &mut S) -> Result<Pool, Fail>
    requires fits { IfSome (S.told site.old) (OnDisk (λ d. d ≡ [])) }
    ensures pool { IfOk result (λ pool. IfSome (S.told site.new) (OnDisk (IsWholePool pool))) }
    ensures free { IfOk result (λ _. IfSome (S.told site.new) (OnDisk (λ d. in_use (full d) ≡ []))) }
{
    let files = site.list(alloc)?;
    let pool = Pool::open(alloc, 0, &files)?;
    Ok(pool)
}

/// An empty file of the partition's pool of 4 KiB.
fn empty_file(alloc: Global, id: u64, part: u16) -> Result<ImageFile, NoMemory>
    ensures id { IfOk result (λ file. file.id ≡ id) }
    ensures size { IfOk result (λ file. FitsPlace file.place (length file.bytes)) }
    ensures empty { IfOk result (λ file. is_in_use file.place ≡ false) }
{
    let bytes = Vec::from_elem(alloc, 0, 8192)?;
    Ok(ImageFile {
        id,
        place: Place::Empty { part, kib: 4 },
        bytes: Bytes::from_vec(bytes),
    })
}

/// A site with two empty files: one of partition `part`, and one of partition `last_part` that has the greatest id.
fn begin(alloc: Global, part: u16, last_part: u16) -> Result<MemSite, NoMemory>
    ensures fits { IfOk result (λ site. FitsPools 4611686018427387903 (content_of site).now.disk) }
    ensures free { IfOk result (λ site. in_use (full (content_of site).now.disk) ≡ []) }
{
    let mut files = Seq::new(alloc);
    files.push(empty_file(alloc, 5, part)?)?;
    files.push(empty_file(alloc, LAST_ID, last_part)?)?;
    MemSite::from_image(alloc, files)
}

/// The pools of such a site.
fn open_listed<S: Site>(alloc: Global, site: &mut S) -> Result<Pool, Fail>
    requires fits { IfSome (S.told site.old) (OnDisk (FitsPools 4611686018427387903)) }
    requires free { IfSome (S.told site.old) (OnDisk (λ d. in_use (full d) ≡ [])) }
    ensures pool { IfOk result (λ pool. IfSome (S.told site.new) (OnDisk (IsWholePool pool))) }
    ensures free { IfOk result (λ _. IfSome (S.told site.new) (OnDisk (λ d. in_use (full d) ≡ []))) }
{
    let files = site.list(alloc)?;
    let pool = Pool::open(alloc, LAST_ID, &files)?;
    Ok(pool)
}

// ---- calls in text

/// Enters the transaction, if it has no entry.
fn enter<S: Site, N: Serials>(
    list: &mut PreparedList,
    site: &mut S,
    pool: &mut Pool,
    serials: &mut N,
    xid: Xid,
    one_phase: bool,
) -> Result<bool, LogError>
    requires open { list.old.ended ≡ false }
    requires xid { IsXid xid }
    requires there { IfSome (S.told site.old) (OnDisk (ListThere list.old)) }
    requires pool { IfSome (S.told site.old) (OnDisk (IsWholePool pool.old)) }
    ensures there { list.new.ended ≡ false → IfSome (S.told site.new) (OnDisk (ListThere list.new)) }
    ensures pool { list.new.ended ≡ false → IfSome (S.told site.new) (OnDisk (IsWholePool pool.new)) }
{
    if list.entry(&xid).is_some() {
        return Ok(false);
    }
    if one_phase {
        list.one_phase(site, pool, serials, xid)?;
    } else {
        list.prepare(site, pool, serials, xid)?;
    }
    Ok(true)
}

/// Decides the transaction, if it is prepared.
fn decide<S: Site, N: Serials>(
    list: &mut PreparedList,
    site: &mut S,
    pool: &mut Pool,
    serials: &mut N,
    xid: Xid,
    commit: bool,
) -> Result<bool, LogError>
    requires open { list.old.ended ≡ false }
    requires there { IfSome (S.told site.old) (OnDisk (ListThere list.old)) }
    requires pool { IfSome (S.told site.old) (OnDisk (IsWholePool pool.old)) }
    ensures there { list.new.ended ≡ false → IfSome (S.told site.new) (OnDisk (ListThere list.new)) }
    ensures pool { list.new.ended ≡ false → IfSome (S.told site.new) (OnDisk (IsWholePool pool.new)) }
{
    match list.entry(&xid) {
        Some(ListState::Prepared) => {
            list.decide(site, pool, serials, xid, commit)?;
            Ok(true)
        }
        _ => Ok(false),
    }
}

/// Whether the transaction's entry may end.
#[tactic(auto, using(crate::proofs::OneEnd::may_end_in))]
fn may_end(list: &PreparedList, xid: &Xid) -> bool
    requires open { list.now.ended ≡ false }
    ensures may { result ≡ true → MayEnd (entry_of xid.now list.now.entries) }
{
    match list.entry(xid) {
        None => false,
        Some(ListState::Prepared) => false,
        Some(ListState::OnePhase) => true,
        Some(ListState::DecidedCommit) => true,
        Some(ListState::DecidedAbort) => true,
    }
}

/// The xid alone.
fn alone(alloc: Global, xid: Xid) -> Result<Seq<Xid>, NoMemory>
    ensures one { IfOk result (λ xids. xids ≡ xid ∷ []) }
{
    let mut xids = Seq::new(alloc);
    xids.push(xid)?;
    Ok(xids)
}

/// Ends the transaction, if its entry may end.
#[tactic(auto, using(crate::proofs::OneEnd::one_some, crate::proofs::OneEnd::one_distinct, crate::proofs::OneEnd::one_decided))]
fn end<S: Site, N: Serials>(
    alloc: Global,
    list: &mut PreparedList,
    site: &mut S,
    pool: &mut Pool,
    serials: &mut N,
    xid: Xid,
) -> Result<bool, LogError>
    requires open { list.old.ended ≡ false }
    requires there { IfSome (S.told site.old) (OnDisk (ListThere list.old)) }
    requires pool { IfSome (S.told site.old) (OnDisk (IsWholePool pool.old)) }
    ensures there { list.new.ended ≡ false → IfSome (S.told site.new) (OnDisk (ListThere list.new)) }
    ensures pool { list.new.ended ≡ false → IfSome (S.told site.new) (OnDisk (IsWholePool pool.new)) }
{
    if !may_end(list, &xid) {
        return Ok(false);
    }
    let xids = alone(alloc, xid)?;
    list.end(site, pool, serials, &xids)?;
    Ok(true)
}

/// The letter of a call, and the xid that follows it.
fn parts(word: &[u8]) -> Option<(u8, Xid)>
    ensures xid { IfSome result (λ p. IsXid p.1) }
{
    let (letter, xid) = word.split_first()?;
    if xid.is_empty() {
        return None;
    }
    Some((*letter, Xid::new(xid)?))
}

/// One call: `p` prepares, `o` enters in one phase, `c` and `a` decide, `e` ends, `r` releases. It isn't made where its
/// conditions don't hold.
fn step<S: Site, N: Serials>(
    alloc: Global,
    list: &mut PreparedList,
    site: &mut S,
    pool: &mut Pool,
    serials: &mut N,
    word: &[u8],
) -> Result<bool, LogError>
    requires open { list.old.ended ≡ false }
    requires there { IfSome (S.told site.old) (OnDisk (ListThere list.old)) }
    requires pool { IfSome (S.told site.old) (OnDisk (IsWholePool pool.old)) }
    ensures there { list.new.ended ≡ false → IfSome (S.told site.new) (OnDisk (ListThere list.new)) }
    ensures pool { list.new.ended ≡ false → IfSome (S.told site.new) (OnDisk (IsWholePool pool.new)) }
{
    let Some((letter, xid)) = parts(word) else {
        return Ok(false);
    };
    match letter {
        b'p' => enter(list, site, pool, serials, xid, false),
        b'o' => enter(list, site, pool, serials, xid, true),
        b'c' => decide(list, site, pool, serials, xid, true),
        b'a' => decide(list, site, pool, serials, xid, false),
        b'e' => end(alloc, list, site, pool, serials, xid),
        _ => {
            list.release(site, pool)?;
            Ok(true)
        }
    }
}

/// What a call answers, as a letter.
fn answer(outcome: Result<bool, LogError>) -> u8 {
    match outcome {
        Ok(true) => b'.',
        Ok(false) => b'-',
        Err(LogError::Failed) => b'f',
        Err(LogError::Draw) => b'd',
        Err(LogError::Spent) => b's',
        Err(LogError::Memory) => b'm',
    }
}

/// Makes the calls until the list is ended, and gives their answers, with a `!` behind them where it is.
pub(crate) fn run<S: Site, N: Serials>(
    alloc: Global,
    list: &mut PreparedList,
    site: &mut S,
    pool: &mut Pool,
    serials: &mut N,
    text: &str,
) -> Result<Vec<u8>, NoMemory>
    requires open { list.old.ended ≡ false }
    requires there { IfSome (S.told site.old) (OnDisk (ListThere list.old)) }
    requires pool { IfSome (S.told site.old) (OnDisk (IsWholePool pool.old)) }
    ensures there { IfOk result (λ _. list.new.ended ≡ false → IfSome (S.told site.new) (OnDisk (ListThere list.new))) }
    ensures pool { IfOk result (λ _. list.new.ended ≡ false → IfSome (S.told site.new) (OnDisk (IsWholePool pool.new))) }
{
    let mut answers = Vec::new(alloc);
    for word in text.split_ascii_whitespace() {
        if list.is_ended() {
            break;
        }
        let outcome = step(alloc, list, site, pool, serials, word.as_bytes());
        answers.push(answer(outcome))?;
    }
    if list.is_ended() {
        answers.push(b'!')?;
    }
    Ok(answers)
}

/// What the calls answer on a new list.
fn answers<S: Site, N: Serials>(
    alloc: Global,
    site: &mut S,
    pool: &mut Pool,
    serials: &mut N,
    text: &str,
) -> Result<Vec<u8>, Fail>
    requires pool { IfSome (S.told site.old) (OnDisk (IsWholePool pool.old)) }
    requires free { IfSome (S.told site.old) (OnDisk (λ d. in_use (full d) ≡ [])) }
{
    let mut list = PreparedList::new(alloc, HOME);
    let answers = run(alloc, &mut list, site, pool, serials, text)?;
    Ok(answers)
}

// ---- files

/// The files as they stand now, with nothing of what is pending.
pub(crate) fn now(alloc: Global, site: &MemSite) -> Result<Seq<ImageFile>, Fail> {
    let moments = site.moment_count();
    if moments == 0 {
        return Err("no moment".into());
    }
    let files = site.image(moments - 1, &Seq::new(alloc))?;
    Ok(files)
}

/// The files that the calls leave on a site without files, where serials count from 7.
fn files_after(
    rt: &impl Abort,
    alloc: Global,
    text: &str,
    wanted: &str,
) -> Result<Seq<ImageFile>, Fail> {
    let mut site = MemSite::new(alloc);
    let mut serials = MemSerials::counting(7);
    let mut pool = open_pools(alloc, &mut site)?;
    let found = answers(alloc, &mut site, &mut pool, &mut serials, text)?;
    assert_eq!(rt; found.as_slice(), wanted.as_bytes(), "{text}");
    now(alloc, &site)
}

/// Where each file is, by id: a `u` for in use, an `e` for in the pool.
pub(crate) fn places(alloc: Global, files: &Seq<ImageFile>) -> Result<Vec<u8>, Fail> {
    let mut letters = Vec::new(alloc);
    for file in files.as_slice() {
        let letter = match file.place {
            Place::InUse => b'u',
            Place::Empty { .. } => b'e',
        };
        letters.push(letter)?;
    }
    Ok(letters)
}

/// Eight bytes of a file, as a little-endian number.
fn number_at(files: &Seq<ImageFile>, file: usize, at: usize) -> Option<u64> {
    let bytes = files.get(file)?.bytes.as_slice().get(at..)?;
    let (eight, _) = bytes.split_first_chunk::<8>()?;
    Some(u64::from_le_bytes(*eight))
}

/// These numbers stand in the files.
fn check_numbers(
    rt: &impl Abort,
    files: &Seq<ImageFile>,
    wanted: &[(usize, usize, u64)],
) -> Result<(), Fail> {
    for (file, at, number) in wanted {
        assert_eq!(rt; number_at(files, *file, *at), Some(*number), "{file} {at}");
    }
    Ok(())
}

#[test]
fn first_entry_takes_a_file(rt: HostRuntime) -> Result<(), Fail> {
    let files = files_after(&rt, rt.alloc(), "p1", ".")?;
    assert_eq!(rt; files.len(), 1);
    check_numbers(
        &rt,
        &files,
        &[
            (0, 8, 7),
            (0, 16, 0),
            (0, 32, 4096),
            (0, 40, 1),
            (0, 48, 1),
            (0, 4096, 0x2_6553_4c51),
            (0, 4096 + 8, 7),
            (0, 4096 + 16, 1),
            (0, 4096 + 24, 1),
            (0, 4096 + 32, 0),
            (0, 4096 + 128, 0x2_7853_4c51),
        ],
    )?;
    let kind = number_at(&files, 0, 56).ok_or("a kind")?;
    assert_eq!(rt; kind % (1 << 32), 2);
    Ok(())
}

#[test]
fn each_batch_fills_a_file(rt: HostRuntime) -> Result<(), Fail> {
    let alloc = rt.alloc();
    let files = files_after(&rt, alloc, "p1 c1 e1 p2", "....")?;
    assert_eq!(rt; places(alloc, &files)?.as_slice(), b"uee".as_slice());
    check_numbers(
        &rt,
        &files,
        &[
            (0, 8, 10),
            (0, 16, 1),
            (0, 40, 4),
            (0, 4096, 0x2_6553_4c51),
            (0, 4096 + 16, 2),
            (1, 8, 8),
            (1, 16, 1),
            (1, 40, 2),
            (1, 4096, 0x10_0002_6453_4c51),
            (1, 4096 + 16, 1),
            (1, 4096 + 24, 1),
            (2, 8, 9),
            (2, 16, 1),
            (2, 40, 3),
            (2, 4096, 0x2_6353_4c51),
            (2, 4096 + 16, 1),
        ],
    )
}

#[test]
fn one_phase_is_one_batch(rt: HostRuntime) -> Result<(), Fail> {
    let files = files_after(&rt, rt.alloc(), "o1", ".")?;
    assert_eq!(rt; files.len(), 1);
    check_numbers(
        &rt,
        &files,
        &[
            (0, 4096, 0x10_0002_6553_4c51),
            (0, 4096 + 16, 1),
            (0, 4224, 0x10_0002_6453_4c51),
            (0, 4224 + 16, 1),
            (0, 4224 + 24, 1),
            (0, 4352, 0x2_7853_4c51),
        ],
    )
}

#[test]
fn dead_files_go_back(rt: HostRuntime) -> Result<(), Fail> {
    let alloc = rt.alloc();
    for (text, wanted, left) in [
        ("p1 c1", "..", "uu"),
        ("p1 c1 e1", "...", "eeu"),
        ("p1 a1 e1", "...", "eeu"),
        ("o1 p2", "..", "uu"),
        ("o1 p2 e1", "...", "euu"),
        ("p1 p2 c2 e2", "....", "uuuu"),
        ("p1 p2 c1 e1", "....", "euuu"),
        ("p1 c1 e1 o2", "....", "ueu"),
        ("p1 c1 e1 o2 r-", ".....", "uee"),
        ("p1 e1 c2 p1 r-", ".---.", "u"),
    ] {
        let files = files_after(&rt, alloc, text, wanted)?;
        let found = places(alloc, &files)?;
        assert_eq!(rt; found.as_slice(), left.as_bytes(), "{text}");
    }
    Ok(())
}

// ---- entries

/// The letter of a state.
fn letter(state: ListState) -> u8 {
    match state {
        ListState::Prepared => b'P',
        ListState::OnePhase => b'O',
        ListState::DecidedCommit => b'C',
        ListState::DecidedAbort => b'A',
    }
}

/// The list has these entries in this order, each an xid and the letter of its state, and no other.
pub(crate) fn check_entries(rt: &impl Abort, list: &PreparedList, wanted: &str) -> Result<(), Fail>
    requires open { list.now.ended ≡ false }
{
    let mut at: usize = 0;
    for word in wanted.split_ascii_whitespace() {
        let entry = list.entry_at(at).ok_or("an entry")?;
        let (state, xid) = word.as_bytes().split_last().ok_or("a word")?;
        assert_eq!(rt; entry.xid.as_slice(), xid, "{wanted}");
        assert_eq!(rt; letter(entry.state), *state, "{wanted}");
        assert_eq!(rt; list.entry(&entry.xid), Some(entry.state), "{wanted}");
        at = at.saturating_add(1);
    }
    assert!(rt; list.entry_at(at).is_none(), "{wanted}");
    Ok(())
}

/// Entries come and go.
fn each_state<S: Site, N: Serials>(
    rt: &impl Abort,
    alloc: Global,
    site: &mut S,
    pool: &mut Pool,
    serials: &mut N,
) -> Result<(), Fail>
    requires pool { IfSome (S.told site.old) (OnDisk (IsWholePool pool.old)) }
    requires free { IfSome (S.told site.old) (OnDisk (λ d. in_use (full d) ≡ [])) }
{
    let mut list = PreparedList::new(alloc, HOME);
    for (word, wanted) in [
        ("pb", "bP"),
        ("pa", "aP bP"),
        ("pab", "aP abP bP"),
        ("oaa", "aP aaC abP bP"),
        ("cb", "aP aaC abP bC"),
        ("aab", "aP aaC abA bC"),
        ("eaa", "aP abA bC"),
        ("ea", "aP abA bC"),
        ("r-", "aP abA bC"),
        ("ca", "aC abA bC"),
        ("ea", "abA bC"),
        ("eab", "bC"),
        ("eb", ""),
    ] {
        let _answer = step(alloc, &mut list, site, pool, serials, word.as_bytes())?;
        if list.is_ended() {
            return Err("ended".into());
        }
        check_entries(rt, &list, wanted)?;
    }
    Ok(())
}

#[test]
fn entries_are_in_order_of_their_xids(rt: HostRuntime) -> Result<(), Fail> {
    let alloc = rt.alloc();
    let mut site = MemSite::new(alloc);
    let mut serials = MemSerials::counting(7);
    let mut pool = open_pools(alloc, &mut site)?;
    each_state(&rt, alloc, &mut site, &mut pool, &mut serials)
}

// ---- what fails

/// What calls answer on a site without files where the n-th call of this kind fails, or this draw.
fn fails(alloc: Global, kind: CallKind, n: u64, draw: u64) -> Result<Vec<u8>, Fail> {
    let mut site = MemSite::new(alloc);
    site.fail_call(kind, n)?;
    let mut serials = MemSerials::counting(7);
    serials.fail_draw(draw);
    let mut pool = open_pools(alloc, &mut site)?;
    answers(alloc, &mut site, &mut pool, &mut serials, "p1 c1 e1 p2")
}

#[test]
fn what_fails_ends_the_list(rt: HostRuntime) -> Result<(), Fail> {
    let alloc = rt.alloc();
    for (kind, n, draw, wanted) in [
        (CallKind::Any, 0, 0, "...."),
        (CallKind::Create, 1, 0, "f!"),
        (CallKind::Relocate, 1, 0, "f!"),
        (CallKind::Write, 2, 0, "f!"),
        (CallKind::Sync, 2, 0, "f!"),
        (CallKind::Create, 2, 0, ".f!"),
        (CallKind::Write, 4, 0, ".f!"),
        (CallKind::Sync, 6, 0, "..f!"),
        (CallKind::Relocate, 4, 0, "..f!"),
        (CallKind::Relocate, 5, 0, "..f!"),
        (CallKind::Sync, 8, 0, "...f!"),
        (CallKind::Relocate, 7, 0, "...f!"),
        (CallKind::Any, 0, 1, "d!"),
        (CallKind::Any, 0, 4, "...d!"),
    ] {
        let found = fails(alloc, kind, n, draw)?;
        assert_eq!(rt; found.as_slice(), wanted.as_bytes(), "{n} {draw}");
    }
    Ok(())
}

/// Two empty files of these partitions are there, and no id is left for a third.
#[test]
fn a_list_meets_the_end_of_ids(rt: HostRuntime) -> Result<(), Fail> {
    let alloc = rt.alloc();
    for (part, last_part, wanted) in [(2, 2, "s!"), (1, 2, ".s!"), (2, 1, ".s!"), (1, 1, "..s!")] {
        let mut site = begin(alloc, part, last_part)?;
        let mut serials = MemSerials::counting(7);
        let mut pool = open_listed(alloc, &mut site)?;
        let found = answers(alloc, &mut site, &mut pool, &mut serials, "p1 c1 e1 p2")?;
        assert_eq!(rt; found.as_slice(), wanted.as_bytes(), "{part} {last_part}");
    }
    Ok(())
}

#[test]
fn release_of_nothing_makes_no_call(rt: HostRuntime) -> Result<(), Fail> {
    let alloc = rt.alloc();
    let mut site = MemSite::new(alloc);
    let mut serials = MemSerials::counting(7);
    let mut pool = open_pools(alloc, &mut site)?;
    let mut list = PreparedList::new(alloc, HOME);
    let before = site.moment_count();
    list.release(&mut site, &mut pool)?;
    assert_eq!(rt; site.moment_count(), before);
    let found = run(
        alloc,
        &mut list,
        &mut site,
        &mut pool,
        &mut serials,
        "p1 p2 c2",
    )?;
    assert_eq!(rt; found.as_slice(), b"...".as_slice());
    if list.is_ended() {
        return Err("ended".into());
    }
    let before = site.moment_count();
    list.release(&mut site, &mut pool)?;
    assert_eq!(rt; site.moment_count(), before);
    assert!(rt; !list.is_ended());
    Ok(())
}
