// Logs over a site in memory: what files hold after batches, and what a call answers that fails.
ghost use Rattle.std.specs.Prelude.{◌≡◌, ◌<◌, ◌≤◌, ◌+◌, ◌^◌, ◌++◌, false, List, [], IfOk, IfSome, length};
ghost use Rattle.qls_site.specs.Disk.{full};
ghost use Rattle.qls_memsite.specs.Memory.{content_of};
ghost use Rattle.qls_meaning.specs.Journals.{is_in_use, in_use};
ghost use Rattle.qls_pool.specs.Files.{IsPoolOf, IsWholePool, FitsPlace, FitsPools, OnDisk};
ghost use Rattle.qls_log.specs.Standing.{LogThere};
ghost use Rattle.qls_record.specs.Record.{Record};
ghost use Rattle.qls_site.specs.Content.{Tells, moments_since};
ghost use Rattle.qls_meaning.specs.Reading.{Read};
ghost use Rattle.qls_meaning.specs.History.{AllUnmarked};
ghost use Rattle.qls_log.specs.Appending.{FollowRids};
ghost use Rattle.qls_log.specs.Reads.{IsRead, BeginsReading, batch_reads};
ghost use Rattle.qls_log.specs.Soundness.{BeginsUndamaged, StaysUndamaged};

use crate::{Log, LogError, Spot};
use qls_blocks::Batch;
use qls_filehdr::JournalKind;
use qls_memsite::{CallKind, MemSerials, MemSite};
use qls_model::{Bytes, Name, NoMemory, PoolId, Seq, Xid};
use qls_pool::Pool;
use qls_record::{Head, Kind};
use qls_site::{ImageFile, Place, Serials, Site};
use std::alloc::Global;
use std::test::Fail;

/// The pool of partition 1 whose files have 4 KiB of data.
pub(crate) const HOME: PoolId = PoolId { part: 1, kib: 4 };

/// The place of its empty files.
const EMPTY: Place = Place::Empty { part: 1, kib: 4 };

/// The pools of a site without files.
pub(crate) fn open_pools<S: Site>(alloc: Global, site: &mut S) -> Result<Pool, Fail>
    requires fits { IfSome (S.told site.old) (OnDisk (λ d. d ≡ [])) }
    ensures pool { IfOk result (λ pool. IfSome (S.told site.new) (OnDisk (IsWholePool pool))) }
    ensures free { IfOk result (λ _. IfSome (S.told site.new) (OnDisk (λ d. in_use (full d) ≡ []))) }
{
    let files = site.list(alloc)?;
    let pool = Pool::open(alloc, 0, &files)?;
    Ok(pool)
}

/// An empty file of the pool whose bytes are all the same.
fn filled(alloc: Global, id: u64, byte: u8) -> Result<ImageFile, NoMemory>
    ensures id { IfOk result (λ file. file.id ≡ id) }
    ensures size { IfOk result (λ file. FitsPlace file.place (length file.bytes)) }
    ensures empty { IfOk result (λ file. is_in_use file.place ≡ false) }
{
    let bytes = Vec::from_elem(alloc, byte, 8192)?;
    Ok(ImageFile {
        id,
        place: Place::Empty { part: 1, kib: 4 },
        bytes: Bytes::from_vec(bytes),
    })
}

/// A site with two empty files of the pool: all bytes of one are 3, of the other 5.
fn begin(alloc: Global, first: u64, second: u64) -> Result<MemSite, NoMemory>
    requires { first < second }
    ensures fits { IfOk result (λ site. FitsPools second (content_of site).now.disk) }
    ensures free { IfOk result (λ site. in_use (full (content_of site).now.disk) ≡ []) }
{
    let mut files = Seq::new(alloc);
    files.push(filled(alloc, first, 3)?)?;
    files.push(filled(alloc, second, 5)?)?;
    MemSite::from_image(alloc, files)
}

/// The pools of a site with empty files.
pub(crate) fn open_listed<S: Site>(alloc: Global, site: &mut S, greatest: u64) -> Result<Pool, Fail>
    requires greatest { greatest < 2 ^ 62 }
    requires fits { IfSome (S.told site.old) (OnDisk (FitsPools greatest)) }
    requires free { IfSome (S.told site.old) (OnDisk (λ d. in_use (full d) ≡ [])) }
    ensures pool { IfOk result (λ pool. IfSome (S.told site.new) (OnDisk (IsWholePool pool))) }
    ensures free { IfOk result (λ _. IfSome (S.told site.new) (OnDisk (λ d. in_use (full d) ≡ []))) }
{
    let files = site.list(alloc)?;
    let pool = Pool::open(alloc, greatest, &files)?;
    Ok(pool)
}

/// The queue `a`, on a site without a file in use.
pub(crate) fn make<S: Site, N: Serials>(
    alloc: Global,
    site: &mut S,
    pool: &mut Pool,
    serials: &mut N,
) -> Result<Log, LogError>
    requires pool { IfSome (S.told site.old) (OnDisk (IsWholePool pool.old)) }
    requires free { IfSome (S.told site.old) (OnDisk (λ d. in_use (full d) ≡ [])) }
    ensures pool { IfOk result (λ _. IfSome (S.told site.new) (OnDisk (IsPoolOf pool.new []))) }
    ensures there { IfOk result (λ log. IfSome (S.told site.new) (OnDisk (LogThere log))) }
    ensures log { IfOk result (λ log. (log.ended ≡ false) × (log.unsynced ≡ [])) }
    ensures one { IfOk result (λ log. length log.files ≡ 1) }
    ensures begins { IfOk result (λ log. Tells (BeginsReading log) (S.told site.old) (S.told site.new)) }
    ensures sound { IfOk result (λ log. Tells (BeginsUndamaged log) (S.told site.old) (S.told site.new)) }
{
    let name = Name::new(b"a").ok_or(LogError::Memory)?;
    Log::create(alloc, site, pool, serials, JournalKind::Queue, name, HOME)
}

/// A batch of one enqueue of so many bytes 5a.
fn enqueue(alloc: Global, rid: u64, size: usize) -> Result<Batch, NoMemory>
    requires rid { rid + 1 < 2 ^ 62 }
    requires size { size ≤ 1048576 }
    ensures rids { IfOk result (λ batch. FollowRids rid batch) }
    ensures some { IfOk result (λ batch. 0 < length batch) }
{
    let body = Bytes::from_vec(Vec::from_elem(alloc, 0x5a, size)?);
    let head = Head {
        kind: Kind::Enqueue,
        flagged: false,
        rid: rid + 1,
        target: 0,
        xid_size: 0,
        body_size: size as u64,
    };
    let xid = Xid::new(&[]).ok_or(NoMemory)?;
    let mut batch = Batch::new(alloc);
    batch.push(head, xid, body)?;
    Ok(batch)
}

/// The files as they stand now, with nothing of what is pending.
fn now(alloc: Global, site: &MemSite) -> Result<Seq<ImageFile>, Fail> {
    let moments = site.moment_count();
    if moments == 0 {
        return Err("no moment".into());
    }
    let files = site.image(moments - 1, &Seq::new(alloc))?;
    Ok(files)
}

/// Eight bytes of a file, as a little-endian number.
fn number_at(files: &Seq<ImageFile>, file: usize, at: usize) -> Option<u64> {
    let bytes = files.get(file)?.bytes.as_slice().get(at..)?;
    let (eight, _) = bytes.split_first_chunk::<8>()?;
    Some(u64::from_le_bytes(*eight))
}

/// The place of a file.
fn place_of(files: &Seq<ImageFile>, file: usize) -> Option<Place> {
    Some(files.get(file)?.place)
}

/// The magic and flags that stand at a place.
fn magic_at(files: &Seq<ImageFile>, file: usize, at: usize) -> Option<u64> {
    let number = number_at(files, file, at)?;
    Some(number % (1 << 32))
}

/// Appends a batch of one enqueue, flushes it, and answers its spot. A batch is read then behind what was read before, and a
/// journal that broke no damage rule breaks none.
pub(crate) fn put<S: Site, N: Serials>(
    alloc: Global,
    log: &mut Log,
    site: &mut S,
    pool: &mut Pool,
    serials: &mut N,
    size: usize,
) -> Result<Option<Spot>, LogError>
    requires size { size ≤ 1048576 }
    requires log { (log.old.ended ≡ false) × (log.old.unsynced ≡ []) }
    requires there { IfSome (S.told site.old) (OnDisk (LogThere log.old)) }
    requires pool { IfSome (S.told site.old) (OnDisk (IsPoolOf pool.old [])) }
    ensures open { IfOk result (λ _. log.new.ended ≡ false) }
    ensures flushed { IfOk result (λ _. log.new.unsynced ≡ []) }
    ensures there { IfOk result (λ _. IfSome (S.told site.new) (OnDisk (LogThere log.new))) }
    ensures pool { IfOk result (λ _. IfSome (S.told site.new) (OnDisk (IsPoolOf pool.new []))) }
    ensures read { IfOk result (λ _. (rs : List Record) × (0 < length rs) × Tells (λ a b. AllUnmarked a.now (moments_since a b) → (reads : List Read) → IsRead log.old reads a.now.disk → IsRead log.new (reads ++ batch_reads log.old rs) b.now.disk) (S.told site.old) (S.told site.new)) }
    ensures sound { IfOk result (λ _. Tells (StaysUndamaged log.old log.new) (S.told site.old) (S.told site.new)) }
{
    let rid = log.rid();
    if rid > 1_000_000 {
        return Err(LogError::Spent);
    }
    let batch = enqueue(alloc, rid, size)?;
    let spots = log.append(site, pool, serials, &batch)?;
    log.flush(site)?;
    Ok(spots.get(0).copied())
}

#[test]
fn a_record_fills_a_block_with_fillers(rt: HostRuntime) -> Result<(), Fail> {
    let alloc = rt.alloc();
    let mut site = MemSite::new(alloc);
    let mut serials = MemSerials::counting(7);
    let mut pool = open_pools(alloc, &mut site)?;
    let mut log = make(alloc, &mut site, &mut pool, &mut serials)?;
    assert_eq!(rt; (log.rid(), log.newest(), log.is_ended()), (0, 1, false));
    let spot = put(alloc, &mut log, &mut site, &mut pool, &mut serials, 0)?;
    let first = Spot {
        file: 1,
        at: 4096,
        end_file: 1,
    };
    assert_eq!(rt; spot, Some(first));
    assert_eq!(rt; (log.rid(), log.newest(), log.is_ended()), (1, 1, false));
    let files = now(alloc, &site)?;
    assert_eq!(rt; files.len(), 1);
    for (at, wanted) in [
        (8, 7),
        (16, 0),
        (32, 4096),
        (40, 1),
        (48, 1),
        (4096 + 8, 7),
        (4096 + 16, 1),
        (4096 + 128 + 8, 7),
        (4096 + 128 + 16, 1),
        (4096 + 31 * 128 + 8, 7),
        (4096 + 31 * 128 + 16, 1),
    ] {
        assert_eq!(rt; number_at(&files, 0, at), Some(wanted), "{at}");
    }
    assert_eq!(rt; magic_at(&files, 0, 4096), Some(0x6553_4c51));
    assert_eq!(rt; magic_at(&files, 0, 4096 + 128), Some(0x7853_4c51));
    assert_eq!(rt; magic_at(&files, 0, 4096 + 31 * 128), Some(0x7853_4c51));
    Ok(())
}

#[test]
fn a_full_file_is_followed_by_a_fresh_one(rt: HostRuntime) -> Result<(), Fail> {
    let alloc = rt.alloc();
    let mut site = MemSite::new(alloc);
    let mut serials = MemSerials::counting(7);
    let mut pool = open_pools(alloc, &mut site)?;
    let mut log = make(alloc, &mut site, &mut pool, &mut serials)?;
    put(alloc, &mut log, &mut site, &mut pool, &mut serials, 4032)?;
    assert_eq!(rt; log.newest(), 1);
    let spot = put(alloc, &mut log, &mut site, &mut pool, &mut serials, 1)?;
    let second = Spot {
        file: 2,
        at: 4096,
        end_file: 2,
    };
    assert_eq!(rt; spot, Some(second));
    assert_eq!(rt; (log.rid(), log.newest()), (2, 2));
    let files = now(alloc, &site)?;
    assert_eq!(rt; files.len(), 2);
    for (at, wanted) in [
        (8, 8),
        (16, 1),
        (32, 4096),
        (40, 2),
        (48, 1),
        (4096 + 8, 8),
        (4096 + 16, 2),
    ] {
        assert_eq!(rt; number_at(&files, 1, at), Some(wanted), "{at}");
    }
    Ok(())
}

#[test]
fn a_record_goes_on_in_the_next_file(rt: HostRuntime) -> Result<(), Fail> {
    let alloc = rt.alloc();
    let mut site = MemSite::new(alloc);
    let mut serials = MemSerials::counting(7);
    let mut pool = open_pools(alloc, &mut site)?;
    let mut log = make(alloc, &mut site, &mut pool, &mut serials)?;
    let spot = put(alloc, &mut log, &mut site, &mut pool, &mut serials, 4033)?;
    let whole = Spot {
        file: 1,
        at: 4096,
        end_file: 2,
    };
    assert_eq!(rt; spot, Some(whole));
    let files = now(alloc, &site)?;
    assert_eq!(rt; files.len(), 2);
    for (at, wanted) in [
        (8, 8),
        (16, 1),
        (32, 4224),
        (40, 2),
        (4224 + 8, 8),
        (4224 + 30 * 128 + 16, 1),
    ] {
        assert_eq!(rt; number_at(&files, 1, at), Some(wanted), "{at}");
    }
    assert_eq!(rt; magic_at(&files, 1, 4224), Some(0x7853_4c51));
    Ok(())
}

#[test]
fn a_body_of_a_mebibyte_takes_257_files(rt: HostRuntime) -> Result<(), Fail> {
    let alloc = rt.alloc();
    let mut site = MemSite::new(alloc);
    let mut serials = MemSerials::counting(7);
    let mut pool = open_pools(alloc, &mut site)?;
    let mut log = make(alloc, &mut site, &mut pool, &mut serials)?;
    let spot = put(
        alloc,
        &mut log,
        &mut site,
        &mut pool,
        &mut serials,
        1_048_576,
    )?;
    let whole = Spot {
        file: 1,
        at: 4096,
        end_file: 257,
    };
    assert_eq!(rt; spot, Some(whole));
    assert_eq!(rt; log.newest(), 257);
    let files = now(alloc, &site)?;
    assert_eq!(rt; files.len(), 257);
    for (file, first) in [(0, 4096), (1, 0), (255, 0), (256, 4224)] {
        assert_eq!(rt; number_at(&files, file, 32), Some(first), "{file}");
        assert_eq!(rt;
            number_at(&files, file, 40),
            Some(file as u64 + 1),
            "{file}"
        );
    }
    for file in [1, 255, 256] {
        assert_eq!(rt; number_at(&files, file, 16), Some(1), "{file}");
    }
    Ok(())
}

#[test]
fn old_files_go_back(rt: HostRuntime) -> Result<(), Fail> {
    let alloc = rt.alloc();
    let mut site = MemSite::new(alloc);
    let mut serials = MemSerials::counting(7);
    let mut pool = open_pools(alloc, &mut site)?;
    let mut log = make(alloc, &mut site, &mut pool, &mut serials)?;
    put(alloc, &mut log, &mut site, &mut pool, &mut serials, 4032)?;
    put(alloc, &mut log, &mut site, &mut pool, &mut serials, 4032)?;
    put(alloc, &mut log, &mut site, &mut pool, &mut serials, 4032)?;
    log.release_before(&mut site, &mut pool, 3)?;
    let files = now(alloc, &site)?;
    let places: [Option<Place>; 3] = [
        place_of(&files, 0),
        place_of(&files, 1),
        place_of(&files, 2),
    ];
    assert_eq!(rt; places, [Some(EMPTY), Some(EMPTY), Some(Place::InUse)]);
    let spot = put(alloc, &mut log, &mut site, &mut pool, &mut serials, 4032)?;
    let fourth = Spot {
        file: 4,
        at: 4096,
        end_file: 4,
    };
    assert_eq!(rt; spot, Some(fourth));
    let files = now(alloc, &site)?;
    assert_eq!(rt; files.len(), 3);
    assert_eq!(rt; place_of(&files, 0), Some(Place::InUse));
    assert_eq!(rt; number_at(&files, 0, 40), Some(4));
    log.release_before(&mut site, &mut pool, 9)?;
    assert_eq!(rt; log.newest(), 4);
    let files = now(alloc, &site)?;
    assert_eq!(rt; place_of(&files, 0), Some(Place::InUse));
    assert_eq!(rt; place_of(&files, 2), Some(EMPTY));
    Ok(())
}

#[test]
fn a_removed_log_leaves_its_file(rt: HostRuntime) -> Result<(), Fail> {
    let alloc = rt.alloc();
    let mut site = MemSite::new(alloc);
    let mut serials = MemSerials::counting(7);
    let mut pool = open_pools(alloc, &mut site)?;
    let log = make(alloc, &mut site, &mut pool, &mut serials)?;
    log.remove(&mut site, &mut pool)?;
    let files = now(alloc, &site)?;
    assert_eq!(rt; files.len(), 1);
    assert_eq!(rt; place_of(&files, 0), Some(EMPTY));
    assert_eq!(rt; number_at(&files, 0, 8), Some(7));
    Ok(())
}

/// The batch needs three files, and the pool has the first two: the second one is taken, and then nothing is written.
#[test]
fn a_batch_that_meets_the_end_isnt_written(rt: HostRuntime) -> Result<(), Fail> {
    let alloc = rt.alloc();
    let mut site = begin(alloc, 5, (1 << 62) - 1)?;
    let mut serials = MemSerials::counting(7);
    let mut pool = open_listed(alloc, &mut site, (1 << 62) - 1)?;
    let mut log = make(alloc, &mut site, &mut pool, &mut serials)?;
    let done = put(alloc, &mut log, &mut site, &mut pool, &mut serials, 8129);
    assert_eq!(rt; done.err(), Some(LogError::Spent));
    assert_eq!(rt; log.is_ended(), true);
    let files = now(alloc, &site)?;
    assert_eq!(rt; files.len(), 2);
    for (file, at, wanted) in [
        (0, 8, 7),
        (0, 40, 1),
        (0, 4096, 0x0303_0303_0303_0303),
        (1, 8, 8),
        (1, 40, 2),
        (1, 48, 1),
        (1, 4096, 0x0505_0505_0505_0505),
    ] {
        assert_eq!(rt; number_at(&files, file, at), Some(wanted), "{file} {at}");
    }
    for file in files.as_slice() {
        assert_eq!(rt; file.place, Place::InUse);
    }
    Ok(())
}

/// A log on a site where the n-th call of this kind fails, and what a batch that spans two files answers then.
fn fails(alloc: Global, kind: CallKind, n: u64, draw: u64) -> Result<Option<LogError>, Fail> {
    let mut site = MemSite::new(alloc);
    site.fail_call(kind, n)?;
    let mut serials = MemSerials::counting(7);
    serials.fail_draw(draw);
    let mut pool = open_pools(alloc, &mut site)?;
    let made = make(alloc, &mut site, &mut pool, &mut serials);
    let Ok(mut log) = made else {
        return Ok(made.err());
    };
    let done = put(alloc, &mut log, &mut site, &mut pool, &mut serials, 4033);
    if done.is_err() && !log.is_ended() {
        return Err("an open log".into());
    }
    Ok(done.err())
}

#[test]
fn what_fails_ends_the_log(rt: HostRuntime) -> Result<(), Fail> {
    let alloc = rt.alloc();
    for (kind, n, draw, wanted) in [
        (CallKind::Any, 0, 0, None),
        (CallKind::Create, 1, 0, Some(LogError::Failed)),
        (CallKind::Create, 2, 0, Some(LogError::Failed)),
        (CallKind::Write, 3, 0, Some(LogError::Failed)),
        (CallKind::Write, 4, 0, Some(LogError::Failed)),
        (CallKind::Sync, 3, 0, Some(LogError::Failed)),
        (CallKind::Sync, 4, 0, Some(LogError::Failed)),
        (CallKind::Relocate, 2, 0, Some(LogError::Failed)),
        (CallKind::Any, 0, 1, Some(LogError::Draw)),
        (CallKind::Any, 0, 2, Some(LogError::Draw)),
    ] {
        assert_eq!(rt; fails(alloc, kind, n, draw)?, wanted, "{n} {draw}");
    }
    Ok(())
}
