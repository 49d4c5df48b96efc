// A file's way into use and back over a site in memory, and what a pool without a file does.
ghost use Rattle.std.specs.Prelude.{◌≡◌, ◌^◌, ◌-◌, ◌<◌, ℕ, List, [], IfOk, IfSome, length};
ghost use Rattle.qls_memsite.specs.Memory.{content_of};
ghost use Rattle.qls_pool.specs.Pools.{PoolState};
ghost use Rattle.qls_pool.specs.Files.{RestsThere, IsPoolOf, FitsPlace, FitsPools, OnDisk, Carries};

use crate::{Linked, Pool, TakeFault};
use qls_filehdr::{FileHeader, JournalKind};
use qls_memsite::{MemSerials, MemSite};
use qls_model::{Bytes, Name, NoMemory, PoolId, Seq};
use qls_site::{ImageFile, Place, Serials, Site};
use std::alloc::Global;
use std::test::Fail;

/// The pool of partition 1 whose files have 4 KiB of data.
const HOME: PoolId = PoolId { part: 1, kib: 4 };

/// An empty file of pool `part` 4 whose bytes are all the same.
fn filled(alloc: Global, id: u64, part: u16, byte: u8) -> Result<ImageFile, NoMemory>
    ensures id { IfOk result (λ file. file.id ≡ id) }
    ensures size { IfOk result (λ file. FitsPlace file.place (length file.bytes)) }
{
    let bytes = Vec::from_elem(alloc, byte, 8192)?;
    Ok(ImageFile {
        id,
        place: Place::Empty { part, kib: 4 },
        bytes: Bytes::from_vec(bytes),
    })
}

/// A site with two empty files of pool 1 4: all bytes of one are 3, of the other 5.
fn begin(alloc: Global, first: u64, second: u64) -> Result<MemSite, NoMemory>
    requires { first < second }
    ensures { IfOk result (λ site. FitsPools second (content_of site).now.disk) }
{
    let mut files = Seq::new(alloc);
    files.push(filled(alloc, first, 1, 3)?)?;
    files.push(filled(alloc, second, 1, 5)?)?;
    MemSite::from_image(alloc, files)
}

/// The pools of a site, by its listing.
fn open_pools<S: Site>(alloc: Global, site: &mut S, greatest: u64) -> Result<Pool, Fail>
    requires greatest { greatest < 2 ^ 62 }
    requires fits { IfSome (S.told site.old) (OnDisk (FitsPools greatest)) }
    ensures pool { IfOk result (λ pool. IfSome (S.told site.new) (OnDisk (IsPoolOf pool []))) }
{
    let files = site.list(alloc)?;
    let pool = Pool::open(alloc, greatest, &files)?;
    Ok(pool)
}

/// Takes a file of pool 1 4, heads it as the first one of the queue `a`, and puts it into use.
fn take<S: Site, N: Serials>(pool: &mut Pool, site: &mut S, serials: &mut N) -> Result<Linked, Fail>
    requires { IfSome (S.told site.old) (OnDisk (IsPoolOf pool.old [])) }
    ensures there { IfOk result (λ file. IfSome (S.told site.new) (OnDisk (RestsThere file))) }
    ensures home { IfOk result (λ file. file.header.kib ≡ 4) }
    ensures pool { IfOk result (λ _. IfSome (S.told site.new) (OnDisk (IsPoolOf pool.new []))) }
{
    let name = Name::new(b"a").ok_or("a long name")?;
    let blank = pool.blank(site, serials, HOME)?;
    let header = FileHeader {
        serial: blank.serial(),
        rid: 0,
        part: 1,
        kib: 4,
        first: 4096,
        number: 1,
        epoch: 1,
        kind: JournalKind::Queue,
        name,
    };
    let headed = blank.head(site, header)?;
    let linked = headed.link(site)?;
    Ok(linked)
}

/// Writes a sector of nines behind the header, and syncs it.
fn write_data<S: Site>(site: &mut S, file: &Linked) -> Result<(), Fail>
    requires home { file.now.header.kib ≡ 4 }
    requires there { IfSome (S.told site.old) (OnDisk (RestsThere file.now)) }
    ensures there { IfOk result (λ _. IfSome (S.told site.new) (OnDisk (RestsThere file.now))) }
    ensures pool { IfOk result (λ _. (pool : PoolState) (out : List ℕ) → Carries (IsPoolOf pool out) (IsPoolOf pool out) (S.told site.old) (S.told site.new)) }
{
    let id = file.id();
    site.write(id, 4096, &[9; 512])?;
    site.sync(id)?;
    Ok(())
}

/// The files as they stand now, with nothing that is pending.
fn now(alloc: Global, site: &MemSite) -> Result<Seq<ImageFile>, Fail> {
    let moments = site.moment_count();
    if moments == 0 {
        return Err("no moment".into());
    }
    let files = site.image(moments - 1, &Seq::new(alloc))?;
    Ok(files)
}

/// A byte of a file.
fn byte_at(files: &Seq<ImageFile>, file: usize, at: usize) -> Option<u8> {
    files.get(file)?.bytes.as_slice().get(at).copied()
}

/// The place of a file.
fn place_of(files: &Seq<ImageFile>, file: usize) -> Option<Place> {
    let file = files.get(file)?;
    Some(file.place)
}

#[test]
fn a_file_goes_into_use_and_back(rt: HostRuntime) -> Result<(), Fail> {
    let alloc = rt.alloc();
    let mut site = begin(alloc, 3, 5)?;
    let mut serials = MemSerials::counting(7);
    let mut pool = open_pools(alloc, &mut site, 5)?;
    let file = take(&mut pool, &mut site, &mut serials)?;
    assert_eq!(rt; (file.id(), file.header().serial), (3, 7));
    let files = now(alloc, &site)?;
    assert_eq!(rt; place_of(&files, 0), Some(Place::InUse));
    write_data(&mut site, &file)?;
    pool.give_back(&mut site, file)?;
    let again = pool.blank(&mut site, &mut serials, HOME)?;
    assert_eq!(rt; (again.id(), again.serial()), (3, 8));
    let files = now(alloc, &site)?;
    let empty = Some(Place::Empty { part: 1, kib: 4 });
    assert_eq!(rt; files.len(), 2);
    assert_eq!(rt; (place_of(&files, 0), place_of(&files, 1)), (empty, empty));
    for (file, at, wanted) in [
        (0, 0, b'Q'),
        (0, 8, 7),
        (0, 60, b'a'),
        (0, 4095, 0),
        (0, 4096, 9),
        (0, 4607, 9),
        (0, 4608, 3),
        (0, 8191, 3),
        (1, 0, 5),
        (1, 8191, 5),
    ] {
        assert_eq!(rt; byte_at(&files, file, at), Some(wanted), "{file} {at}");
    }
    Ok(())
}

#[test]
fn an_empty_pool_has_a_file_created(rt: HostRuntime) -> Result<(), Fail> {
    let alloc = rt.alloc();
    let mut site = MemSite::new(alloc);
    let mut pool = open_pools(alloc, &mut site, 0)?;
    let file = take(&mut pool, &mut site, &mut MemSerials::counting(7))?;
    assert_eq!(rt; file.id(), 1);
    let files = now(alloc, &site)?;
    assert_eq!(rt; (files.len(), place_of(&files, 0)), (1, Some(Place::InUse)));
    assert_eq!(rt;
        (byte_at(&files, 0, 0), byte_at(&files, 0, 4096)),
        (Some(b'Q'), Some(0))
    );
    Ok(())
}

#[test]
fn no_id_is_left(rt: HostRuntime) -> Result<(), Fail> {
    let alloc = rt.alloc();
    let last = (1 << 62) - 1;
    let mut site = begin(alloc, 1, last)?;
    let mut serials = MemSerials::counting(7);
    let mut pool = open_pools(alloc, &mut site, last)?;
    let other = PoolId { part: 2, kib: 4 };
    let blank = pool.blank(&mut site, &mut serials, other);
    assert_eq!(rt; blank.err(), Some(TakeFault::Spent));
    assert_eq!(rt; serials.draw(), Ok(7));
    assert_eq!(rt; site.moment_count(), 2);
    Ok(())
}
