// Journals that are opened again, without their newest files where a crash cut the last batch. Their site tells nothing of its
// content, so what a call asks of that is tested as it runs.
ghost use Rattle.std.specs.Prelude.{◌≡◌, ◌<◌, ◌^◌, ◌+◌, ℕ, None, IfOk, length, true, false, []};
ghost use Rattle.qls_site.specs.Content.{Causes};
ghost use Rattle.qls_filehdr.specs.Limits.{is_name};
ghost use Rattle.qls_log.specs.Trimming.{AreInRow};

use crate::tests::{HOME, make, open_listed, open_pools, put};
use crate::{Log, LogError, Spot};
use qls_filehdr::{FileHeader, JournalKind};
use qls_memsite::{MemSerials, MemSite};
use qls_model::{Name, NoMemory, Seq};
use qls_pool::{Linked, Pool};
use qls_site::{FileAt, ImageFile, Place, Site, SiteError};
use std::alloc::Global;
use std::process::Abort;
use std::test::Fail;

/// A file whose writes are stable at once.
#[derive(Drop)]
struct PlainFile {
    id: u64,
    place: Place,
    bytes: Vec<u8>,
}

/// Such files, of which only so many can be relocated.
#[derive(Drop)]
struct PlainSite {
    files: Vec<PlainFile>,
    relocations: u64,
    faults: u64,
    syncs: u64,
    reads: u64,
}

/// The answer of a call that was done, or wasn't, which counts.
fn counted(faults: &mut u64, done: Option<()>) -> Result<(), SiteError>
    ensures cause { Causes faults.old faults.new result }
{
    match done {
        Some(()) => Ok(()),
        None => {
            *faults = faults.saturating_add(1);
            Err(SiteError::Failed)
        }
    }
}

fn try_write(files: &mut Vec<PlainFile>, id: u64, at: u64, bytes: &[u8]) -> Option<()> {
    let file = files.iter_mut().find(|file| file.id == id)?;
    let behind = file.bytes.as_mut_slice().get_mut(at as usize..)?;
    behind.get_mut(..bytes.len())?.copy_from_slice(bytes);
    Some(())
}

fn try_relocate(
    files: &mut Vec<PlainFile>,
    relocations: &mut u64,
    id: u64,
    to: Place,
) -> Option<()> {
    *relocations = relocations.checked_sub(1)?;
    let file = files.iter_mut().find(|file| file.id == id)?;
    file.place = to;
    Some(())
}

impl PlainSite {
    fn file(&self, id: u64) -> Option<&PlainFile> {
        self.files.iter().find(|file| file.id == id)
    }

    /// Eight bytes of a file, as a little-endian number.
    fn number(&self, id: u64, at: usize) -> Option<u64> {
        let bytes = self.file(id)?.bytes.as_slice().get(at..)?;
        let (eight, _) = bytes.split_first_chunk::<8>()?;
        Some(u64::from_le_bytes(*eight))
    }

    /// Where each file stands: `u` for one in use, `e` for one in the pool.
    fn places(&self, alloc: Global) -> Result<Seq<u8>, NoMemory> {
        let mut places = Seq::new(alloc);
        for file in &self.files {
            let letter = match file.place {
                Place::InUse => b'u',
                Place::Empty { .. } => b'e',
            };
            places.push(letter)?;
        }
        Ok(places)
    }
}

impl Site for PlainSite {
    ghost told = { λ _. None };

    ghost faults = { λ s. s.faults };

    ghost syncs = { λ s. s.syncs };

    ghost reads = { λ s. s.reads };

    fn list(&mut self, alloc: Global) -> Result<Seq<FileAt>, SiteError> {
        let mut listed = Seq::new(alloc);
        for file in &self.files {
            listed.push(FileAt {
                id: file.id,
                place: file.place,
                size: file.bytes.len() as u64,
            })?;
        }
        Ok(listed)
    }

    /// No log reads.
    fn read(&mut self, _id: u64, _at: u64, _into: &mut [u8]) -> Result<(), SiteError> {
        counted(&mut self.faults, None)
    }

    fn write(&mut self, id: u64, at: u64, bytes: &[u8]) -> Result<(), SiteError> {
        let done = try_write(&mut self.files, id, at, bytes);
        counted(&mut self.faults, done)
    }

    fn sync(&mut self, _id: u64) -> Result<(), SiteError> {
        self.syncs = self.syncs.saturating_add(1);
        Ok(())
    }

    fn create(&mut self, id: u64, part: u16, kib: u32) -> Result<(), SiteError> {
        let size = 4096 + 1024 * kib as usize;
        let bytes = Vec::from_elem(*self.files.allocator(), 0, size)?;
        let place = Place::Empty { part, kib };
        self.files.push(PlainFile { id, place, bytes })?;
        Ok(())
    }

    fn relocate(&mut self, id: u64, to: Place) -> Result<(), SiteError> {
        let done = try_relocate(&mut self.files, &mut self.relocations, id, to);
        counted(&mut self.faults, done)
    }

    /// No log answers.
    fn answer(&mut self, _bytes: &[u8]) -> Result<(), SiteError> {
        counted(&mut self.faults, None)
    }
}

/// What a crash leaves of the queue `a`, whose second batch lies over its files 2 to 4: the first sectors of the batch, so many of
/// its 24.
fn crashed(alloc: Global, sectors: u64) -> Result<Seq<ImageFile>, Fail> {
    let mut site = MemSite::new(alloc);
    let mut serials = MemSerials::counting(7);
    let mut pool = open_pools(alloc, &mut site)?;
    let mut log = make(alloc, &mut site, &mut pool, &mut serials)?;
    put(alloc, &mut log, &mut site, &mut pool, &mut serials, 4032)?;
    put(alloc, &mut log, &mut site, &mut pool, &mut serials, 8129)?;
    let moments = site.moment_count();
    if moments < 4 {
        return Err("no moment before the syncs".into());
    }
    let mut choice = Seq::new(alloc);
    for _ in 0..sectors {
        choice.push(true)?;
    }
    let files = site.image(moments - 4, &choice)?;
    Ok(files)
}

/// The site of these files.
fn begin(alloc: Global, files: Seq<ImageFile>, relocations: u64) -> Result<PlainSite, NoMemory> {
    let mut plain = Vec::new(alloc);
    for file in files.into_vec() {
        let ImageFile { id, place, bytes } = file;
        let bytes = bytes.into_vec();
        plain.push(PlainFile { id, place, bytes })?;
    }
    Ok(PlainSite {
        files: plain,
        relocations,
        faults: 0,
        syncs: 0,
        reads: 0,
    })
}

/// The header of a file of the queue `a` that the first opening took.
fn header(name: Name, number: u64, first: u64, rid: u64) -> FileHeader
    requires number { number < 1000 }
    ensures exact { result ≡ record { serial = number + 6; rid = rid; part = 1; kib = 4; first = first; number = number; epoch = 1; kind = JournalKind.Queue; name = name } }
{
    FileHeader {
        serial: number + 6,
        rid,
        part: 1,
        kib: 4,
        first,
        number,
        epoch: 1,
        kind: JournalKind::Queue,
        name,
    }
}

/// The four files, whose ids are their numbers.
fn adopted(alloc: Global, site: &PlainSite, name: Name) -> Result<Vec<Linked>, NoMemory>
    requires name { is_name JournalKind.Queue name ≡ true }
    ensures row { IfOk result (λ files. (epoch : ℕ) → AreInRow (record { kind = JournalKind.Queue; name = name; home = HOME; epoch = epoch }) files.items) }
    ensures four { IfOk result (λ files. length files.items ≡ 4) }
{
    let mut files = Vec::new(alloc);
    files.push(Linked::adopt(site, 1, header(name, 1, 4096, 0)))?;
    files.push(Linked::adopt(site, 2, header(name, 2, 4096, 1)))?;
    files.push(Linked::adopt(site, 3, header(name, 3, 0, 2)))?;
    files.push(Linked::adopt(site, 4, header(name, 4, 4224, 2)))?;
    Ok(files)
}

/// The log of those files without the newest ones.
fn trim(
    alloc: Global,
    site: &mut PlainSite,
    pool: &mut Pool,
    past: usize,
    rid: u64,
) -> Result<Log, LogError>
    requires past { past < 4 }
    requires rid { rid < 2 ^ 62 }
    ensures open { IfOk result (λ log. (log.ended ≡ false) × (log.unsynced ≡ [])) }
{
    let name = Name::new(b"a").ok_or(LogError::Memory)?;
    let files = adopted(alloc, site, name)?;
    Log::trim(
        alloc,
        site,
        pool,
        JournalKind::Queue,
        name,
        HOME,
        files,
        past,
        rid,
    )
}

/// Eight bytes at each of these places of a file.
fn check_numbers(rt: &impl Abort, site: &PlainSite, id: u64, numbers: &[(usize, u64)]) {
    for &(at, wanted) in numbers {
        assert_eq!(rt; site.number(id, at), Some(wanted), "{id} {at}");
    }
}

/// Files 3 and 4 lie past the reading, which ends at the front of file 2: they go back, and the first of them is taken as
/// file 3 of the next opening.
#[test]
fn files_past_the_reading_go_back(rt: HostRuntime) -> Result<(), Fail> {
    let alloc = rt.alloc();
    for sectors in [0, 1, 16] {
        let mut site = begin(alloc, crashed(alloc, sectors)?, 99)?;
        let mut pool = open_listed(alloc, &mut site, 4)?;
        let mut log = trim(alloc, &mut site, &mut pool, 2, 1)?;
        assert_eq!(rt; (log.rid(), log.newest(), log.is_ended()), (1, 2, false));
        assert_eq!(rt; site.places(alloc)?.as_slice(), b"uuee".as_slice());
        let mut serials = MemSerials::counting(20);
        let spot = put(alloc, &mut log, &mut site, &mut pool, &mut serials, 4032)?;
        let third = Spot {
            file: 3,
            at: 4096,
            end_file: 3,
        };
        assert_eq!(rt; spot, Some(third), "{sectors}");
        assert_eq!(rt; site.places(alloc)?.as_slice(), b"uuue".as_slice());
        let found = [(8, 20), (16, 1), (32, 4096), (40, 3), (48, 2)];
        check_numbers(&rt, &site, 3, &found);
        check_numbers(&rt, &site, 3, &[(4096 + 8, 20), (4096 + 16, 2)]);
        let was = begin(alloc, crashed(alloc, sectors)?, 0)?;
        for (file, old) in site.files.iter().zip(&was.files).take(2) {
            assert_eq!(rt; file.bytes.as_slice(), old.bytes.as_slice());
        }
    }
    Ok(())
}

/// The newest file goes first.
#[test]
fn a_trim_that_fails_stops(rt: HostRuntime) -> Result<(), Fail> {
    let alloc = rt.alloc();
    for (relocations, left) in [(0, b"uuuu"), (1, b"uuue")] {
        let mut site = begin(alloc, crashed(alloc, 0)?, relocations)?;
        let mut pool = open_listed(alloc, &mut site, 4)?;
        let done = trim(alloc, &mut site, &mut pool, 2, 1);
        assert_eq!(rt; done.err(), Some(LogError::Failed));
        assert_eq!(rt; site.places(alloc)?.as_slice(), left.as_slice());
    }
    Ok(())
}

/// The whole batch is read: all files stay, and the next one is of the next opening.
#[test]
fn a_whole_journal_is_opened_again(rt: HostRuntime) -> Result<(), Fail> {
    let alloc = rt.alloc();
    let mut site = begin(alloc, crashed(alloc, 24)?, 99)?;
    let mut pool = open_listed(alloc, &mut site, 4)?;
    let mut log = trim(alloc, &mut site, &mut pool, 0, 2)?;
    assert_eq!(rt; (log.rid(), log.newest(), log.is_ended()), (2, 4, false));
    assert_eq!(rt; site.places(alloc)?.as_slice(), b"uuuu".as_slice());
    let mut serials = MemSerials::counting(20);
    put(alloc, &mut log, &mut site, &mut pool, &mut serials, 4032)?;
    assert_eq!(rt; site.places(alloc)?.as_slice(), b"uuuuu".as_slice());
    let found = [(8, 20), (16, 2), (32, 4096), (40, 5), (48, 2)];
    check_numbers(&rt, &site, 5, &found);
    check_numbers(&rt, &site, 5, &[(4096 + 8, 20), (4096 + 16, 3)]);
    Ok(())
}
