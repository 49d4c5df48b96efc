// Journals of two files that are read and then trimmed. Their site tells nothing of its content, so what a call asks of that is
// tested as it runs.
ghost use Rattle.std.specs.Prelude.{◌≡◌, false, None, IfOk};
ghost use Rattle.qls_site.specs.Content.{Causes};

use crate::ReadLog;
use crate::tests::{Told, areas, file};
use qls_log::{Log, LogError};
use qls_model::{NoMemory, Seq};
use qls_pool::Pool;
use qls_scan::scan;
use qls_site::{FileAt, ImageFile, Place, Site, SiteError};
use std::alloc::Global;
use std::test::Fail;

/// Files of which only so many can be relocated.
#[derive(Drop)]
struct PlainSite {
    files: Vec<ImageFile>,
    relocations: u64,
    faults: u64,
}

/// The answer of a call that was done, or wasn't, which counts.
fn counted(faults: &mut u64, done: Option<()>) -> Result<(), SiteError>
    ensures cause { Causes faults.old faults.new result }
{
    match done {
        Some(()) => Ok(()),
        None => {
            *faults = faults.saturating_add(1);
            Err(SiteError::Failed)
        }
    }
}

impl PlainSite {
    /// The places of the files: `u` for one in use, `e` for one in its pool.
    fn places(&self, alloc: Global) -> Result<Seq<u8>, NoMemory> {
        let mut places = Seq::new(alloc);
        for file in &self.files {
            let letter = match file.place {
                Place::InUse => b'u',
                Place::Empty { .. } => b'e',
            };
            places.push(letter)?;
        }
        Ok(places)
    }

    fn try_read(&self, id: u64, at: u64, into: &mut [u8]) -> Option<()> {
        let file = self.files.iter().find(|file| file.id == id)?;
        let behind = file.bytes.as_slice().get(at as usize..)?;
        into.copy_from_slice(behind.get(..into.len())?);
        Some(())
    }

    fn try_relocate(&mut self, id: u64, to: Place) -> Option<()>
        ensures faults { self.new.faults ≡ self.old.faults }
    {
        self.relocations = self.relocations.checked_sub(1)?;
        let file = self.files.iter_mut().find(|file| file.id == id)?;
        file.place = to;
        Some(())
    }
}

impl Site for PlainSite {
    ghost told = { λ _. None };

    ghost faults = { λ s. s.faults };

    ghost syncs = { λ _. 0 };

    ghost reads = { λ _. 0 };

    fn list(&mut self, alloc: Global) -> Result<Seq<FileAt>, SiteError> {
        let mut listed = Seq::new(alloc);
        for file in &self.files {
            listed.push(FileAt {
                id: file.id,
                place: file.place,
                size: file.bytes.as_slice().len() as u64,
            })?;
        }
        Ok(listed)
    }

    fn read(&mut self, id: u64, at: u64, into: &mut [u8]) -> Result<(), SiteError> {
        let done = self.try_read(id, at, into);
        counted(&mut self.faults, done)
    }

    /// Nothing is written where a journal is trimmed.
    fn write(&mut self, _id: u64, _at: u64, _bytes: &[u8]) -> Result<(), SiteError> {
        counted(&mut self.faults, None)
    }

    /// Nor synced.
    fn sync(&mut self, _id: u64) -> Result<(), SiteError> {
        counted(&mut self.faults, None)
    }

    /// Nor created.
    fn create(&mut self, _id: u64, _part: u16, _kib: u32) -> Result<(), SiteError> {
        counted(&mut self.faults, None)
    }

    fn relocate(&mut self, id: u64, to: Place) -> Result<(), SiteError> {
        let done = self.try_relocate(id, to);
        counted(&mut self.faults, done)
    }

    /// Nor answered.
    fn answer(&mut self, _bytes: &[u8]) -> Result<(), SiteError> {
        counted(&mut self.faults, None)
    }
}

/// A site with two files in use: the second one has this header, and none of the bytes where it was cut.
fn site_of(
    alloc: Global,
    second: Told,
    text: &str,
    cut: bool,
    relocations: u64,
) -> Result<PlainSite, Fail> {
    let written = areas(alloc, text)?;
    let zeros = areas(alloc, "")?;
    let behind = if cut { &zeros } else { &written };
    let mut files = Vec::new(alloc);
    files.push(file(alloc, 1, (1, 4096, 0), &written)?)?;
    files.push(file(alloc, 2, second, behind)?)?;
    Ok(PlainSite {
        files,
        relocations,
        faults: 0,
    })
}

/// Reads the one journal that a scan finds, and trims it: how many files lay past its reading, and its log.
fn open(alloc: Global, site: &mut PlainSite) -> Result<(u64, Result<Log, LogError>), Fail>
    ensures open { IfOk result (λ r. IfOk r.1 (λ log. log.ended ≡ false)) }
{
    let found = scan(alloc, site)?;
    let mut pool = Pool::open(alloc, found.greatest, &found.empties)?;
    let mut journals = found.journals;
    let Some(files) = journals.pop() else {
        return Err("journal".into());
    };
    let (log, _) = ReadLog::read(alloc, site, files)?;
    let past = log.past();
    Ok((past, log.trim(site, &mut pool)))
}

/// In the first three rows nothing starts in the second file: nothing was written there, or it has the end of a record, which a
/// crash cut or didn't. In the last it is of a newer epoch: such a file stays, though nothing is read of it.
#[test]
fn files_past_the_reading_go_back(rt: HostRuntime) -> Result<(), Fail> {
    for (second, text, cut, past, rid, newest, places) in [
        ((1, 0, 1), "e01", false, 1, 1, 1, b"ue"),
        ((1, 0, 1), "f31 b01", true, 1, 0, 1, b"ue"),
        ((1, 0, 1), "f31 b01", false, 0, 1, 2, b"uu"),
        ((2, 4096, 1), "e01", false, 0, 1, 2, b"uu"),
    ] {
        let alloc = rt.alloc();
        let mut site = site_of(alloc, second, text, cut, 99)?;
        let (found, log) = open(alloc, &mut site)?;
        assert_eq!(rt; found, past, "{text}");
        let log = log?;
        assert_eq!(rt;
            (log.rid(), log.newest(), log.is_ended()),
            (rid, newest, false)
        );
        assert_eq!(rt; log.name().as_slice(), b"a".as_slice());
        assert_eq!(rt; site.places(alloc)?.as_slice(), places.as_slice());
    }
    Ok(())
}

#[test]
fn a_trim_that_fails_is_answered(rt: HostRuntime) -> Result<(), Fail> {
    let alloc = rt.alloc();
    let mut site = site_of(alloc, (1, 0, 1), "e01", false, 0)?;
    let (past, log) = open(alloc, &mut site)?;
    assert_eq!(rt; (past, log.err()), (1, Some(LogError::Failed)));
    assert_eq!(rt; site.places(alloc)?.as_slice(), b"uu".as_slice());
    Ok(())
}
