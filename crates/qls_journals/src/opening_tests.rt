// Journals that were made, opened again over what was left of them. Their site tells nothing of its content, so what a call
// asks of that is tested as it runs.
ghost use Rattle.std.specs.Prelude.{◌≡◌, None, IfOk, IfSome};
ghost use Rattle.qls_site.specs.Content.{Causes};
ghost use Rattle.qls_pool.specs.Files.{OnDisk};
ghost use Rattle.qls_journals.specs.State.{AreReleased, Fits};

use crate::tests::{HOME, letter_of, open, run_all};
use crate::{Cause, Journals, read_all};
use qls_decide::ListState;
use qls_memsite::{MemSerials, MemSite};
use qls_model::{Bytes, NoMemory, Seq};
use qls_pool::Pool;
use qls_scan::{Found, scan};
use qls_site::{FileAt, ImageFile, Place, Serials, Site, SiteError};
use std::alloc::Global;
use std::process::Abort;
use std::test::Fail;

/// A file of a site.
#[derive(Drop)]
struct PlainFile {
    id: u64,
    place: Place,
    bytes: Vec<u8>,
}

/// Files of which only so many can be relocated, and how many writes there were.
#[derive(Drop)]
struct PlainSite {
    alloc: Global,
    files: Vec<PlainFile>,
    relocations: u64,
    writes: u64,
    faults: u64,
}

/// The answer of a call that was done, or wasn't, which counts.
fn counted(faults: &mut u64, done: Option<()>) -> Result<(), SiteError>
    ensures cause { Causes faults.old faults.new result }
{
    match done {
        Some(()) => Ok(()),
        None => {
            *faults = faults.saturating_add(1);
            Err(SiteError::Failed)
        }
    }
}

impl PlainSite {
    /// The places of the files by id: `u` for one in use, `e` for one in its pool.
    fn places(&self) -> Result<Vec<u8>, NoMemory> {
        let mut places = Vec::new(self.alloc);
        for file in &self.files {
            places.push(match file.place {
                Place::InUse => b'u',
                Place::Empty { .. } => b'e',
            })?;
        }
        Ok(places)
    }

    fn try_read(&self, id: u64, at: u64, into: &mut [u8]) -> Option<()> {
        let file = self.files.iter().find(|file| file.id == id)?;
        let behind = file.bytes.get(at as usize..)?;
        into.copy_from_slice(behind.get(..into.len())?);
        Some(())
    }

    fn try_write(&mut self, id: u64, at: u64, bytes: &[u8]) -> Option<()>
        ensures faults { self.new.faults ≡ self.old.faults }
    {
        self.writes = self.writes.saturating_add(1);
        let file = self.files.iter_mut().find(|file| file.id == id)?;
        let from = at as usize;
        let to = from.checked_add(bytes.len())?;
        if to > file.bytes.len() {
            return None;
        }
        file.bytes[from..to].copy_from_slice(bytes);
        Some(())
    }

    fn try_relocate(&mut self, id: u64, to: Place) -> Option<()>
        ensures faults { self.new.faults ≡ self.old.faults }
    {
        self.relocations = self.relocations.checked_sub(1)?;
        let file = self.files.iter_mut().find(|file| file.id == id)?;
        file.place = to;
        Some(())
    }
}

impl Site for PlainSite {
    ghost told = { λ _. None };

    ghost faults = { λ s. s.faults };

    ghost syncs = { λ _. 0 };

    ghost reads = { λ _. 0 };

    fn list(&mut self, alloc: Global) -> Result<Seq<FileAt>, SiteError> {
        let mut listed = Seq::new(alloc);
        for file in &self.files {
            listed.push(FileAt {
                id: file.id,
                place: file.place,
                size: file.bytes.len() as u64,
            })?;
        }
        Ok(listed)
    }

    fn read(&mut self, id: u64, at: u64, into: &mut [u8]) -> Result<(), SiteError> {
        let done = self.try_read(id, at, into);
        counted(&mut self.faults, done)
    }

    fn write(&mut self, id: u64, at: u64, bytes: &[u8]) -> Result<(), SiteError> {
        let done = self.try_write(id, at, bytes);
        counted(&mut self.faults, done)
    }

    fn sync(&mut self, _id: u64) -> Result<(), SiteError> {
        Ok(())
    }

    /// Ids rise, so the new file is the last.
    fn create(&mut self, id: u64, part: u16, kib: u32) -> Result<(), SiteError> {
        let mut bytes = Vec::new(self.alloc);
        bytes.resize(4096 + 1024 * kib as usize, 0)?;
        self.files.push(PlainFile {
            id,
            place: Place::Empty { part, kib },
            bytes,
        })?;
        Ok(())
    }

    fn relocate(&mut self, id: u64, to: Place) -> Result<(), SiteError> {
        let done = self.try_relocate(id, to);
        counted(&mut self.faults, done)
    }

    /// Nothing is answered.
    fn answer(&mut self, _bytes: &[u8]) -> Result<(), SiteError> {
        counted(&mut self.faults, None)
    }
}

/// Puts a message of two blocks into the first queue by name.
fn put_long<S: Site, N: Serials>(
    alloc: Global,
    journals: Journals,
    site: &mut S,
    serials: &mut N,
) -> Result<(), Fail>
    requires fits { IfSome (S.told site.old) (OnDisk (Fits journals)) }
{
    if journals.queue_count() == 0 {
        return Err("a queue".into());
    }
    let body = Bytes::new(alloc, &[b'7'; 5000])?;
    match journals.put(site, serials, 0, body, None) {
        Ok(_) => Ok(()),
        Err(_) => Err("a put".into()),
    }
}

/// What commands leave on a site that has no file before them, and a long message behind them if that is wanted, so many
/// moments before the last one. A write that is pending there is lost.
fn left_by(
    rt: &impl Abort,
    alloc: Global,
    text: &str,
    answers: &str,
    long: bool,
    back: usize,
) -> Result<PlainSite, Fail> {
    let mut site = MemSite::new(alloc);
    let mut serials = MemSerials::counting(7);
    let journals = open(alloc, &mut site)?;
    let journals = run_all(rt, alloc, journals, &mut site, &mut serials, text, answers)?;
    if long {
        put_long(alloc, journals, &mut site, &mut serials)?;
    }
    let later = back.saturating_add(1);
    let moment = site.moment_count().checked_sub(later).ok_or("a moment")?;
    let image = site.image(moment, &Seq::new(alloc))?;
    let mut files = Vec::new(alloc);
    for file in image.into_vec() {
        let ImageFile { id, place, bytes } = file;
        files.push(PlainFile {
            id,
            place,
            bytes: bytes.into_vec(),
        })?;
    }
    Ok(PlainSite {
        alloc,
        files,
        relocations: 99,
        writes: 0,
        faults: 0,
    })
}

/// Opens the journals that the site has.
fn open_again(alloc: Global, site: &mut PlainSite) -> Result<Result<Journals, Cause>, Fail> {
    let Found {
        journals,
        empties,
        greatest,
    } = scan(alloc, site)?;
    let readings = read_all(alloc, site, journals)?;
    let pool = Pool::open(alloc, greatest, &empties)?;
    Ok(Journals::open(alloc, site, HOME, pool, readings))
}

/// The letter of a state.
fn state_letter(state: ListState) -> u8 {
    match state {
        ListState::Prepared => b'p',
        ListState::OnePhase => b'o',
        ListState::DecidedCommit => b'c',
        ListState::DecidedAbort => b'a',
    }
}

/// Each queue's name with its messages, by number and status, and then each entry's xid with its state.
fn told_by(alloc: Global, journals: &Journals) -> Result<Vec<u8>, Fail> {
    let mut told = Vec::new(alloc);
    for at in 0..journals.queue_count() {
        let queue = journals.queue_at(at)?;
        told.extend_from_slice(queue.name.as_slice())?;
        for message in queue.messages.as_slice() {
            told.push(message.number.to_le_bytes()[0].saturating_add(b'0'))?;
            told.push(letter_of(&message.status))?;
        }
    }
    let entries = journals.entries()?;
    for entry in entries.as_slice() {
        told.push(b' ')?;
        told.extend_from_slice(entry.xid.as_slice())?;
        told.push(state_letter(entry.state))?;
    }
    Ok(told)
}

/// Commands on queues and on the list with their answers, how many moments before the last one the site is left, what the
/// journals have there, and the places of the files at first, once the journals are opened, and once dead files went back.
///
/// A file has two blocks, and each batch takes one. A take that empties the first file leaves it behind until it goes back;
/// where the batch isn't there, the reading ends where its new file begins.
const LEFT: [(&str, &str, usize, &str, &str, &str, &str); 8] = [
    (
        "+a-- pa1- pa2- pa3- ta1- ta2-",
        "012300",
        0,
        "a3r",
        "euu",
        "euu",
        "euu",
    ),
    (
        "+a-- pa1- pa2- pa3- ta1- ta2-",
        "012300",
        1,
        "a3r",
        "uuu",
        "uuu",
        "euu",
    ),
    (
        "+a-- pa1- pa2- pa3- ta1- ta2-",
        "012300",
        2,
        "a2r3r",
        "uuu",
        "uuu",
        "uuu",
    ),
    (
        "+a-- pa1- pa2- ta1- ta2-",
        "01200",
        1,
        "a",
        "uu",
        "uu",
        "eu",
    ),
    (
        "+a-- +b-- P--- Dc-- E---",
        "00000",
        1,
        "ab",
        "uuuu",
        "uuuu",
        "uueu",
    ),
    ("+a-- pa1x P--- Dc--", "0100", 0, "a1c xc", "uu", "uu", "uu"),
    (
        "+b-- +a-- pb1- pb2- tb1- tb2-",
        "001200",
        1,
        "ab",
        "uuu",
        "uuu",
        "euu",
    ),
    ("P--- Dc--", "00", 2, " xp", "u", "u", "u"),
];

/// Opens the journals that the site has: these, and then its files stand in these places.
fn check_opened(
    rt: &impl Abort,
    alloc: Global,
    site: &mut PlainSite,
    wanted: &str,
    places: &str,
) -> Result<Journals, Fail> {
    let journals = open_again(alloc, site)?.ok().ok_or("opened")?;
    assert_eq!(rt;
        told_by(alloc, &journals)?.as_slice(),
        wanted.as_bytes(),
        "{places}"
    );
    assert_eq!(rt; site.places()?.as_slice(), places.as_bytes(), "{wanted}");
    Ok(journals)
}

/// Gives the dead files back: the journals are the same, and then the files stand in these places.
fn check_released(
    rt: &impl Abort,
    alloc: Global,
    journals: Journals,
    site: &mut PlainSite,
    wanted: &str,
    places: &str,
) -> Result<Journals, Fail>
    ensures released { IfOk result (λ x. AreReleased x.queues) }
{
    let journals = journals.release(site).ok().ok_or("released")?;
    assert_eq!(rt;
        told_by(alloc, &journals)?.as_slice(),
        wanted.as_bytes(),
        "{places}"
    );
    assert_eq!(rt; site.places()?.as_slice(), places.as_bytes(), "{wanted}");
    Ok(journals)
}

#[test]
fn journals_are_opened_as_they_were_left(rt: HostRuntime) -> Result<(), Fail> {
    let alloc = rt.alloc();
    for (text, answers, back, wanted, first, opened, released) in LEFT {
        let mut site = left_by(&rt, alloc, text, answers, false, back)?;
        assert_eq!(rt;
            site.places()?.as_slice(),
            first.as_bytes(),
            "{text} {back}"
        );
        let journals = check_opened(&rt, alloc, &mut site, wanted, opened)?;
        check_released(&rt, alloc, journals, &mut site, wanted, released)?;
        check_opened(&rt, alloc, &mut site, wanted, released)?;
        assert_eq!(rt; site.writes, 0, "{text} {back}");
    }
    Ok(())
}

/// The long message begins in the first file and ends in the second, which was taken for it: until both are synced the second
/// one lies past the reading.
#[test]
fn files_past_the_reading_go_back(rt: HostRuntime) -> Result<(), Fail> {
    let alloc = rt.alloc();
    for (back, wanted, opened) in [
        (0, "a1r2r", "uu"),
        (1, "a1r", "ue"),
        (2, "a1r", "ue"),
        (4, "a1r", "ue"),
    ] {
        let mut site = left_by(&rt, alloc, "+a-- pa1-", "01", true, back)?;
        assert_eq!(rt; site.places()?.as_slice(), b"uu".as_slice(), "{back}");
        let journals = check_opened(&rt, alloc, &mut site, wanted, opened)?;
        check_released(&rt, alloc, journals, &mut site, wanted, opened)?;
        assert_eq!(rt; site.writes, 0, "{back}");
    }
    Ok(())
}

/// The next batch takes a file of its own, of the next epoch, though there is room in the last one.
#[test]
fn opened_journals_go_on(rt: HostRuntime) -> Result<(), Fail> {
    let alloc = rt.alloc();
    let mut serials = MemSerials::counting(50);
    let mut site = left_by(&rt, alloc, "+a-- pa1-", "01", false, 0)?;
    let journals = check_opened(&rt, alloc, &mut site, "a1r", "u")?;
    let journals = check_released(&rt, alloc, journals, &mut site, "a1r", "u")?;
    let text = "pa2- pa3- P--- ta1- ta2- Dc-- +b-- E--- -b--";
    run_all(
        &rt,
        alloc,
        journals,
        &mut site,
        &mut serials,
        text,
        "230000000",
    )?;
    let journals = check_opened(&rt, alloc, &mut site, "a3r", "eueuu")?;
    let journals = check_released(&rt, alloc, journals, &mut site, "a3r", "eueuu")?;
    run_all(
        &rt,
        alloc,
        journals,
        &mut site,
        &mut serials,
        "ta3- -a--",
        "00",
    )?;
    assert_eq!(rt; site.places()?.as_slice(), b"eeeeu".as_slice());
    Ok(())
}

#[test]
fn relocation_that_fails_is_answered(rt: HostRuntime) -> Result<(), Fail> {
    let alloc = rt.alloc();
    for (text, answers, back) in [
        ("+a-- pa1- pa2- pa3- ta1- ta2-", "012300", 1),
        ("P--- Dc-- E---", "000", 1),
    ] {
        let mut site = left_by(&rt, alloc, text, answers, false, back)?;
        site.relocations = 0;
        let journals = open_again(alloc, &mut site)?.ok().ok_or("opened")?;
        assert_eq!(rt;
            journals.release(&mut site).err(),
            Some(Cause::Failed),
            "{text}"
        );
    }
    let mut site = left_by(&rt, alloc, "+a-- pa1-", "01", true, 4)?;
    site.relocations = 0;
    assert_eq!(rt; open_again(alloc, &mut site)?.err(), Some(Cause::Failed));
    Ok(())
}
