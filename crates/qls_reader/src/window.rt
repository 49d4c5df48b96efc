// The bytes that are read ahead.
ghost use Rattle.std.specs.Prelude.{◌≡◌, ◌+◌, ◌≤◌, ◌<◌, ◌++◌, length, take, drop, IfOk, IfErr, IfSome};
ghost use Rattle.qls_site.specs.Content.{Content, Tells, Causes};
ghost use Rattle.qls_reader.specs.Spots.{data_length, all_length, area_on, IsThere, AreThere};
ghost use Rattle.qls_reader.specs.Places.{place_at};
ghost use Rattle.qls_reader.specs.Windows.{held, IsWindow, IsAhead, IsFilled, ReadsOnce};
ghost use Rattle.qls_reader.specs.Reads.{OnlyReads};

use crate::spot::{FileSpot, Position, data_length, settled};
use qls_site::{Site, SiteError};
use std::alloc::AllocError;

/// How many bytes of a file are read at once: each byte once, and so a file of many small records in few reads.
const WINDOW: u64 = 65_536;

/// The bytes of some files from one place on, up to another: those of the buffer behind the ones that were passed.
#[derive(Drop)]
pub struct Window {
    pub bytes: Vec<u8>,
    pub passed: usize,
    pub at: Position,
    pub end: Position,
}

/// Puts so many bytes of a file's data area, from a place on, at the end of the buffer. After an error it is as before.
fn read_onto<S: Site>(
    site: &mut S,
    spot: &FileSpot,
    within: u64,
    count: u64,
    buffer: &mut Vec<u8>,
) -> Result<(), SiteError>
    requires there { IfSome (S.told site.old) (IsThere spot.now) }
    requires range { within + count ≤ data_length spot.now }
    ensures bytes { IfOk result (λ _. IfSome (S.told site.old) (λ c. buffer.new.items ≡ buffer.old.items ++ take count (drop within (area_on c.now.disk spot.now)))) }
    ensures length { IfOk result (λ _. length buffer.new.items ≡ length buffer.old.items + count) }
    ensures kept { IfErr result (λ _. buffer.new.items ≡ buffer.old.items) }
    ensures once { IfOk result (λ _. S.reads site.new ≤ S.reads site.old + 1) }
    ensures told { Tells OnlyReads (S.told site.old) (S.told site.new) }
    ensures cause { Causes (S.faults site.old) (S.faults site.new) result }
    ensures syncs { S.syncs site.new ≡ S.syncs site.old }
    ensures reads { S.reads site.old ≤ S.reads site.new }
{
    let from = buffer.len();
    buffer.resize(from + count as usize, 0)?;
    let read = site.read(spot.id, 4096 + within, &mut buffer[from..]);
    if read.is_err() {
        buffer.truncate(from);
    }
    read
}

/// Lets go of the bytes that were passed.
fn let_go(window: &mut Window) -> Result<(), AllocError>
    requires passed { window.old.passed ≤ length window.old.bytes.items }
    ensures none { IfOk result (λ _. window.new.passed ≡ 0) }
    ensures held { held window.new ≡ held window.old }
    ensures passed { window.new.passed ≤ length window.new.bytes.items }
    ensures at { window.new.at ≡ window.old.at }
    ensures end { window.new.end ≡ window.old.end }
{
    if window.passed == 0 {
        return Ok(());
    }
    let alloc = *window.bytes.allocator();
    let rest = Vec::from_slice(alloc, &window.bytes[window.passed..])?;
    window.bytes = rest;
    window.passed = 0;
    Ok(())
}

/// Reads one window more, behind the bytes that are held: to the end of its file at most. A place is left there.
fn read_window<S: Site>(
    site: &mut S,
    files: &[FileSpot],
    window: &mut Window,
) -> Result<(), SiteError>
    requires there { IfSome (S.told site.old) (AreThere files.now) }
    requires sound { IsWindow files.now window.old }
    requires more { window.old.end.file < length files.now }
    requires ahead { IfSome (S.told site.old) (λ c. IsAhead c.now.disk files.now window.old) }
    ensures sound { IsWindow files.now window.new }
    ensures at { window.new.at ≡ window.old.at }
    ensures further { IfOk result (λ _. place_at files.now window.old.end < place_at files.now window.new.end) }
    ensures once { IfOk result (λ _. ReadsOnce files.now window.old window.new (S.reads site.old) (S.reads site.new)) }
    ensures ahead { IfSome (S.told site.old) (λ c. IsAhead c.now.disk files.now window.new) }
    ensures told { Tells OnlyReads (S.told site.old) (S.told site.new) }
    ensures cause { Causes (S.faults site.old) (S.faults site.new) result }
    ensures syncs { S.syncs site.new ≡ S.syncs site.old }
    ensures reads { S.reads site.old ≤ S.reads site.new }
{
    let spot = &files[window.end.file];
    let within = window.end.within;
    let part = (data_length(spot) - within).min(WINDOW);
    let_go(window)?;
    read_onto(site, spot, within, part, &mut window.bytes)?;
    let behind = Position {
        within: within + part,
        ..window.end
    };
    window.end = settled(files, behind);
    Ok(())
}

/// Reads on until so many bytes are held, or the files end.
pub fn read_ahead<S: Site>(
    site: &mut S,
    files: &[FileSpot],
    window: &mut Window,
    least: u64,
) -> Result<(), SiteError>
    requires there { IfSome (S.told site.old) (AreThere files.now) }
    requires sound { IsWindow files.now window.old }
    requires ahead { IfSome (S.told site.old) (λ c. IsAhead c.now.disk files.now window.old) }
    ensures sound { IsWindow files.now window.new }
    ensures at { window.new.at ≡ window.old.at }
    ensures ahead { IfSome (S.told site.old) (λ c. IsAhead c.now.disk files.now window.new) }
    ensures enough { IfOk result (λ _. IsFilled least files.now window.new) }
    ensures once { IfOk result (λ _. ReadsOnce files.now window.old window.new (S.reads site.old) (S.reads site.new)) }
    ensures told { Tells OnlyReads (S.told site.old) (S.told site.new) }
    ensures cause { Causes (S.faults site.old) (S.faults site.new) result }
    ensures syncs { S.syncs site.new ≡ S.syncs site.old }
    ensures reads { S.reads site.old ≤ S.reads site.new }
{
    while window.end.file < files.len() && ((window.bytes.len() - window.passed) as u64) < least {
        read_window(site, files, window)?;
    }
    Ok(())
}
