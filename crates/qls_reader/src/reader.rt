// The reader.
ghost use Rattle.std.specs.Prelude.{◌≡◌, ◌+◌, ◌≤◌, ℕ, List, length, take, drop, IfOk, IfErr};
ghost use Rattle.qls_shape.specs.declared.Version.TheVariants.{Two};
ghost use Rattle.qls_record.specs.Record.{header_length};
ghost use Rattle.qls_record.specs.Head.{head_record_length};
ghost use Rattle.qls_meaning.specs.Journals.{Headed};
ghost use Rattle.qls_meaning.specs.Reading.{read_of};
ghost use Rattle.qls_reader.specs.declared.reader.Next.TheVariants as next;
ghost use Rattle.qls_reader.specs.Spots.{AreSpotsOf};
ghost use Rattle.qls_reader.specs.Places.{place_at};
ghost use Rattle.qls_reader.specs.Windows.{held, IsWindow};
ghost use Rattle.qls_reader.specs.Records.{record_from, body_place};
ghost use Rattle.qls_reader.specs.States.{IsLocated};

use crate::fault::ReadFault;
use crate::record::read_record;
use crate::spot::{self, EndSpot, FileSpot, Position, ending, number, settled};
use crate::window::Window;
use qls_model::{Bytes, NoMemory, Seq, Xid};
use qls_record::{Got, Head, Kind, length};
use qls_site::Site;
use std::alloc::Global;
use std::marker::Model;

/// What a reader answers.
#[derive(Drop)]
pub enum Next {
    /// The record that stands at the place.
    Got(Got),
    /// No record is spelled at the place: the reading ends in the file of this number, at this place of the file, in
    /// bytes. At the end of the stream that is the last file and its size.
    End { file: u64, at: u64 },
}

/// A reader of one epoch.
#[derive(Drop)]
pub struct Reader {
    files: Vec<FileSpot>,
    /// What was read ahead of the place.
    window: Window,
    ended: bool,
}

impl Model for Reader {
    ghost use Rattle.qls_reader.specs.States.{ReaderState};
    ghost use Rattle.qls_reader.specs.Places.{place_at};
    ghost use Rattle.qls_reader.specs.Windows.{held, IsWindow};

    ghost Value = { ReaderState };

    ghost view = { λ r. record { files = r.files.items; place = place_at r.files.items r.window.at; held = held r.window; ended = r.ended } };

    ghost invariant = { λ r. IsWindow r.files.items r.window };
}

impl Reader {
    ghost use Rattle.std.specs.Prelude.{◌≡◌, ◌<◌, ◌≤◌, ◌+◌, ℕ, List, [], false, length, IfOk, IfSome};
    ghost use Rattle.qls_meaning.specs.Journals.{Headed};
    ghost use Rattle.qls_meaning.specs.Reading.{begin_place};
    ghost use Rattle.qls_site.specs.Content.{Tells};
    ghost use Rattle.qls_reader.specs.Spots.{begin_of, AreSpotsOf, AreSeen, AreThere};
    ghost use Rattle.qls_reader.specs.Places.{AreSound};
    ghost use Rattle.qls_reader.specs.Reads.{OnlyReads, ReadCauses};
    ghost use Rattle.qls_reader.specs.States.{ReadsAhead, ReadsNext, Steps, unread};

    /// A reader of the files of one epoch, by number. Where they are of the journal's oldest epoch, it begins at the
    /// first place of the first file that has one, else at the first file's data area. Each file's KiB are within the
    /// limits, and its first place is 0 or a unit of its data area.
    pub fn new(alloc: Global, files: Seq<FileSpot>, oldest: bool) -> Reader
        requires sound { AreSound files }
        ensures exact { result ≡ record { files = files; place = begin_of oldest files; held = []; ended = false } }
        ensures begins { (fs : List Headed) → AreSpotsOf files fs → result.place ≡ begin_place oldest fs }
    {
        let files = files.into_vec();
        let at = spot::begin(&files, oldest);
        Reader {
            files,
            window: Window {
                bytes: Vec::new(alloc),
                passed: 0,
                at,
                end: at,
            },
            ended: false,
        }
    }

    /// The record at the place, whose bytes the reader then has passed, or the end of the reading: End comes exactly
    /// where no record is spelled at the place for the serial of the file that holds it, and then at every later call.
    ///
    /// Where told, each file is on the site with the size that its KiB tell, and has the bytes that the reader read
    /// ahead: so it is where nothing wrote to the files since then. Failed comes only where the site's count of faults
    /// rose. After a fault the place is as before. Without one each byte is read once, in windows of 65,536 bytes of a
    /// file.
    pub fn next<S: Site>(&mut self, site: &mut S) -> Result<Next, ReadFault>
        requires there { IfSome (S.told site.old) (AreThere self.old.files) }
        requires ahead { IfSome (S.told site.old) (λ c. ReadsAhead c.now.disk self.old) }
        ensures read { self.old.ended ≡ false → IfSome (S.told site.old) (λ c. (fs : List Headed) → AreSeen c.now.disk self.old.files fs → ReadsNext fs self.old self.new result) }
        ensures steps { Steps self.old self.new result }
        ensures ahead { IfSome (S.told site.new) (λ c. ReadsAhead c.now.disk self.new) }
        ensures once { IfOk result (λ _. S.reads site.new + unread self.new ≤ S.reads site.old + unread self.old) }
        ensures told { Tells OnlyReads (S.told site.old) (S.told site.new) }
        ensures cause { ReadCauses (S.faults site.old) (S.faults site.new) result }
        ensures syncs { S.syncs site.new ≡ S.syncs site.old }
        ensures reads { S.reads site.old ≤ S.reads site.new }
    {
        if self.ended {
            return Ok(end(ending(&self.files, self.window.at)));
        }
        let found = read_record(site, &self.files, &mut self.window)?;
        match found {
            None => {
                self.ended = true;
                Ok(end(ending(&self.files, self.window.at)))
            }
            Some(head) => {
                let got = hand_out(&self.files, &mut self.window, head)?;
                Ok(Next::Got(got))
            }
        }
    }
}

/// The end of a reading.
fn end(spot: EndSpot) -> Next
    ensures exact { result ≡ next.End spot.file spot.at }
{
    Next::End {
        file: spot.file,
        at: spot.at,
    }
}

/// The record of that head, which is the first of what the window holds, located in the files. The window passes it.
fn hand_out(files: &[FileSpot], window: &mut Window, head: Head) -> Result<Got, NoMemory>
    requires sound { IsWindow files.now window.old }
    requires xid { head.xid_size ≤ 128 }
    requires body { head.body_size ≤ 1048576 }
    requires whole { head_record_length head ≤ length (held window.old) }
    ensures sound { IsWindow files.now window.new }
    ensures what { IfOk result (λ r. (read_of r).what ≡ record_from (held window.old) head) }
    ensures there { IfOk result (λ r. (fs : List Headed) → AreSpotsOf files.now fs → IsLocated fs (place_at files.now window.old.at) (head_record_length head) r) }
    ensures after { IfOk result (λ _. place_at files.now window.new.at ≡ place_at files.now window.old.at + head_record_length head) }
    ensures passed { IfOk result (λ _. held window.new ≡ drop (head_record_length head) (held window.old)) }
    ensures end { window.new.end ≡ window.old.end }
    ensures kept { IfErr result (λ _. window.new ≡ window.old) }
{
    let alloc = *window.bytes.allocator();
    let (xid, body) = parts(alloc, &head, &window.bytes[window.passed..])?;
    let whole = length(&head);
    let from = window.at;
    let last = Position {
        within: from.within + (whole - 1),
        ..from
    };
    let behind = Position {
        within: from.within + whole,
        ..from
    };
    let got = Got {
        head,
        xid,
        body,
        file: number(files, from.file),
        at: 4096 + from.within,
        end_file: number(files, settled(files, last).file),
    };
    window.at = settled(files, behind);
    window.passed += whole as usize;
    Ok(got)
}

/// The xid and the body of a record of that head, which stand behind the header.
fn parts(alloc: Global, head: &Head, bytes: &[u8]) -> Result<(Xid, Bytes), NoMemory>
    requires xid { head.now.xid_size ≤ 128 }
    requires body { head.now.body_size ≤ 1048576 }
    requires whole { head_record_length head.now ≤ length bytes.now }
    ensures xid { IfOk result (λ r. r.0 ≡ take head.now.xid_size (drop (header_length Two head.now.kind) bytes.now)) }
    ensures body { IfOk result (λ r. r.1 ≡ take head.now.body_size (drop (body_place head.now) bytes.now)) }
{
    let from = header_length(head.kind);
    let between = from + head.xid_size as usize;
    let to = between + head.body_size as usize;
    let xid = Xid::new(&bytes[from..between]).unwrap();
    let body = Bytes::new(alloc, &bytes[between..to])?;
    Ok((xid, body))
}

/// How many bytes the header of a record of that kind has.
fn header_length(kind: Kind) -> usize
    ensures exact { result ≡ header_length Two kind }
{
    match kind {
        Kind::Enqueue | Kind::Dequeue => 40,
        Kind::Commit | Kind::Abort => 32,
        Kind::Filler => 24,
    }
}
