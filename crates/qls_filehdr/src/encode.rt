//! Spelling a header.
ghost use Rattle.std.specs.Prelude.{◌≡◌, ◌≤◌, ◌<◌, ◌+◌, ◌-◌, ◌++◌, length, take, drop, replicate, IsTrue};
ghost use Rattle.qls_shape.specs.Adler.{adler_of};
ghost use Rattle.qls_shape.specs.Fields.{u32 as number_bytes};
ghost use Rattle.qls_filehdr.specs.Limits.{is_legal_header};
ghost use Rattle.qls_filehdr.specs.Header.{header_spelling, header_numbers, kind_number as number_of_kind};

use crate::table::{FIXED, MAGIC_NUMBER, fixed};
use crate::{FileHeader, JournalKind};
use byteorder::{ByteOrder, LittleEndian};
use qls_shape::adler;

impl FileHeader {
    /// Writes the header's one spelling over `into`, which has 4,096 bytes: the numbers, the name, the checksum of
    /// both, and zeros. The header is legal.
    pub fn encode_into(&self, into: &mut [u8])
        requires legal { IsTrue (is_legal_header self.now) }
        requires size { length into.old ≡ 4096 }
        ensures exact { into.new ≡ header_spelling self.now }
    {
        let name = self.name.as_slice();
        put_numbers(self, into);
        put_name(name, into);
        seal(FIXED + name.len(), into);
    }
}

/// Writes the numbers over the first sixty bytes.
fn put_numbers(header: &FileHeader, into: &mut [u8])
    requires legal { IsTrue (is_legal_header header.now) }
    requires room { 60 ≤ length into.old }
    ensures exact { into.new ≡ header_numbers header.now ++ drop 60 into.old }
{
    let numbers = [
        MAGIC_NUMBER,
        2,
        0,
        header.serial,
        header.rid,
        u64::from(header.part),
        u64::from(header.kib),
        header.first,
        header.number,
        header.epoch,
        kind_number(header.kind),
        header.name.as_slice().len() as u64,
    ];
    fixed().put_fields(&numbers, into);
}

/// Writes the name behind the numbers.
fn put_name(name: &[u8], into: &mut [u8])
    requires room { 60 + length name.now ≤ length into.old }
    ensures exact { into.new ≡ take 60 into.old ++ name.now ++ drop (60 + length name.now) into.old }
{
    into[FIXED..FIXED + name.len()].copy_from_slice(name);
}

/// The number of a journal's kind.
fn kind_number(kind: JournalKind) -> u64
    ensures exact { result ≡ number_of_kind kind }
{
    match kind {
        JournalKind::Queue => 1,
        JournalKind::List => 2,
    }
}

/// Puts the checksum of the first bytes behind them, and zeros behind that.
fn seal(end: usize, into: &mut [u8])
    requires room { end + 4 ≤ length into.old }
    ensures exact { into.new ≡ take end into.old ++ number_bytes (adler_of (take end into.old)) ++ replicate (length into.old - (end + 4)) 0 }
{
    let sum = adler(&into[..end]);
    LittleEndian::write_u32(&mut into[end..], sum);
    into[end + 4..].fill(0);
}
