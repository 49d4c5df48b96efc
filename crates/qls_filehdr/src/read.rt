//! Reading a header, with the first rule that fails.
ghost use Rattle.std.specs.Prelude.{◌≡◌, ◌≤◌, ◌<◌, ◌+◌, ◌^◌, length, OnOk};
ghost use Rattle.qls_shape.specs.Claims.{claim as claimed};
ghost use Rattle.qls_shape.specs.Fields.{bytes_from};
ghost use Rattle.qls_filehdr.specs.Header.{header_of, number_claims, rest_claims, journal_kind as kind_of_number};
ghost use Rattle.qls_filehdr.specs.Table.{numbers_at};

use crate::limits::{
    are_counts, are_zeros, is_first_place, is_kib, is_kind, is_name, is_partition,
};
use crate::table::{FIXED, MAGIC, fixed};
use crate::{FileHeader, JournalKind, Rule};
use byteorder::{ByteOrder, LittleEndian};
use qls_model::Name;
use qls_shape::adler;

impl FileHeader {
    /// The header that stands in 4,096 bytes; else the first of the rules `magic` to `zeros` that fails.
    pub fn read(from: &[u8]) -> Result<FileHeader, Rule>
        requires size { length from.now ≡ 4096 }
        ensures exact { result ≡ header_of from.now }
    {
        let numbers = numbers_of(from);
        check_numbers(&numbers, from)?;
        let kind = journal_kind(numbers.kind);
        let name = name_bytes(numbers.name_size, from);
        claim(is_name(kind, name), Rule::Name)?;
        check_rest(FIXED + name.len(), from)?;
        Ok(FileHeader {
            serial: numbers.serial,
            rid: numbers.rid,
            part: numbers.part as u16,
            kib: numbers.kib as u32,
            first: numbers.first,
            number: numbers.number,
            epoch: numbers.epoch,
            kind,
            name: Name::new(name).unwrap(),
        })
    }
}

/// The numbers of a header behind its magic, as they stand there.
#[derive(Drop)]
struct Numbers {
    version: u64,
    flags: u64,
    serial: u64,
    rid: u64,
    part: u64,
    kib: u64,
    first: u64,
    number: u64,
    epoch: u64,
    kind: u64,
    name_size: u64,
}

/// The numbers that stand in the first bytes.
fn numbers_of(from: &[u8]) -> Numbers
    requires room { 60 ≤ length from.now }
    ensures exact { result ≡ numbers_at from.now }
{
    let [
        _,
        version,
        flags,
        serial,
        rid,
        part,
        kib,
        first,
        number,
        epoch,
        kind,
        name_size,
    ] = fixed().get_fields(from);
    Numbers {
        version,
        flags,
        serial,
        rid,
        part,
        kib,
        first,
        number,
        epoch,
        kind,
        name_size,
    }
}

/// Tests the rules `magic` to `kind`.
fn check_numbers(numbers: &Numbers, from: &[u8]) -> Result<(), Rule>
    requires room { 60 ≤ length from.now }
    requires numbers { numbers.now ≡ numbers_at from.now }
    ensures exact { result ≡ number_claims from.now }
    ensures part { OnOk result (numbers.now.part ≤ 999) }
    ensures kib { OnOk result (numbers.now.kib ≤ 65536) }
{
    claim(&from[..4] == MAGIC.as_slice(), Rule::Magic)?;
    claim(numbers.version == 2, Rule::Version)?;
    claim(numbers.flags == 0, Rule::Flags)?;
    claim(is_partition(numbers.part), Rule::Partition)?;
    claim(is_kib(numbers.kib), Rule::Kib)?;
    claim(is_first_place(numbers.kib, numbers.first), Rule::Place)?;
    let counts = are_counts(numbers.rid, numbers.number, numbers.epoch);
    claim(counts, Rule::Counter)?;
    claim(is_kind(numbers.kind), Rule::Kind)
}

/// The rule is kept, or it is the answer.
fn claim(holds: bool, rule: Rule) -> Result<(), Rule>
    ensures exact { result ≡ claimed holds rule }
{
    if holds { Ok(()) } else { Err(rule) }
}

/// The journal kind of a number that is 1 or 2.
fn journal_kind(number: u64) -> JournalKind
    ensures exact { result ≡ kind_of_number number }
{
    if number == 1 {
        JournalKind::Queue
    } else {
        JournalKind::List
    }
}

/// The bytes behind the numbers, so many or as many as there are.
fn name_bytes(size: u64, from: &[u8]) -> &[u8]
    requires room { 60 ≤ length from.now }
    ensures exact { result.now ≡ bytes_from 60 size from.now }
{
    let rest = &from[FIXED..];
    if size < rest.len() as u64 {
        &rest[..size as usize]
    } else {
        rest
    }
}

/// Tests what follows the name, which ends at `end`: the checksum of all before it, and zeros.
fn check_rest(end: usize, from: &[u8]) -> Result<(), Rule>
    requires size { length from.now ≡ 4096 }
    requires room { end + 4 ≤ 4096 }
    ensures exact { result ≡ rest_claims end from.now }
{
    let sum = LittleEndian::read_u32(&from[end..]);
    claim(sum == adler(&from[..end]), Rule::Checksum)?;
    claim(are_zeros(&from[end + 4..]), Rule::Zeros)
}
