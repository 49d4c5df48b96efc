//! Writing: a record's one spelling.
ghost use Rattle.std.specs.Prelude.{◌≡◌, ◌≤◌, ◌+◌, ◌-◌, ◌++◌, length, take, drop, replicate, IsTrue};
ghost use Rattle.qls_shape.specs.declared.Version.TheVariants.{Two};
ghost use Rattle.qls_shape.specs.Adler.{adler_of};
ghost use Rattle.qls_record.specs.Record.{header_length, tail_length};
ghost use Rattle.qls_record.specs.Spelling.{spelling, tail_with};
ghost use Rattle.qls_record.specs.Head.{head_bytes, head_record_length, is_legal_head, record_with};

use crate::magic::{inverted_of, magic_of};
use crate::tables::{
    PADDING, VERSION, flags_of, one_more_table, record_table, tail_table, two_more_table,
};
use crate::{Head, Kind, covered_length, header_length, tail_length};
use qls_shape::adler;

/// Writes the record of that head, transaction id and body: `into` becomes its spelling for the serial. The head
/// is legal, its sizes are those of `xid` and `body`, and `into` has the length that [`length`](crate::length)
/// gives.
pub fn encode_into(head: &Head, serial: u64, xid: &[u8], body: &[u8], into: &mut [u8])
    requires legal { IsTrue (is_legal_head head.now) }
    requires xid { length xid.now ≡ head.now.xid_size }
    requires body { length body.now ≡ head.now.body_size }
    requires room { length into.old ≡ head_record_length head.now }
    ensures spelled { into.new ≡ spelling Two serial (record_with head.now xid.now body.now) }
{
    let header = header_length(head.kind);
    let covered = header + xid.len() + body.len();
    put_header(*head, serial, into);
    put_part(header, xid, into);
    put_part(header + xid.len(), body, into);
    put_tail(*head, serial, covered, into);
    put_padding(covered + tail_length(head.kind), into);
}

/// Writes the header at the front.
fn put_header(head: Head, serial: u64, into: &mut [u8])
    requires room { header_length Two head.kind ≤ length into.old }
    ensures exact { into.new ≡ head_bytes Two serial head ++ drop (header_length Two head.kind) into.old }
{
    let Head {
        kind,
        flagged,
        rid,
        target,
        xid_size,
        body_size,
    } = head;
    let magic = magic_of(kind);
    let flags = flags_of(flagged);
    match kind {
        Kind::Enqueue => {
            let numbers = [magic, VERSION, flags, serial, rid, xid_size, body_size];
            two_more_table().put_fields(&numbers, into);
        }
        Kind::Dequeue => {
            let numbers = [magic, VERSION, flags, serial, rid, target, xid_size];
            two_more_table().put_fields(&numbers, into);
        }
        Kind::Commit | Kind::Abort => {
            let numbers = [magic, VERSION, flags, serial, rid, xid_size];
            one_more_table().put_fields(&numbers, into);
        }
        Kind::Filler => {
            let numbers = [magic, VERSION, flags, serial, rid];
            record_table().put_fields(&numbers, into);
        }
    }
}

/// Writes bytes at a place.
fn put_part(at: usize, bytes: &[u8], into: &mut [u8])
    requires room { at + length bytes.now ≤ length into.old }
    ensures exact { into.new ≡ take at into.old ++ bytes.now ++ drop (at + length bytes.now) into.old }
{
    into[at..at + bytes.len()].copy_from_slice(bytes);
}

/// Writes the tail at a place, behind the bytes that its checksum covers.
fn put_tail(head: Head, serial: u64, at: usize, into: &mut [u8])
    requires room { at + tail_length head.kind ≤ length into.old }
    ensures exact { into.new ≡ take at into.old ++ tail_with head.kind (adler_of (take at into.old)) serial head.rid ++ drop (at + tail_length head.kind) into.old }
{
    if head.kind == Kind::Filler {
        return;
    }
    let sum = u64::from(adler(&into[..at]));
    let numbers = [inverted_of(head.kind), sum, serial, head.rid];
    tail_table().put_fields(&numbers, &mut into[at..]);
}

/// Writes padding from a place to the end.
fn put_padding(from: usize, into: &mut [u8])
    requires room { from ≤ length into.old }
    ensures exact { into.new ≡ take from into.old ++ replicate (length into.old - from) 255 }
{
    into[from..].fill(PADDING);
}
