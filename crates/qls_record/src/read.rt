//! Reading: the head that stands at the front of some bytes, and whether the whole record stands there.
ghost use Rattle.std.specs.Prelude.{◌≡◌, ◌≤◌, Some, length, take, option_map, nat_eq, ◌==◌, IfSome};
ghost use Rattle.std.specs.List.{starts_with, list_all};
ghost use Rattle.qls_shape.specs.declared.Version.TheVariants.{Two};
ghost use Rattle.qls_shape.specs.Adler.{adler_of};
ghost use Rattle.qls_record.specs.Record.{header_length, tail_length};
ghost use Rattle.qls_record.specs.Spelling.{kind_of, record_at, spelling, fields_at, tail_with};
ghost use Rattle.qls_record.specs.Head.{head_of, head_at, head_fields, head_bytes, is_legal_head, head_record_length};

use crate::magic::{self, inverted_of};
use crate::tables::{
    FLAG, PADDING, VERSION, flags_of, one_more_table, record_table, tail_table, two_more_table,
};
use crate::{Head, Kind, covered_length, header_length, length, tail_length};
use qls_shape::adler;

/// The head of the record whose header stands at the front of `from`, for the serial. None exactly where no
/// legal header with that serial stands there. The rest of the record may be missing or wrong.
pub fn read_head(from: &[u8], serial: u64) -> Option<Head>
    ensures exact { result ≡ head_at Two serial from.now }
    ensures limits { IfSome result (λ h. (h.xid_size ≤ 128) × (h.body_size ≤ 1048576)) }
{
    // No header is shorter.
    if from.len() < 24 {
        return None;
    }
    let kind = kind_at(from)?;
    if from.len() < header_length(kind) {
        return None;
    }
    let head = fields_at(kind, from);
    if is_legal(head) && is_stamped(head, serial, from) {
        Some(head)
    } else {
        None
    }
}

/// The head of the record that stands whole at the front of `from`, for the serial. None exactly where no
/// spelling for that serial stands there: header, transaction id, body, tail and padding are all compared.
pub fn read_whole(from: &[u8], serial: u64) -> Option<Head>
    ensures exact { result ≡ option_map head_of (record_at Two serial from.now) }
    ensures limits { IfSome result (λ h. (h.xid_size ≤ 128) × (h.body_size ≤ 1048576)) }
{
    let head = read_head(from, serial)?;
    if (from.len() as u64) < length(&head) {
        return None;
    }
    if is_spelled(head, serial, from) {
        Some(head)
    } else {
        None
    }
}

/// Whether the record of that head, which stands at the front, is spelled there.
fn is_spelled(head: Head, serial: u64, from: &[u8]) -> bool
    requires headed { head_at Two serial from.now ≡ Some head }
    requires xid { head.xid_size ≤ 128 }
    requires body { head.body_size ≤ 1048576 }
    requires room { head_record_length head ≤ length from.now }
    ensures exact { result ≡ starts_with nat_eq from.now (spelling Two serial (fields_at Two head.kind from.now)) }
{
    let covered = covered_length(&head);
    let end = covered + tail_length(head.kind);
    let whole = length(&head) as usize;
    has_tail(head, serial, &from[..covered], &from[covered..]) && is_padding(&from[end..whole])
}

/// Whether the tail of that head stands at the front of `from`, behind the bytes that its checksum covers.
fn has_tail(head: Head, serial: u64, covered: &[u8], from: &[u8]) -> bool
    requires room { tail_length head.kind ≤ length from.now }
    ensures exact { result ≡ starts_with nat_eq from.now (tail_with head.kind (adler_of covered.now) serial head.rid) }
{
    if head.kind == Kind::Filler {
        return true;
    }
    let found = tail_table().get_fields(from);
    let sum = u64::from(adler(covered));
    found == [inverted_of(head.kind), sum, serial, head.rid]
}

/// Whether all bytes are padding.
fn is_padding(from: &[u8]) -> bool
    ensures exact { result ≡ list_all (λ b. b == 255) from.now }
{
    from.iter().all(|byte| *byte == PADDING)
}

/// The kind whose magic stands at the front.
fn kind_at(from: &[u8]) -> Option<Kind>
    requires room { 24 ≤ length from.now }
    ensures exact { result ≡ kind_of (take 4 from.now) }
{
    let [magic, _, _, _, _] = record_table().get_fields(from);
    magic::kind_of(magic)
}

/// The head that the fields of such a header say.
fn fields_at(kind: Kind, from: &[u8]) -> Head
    requires room { header_length Two kind ≤ length from.now }
    ensures exact { result ≡ head_fields kind from.now }
{
    let bare = Head {
        kind,
        flagged: false,
        rid: 0,
        target: 0,
        xid_size: 0,
        body_size: 0,
    };
    match kind {
        Kind::Enqueue => {
            let [_, _, flags, _, rid, xid_size, body_size] = two_more_table().get_fields(from);
            let flagged = flags == FLAG;
            Head {
                flagged,
                rid,
                xid_size,
                body_size,
                ..bare
            }
        }
        Kind::Dequeue => {
            let [_, _, flags, _, rid, target, xid_size] = two_more_table().get_fields(from);
            let flagged = flags == FLAG;
            Head {
                flagged,
                rid,
                target,
                xid_size,
                ..bare
            }
        }
        Kind::Commit | Kind::Abort => {
            let [_, _, _, _, rid, xid_size] = one_more_table().get_fields(from);
            Head {
                rid,
                xid_size,
                ..bare
            }
        }
        Kind::Filler => {
            let [_, _, _, _, rid] = record_table().get_fields(from);
            Head { rid, ..bare }
        }
    }
}

/// Whether the sizes, the flag and the target are such as the kind may have.
fn is_legal(head: Head) -> bool
    ensures exact { result ≡ is_legal_head head }
{
    match head.kind {
        Kind::Enqueue => head.target == 0 && head.xid_size <= 128 && head.body_size <= 1_048_576,
        Kind::Dequeue => head.xid_size <= 128 && head.body_size == 0,
        Kind::Commit | Kind::Abort => {
            head.target == 0
                && !head.flagged
                && 1 <= head.xid_size
                && head.xid_size <= 128
                && head.body_size == 0
        }
        Kind::Filler => head.target == 0
            && !head.flagged
            && head.xid_size == 0
            && head.body_size == 0,
    }
}

/// Whether the version, the flags and the serial of the header at the front are those of the head, which is
/// what its other fields say.
fn is_stamped(head: Head, serial: u64, from: &[u8]) -> bool
    requires room { header_length Two head.kind ≤ length from.now }
    requires kind { kind_of (take 4 from.now) ≡ Some head.kind }
    requires fields { head ≡ head_fields head.kind from.now }
    ensures exact { result ≡ starts_with nat_eq from.now (head_bytes Two serial head) }
{
    let [_, version, flags, found, _] = record_table().get_fields(from);
    [version, flags, found] == [VERSION, flags_of(head.flagged), serial]
}
