//! The limits of a header's fields, as numbers and bytes.
ghost use Rattle.std.specs.Prelude.{◌≡◌, ◌≤◌, ◌^◌, ◌==◌, ◌&&◌, nat_le, nat_lt, length, IsTrue};
ghost use Rattle.std.specs.List.{list_all};
ghost use Rattle.qls_model.specs.Limits.{is_partition as partition_limit, is_kib as kib_limit, is_name_byte as name_byte_limit, is_queue_name as queue_name_limit};
ghost use Rattle.qls_filehdr.specs.Limits.{is_first_place as first_place_limit, is_counter as counter_limit, is_name as name_limit};

use crate::JournalKind;

/// Whether a partition is 1 to 999.
pub fn is_partition(part: u64) -> bool
    ensures exact { result ≡ partition_limit part }
{
    1 <= part && part <= 999
}

/// Whether a data area of so many KiB is 4 to 65,536 and a multiple of 4.
pub fn is_kib(kib: u64) -> bool
    ensures exact { result ≡ kib_limit kib }
{
    4 <= kib && kib <= 65_536 && kib % 4 == 0
}

/// Whether a place is 0, or a unit of the data area of so many KiB.
pub fn is_first_place(kib: u64, first: u64) -> bool
    requires kib { kib ≤ 65536 }
    ensures exact { result ≡ first_place_limit kib first }
{
    first == 0 || 4_096 <= first && first <= 4_096 + 1_024 * kib - 128 && first % 128 == 0
}

/// Whether a rid is below 2^62, and a file number and an epoch too and not 0.
pub fn are_counts(rid: u64, number: u64, epoch: u64) -> bool
    ensures exact { result ≡ (nat_lt rid (2 ^ 62) && counter_limit number && counter_limit epoch) }
{
    rid < 1 << 62 && is_counter(number) && is_counter(epoch)
}

/// Whether a number is at least 1 and below 2^62.
fn is_counter(n: u64) -> bool
    ensures exact { result ≡ counter_limit n }
{
    1 <= n && n < 1 << 62
}

/// Whether a number is that of a journal's kind.
pub fn is_kind(number: u64) -> bool
    ensures exact { result ≡ (nat_le 1 number && nat_le number 2) }
{
    1 <= number && number <= 2
}

/// Whether a journal of this kind may have the name: a queue 1 to 200 bytes from `!` to `~`, the list none.
pub fn is_name(kind: JournalKind, name: &[u8]) -> bool
    ensures exact { result ≡ name_limit kind name.now }
    ensures short { IsTrue result → length name.now ≤ 200 }
{
    match kind {
        JournalKind::Queue => is_queue_name(name),
        JournalKind::List => name.is_empty(),
    }
}

/// Whether a queue may have the name.
fn is_queue_name(name: &[u8]) -> bool
    ensures exact { result ≡ queue_name_limit name.now }
{
    1 <= name.len() && name.len() <= 200 && are_name_bytes(name)
}

/// Whether each byte is from `!` to `~`.
fn are_name_bytes(bytes: &[u8]) -> bool
    ensures exact { result ≡ list_all name_byte_limit bytes.now }
{
    for byte in bytes {
        if !(b'!'..=b'~').contains(byte) {
            return false;
        }
    }
    true
}

/// Whether each byte is 0.
pub fn are_zeros(bytes: &[u8]) -> bool
    ensures exact { result ≡ list_all (λ b. b == 0) bytes.now }
{
    for byte in bytes {
        if *byte != 0 {
            return false;
        }
    }
    true
}
