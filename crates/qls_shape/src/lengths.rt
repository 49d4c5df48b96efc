//! Lengths of records on disk, and how they lie over files.
ghost use Rattle.std.specs.Prelude.{◌≡◌, ℕ, ◌+◌, ◌-◌, ◌*◌, ◌%◌, ◌^◌, ◌≤◌, ◌<◌};
ghost use Rattle.qls_shape.specs.Lengths.{padded_length};

/// How bytes lie over files of one capacity, in bytes: so many in the present file, so many further files that
/// they fill, and so many in the file after those.
#[derive(Clone, Copy, Debug, PartialEq, Eq)]
pub struct Split {
    pub first: u64,
    pub whole: u64,
    pub last: u64,
}

/// The least multiple of 128 that is not below `n`, a number of bytes.
pub fn padded(n: u64) -> u64
    requires { n ≤ 2 ^ 60 }
    ensures exact { result ≡ padded_length n }
    ensures multiple { result % 128 ≡ 0 }
    ensures above { n ≤ result }
    ensures least { result < n + 128 }
{
    (n + 127) / 128 * 128
}

/// Lays `length` bytes into the present file, of which `used` bytes of the capacity are taken, and into further
/// files of the same capacity. Where they fit in the present file no other has any; else they fill it.
pub fn split_over(used: u64, capacity: u64, length: u64) -> Split
    requires capacity { 0 < capacity }
    requires used { used ≤ capacity }
    ensures all { result.first + result.whole * capacity + result.last ≡ length }
    ensures fits { length ≤ capacity - used → result ≡ record { first = length; whole = 0; last = 0 } }
    ensures over { capacity - used < length → result.first ≡ capacity - used }
    ensures last { result.last < capacity }
{
    let room = capacity - used;
    if length <= room {
        return Split {
            first: length,
            whole: 0,
            last: 0,
        };
    }
    let rest = length - room;
    Split {
        first: room,
        whole: rest / capacity,
        last: rest % capacity,
    }
}
