//! The checksum Adler-32 of RFC 1950.
ghost use Rattle.std.specs.Prelude.{◌≡◌, ◌≤◌, ◌<◌, ◌%◌, ◌++◌, List, ℕ, [], length};
ghost use Rattle.qls_shape.specs.Adler.{adler_of, adler_on, low_from, high_from};

use std::marker::Model;

/// The greatest prime below 65,536.
const BASE: u32 = 65521;

/// How many bytes are added between two remainders: the sums then stay below 2^32.
const RUN: usize = 3840;

/// The Adler-32 of bytes that come in pieces.
#[derive(Drop)]
pub struct AdlerSum {
    low: u32,
    high: u32,
}

impl Model for AdlerSum {
    ghost use Rattle.std.specs.Prelude.{ℕ, ◌+◌, ◌*◌, ◌<◌};

    ghost Value = { ℕ };

    ghost view = { λ s. s.high * 65536 + s.low };

    ghost invariant = { λ s. (s.low < 65521) × (s.high < 65521) };
}

impl AdlerSum {
    /// The sum of no bytes.
    pub fn new() -> AdlerSum
        ensures none { result ≡ adler_of [] }
    {
        AdlerSum { low: 1, high: 0 }
    }

    /// Adds bytes behind those that were added before.
    pub fn add(&mut self, bytes: &[u8])
        ensures exact { self.new ≡ adler_on self.old bytes.now }
        ensures joined { (before : List ℕ) → self.old ≡ adler_of before → self.new ≡ adler_of (before ++ bytes.now) }
    {
        let (low, high) = sums(self.low, self.high, bytes);
        self.low = low;
        self.high = high;
    }

    /// The Adler-32 of all bytes added.
    pub fn value(&self) -> u32
        ensures sum { result ≡ self.now }
    {
        self.high * 65536 + self.low
    }
}

/// The Adler-32 of the bytes.
pub fn adler(bytes: &[u8]) -> u32
    ensures sum { result ≡ adler_of bytes.now }
{
    let mut sum = AdlerSum::new();
    sum.add(bytes);
    sum.value()
}

/// The two sums after the bytes.
fn sums(low: u32, high: u32, bytes: &[u8]) -> (u32, u32)
    requires low { low < 65521 }
    requires high { high < 65521 }
    ensures low { result.0 ≡ low_from low bytes.now % 65521 }
    ensures high { result.1 ≡ high_from low high bytes.now % 65521 }
{
    let mut a = low;
    let mut b = high;
    let mut rest = bytes;
    while !rest.is_empty() {
        let (run, after) = rest.split_at(rest.len().min(RUN));
        (a, b) = sums_of_run(a, b, run);
        rest = after;
    }
    (a, b)
}

/// The two sums after so few bytes that one remainder at the end serves.
fn sums_of_run(low: u32, high: u32, run: &[u8]) -> (u32, u32)
    requires low { low < 65521 }
    requires high { high < 65521 }
    requires short { length run.now ≤ 3840 }
    ensures low { result.0 ≡ low_from low run.now % 65521 }
    ensures high { result.1 ≡ high_from low high run.now % 65521 }
{
    let mut a = low;
    let mut b = high;
    for byte in run {
        a += u32::from(*byte);
        b += a;
    }
    (a % BASE, b % BASE)
}
