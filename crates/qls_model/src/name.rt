//! Names of at most 200 bytes and xids of at most 128, kept in place and seen as lists.
ghost use Rattle.std.specs.Prelude.{◌≡◌, ◌≤◌, ◌-◌, ◌++◌, length, replicate};

use std::marker::Model;

/// The bytes, with zeros behind them.
fn with_zeros<const N: usize>(from: &[u8]) -> [u8; N]
    requires fits { length from.now ≤ N }
    ensures padded { result ≡ from.now ++ replicate (N - length from.now) 0 }
{
    let mut buf = [0; N];
    buf[..from.len()].copy_from_slice(from);
    buf
}

/// A queue's name: at most 200 bytes. The prepared list has the empty one.
#[derive(Clone, Copy, PartialEq, Eq, PartialOrd, Ord, Hash)]
pub struct Name {
    buf: [u8; 200],
    len: usize,
}

impl Model for Name {
    ghost use Rattle.std.specs.Prelude.{List, ℕ, take, ◌++◌, ◌-◌, length, replicate};
    ghost use Rattle.qls_model.specs.Kept.{IsKept, kept_bytes};

    ghost Value = { List ℕ };

    ghost view = { λ a. take a.len a.buf };

    ghost invariant = { λ a. IsKept 200 a.buf a.len };

    ghost inverse = { λ l. record { buf = l ++ replicate (200 - length l) 0; len = length l } };

    ghost inverse_ok = { λ a h i. record { buf = (kept_bytes 200 a.buf a.len h).0 i; len = (kept_bytes 200 a.buf a.len h).1 i } };
}

impl Name {
    ghost use Rattle.std.specs.Prelude.{◌≡◌, Some, None, length, nat_le, if◌then◌else◌};

    /// The name of these bytes; None exactly where they are more than 200.
    pub fn new(from: &[u8]) -> Option<Name>
        ensures kept { result ≡ (if nat_le (length from.now) 200 then Some from.now else None) }
    {
        if from.len() > 200 {
            return None;
        }
        Some(Name {
            buf: with_zeros(from),
            len: from.len(),
        })
    }

    /// The bytes.
    pub fn as_slice(&self) -> &[u8]
        ensures same { result.now ≡ self.now }
    {
        &self.buf[..self.len]
    }
}

/// A transaction id: at most 128 bytes. The empty one stands for no transaction.
#[derive(Clone, Copy, PartialEq, Eq, PartialOrd, Ord, Hash)]
pub struct Xid {
    buf: [u8; 128],
    len: usize,
}

impl Model for Xid {
    ghost use Rattle.std.specs.Prelude.{List, ℕ, take, ◌++◌, ◌-◌, length, replicate};
    ghost use Rattle.qls_model.specs.Kept.{IsKept, kept_bytes};

    ghost Value = { List ℕ };

    ghost view = { λ a. take a.len a.buf };

    ghost invariant = { λ a. IsKept 128 a.buf a.len };

    ghost inverse = { λ l. record { buf = l ++ replicate (128 - length l) 0; len = length l } };

    ghost inverse_ok = { λ a h i. record { buf = (kept_bytes 128 a.buf a.len h).0 i; len = (kept_bytes 128 a.buf a.len h).1 i } };
}

impl Xid {
    ghost use Rattle.std.specs.Prelude.{◌≡◌, Some, None, length, nat_le, if◌then◌else◌};

    /// The xid of these bytes; None exactly where they are more than 128.
    pub fn new(from: &[u8]) -> Option<Xid>
        ensures kept { result ≡ (if nat_le (length from.now) 128 then Some from.now else None) }
    {
        if from.len() > 128 {
            return None;
        }
        Some(Xid {
            buf: with_zeros(from),
            len: from.len(),
        })
    }

    /// The bytes.
    pub fn as_slice(&self) -> &[u8]
        ensures same { result.now ≡ self.now }
    {
        &self.buf[..self.len]
    }
}
