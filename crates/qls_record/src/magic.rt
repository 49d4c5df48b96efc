//! The magic of each kind: four ASCII bytes, here as the number that they are with the lowest byte first.
ghost use Rattle.std.specs.Prelude.{◌≡◌, ◌<◌, ◌^◌};
ghost use Rattle.qls_shape.specs.Fields.{u32};
ghost use Rattle.qls_record.specs.Spelling.{kind_of, magic_number, inverted_magic};
ghost use Rattle.std.specs.Int.{from_le_bytes, w32};

use crate::Kind;

/// `QLSe`.
const ENQUEUE: u64 = 0x6553_4c51;
/// `QLSd`.
const DEQUEUE: u64 = 0x6453_4c51;
/// `QLSc`.
const COMMIT: u64 = 0x6353_4c51;
/// `QLSa`.
const ABORT: u64 = 0x6153_4c51;
/// `QLSx`.
const FILLER: u64 = 0x7853_4c51;

/// The magic of a kind.
pub fn magic_of(kind: Kind) -> u64
    ensures exact { result ≡ magic_number kind }
{
    match kind {
        Kind::Enqueue => ENQUEUE,
        Kind::Dequeue => DEQUEUE,
        Kind::Commit => COMMIT,
        Kind::Abort => ABORT,
        Kind::Filler => FILLER,
    }
}

/// The same with each bit inverted, as it stands in a tail.
pub fn inverted_of(kind: Kind) -> u64
    ensures exact { result ≡ from_le_bytes w32 (inverted_magic kind) }
{
    0xffff_ffff - magic_of(kind)
}

/// The kind of that magic; None exactly where it is none's.
pub fn kind_of(magic: u64) -> Option<Kind>
    requires number { magic < 2 ^ 32 }
    ensures exact { result ≡ kind_of (u32 magic) }
{
    match magic {
        ENQUEUE => Some(Kind::Enqueue),
        DEQUEUE => Some(Kind::Dequeue),
        COMMIT => Some(Kind::Commit),
        ABORT => Some(Kind::Abort),
        FILLER => Some(Kind::Filler),
        _ => None,
    }
}
