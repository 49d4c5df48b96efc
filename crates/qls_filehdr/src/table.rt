//! The fixed part of a header: sixty bytes of numbers.
ghost use Rattle.std.specs.Prelude.{◌≡◌};
ghost use Rattle.qls_filehdr.specs.Table.{header_table};

use qls_shape::{Field, Layout};

/// The four bytes that every file header begins with.
pub const MAGIC: [u8; 4] = *b"QLSf";

/// The same as a number.
pub const MAGIC_NUMBER: u64 = 0x6653_4c51;

/// How many bytes of numbers stand before the name.
pub const FIXED: usize = 60;

/// Magic, version, flags, serial, rid, partition, data KiB, first place, file number, epoch, kind, name length.
pub fn fixed() -> Layout<12>
    ensures exact { result ≡ header_table }
{
    let field = |at, width| Field { at, width };
    Layout::checked(
        FIXED,
        [
            field(0, 4),
            field(4, 2),
            field(6, 2),
            field(8, 8),
            field(16, 8),
            field(24, 4),
            field(28, 4),
            field(32, 8),
            field(40, 8),
            field(48, 8),
            field(56, 2),
            field(58, 2),
        ],
    )
    .unwrap()
}
