//! The tables of the numbers in a record's header and tail.
ghost use Rattle.std.specs.Prelude.{◌≡◌, IsTrue, Some};
ghost use Rattle.qls_shape.specs.Tables.{is_table};
ghost use Rattle.qls_record.specs.Spelling.{flags};

use qls_shape::{Field, Layout};

/// The version in the header of each record.
pub const VERSION: u64 = 2;

/// The flag that an enqueue or a dequeue may have.
pub const FLAG: u64 = 0x10;

/// What stands behind a record up to the next multiple of 128 bytes.
pub const PADDING: u8 = 0xff;

/// Magic, version, flags, serial and rid: the whole header of a filler, and the front of every other.
const RECORD: [Field; 5] = [
    Field { at: 0, width: 4 },
    Field { at: 4, width: 2 },
    Field { at: 6, width: 2 },
    Field { at: 8, width: 8 },
    Field { at: 16, width: 8 },
];

/// The same and one number more: the header of a commit and of an abort.
const RECORD_AND_ONE: [Field; 6] = [
    Field { at: 0, width: 4 },
    Field { at: 4, width: 2 },
    Field { at: 6, width: 2 },
    Field { at: 8, width: 8 },
    Field { at: 16, width: 8 },
    Field { at: 24, width: 8 },
];

/// The same and two numbers more: the header of an enqueue and of a dequeue.
const RECORD_AND_TWO: [Field; 7] = [
    Field { at: 0, width: 4 },
    Field { at: 4, width: 2 },
    Field { at: 6, width: 2 },
    Field { at: 8, width: 8 },
    Field { at: 16, width: 8 },
    Field { at: 24, width: 8 },
    Field { at: 32, width: 8 },
];

/// The magic inverted, the checksum, the serial and the rid.
const TAIL: [Field; 4] = [
    Field { at: 0, width: 4 },
    Field { at: 4, width: 4 },
    Field { at: 8, width: 8 },
    Field { at: 16, width: 8 },
];

/// The table of a filler's header, and of the front of every other.
pub fn record_table() -> Layout<5>
    ensures exact { result ≡ record { total = 24; fields = RECORD } }
{
    table(24, RECORD)
}

/// The table of the header of a commit and of an abort.
pub fn one_more_table() -> Layout<6>
    ensures exact { result ≡ record { total = 32; fields = RECORD_AND_ONE } }
{
    table(32, RECORD_AND_ONE)
}

/// The table of the header of an enqueue and of a dequeue.
pub fn two_more_table() -> Layout<7>
    ensures exact { result ≡ record { total = 40; fields = RECORD_AND_TWO } }
{
    table(40, RECORD_AND_TWO)
}

/// The table of a tail.
pub fn tail_table() -> Layout<4>
    ensures exact { result ≡ record { total = 24; fields = TAIL } }
{
    table(24, TAIL)
}

/// The table of fields that are one.
fn table<const N: usize>(total: usize, fields: [Field; N]) -> Layout<N>
    requires one { IsTrue (is_table total fields) }
    ensures exact { result ≡ record { total = total; fields = fields.entry } }
{
    Layout::checked(total, fields).unwrap()
}

/// The flags of a header.
pub fn flags_of(flagged: bool) -> u64
    ensures exact { result ≡ flags flagged }
{
    if flagged { FLAG } else { 0 }
}
