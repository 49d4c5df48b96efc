//! Tables of numbers at fixed places, the lowest byte of each first.
ghost use Rattle.std.specs.Prelude.{◌≡◌, ◌≤◌, ◌<◌, ◌+◌, ◌^◌, ◌&&◌, ℕ, nat_le, length, slice_index, IsTrue};
ghost use Rattle.qls_shape.specs.Tables.{is_width, table_of, number_in, numbers_of, with_number, with_numbers, Fit, IsOutside};

use byteorder::{ByteOrder, LittleEndian};
use std::marker::Model;

/// For each width of a number, the step with that number's type and calls.
macro_rules! by_width {
    ($width:expr, $step:ident($($argument:expr),*)) => {
        match $width {
            2 => $step!(u16, read_u16, write_u16; $($argument),*),
            4 => $step!(u32, read_u32, write_u32; $($argument),*),
            _ => $step!(u64, read_u64, write_u64; $($argument),*),
        }
    };
}

macro_rules! get {
    ($number:ident, $read:ident, $write:ident; $bytes:expr) => {
        u64::from(LittleEndian::$read($bytes))
    };
}

macro_rules! put {
    ($number:ident, $read:ident, $write:ident; $bytes:expr, $value:expr) => {
        LittleEndian::$write($bytes, $value as $number)
    };
}

/// A number's place in a table, and its width, both in bytes.
#[derive(Clone, Copy, Debug, PartialEq, Eq)]
pub struct Field {
    pub at: usize,
    pub width: usize,
}

/// A table of `N` numbers of 2, 4 or 8 bytes each: in rising order, disjoint, within the table's length.
#[derive(Drop)]
pub struct Layout<const N: usize> {
    total: usize,
    fields: [Field; N],
}

impl<const N: usize> Model for Layout<N> {
    ghost use Rattle.std.specs.Prelude.{◌≡◌, length, IsTrue};
    ghost use Rattle.qls_shape.specs.Tables.{Table, is_table};

    ghost Value = { Table };

    ghost view = { λ a. record { total = a.total; fields = a.fields } };

    ghost invariant = { λ a. IsTrue (is_table a.total a.fields) };
}

impl<const N: usize> Layout<N> {
    /// The table of these fields in `total` bytes. None exactly where a width isn't 2, 4 or 8, or the fields
    /// don't rise, or overlap, or pass the total.
    pub fn checked(total: usize, fields: [Field; N]) -> Option<Layout<N>>
        ensures exact { result ≡ table_of total fields.entry }
    {
        let mut end = 0;
        for field in &fields {
            if !follows(*field, end, total) {
                return None;
            }
            end = field.at + field.width;
        }
        Some(Layout { total, fields })
    }

    /// The numbers in the fields of `from`, which has at least the table's length.
    pub fn get_fields(&self, from: &[u8]) -> [u64; N]
        requires room { self.now.total ≤ length from.now }
        ensures exact { result ≡ numbers_of self.now.fields from.now }
        ensures put_back { with_numbers self.now.fields result from.now ≡ from.now }
    {
        let mut numbers = [0; N];
        for i in 0..N {
            numbers[i] = number(self.fields[i], from);
        }
        numbers
    }

    /// Puts the numbers into the fields of `into`, which has at least the table's length. All other bytes stay.
    /// Each number fits its field.
    pub fn put_fields(&self, values: &[u64; N], into: &mut [u8])
        requires room { self.now.total ≤ length into.old }
        requires fit { Fit self.now.fields values.now }
        ensures exact { into.new ≡ with_numbers self.now.fields values.now into.old }
        ensures got { numbers_of self.now.fields into.new ≡ values.now }
        ensures others { (i : ℕ) → IsOutside i self.now.fields → slice_index into.new i ≡ slice_index into.old i }
    {
        for i in 0..N {
            put_number(self.fields[i], values[i], into);
        }
    }
}

/// Whether a field has a width, begins at `from` at the earliest and ends within the total.
fn follows(field: Field, from: usize, total: usize) -> bool
    ensures exact { result ≡ (is_width field.width && nat_le from field.at && nat_le (field.at + field.width) total) }
{
    matches!(field.width, 2 | 4 | 8)
        && from <= field.at
        && field.at <= total
        && field.width <= total - field.at
}

/// The number in a field.
fn number(field: Field, from: &[u8]) -> u64
    requires width { IsTrue (is_width field.width) }
    requires room { field.at + field.width ≤ length from.now }
    ensures exact { result ≡ number_in from.now field }
{
    let bytes = &from[field.at..];
    by_width!(field.width, get(bytes))
}

/// Puts a number into a field.
fn put_number(field: Field, value: u64, into: &mut [u8])
    requires width { IsTrue (is_width field.width) }
    requires room { field.at + field.width ≤ length into.old }
    requires fits { value < 256 ^ field.width }
    ensures exact { into.new ≡ with_number field value into.old }
{
    let bytes = &mut into[field.at..];
    by_width!(field.width, put(bytes, value))
}
