//! The values of single words.
ghost use Rattle.std.specs.Prelude.{◌≡◌, ◌<◌, ◌==◌, ◌&&◌, nat_lt, slice_index, Some, None, IfOk, length};
ghost use Rattle.std.specs.Str.{all_ascii_digits};
ghost use Rattle.std.specs.List.{list_all};
ghost use Rattle.qls_model.specs.Limits.{is_name_byte};
ghost use Rattle.qls_command.specs.Lines.{name_of_word, number_of_word, message_number as message_number_of_word, pool_of_words, xid_of_word, body_of_word, digits_value, where_true};

use hex::FromHexError;
use qls_model::{Bytes, Name, NoMemory, PoolId, Xid};
use std::alloc::Global;

/// The most digits of a number: 2^62 - 1 has 19.
const NUMBER_DIGITS: usize = 19;

/// The greatest number of a message.
const NUMBER_LIMIT: u64 = (1 << 62) - 1;

/// The most bytes of an xid.
const XID_LIMIT: usize = 128;

/// The most bytes of a body.
const BODY_LIMIT: usize = 1_048_576;

/// Whether each byte is one from `!` to `~`.
fn is_graphic(word: &[u8]) -> bool
    ensures { result ≡ list_all is_name_byte word.now }
{
    word.iter().all(|byte| b'!' <= *byte && *byte <= b'~')
}

/// The queue name that a word is: 1 to 200 bytes, each from `!` to `~`.
pub fn queue_name(word: &[u8]) -> Option<Name>
    ensures { result ≡ name_of_word word.now }
{
    if word.is_empty() || !is_graphic(word) {
        return None;
    }
    Name::new(word)
}

/// The number of decimal digits, at most 19 of them. None exactly where a byte is no digit.
fn digits(word: &[u8]) -> Option<u64>
    requires short { length word.now < 20 }
    ensures { result ≡ where_true (all_ascii_digits word.now) (digits_value word.now) }
{
    let mut value = 0;
    for byte in word {
        if !byte.is_ascii_digit() {
            return None;
        }
        value = 10 * value + u64::from(*byte - b'0');
    }
    Some(value)
}

/// The number whose decimal text the word is, without leading zeros and below 10^19.
fn number(word: &[u8]) -> Option<u64>
    ensures { result ≡ number_of_word word.now }
{
    if word.is_empty() || word.len() > NUMBER_DIGITS {
        return None;
    }
    if has_leading_zero(word) {
        return None;
    }
    digits(word)
}

/// Whether a zero stands before other digits.
fn has_leading_zero(word: &[u8]) -> bool
    ensures { result ≡ (nat_lt 1 (length word.now) && slice_index word.now 0 == 48) }
{
    word.len() > 1 && word[0] == b'0'
}

/// The number of a message, 1 to 2^62 - 1.
pub fn message_number(word: &[u8]) -> Option<u64>
    ensures { result ≡ message_number_of_word word.now }
{
    let number = number(word)?;
    if number < 1 || number > NUMBER_LIMIT {
        return None;
    }
    Some(number)
}

/// The pool of a word for the partition and one for the KiB.
pub fn pool(part: &[u8], kib: &[u8]) -> Option<PoolId>
    ensures { result ≡ pool_of_words part.now kib.now }
{
    let part = number(part)?;
    let kib = number(kib)?;
    PoolId::new(part, kib)
}

/// The xid that a word is: hex, of either case, of 1 to 128 bytes.
pub fn xid(word: &[u8]) -> Option<Xid>
    ensures { result ≡ xid_of_word word.now }
{
    let size = word.len() / 2;
    if size < 1 || size > XID_LIMIT {
        return None;
    }
    let mut bytes = [0; XID_LIMIT];
    let bytes = &mut bytes[..size];
    hex::decode_to_slice(word, bytes).ok()?;
    Xid::new(bytes)
}

/// The body that a word is: a dash for the empty one, else hex, of either case, of 1 to 1,048,576 bytes.
pub fn body(alloc: Global, word: &[u8]) -> Result<Option<Bytes>, NoMemory>
    ensures read { IfOk result (λ b. b ≡ body_of_word word.now) }
{
    if word == b"-".as_slice() {
        return Ok(Some(Bytes::new(alloc, &[])?));
    }
    let size = word.len() / 2;
    if size < 1 || size > BODY_LIMIT {
        return Ok(None);
    }
    match hex::decode(alloc, word) {
        Ok(bytes) => Ok(Some(Bytes::from_vec(bytes))),
        Err(FromHexError::OutOfMemory) => Err(NoMemory),
        Err(_) => Ok(None),
    }
}
