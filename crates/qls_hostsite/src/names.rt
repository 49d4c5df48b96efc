//! The names that mean something in a store's folders. All other names that are text are passed over.

/// How many digits an id has in a file's name, leading zeros included.
const ID_DIGITS: usize = 19;

/// The greatest id that such a name can have.
pub const LAST_ID: u64 = 9_999_999_999_999_999_999;

/// The ending of a file of the store.
pub const WHOLE: &str = ".qls";

/// The ending of a file that is being made.
pub const UNFINISHED: &str = ".new";

/// The id that a file's name says: exactly 19 digits and `.qls`. Any such id is taken, 0 too.
pub fn id_in(name: &str) -> Option<u64> {
    let digits = name.strip_suffix(WHOLE)?;
    if digits.len() != ID_DIGITS || !has_only_digits(digits) {
        return None;
    }
    digits.parse::<u64>().ok()
}

/// The number that a folder's name says: decimal without leading zeros, of 32 bits. 0 is taken.
pub fn number_in(name: &str) -> Option<u32> {
    if !has_only_digits(name) || (name.len() > 1 && name.starts_with('0')) {
        return None;
    }
    name.parse::<u32>().ok()
}

fn has_only_digits(text: &str) -> bool {
    text.bytes().all(|byte| byte.is_ascii_digit())
}
