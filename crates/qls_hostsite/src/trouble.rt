//! Failures of the host, before they are counted.
ghost use Rattle.std.specs.Prelude.{◌≡◌, None};
ghost use Rattle.qls_hostsite.specs.declared.trouble.Trouble.TheVariants.{Host, Memory};
ghost use Rattle.qls_hostsite.specs.Faults.{count_after, tally_after, error_of, answer_of};
ghost use Rattle.qls_site.specs.Content.{Causes, CountsOne};

use qls_model::NoMemory;
use qls_site::SiteError;
use std::alloc::{AllocError, AllocFailed};
use std::io;

/// Why a call couldn't be done.
#[derive(Clone, Copy, Debug, PartialEq, Eq)]
pub enum Trouble {
    Host,
    Memory,
}

impl From<AllocError> for Trouble {
    ghost from_gives = { λ _ trouble. trouble ≡ Memory };

    fn from(_error: AllocError) -> Trouble {
        Trouble::Memory
    }
}

impl From<NoMemory> for Trouble {
    ghost from_gives = { λ _ trouble. trouble ≡ Memory };

    fn from(_error: NoMemory) -> Trouble {
        Trouble::Memory
    }
}

impl<T: Drop> From<AllocFailed<T>> for Trouble {
    ghost from_gives = { λ _ trouble. trouble ≡ Memory };

    fn from(_error: AllocFailed<T>) -> Trouble {
        Trouble::Memory
    }
}

// A call of the system may have been done in part when the system wants memory, so that is no want
// of memory of the program's own.
impl From<io::Error> for Trouble {
    ghost from_gives = { λ _ trouble. trouble ≡ Host };

    fn from(_error: io::Error) -> Trouble {
        Trouble::Host
    }
}

/// The failure of a listing, which changes nothing and makes texts of its own.
pub fn in_listing(error: io::Error) -> Trouble {
    if error.kind() == io::ErrorKind::OutOfMemory {
        Trouble::Memory
    } else {
        Trouble::Host
    }
}

/// Counts an error, of either kind. The count stays at its greatest value.
pub fn counted<T>(faults: &mut u64, outcome: Result<T, Trouble>) -> Result<T, SiteError>
    ensures cause { Causes faults.old faults.new result }
    ensures counted { faults.new ≡ count_after outcome faults.old }
    ensures answered { result ≡ answer_of outcome }
{
    match outcome {
        Ok(value) => Ok(value),
        Err(trouble) => {
            *faults = faults.saturating_add(1);
            Err(answer_to(trouble))
        }
    }
}

/// Counts a call, but for one that wants memory and so did nothing. The count stays at its greatest
/// value.
pub fn tally<T>(count: &mut u64, outcome: &Result<T, Trouble>)
    ensures exact { count.new ≡ tally_after outcome.now count.old }
    ensures counts { CountsOne None (answer_of outcome.now) count.old count.new }
{
    match outcome {
        Err(Trouble::Memory) => {}
        _ => *count = count.saturating_add(1),
    }
}

fn answer_to(trouble: Trouble) -> SiteError
    ensures { result ≡ error_of trouble }
{
    match trouble {
        Trouble::Host => SiteError::Failed,
        Trouble::Memory => SiteError::Memory,
    }
}
