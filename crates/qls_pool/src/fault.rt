// Why no file could be taken.
use qls_site::{DrawError, SiteError};

/// Why no file could be taken.
#[derive(Clone, Copy, Debug, PartialEq, Eq)]
pub enum TakeFault {
    /// A call on the site failed. It comes only where the site's count of faults rose in this call.
    Failed,
    /// No serial could be drawn. It comes only where the serials' count of faults rose in this call.
    Draw,
    /// The pool is empty, and no id below 2^62 is left for a new file. No call was made.
    Spent,
    /// Want of memory. The site and the pool are as they were.
    Memory,
}

impl From<SiteError> for TakeFault {
    ghost use Rattle.std.specs.Prelude.{◌≡◌};
    ghost use Rattle.qls_pool.specs.Taking.{fault_of_site};

    ghost from_gives = { λ error fault. fault ≡ fault_of_site error };

    fn from(error: SiteError) -> TakeFault {
        match error {
            SiteError::Failed => TakeFault::Failed,
            SiteError::Memory => TakeFault::Memory,
        }
    }
}

impl From<DrawError> for TakeFault {
    ghost use Rattle.std.specs.Prelude.{◌≡◌};
    ghost use Rattle.qls_pool.specs.declared.fault.TakeFault.TheVariants.{Draw};

    ghost from_gives = { λ _ fault. fault ≡ Draw };

    fn from(_error: DrawError) -> TakeFault {
        TakeFault::Draw
    }
}
