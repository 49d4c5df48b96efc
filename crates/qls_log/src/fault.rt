// Why a log was ended.
use qls_model::NoMemory;
use qls_pool::TakeFault;
use qls_site::SiteError;
use std::alloc::{AllocError, AllocFailed};

/// Why a call on a log did not do what it was asked for. The log is ended then.
#[derive(Clone, Copy, Debug, PartialEq, Eq)]
pub enum LogError {
    /// A call on the site failed. It comes only where the site's count of faults rose in this call.
    Failed,
    /// No serial could be drawn. It comes only where the serials' count of faults rose in this call.
    Draw,
    /// A file must be taken, and its number or its id would be 2^62.
    Spent,
    /// Want of memory.
    Memory,
}

impl From<SiteError> for LogError {
    ghost use Rattle.std.specs.Prelude.{◌≡◌};
    ghost use Rattle.qls_log.specs.Faults.{fault_of_site};

    ghost from_gives = { λ error fault. fault ≡ fault_of_site error };

    fn from(error: SiteError) -> LogError {
        match error {
            SiteError::Failed => LogError::Failed,
            SiteError::Memory => LogError::Memory,
        }
    }
}

impl From<TakeFault> for LogError {
    ghost use Rattle.std.specs.Prelude.{◌≡◌};
    ghost use Rattle.qls_log.specs.Faults.{fault_of_take};

    ghost from_gives = { λ error fault. fault ≡ fault_of_take error };

    fn from(error: TakeFault) -> LogError {
        match error {
            TakeFault::Failed => LogError::Failed,
            TakeFault::Draw => LogError::Draw,
            TakeFault::Spent => LogError::Spent,
            TakeFault::Memory => LogError::Memory,
        }
    }
}

impl From<NoMemory> for LogError {
    ghost use Rattle.std.specs.Prelude.{◌≡◌};
    ghost use Rattle.qls_log.specs.declared.fault.LogError.TheVariants.{Memory};

    ghost from_gives = { λ _ fault. fault ≡ Memory };

    fn from(_refused: NoMemory) -> LogError {
        LogError::Memory
    }
}

impl From<AllocError> for LogError {
    ghost use Rattle.std.specs.Prelude.{◌≡◌};
    ghost use Rattle.qls_log.specs.declared.fault.LogError.TheVariants.{Memory};

    ghost from_gives = { λ _ fault. fault ≡ Memory };

    fn from(_refused: AllocError) -> LogError {
        LogError::Memory
    }
}

impl<T: Drop> From<AllocFailed<T>> for LogError {
    ghost use Rattle.std.specs.Prelude.{◌≡◌};
    ghost use Rattle.qls_log.specs.declared.fault.LogError.TheVariants.{Memory};

    ghost from_gives = { λ _ fault. fault ≡ Memory };

    fn from(_refused: AllocFailed<T>) -> LogError {
        LogError::Memory
    }
}
