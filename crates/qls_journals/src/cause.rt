// What ends the open journals.
use qls_log::LogError;
use qls_model::{NoMemory, Refusal};
use qls_queue::QueueError;
use std::alloc::{AllocError, AllocFailed};

/// What ended the open journals, and with them a store.
#[derive(Clone, Copy, Debug, PartialEq, Eq)]
pub enum Cause {
    /// A call on the site failed. It comes only where the site's count of faults rose in this call.
    Failed,
    /// No serial could be drawn. It comes only where the serials' count of faults rose in this call.
    Draw,
    /// A file must be taken, and its number or its id would be 2^62.
    Spent,
    /// Want of memory.
    Memory,
}

impl From<NoMemory> for Cause {
    ghost use Rattle.std.specs.Prelude.{◌≡◌};
    ghost use Rattle.qls_journals.specs.declared.cause.Cause.TheVariants.{Memory};

    ghost from_gives = { λ _ cause. cause ≡ Memory };

    fn from(_refused: NoMemory) -> Cause {
        Cause::Memory
    }
}

impl From<AllocError> for Cause {
    ghost use Rattle.std.specs.Prelude.{◌≡◌};
    ghost use Rattle.qls_journals.specs.declared.cause.Cause.TheVariants.{Memory};

    ghost from_gives = { λ _ cause. cause ≡ Memory };

    fn from(_refused: AllocError) -> Cause {
        Cause::Memory
    }
}

impl<T: Drop> From<AllocFailed<T>> for Cause {
    ghost use Rattle.std.specs.Prelude.{◌≡◌};
    ghost use Rattle.qls_journals.specs.declared.cause.Cause.TheVariants.{Memory};

    ghost from_gives = { λ _ cause. cause ≡ Memory };

    fn from(_refused: AllocFailed<T>) -> Cause {
        Cause::Memory
    }
}

ghost use Rattle.std.specs.Prelude.{◌≡◌, true, Err};
ghost use Rattle.qls_queue.specs.Faults.{is_fault};
ghost use Rattle.qls_journals.specs.Errors.{by_error, cause_by};

/// What a log's error is.
pub(crate) fn cause_of_log(error: LogError) -> Cause
    ensures exact { result ≡ cause_by error }
{
    match error {
        LogError::Failed => Cause::Failed,
        LogError::Draw => Cause::Draw,
        LogError::Spent => Cause::Spent,
        LogError::Memory => Cause::Memory,
    }
}

/// What a queue's error is that is no refusal.
pub(crate) fn cause_of_queue(error: QueueError) -> Cause
    requires fault { is_fault error ≡ true }
    ensures exact { by_error error ≡ Err result }
{
    match error {
        QueueError::Failed => Cause::Failed,
        QueueError::Draw => Cause::Draw,
        QueueError::Spent => Cause::Spent,
        _ => Cause::Memory,
    }
}

/// A queue's refusal, or what its error is.
pub(crate) fn refusal_or_cause(error: QueueError) -> Result<Refusal, Cause>
    ensures exact { result ≡ by_error error }
{
    match error {
        QueueError::Unknown => Ok(Refusal::Message),
        QueueError::Locked => Ok(Refusal::Locked),
        QueueError::Numbers => Ok(Refusal::Spent),
        _ => Err(cause_of_queue(error)),
    }
}
