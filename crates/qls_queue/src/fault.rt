// Why a queue did not do what it was asked for.
use qls_log::LogError;
use qls_model::NoMemory;

/// Why a call on a queue did not do what it was asked for. The first three are refusals, and leave all as it was; after
/// each other one of a call that writes the queue is ended.
#[derive(Clone, Copy, Debug, PartialEq, Eq)]
pub enum QueueError {
    /// No message has that number.
    Unknown,
    /// The message is coming or going.
    Locked,
    /// The last number is 2^62 - 1.
    Numbers,
    /// A call on the site failed. It comes only where the site's count of faults rose in this call.
    Failed,
    /// No serial could be drawn. It comes only where the serials' count of faults rose in this call.
    Draw,
    /// A file must be taken, and its number or its id would be 2^62.
    Spent,
    /// Want of memory.
    Memory,
}

impl From<LogError> for QueueError {
    ghost use Rattle.std.specs.Prelude.{◌≡◌};
    ghost use Rattle.qls_queue.specs.Faults.{fault_of_log};

    ghost from_gives = { λ error fault. fault ≡ fault_of_log error };

    fn from(error: LogError) -> QueueError {
        match error {
            LogError::Failed => QueueError::Failed,
            LogError::Draw => QueueError::Draw,
            LogError::Spent => QueueError::Spent,
            LogError::Memory => QueueError::Memory,
        }
    }
}

impl From<NoMemory> for QueueError {
    ghost use Rattle.std.specs.Prelude.{◌≡◌};
    ghost use Rattle.qls_queue.specs.declared.fault.QueueError.TheVariants.{Memory};

    ghost from_gives = { λ _ fault. fault ≡ Memory };

    fn from(_refused: NoMemory) -> QueueError {
        QueueError::Memory
    }
}
