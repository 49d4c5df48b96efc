// Why a journal wasn't read.
use qls_filehdr::Rule;
use qls_model::NoMemory;
use qls_reader::ReadFault;

/// Why a journal was not read whole. Nothing changed on the site.
#[derive(Clone, Copy, Debug, PartialEq, Eq)]
pub enum LogFault {
    /// A read of the site failed. It comes only where the site's count of faults rose in this call.
    Failed,
    /// Want of memory: for a record, or for a count of fillers that doesn't fit 64 bits.
    Memory,
    /// The first rule on the reading that fails, and the id of the file where it does.
    Damaged { file: u64, rule: Rule },
}

impl From<ReadFault> for LogFault {
    ghost use Rattle.std.specs.Prelude.{◌≡◌};
    ghost use Rattle.qls_reading.specs.Tested.{fault_of};

    ghost from_gives = { λ e f. f ≡ fault_of e };

    fn from(error: ReadFault) -> LogFault {
        match error {
            ReadFault::Failed => LogFault::Failed,
            ReadFault::Memory => LogFault::Memory,
        }
    }
}

impl From<NoMemory> for LogFault {
    ghost use Rattle.std.specs.Prelude.{◌≡◌};
    ghost use Rattle.qls_reading.specs.declared.fault.LogFault.TheVariants.{Memory};

    ghost from_gives = { λ _ f. f ≡ Memory };

    fn from(_refused: NoMemory) -> LogFault {
        LogFault::Memory
    }
}

/// The id of a file, and the rule that fails there.
pub(crate) type Damage = (u64, Rule);

impl From<Damage> for LogFault {
    ghost use Rattle.std.specs.Prelude.{◌≡◌};
    ghost use Rattle.qls_reading.specs.declared.fault.LogFault.TheVariants.{Damaged};

    ghost from_gives = { λ e f. f ≡ Damaged e.0 e.1 };

    fn from((file, rule): Damage) -> LogFault {
        LogFault::Damaged { file, rule }
    }
}
