// Why a store wasn't opened or looked at.
use qls_filehdr::Rule;
use qls_model::NoMemory;
use qls_reading::LogFault;
use qls_scan::ScanFault;

/// Why a store was not looked at, or not opened.
#[derive(Clone, Copy, Debug, PartialEq, Eq)]
pub enum OpenFault {
    /// A call on the site failed. It comes only where the site's count of faults rose in this call.
    Failed,
    /// No serial could be drawn; never of a look.
    Draw,
    /// A counter met its end; never of a look.
    Spent,
    /// Want of memory.
    Memory,
    /// The first damage rule that fails, and the id of the file where it does.
    Damaged { file: u64, rule: Rule },
}

impl From<ScanFault> for OpenFault {
    ghost use Rattle.std.specs.Prelude.{◌≡◌};
    ghost use Rattle.qls_look.specs.Looking.{of_scan};

    ghost from_gives = { λ fault answer. answer ≡ of_scan fault };

    fn from(fault: ScanFault) -> OpenFault {
        match fault {
            ScanFault::Failed => OpenFault::Failed,
            ScanFault::Memory => OpenFault::Memory,
            ScanFault::Damaged { file, rule } => OpenFault::Damaged { file, rule },
        }
    }
}

impl From<LogFault> for OpenFault {
    ghost use Rattle.std.specs.Prelude.{◌≡◌};
    ghost use Rattle.qls_look.specs.Looking.{of_log};

    ghost from_gives = { λ fault answer. answer ≡ of_log fault };

    fn from(fault: LogFault) -> OpenFault {
        match fault {
            LogFault::Failed => OpenFault::Failed,
            LogFault::Memory => OpenFault::Memory,
            LogFault::Damaged { file, rule } => OpenFault::Damaged { file, rule },
        }
    }
}

impl From<NoMemory> for OpenFault {
    ghost use Rattle.std.specs.Prelude.{◌≡◌};
    ghost use Rattle.qls_look.specs.declared.fault.OpenFault.TheVariants.{Memory};

    ghost from_gives = { λ _ answer. answer ≡ Memory };

    fn from(_refused: NoMemory) -> OpenFault {
        OpenFault::Memory
    }
}
