// Why a read gave nothing.
use qls_model::NoMemory;
use qls_site::SiteError;

/// Why no record was read. The reader is as it was.
#[derive(Clone, Copy, Debug, PartialEq, Eq)]
pub enum ReadFault {
    /// A read of the site failed. It comes only where the site's count of faults rose in this call.
    Failed,
    /// Want of memory.
    Memory,
}

impl From<SiteError> for ReadFault {
    ghost use Rattle.std.specs.Prelude.{◌≡◌};
    ghost use Rattle.qls_site.specs.declared.site.SiteError.TheVariants as site;
    ghost use Rattle.qls_reader.specs.declared.fault.ReadFault.TheVariants.{Failed};

    ghost from_gives = { λ error fault. fault ≡ Failed → error ≡ site.Failed };

    fn from(error: SiteError) -> ReadFault {
        match error {
            SiteError::Failed => ReadFault::Failed,
            SiteError::Memory => ReadFault::Memory,
        }
    }
}

impl From<NoMemory> for ReadFault {
    ghost use Rattle.std.specs.Prelude.{◌≡◌};
    ghost use Rattle.qls_reader.specs.declared.fault.ReadFault.TheVariants.{Memory};

    ghost from_gives = { λ _ fault. fault ≡ Memory };

    fn from(_refused: NoMemory) -> ReadFault {
        ReadFault::Memory
    }
}
