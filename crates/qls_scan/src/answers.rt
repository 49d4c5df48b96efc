// What a scan finds.
use qls_filehdr::{FileHeader, JournalKind, Rule};
use qls_model::{Name, NoMemory, Seq};
use qls_site::{FileAt, SiteError};
use std::alloc::AllocFailed;
use thiserror::Error;

/// A file in use, with what its header says.
#[derive(Drop)]
pub struct HeadedFile {
    pub id: u64,
    pub header: FileHeader,
}

/// The files of one journal: all files in use of this kind and name, by number.
#[derive(Drop)]
pub struct JournalFiles {
    pub kind: JournalKind,
    /// The queue's name; empty for the prepared list.
    pub name: Name,
    pub files: Seq<HeadedFile>,
}

/// What stands on a site.
#[derive(Drop)]
pub struct Found {
    /// The greatest id of all files, empty ones too; 0 where there is no file.
    pub greatest: u64,
    /// The empty files, by id.
    pub empties: Seq<FileAt>,
    /// The journals that have a file: the prepared list first, then the queues in byte order of their names.
    pub journals: Seq<JournalFiles>,
}

/// Why a scan found nothing. Nothing changed on the site.
#[derive(Clone, Copy, Debug, PartialEq, Eq, Error)]
pub enum ScanFault {
    /// A call on the site failed. It comes only where the site's count of faults rose in this call.
    #[error("failed")]
    Failed,
    /// Want of memory.
    #[error("want of memory")]
    Memory,
    /// The first rule that fails, and the id of the file where it does.
    #[error("damaged")]
    Damaged { file: u64, rule: Rule },
}

impl From<SiteError> for ScanFault {
    ghost use Rattle.std.specs.Prelude.{◌≡◌};
    ghost use Rattle.qls_scan.specs.Found.{fault_of};

    ghost from_gives = { λ e f. f ≡ fault_of e };

    fn from(error: SiteError) -> ScanFault {
        match error {
            SiteError::Failed => ScanFault::Failed,
            SiteError::Memory => ScanFault::Memory,
        }
    }
}

impl From<NoMemory> for ScanFault {
    ghost use Rattle.std.specs.Prelude.{◌≡◌};
    ghost use Rattle.qls_scan.specs.declared.answers.ScanFault.TheVariants.{Memory};

    ghost from_gives = { λ _ f. f ≡ Memory };

    fn from(_refused: NoMemory) -> ScanFault {
        ScanFault::Memory
    }
}

impl<T: Drop> From<AllocFailed<T>> for ScanFault {
    ghost use Rattle.std.specs.Prelude.{◌≡◌};
    ghost use Rattle.qls_scan.specs.declared.answers.ScanFault.TheVariants.{Memory};

    ghost from_gives = { λ _ f. f ≡ Memory };

    fn from(_refused: AllocFailed<T>) -> ScanFault {
        ScanFault::Memory
    }
}

/// The id of a file, and the rule that fails there.
pub(crate) type Damage = (u64, Rule);

impl From<Damage> for ScanFault {
    ghost use Rattle.std.specs.Prelude.{◌≡◌};
    ghost use Rattle.qls_scan.specs.declared.answers.ScanFault.TheVariants.{Damaged};

    ghost from_gives = { λ e f. f ≡ Damaged e.0 e.1 };

    fn from((file, rule): Damage) -> ScanFault {
        ScanFault::Damaged { file, rule }
    }
}
