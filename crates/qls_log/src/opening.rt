// What the files of one opening have in common.
ghost use Rattle.std.specs.Prelude.{◌≡◌};
ghost use Rattle.qls_log.specs.Logs.{header_for, capacity_in};

use qls_blocks::FreshFile;
use qls_filehdr::{FileHeader, JournalKind};
use qls_model::{Name, PoolId};

/// What the files of a journal have in common that are taken in one opening.
#[derive(Clone, Copy)]
pub(crate) struct Opening {
    pub(crate) kind: JournalKind,
    pub(crate) name: Name,
    /// The pool to which all files of the journal belong.
    pub(crate) home: PoolId,
    pub(crate) epoch: u64,
}

impl Opening {
    /// The header of a file with this serial and number, as a batch plans it.
    pub(crate) fn header(&self, serial: u64, number: u64, fresh: FreshFile) -> FileHeader
        ensures exact { result ≡ header_for self.now serial number fresh }
    {
        FileHeader {
            serial,
            rid: fresh.rid,
            part: self.home.part,
            kib: self.home.kib,
            first: fresh.first,
            number,
            epoch: self.epoch,
            kind: self.kind,
            name: self.name,
        }
    }

    /// How many bytes the data area of each file has.
    pub(crate) fn capacity(&self) -> u64
        ensures exact { result ≡ capacity_in self.now }
    {
        self.home.kib as u64 * 1024
    }
}
