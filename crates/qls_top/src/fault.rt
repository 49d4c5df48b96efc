//! What ends a run before its script is read to the end.
use qls_look::OpenFault;
use qls_model::NoMemory;
use qls_site::{DrawError, SiteError, SourceError};
use qls_store::Cause;
use std::alloc::{AllocError, AllocFailed};

/// What ended a run; each has a status of its own.
#[derive(Clone, Copy, Debug, PartialEq, Eq)]
pub enum Fault {
    /// The store breaks a damage rule, and the line of the first that fails was answered.
    Damaged,
    /// The script could not be read.
    Source,
    /// A call on the site failed.
    Site,
    /// Memory was wanting.
    Memory,
    /// The script has more bytes than its limit.
    TooLong,
    /// No serial could be drawn.
    Draw,
    /// A command or the opening needed a further file, and no number or epoch was left for it, or neither an empty file nor
    /// an id; or a command needed a record id of the prepared list, and the last one was given.
    Spent,
}

impl Fault {
    ghost use Rattle.std.specs.Prelude.{◌≡◌};
    ghost use Rattle.qls_top.specs.Status.{status_of};

    /// The status that the program answers.
    pub fn status(self) -> u8
        ensures status { result ≡ status_of self }
    {
        match self {
            Fault::Damaged => 3,
            Fault::Source => 4,
            Fault::Site => 5,
            Fault::Memory => 6,
            Fault::TooLong => 7,
            Fault::Draw => 8,
            Fault::Spent => 9,
        }
    }
}

impl From<NoMemory> for Fault {
    ghost use Rattle.std.specs.Prelude.{◌≡◌};
    ghost use Rattle.qls_top.specs.declared.fault.Fault.TheVariants.{Memory};

    ghost from_gives = { λ _ fault. fault ≡ Memory };

    fn from(_error: NoMemory) -> Fault {
        Fault::Memory
    }
}

impl From<AllocError> for Fault {
    ghost use Rattle.std.specs.Prelude.{◌≡◌};
    ghost use Rattle.qls_top.specs.declared.fault.Fault.TheVariants.{Memory};

    ghost from_gives = { λ _ fault. fault ≡ Memory };

    fn from(_error: AllocError) -> Fault {
        Fault::Memory
    }
}

impl<T: Drop> From<AllocFailed<T>> for Fault {
    ghost use Rattle.std.specs.Prelude.{◌≡◌};
    ghost use Rattle.qls_top.specs.declared.fault.Fault.TheVariants.{Memory};

    ghost from_gives = { λ _ fault. fault ≡ Memory };

    fn from(_error: AllocFailed<T>) -> Fault {
        Fault::Memory
    }
}

impl From<SourceError> for Fault {
    ghost use Rattle.std.specs.Prelude.{◌≡◌};
    ghost use Rattle.qls_top.specs.declared.fault.Fault.TheVariants.{Source};

    ghost from_gives = { λ _ fault. fault ≡ Source };

    fn from(_error: SourceError) -> Fault {
        Fault::Source
    }
}

impl From<DrawError> for Fault {
    ghost use Rattle.std.specs.Prelude.{◌≡◌};
    ghost use Rattle.qls_top.specs.declared.fault.Fault.TheVariants.{Draw};

    ghost from_gives = { λ _ fault. fault ≡ Draw };

    fn from(_error: DrawError) -> Fault {
        Fault::Draw
    }
}

impl From<SiteError> for Fault {
    ghost use Rattle.std.specs.Prelude.{◌≡◌};
    ghost use Rattle.qls_top.specs.Status.{fault_of_site};

    ghost from_gives = { λ error fault. fault ≡ fault_of_site error };

    fn from(error: SiteError) -> Fault {
        match error {
            SiteError::Failed => Fault::Site,
            SiteError::Memory => Fault::Memory,
        }
    }
}

impl From<Cause> for Fault {
    ghost use Rattle.std.specs.Prelude.{◌≡◌};
    ghost use Rattle.qls_top.specs.Status.{fault_of_cause};

    ghost from_gives = { λ cause fault. fault ≡ fault_of_cause cause };

    fn from(cause: Cause) -> Fault {
        match cause {
            Cause::Failed => Fault::Site,
            Cause::Draw => Fault::Draw,
            Cause::Spent => Fault::Spent,
            Cause::Memory => Fault::Memory,
        }
    }
}

impl From<OpenFault> for Fault {
    ghost use Rattle.std.specs.Prelude.{◌≡◌};
    ghost use Rattle.qls_top.specs.Status.{fault_of_opening};

    ghost from_gives = { λ error fault. fault ≡ fault_of_opening error };

    fn from(error: OpenFault) -> Fault {
        match error {
            OpenFault::Failed => Fault::Site,
            OpenFault::Draw => Fault::Draw,
            OpenFault::Spent => Fault::Spent,
            OpenFault::Memory => Fault::Memory,
            OpenFault::Damaged { .. } => Fault::Damaged,
        }
    }
}
