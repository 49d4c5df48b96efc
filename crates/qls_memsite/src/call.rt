// The log of calls.
use qls_model::Bytes;
use qls_site::Place;

/// A call as the log keeps it. `failed` says that it was answered Failed, so that it happened or not.
#[derive(Drop)]
pub enum Call {
    /// Nothing changed: a listing, a read, or a sync that failed.
    Look,
    Write {
        id: u64,
        at: u64,
        bytes: Bytes,
    },
    Sync {
        id: u64,
    },
    Create {
        id: u64,
        part: u16,
        kib: u32,
        failed: bool,
    },
    Relocate {
        id: u64,
        to: Place,
        failed: bool,
    },
    Answer {
        bytes: Bytes,
        failed: bool,
    },
}
