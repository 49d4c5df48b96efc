//! The script, from standard input.
ghost use Rattle.std.specs.Prelude.{◌≡◌, None, IfOk};
ghost use Rattle.std.specs.Io.{ReadsAtMost};

use qls_model::NoMemory;
use qls_site::{Source, SourceError};
use std::io::{self, ErrorKind, Read};
use std::rt::Runtime;

/// Standard input. It tells nothing of what is left.
#[derive(Drop)]
pub struct HostSource<H: Runtime> {
    input: H::Reader,
    faults: u64,
}

impl<H: Runtime> HostSource<H> {
    /// Reads nothing yet. Want of memory comes where the runtime can't be cloned.
    pub fn new(rt: &H) -> Result<HostSource<H>, NoMemory>
        ensures fresh { IfOk result (λ source. ⟦<HostSource<H> as Source>⟧.faults source ≡ 0) }
    {
        let rt = rt.clone()?;
        Ok(HostSource {
            input: rt.reader(),
            faults: 0,
        })
    }
}

// One read of the system that a signal doesn't end.
fn read_some(input: &mut impl Read, into: &mut [u8]) -> io::Result<usize>
    ensures { ReadsAtMost result into.new }
{
    for _ in 0..u64::MAX {
        match input.read(into) {
            Err(error) if error.kind() == ErrorKind::Interrupted => {}
            outcome => return outcome,
        }
    }
    Err(io::Error::from(ErrorKind::Interrupted))
}

impl<H: Runtime> Source for HostSource<H> {
    ghost left = { λ _. None };

    ghost faults = { λ s. s.faults };

    /// One read of standard input, of at most the length of `into`, in bytes.
    fn read(&mut self, into: &mut [u8]) -> Result<usize, SourceError> {
        match read_some(&mut self.input, into) {
            Ok(count) => Ok(count),
            Err(_error) => {
                self.faults = self.faults.saturating_add(1);
                Err(SourceError::Failed)
            }
        }
    }
}
