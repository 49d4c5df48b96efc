//! Serials, from the system's random numbers.
ghost use Rattle.std.specs.Prelude.{◌≡◌, None, IfOk};

use qls_model::NoMemory;
use qls_site::{DrawError, Serials};
use std::fs;
use std::io::{self, Read};
use std::rt::Runtime;

const RANDOM: &str = "/dev/urandom";

/// Random numbers of 64 bits. It doesn't tell what was drawn.
#[derive(Drop)]
pub struct HostSerials<H: Runtime> {
    rt: H,
    random: Option<H::File>,
    faults: u64,
}

impl<H: Runtime> HostSerials<H> {
    /// Opens nothing yet. Want of memory comes where the runtime can't be cloned.
    pub fn new(rt: &H) -> Result<HostSerials<H>, NoMemory>
        ensures fresh { IfOk result (λ serials. ⟦<HostSerials<H> as Serials>⟧.faults serials ≡ 0) }
    {
        Ok(HostSerials {
            rt: rt.clone()?,
            random: None,
            faults: 0,
        })
    }
}

// The first draw opens the device, and later ones read on.
fn draw_from<H: Runtime>(rt: &H, random: &mut Option<H::File>) -> io::Result<u64> {
    if random.is_none() {
        *random = Some(fs::open(rt, RANDOM)?);
    }
    let Some(random) = random else {
        return Err(io::Error::from(io::ErrorKind::NotFound));
    };
    let mut bytes = [0u8; 8];
    random.read_exact(&mut bytes)?;
    Ok(u64::from_le_bytes(bytes))
}

impl<H: Runtime> Serials for HostSerials<H> {
    ghost drawn = { λ _. None };

    ghost faults = { λ s. s.faults };

    /// The next 8 bytes of the device, little-endian.
    fn draw(&mut self) -> Result<u64, DrawError> {
        match draw_from(&self.rt, &mut self.random) {
            Ok(serial) => Ok(serial),
            Err(_error) => {
                self.faults = self.faults.saturating_add(1);
                Err(DrawError::Failed)
            }
        }
    }
}
