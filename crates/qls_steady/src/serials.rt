// Serials by counting of which no draw fails.
ghost use Rattle.std.specs.Prelude.{◌≡◌};
ghost use Rattle.qls_memsite.specs.Serials.{failing_of};

use qls_memsite::MemSerials;
use qls_site::{DrawError, Serials};

/// Serials by counting of which no draw is set to fail, and none can be set so. Their count of faults is 0.
#[derive(Drop)]
pub struct SteadySerials {
    inner: MemSerials,
    ghost steady: { failing_of inner ≡ 0 },
}

impl SteadySerials {
    ghost use Rattle.qls_steady.specs.Steady.{serials_in};

    /// Holds these serials, of which no draw is set to fail.
    pub fn new(serials: MemSerials) -> SteadySerials
        requires steady { failing_of serials ≡ 0 }
        ensures held { serials_in result ≡ serials }
    {
        SteadySerials { inner: serials }
    }

    /// The serials that it holds.
    pub fn serials(&self) -> &MemSerials
        ensures held { result.now ≡ serials_in self.now }
    {
        &self.inner
    }

    /// Gives the serials back. No draw of them is set to fail.
    pub fn into_serials(self) -> MemSerials
        ensures held { result ≡ serials_in self }
        ensures steady { failing_of result ≡ 0 }
    {
        self.inner
    }
}

impl Serials for SteadySerials {
    ghost use Rattle.qls_site.specs.Content.{Draws, Fails};
    ghost use Rattle.qls_steady.specs.Steady.{drawn_in, serials_faults};

    ghost drawn = { drawn_in };

    ghost faults = { serials_faults };

    fn draw(&mut self) -> Result<u64, DrawError>
        ensures drawn { Draws (drawn_in self.old) (drawn_in self.new) result }
        ensures cause { Fails (serials_faults self.old) (serials_faults self.new) result }
    {
        self.inner.draw()
    }
}
