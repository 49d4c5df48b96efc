// A script in memory of which no read fails.
ghost use Rattle.std.specs.Prelude.{◌≡◌};
ghost use Rattle.qls_memsite.specs.Sources.{failing_of};

use qls_memsite::MemSource;
use qls_site::{Source, SourceError};

/// A script in memory of which no read is set to fail, and none can be set so. It tells what is left, and its count of faults is 0.
#[derive(Drop)]
pub struct SteadySource {
    inner: MemSource,
    ghost steady: { failing_of inner ≡ 0 },
}

impl SteadySource {
    ghost use Rattle.qls_steady.specs.Steady.{source_in};

    /// Holds this script, of which no read is set to fail.
    pub fn new(source: MemSource) -> SteadySource
        requires steady { failing_of source ≡ 0 }
        ensures held { source_in result ≡ source }
    {
        SteadySource { inner: source }
    }

    /// The script that it holds.
    pub fn source(&self) -> &MemSource
        ensures held { result.now ≡ source_in self.now }
    {
        &self.inner
    }

    /// Gives the script back. No read of it is set to fail.
    pub fn into_source(self) -> MemSource
        ensures held { result ≡ source_in self }
        ensures steady { failing_of result ≡ 0 }
    {
        self.inner
    }
}

impl Source for SteadySource {
    ghost use Rattle.std.specs.Prelude.{◌<◌, ◌≤◌, length, IfOk};
    ghost use Rattle.qls_site.specs.Content.{Gives, Fails};
    ghost use Rattle.qls_steady.specs.Steady.{left_in, source_faults};

    ghost left = { left_in };

    ghost faults = { source_faults };

    fn read(&mut self, into: &mut [u8]) -> Result<usize, SourceError>
        requires { 0 < length into.old }
        ensures count { IfOk result (λ n. n ≤ length into.old) }
        ensures gives { Gives (left_in self.old) (left_in self.new) into.new result }
        ensures cause { Fails (source_faults self.old) (source_faults self.new) result }
    {
        self.inner.read(into)
    }
}
