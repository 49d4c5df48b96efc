// A script in memory.
ghost use Rattle.std.specs.Prelude.{ℕ, ◌≤◌, ◌<◌, length};

use crate::plan::count_fault;
use qls_model::Bytes;
use qls_site::{Source, SourceError};
use std::alloc::Global;

/// A script in memory, which tells what is left of it and gives at most so many bytes a read.
#[derive(Drop)]
pub struct MemSource {
    bytes: Bytes,
    taken: usize,
    piece: usize,
    failing: u64,
    faults: u64,
    ghost within: { taken ≤ length bytes },
    ghost some: { 0 < piece },
}

impl MemSource {
    ghost use Rattle.std.specs.Prelude.{◌≡◌, ◌<◌, Some};
    ghost use Rattle.qls_memsite.specs.Sources.{left_of, piece_of, failing_of, faults_of};

    /// A script of these bytes that gives at most `piece` bytes a read; `piece` is at least 1. No read is set to fail.
    pub fn new(_alloc: Global, bytes: Bytes, piece: usize) -> MemSource
        requires { 0 < piece }
        ensures left { left_of result ≡ Some bytes }
        ensures piece { piece_of result ≡ piece }
        ensures failing { failing_of result ≡ 0 }
        ensures faults { faults_of result ≡ 0 }
    {
        MemSource {
            bytes,
            taken: 0,
            piece,
            failing: 0,
            faults: 0,
        }
    }

    /// Sets the `n`-th read from now to fail, counted from 1, in place of the one that was set; 0 sets none.
    pub fn fail_read(&mut self, n: u64)
        ensures failing { failing_of self.new ≡ n }
        ensures left { left_of self.new ≡ left_of self.old }
        ensures piece { piece_of self.new ≡ piece_of self.old }
        ensures faults { faults_of self.new ≡ faults_of self.old }
    {
        self.failing = n;
    }
}

impl Source for MemSource {
    ghost use Rattle.std.specs.Prelude.{◌≤◌, ◌<◌, length, IfOk};
    ghost use Rattle.qls_site.specs.Content.{Gives, Fails};
    ghost use Rattle.qls_memsite.specs.Sources.{left_of, faults_of, ReadsAsSet};

    ghost left = { left_of };

    ghost faults = { faults_of };

    /// Gives the next bytes, as many as are left, as one piece has and as `into` holds. It fails exactly where this
    /// read is set to fail.
    fn read(&mut self, into: &mut [u8]) -> Result<usize, SourceError>
        requires { 0 < length into.old }
        ensures count { IfOk result (λ n. n ≤ length into.old) }
        ensures gives { Gives (left_of self.old) (left_of self.new) into.new result }
        ensures cause { Fails (faults_of self.old) (faults_of self.new) result }
        ensures as_set { ReadsAsSet self.old self.new (length into.old) result }
    {
        let failed = self.failing == 1;
        self.failing = self.failing.saturating_sub(1);
        count_fault(failed, &mut self.faults);
        if failed {
            return Err(SourceError::Failed);
        }
        let left = &self.bytes.as_slice()[self.taken..];
        let count = left.len().min(self.piece).min(into.len());
        into[..count].copy_from_slice(&left[..count]);
        self.taken += count;
        Ok(count)
    }
}
