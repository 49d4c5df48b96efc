// Serials by counting.
ghost use Rattle.std.specs.Prelude.{◌≡◌, ℕ, ◌<◌, ◌+◌, ◌-◌, ◌^◌, ◌%◌};

use crate::plan::count_fault;
use qls_site::{DrawError, Serials};

/// Serials by counting, which tell what they drew while that is fewer than 2^64 - 1 numbers.
#[derive(Drop)]
pub struct MemSerials {
    first: u64,
    next: u64,
    count: u64,
    failing: u64,
    faults: u64,
    ghost counts: { count < 2 ^ 64 - 1 → next ≡ (first + count) % 2 ^ 64 },
}

impl MemSerials {
    ghost use Rattle.std.specs.Prelude.{◌≡◌, [], Some};
    ghost use Rattle.qls_memsite.specs.Serials.{drawn_of, next_of, failing_of, faults_of};

    /// Draws `first`, `first + 1` and so on; after 2^64 - 1 comes 0. No draw is set to fail.
    pub fn counting(first: u64) -> MemSerials
        ensures drawn { drawn_of result ≡ Some [] }
        ensures next { next_of result ≡ first }
        ensures failing { failing_of result ≡ 0 }
        ensures faults { faults_of result ≡ 0 }
    {
        MemSerials {
            first,
            next: first,
            count: 0,
            failing: 0,
            faults: 0,
        }
    }

    /// Sets the `n`-th draw from now to fail, counted from 1, in place of the one that was set; 0 sets none.
    pub fn fail_draw(&mut self, n: u64)
        ensures failing { failing_of self.new ≡ n }
        ensures drawn { drawn_of self.new ≡ drawn_of self.old }
        ensures next { next_of self.new ≡ next_of self.old }
        ensures faults { faults_of self.new ≡ faults_of self.old }
    {
        self.failing = n;
    }
}

impl Serials for MemSerials {
    ghost use Rattle.qls_site.specs.Content.{Draws, Fails};
    ghost use Rattle.qls_memsite.specs.Serials.{drawn_of, faults_of, DrawsAsSet};

    ghost drawn = { drawn_of };

    ghost faults = { faults_of };

    /// Draws the next number. It fails exactly where this draw is set to fail, and a failed draw uses no number.
    fn draw(&mut self) -> Result<u64, DrawError>
        ensures drawn { Draws (drawn_of self.old) (drawn_of self.new) result }
        ensures cause { Fails (faults_of self.old) (faults_of self.new) result }
        ensures as_set { DrawsAsSet self.old self.new result }
    {
        let failed = self.failing == 1;
        self.failing = self.failing.saturating_sub(1);
        count_fault(failed, &mut self.faults);
        if failed {
            return Err(DrawError::Failed);
        }
        let number = self.next;
        self.next = number.wrapping_add(1);
        self.count = self.count.saturating_add(1);
        Ok(number)
    }
}
