// Which calls are set to fail.
ghost use Rattle.std.specs.Prelude.{◌≡◌, ◌≤◌, ◌||◌, map, Some};
ghost use Rattle.std.specs.List.{list_any};
ghost use Rattle.std.specs.Bool.{OnTrue};
ghost use Rattle.qls_site.specs.Content.{Rose};
ghost use Rattle.qls_memsite.specs.Failures.{number_of, counts, is_due, counted, is_stopped, one_less, earlier, with_stop, failing_of, fails_next, after_call, faults_after};

/// A kind of call on a site.
#[derive(Clone, Copy, Debug, PartialEq, Eq)]
pub enum CallKind {
    /// Every call.
    Any,
    List,
    Read,
    Write,
    Sync,
    Create,
    Relocate,
    Answer,
}

impl CallKind {
    fn number(self) -> u8
        ensures { result ≡ number_of self }
    {
        match self {
            CallKind::Any => 0,
            CallKind::List => 1,
            CallKind::Read => 2,
            CallKind::Write => 3,
            CallKind::Sync => 4,
            CallKind::Create => 5,
            CallKind::Relocate => 6,
            CallKind::Answer => 7,
        }
    }

    fn counts(self, call: CallKind) -> bool
        ensures { result ≡ counts self call }
    {
        self.number() == 0 || self.number() == call.number()
    }
}

/// A call that is set to fail: the `left`-th of its kind from now, counted from 1. At 0 none is.
#[derive(Clone, Copy, Debug)]
pub struct Failure {
    pub kind: CallKind,
    pub left: u64,
}

impl Failure {
    fn is_due(&self, call: CallKind) -> bool
        ensures { result ≡ is_due call self.now }
    {
        self.kind.counts(call) && self.left == 1
    }

    fn count(&mut self, call: CallKind)
        ensures { self.new ≡ counted call self.old }
    {
        if self.kind.counts(call) {
            self.left = self.left.saturating_sub(1);
        }
    }
}

/// The failures that are set, and how many calls pass before all fail.
#[derive(Drop)]
pub struct Plan {
    pub failures: Vec<Failure>,
    pub stop: Option<u64>,
}

fn some_is_due(failures: &[Failure], call: CallKind) -> bool
    ensures { result ≡ list_any (is_due call) failures.now }
{
    for failure in failures {
        if failure.is_due(call) {
            return true;
        }
    }
    false
}

fn count_all(failures: &mut [Failure], call: CallKind)
    ensures { failures.new ≡ map (counted call) failures.old }
{
    for failure in failures.iter_mut() {
        failure.count(call);
    }
}

fn stops(stop: &mut Option<u64>) -> bool
    ensures stopped { result ≡ is_stopped stop.old }
    ensures passed { stop.new ≡ one_less stop.old }
{
    match *stop {
        None => false,
        Some(passing) => {
            *stop = Some(passing.saturating_sub(1));
            passing == 0
        }
    }
}

// How many calls pass before the stop that comes first.
fn first_of(stop: Option<u64>, passing: u64) -> u64
    ensures { Some result ≡ earlier stop passing }
{
    match stop {
        None => passing,
        Some(other) => other.min(passing),
    }
}

impl Plan {
    /// Sets the k-th call from now and all later ones to fail; 0 sets none.
    pub fn stop_at(&mut self, k: u64)
        ensures { failing_of self.new ≡ with_stop k (failing_of self.old) }
    {
        if k > 0 {
            self.stop = Some(first_of(self.stop, k - 1));
        }
    }

    // Whether this call is set to fail; it is counted.
    pub fn next(&mut self, call: CallKind) -> bool
        ensures fails { result ≡ fails_next call (failing_of self.old) }
        ensures counted { failing_of self.new ≡ after_call call (failing_of self.old) }
    {
        let is_due = some_is_due(&self.failures, call);
        count_all(&mut self.failures, call);
        let is_stopped = stops(&mut self.stop);
        is_due || is_stopped
    }
}

/// Counts a fault; at its greatest value the count stays.
pub fn count_fault(failed: bool, faults: &mut u64)
    ensures counted { faults.new ≡ faults_after failed faults.old }
    ensures kept { faults.old ≤ faults.new }
    ensures rose { OnTrue failed (Rose faults.old faults.new) }
{
    let more = faults.saturating_add(1);
    if failed {
        *faults = more;
    }
}

/// Whether the call that is made now is set to fail. It is counted, and so is its fault.
pub fn fails(plan: &mut Plan, call: CallKind, faults: &mut u64) -> bool
    ensures fails { result ≡ fails_next call (failing_of plan.old) }
    ensures counted { failing_of plan.new ≡ after_call call (failing_of plan.old) }
    ensures faults { faults.new ≡ faults_after result faults.old }
    ensures kept { faults.old ≤ faults.new }
    ensures rose { OnTrue result (Rose faults.old faults.new) }
{
    let failed = plan.next(call);
    count_fault(failed, faults);
    failed
}
