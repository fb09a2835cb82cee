//! Which calls of a device in memory fail.

ghost use Rattle.std.specs.Prelude.{◌≡◌, ◌≤◌};
ghost use Rattle.sec_base.specs.Answers.{Rose};

/// The numbers of the calls that are to fail, counted from 1, with the calls and the faults so far.
#[derive(Drop)]
pub(crate) struct Failing {
    numbers: Vec<u64>,
    calls: u64,
    pub(crate) faults: u64,
}

impl Failing {
    ghost use Rattle.sec_base.specs.Failures.{failures_from, kept_failures, fails_next, one_more};

    pub(crate) fn new(numbers: Vec<u64>) -> Failing
        ensures faults { result.faults ≡ 0 }
        ensures failing { kept_failures result ≡ failures_from numbers.items }
    {
        Failing {
            numbers,
            calls: 0,
            faults: 0,
        }
    }

    /// Counts a call, and says whether it is to fail.
    pub(crate) fn fails(&mut self) -> bool
        ensures faults { self.new.faults ≡ self.old.faults }
        ensures next { result ≡ fails_next (kept_failures self.old) }
        ensures counted { kept_failures self.new ≡ one_more (kept_failures self.old) }
    {
        self.calls = self.calls.saturating_add(1);
        self.numbers.contains(&self.calls)
    }

    /// Counts a fault.
    pub(crate) fn fault(&mut self)
        ensures rose { Rose self.old.faults self.new.faults }
        ensures faults { self.old.faults ≤ self.new.faults }
        ensures failing { kept_failures self.new ≡ kept_failures self.old }
    {
        self.faults = self.faults.saturating_add(1);
    }
}
