//! Numbered calls, some of which are to fail.

ghost use Rattle.std.specs.Prelude.{◌≡◌, ◌≤◌, ◌↔◌, IsTrue};
ghost use Rattle.gx_io.specs.Faults.{HasRisen};
ghost use Rattle.gx_io.specs.Schedules.{schedule, FailsNext, after_call};

/// How many calls were made, which ones are to fail, and how many faults there were.
#[derive(Drop)]
pub(crate) struct NumberedCalls {
    failing: Vec<u64>,
    made: u64,
    faults: u64,
}

impl NumberedCalls {
    /// No call was made yet; those with these numbers, from 0, are to fail.
    pub(crate) fn new(failing: Vec<u64>) -> NumberedCalls
        ensures { result ≡ record { failing = failing; made = 0; faults = 0 } }
    {
        NumberedCalls {
            failing,
            made: 0,
            faults: 0,
        }
    }

    /// Counts a call, and says whether it is to fail.
    pub(crate) fn next_fails(&mut self) -> bool
        ensures fails { IsTrue result ↔ FailsNext (schedule self.old) }
        ensures counted { schedule self.new ≡ after_call (schedule self.old) }
        ensures faults { self.new.faults ≡ self.old.faults }
    {
        let fails = self.failing.contains(&self.made);
        self.made = self.made.saturating_add(1);
        fails
    }

    /// Counts a fault.
    pub(crate) fn add_fault(&mut self)
        ensures rises { HasRisen self.old.faults self.new.faults }
        ensures never_falls { self.old.faults ≤ self.new.faults }
        ensures schedule { schedule self.new ≡ schedule self.old }
    {
        self.faults = self.faults.saturating_add(1);
    }
}
