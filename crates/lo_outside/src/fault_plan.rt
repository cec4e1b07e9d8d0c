//! Which calls of a double in memory fail, by their numbers.
ghost use Rattle.std.specs.Prelude.{◌≡◌, ◌≤◌, ◌||◌, ◌↔◌, IsTrue, IsErr};
ghost use Rattle.lo_outside.specs.FaultPlan.{no_faults, handed_over, is_due, after_call};

use crate::files::Failed;
use std::alloc::Global;
use std::marker::Model;

/// Which of the calls to come fail, and how many have failed.
#[derive(Drop)]
pub(crate) struct FaultPlan {
    numbers: Vec<u64>,
    calls: u64,
    faults: u64,
}

impl Model for FaultPlan {
    ghost use Rattle.lo_outside.specs.FaultPlan.{Planned};

    ghost Value = { Planned };

    ghost view = { λ p. record { numbers = p.numbers.items; calls = p.calls; faults = p.faults } };
}

impl FaultPlan {
    pub(crate) fn new(alloc: Global) -> FaultPlan
        ensures { result ≡ no_faults }
    {
        FaultPlan {
            numbers: Vec::new(alloc),
            calls: 0,
            faults: 0,
        }
    }

    pub(crate) fn hand_over(&mut self, numbers: Vec<u64>)
        ensures { self.new ≡ handed_over numbers.items self.old }
    {
        self.numbers = numbers;
        self.calls = 0;
    }

    /// Counts a call, which fails by the plan or for a reason of its own.
    pub(crate) fn answer(&mut self, cannot: bool) -> Result<(), Failed>
        ensures failed { IsErr result ↔ IsTrue (is_due self.old || cannot) }
        ensures counted { self.new ≡ after_call (is_due self.old || cannot) self.old }
        ensures later { self.old.faults ≤ self.new.faults }
    {
        let due = match self.calls.checked_add(1) {
            Some(number) => self.numbers.contains(&number),
            None => false,
        };
        self.calls = self.calls.saturating_add(1);
        if due || cannot {
            self.faults = self.faults.saturating_add(1);
            return Err(Failed);
        }
        Ok(())
    }
}
