ghost use Rattle.std.specs.Prelude.{◌≡◌, ◌≤◌, ◌↔◌, IsErr, Contains};
ghost use Rattle.bec_bytes.specs.Causes.{one_more, faults_after};

use crate::failed::Failed;

/// Which calls of an object in memory are to fail, and how many it had.
#[derive(Drop)]
pub struct FaultPlan {
    /// The numbers of the calls that are to fail, counted from 1.
    pub failing: Vec<u32>,
    /// How many calls there were.
    pub calls: u64,
    /// How many of them failed.
    pub faults: u64,
}

impl FaultPlan {
    /// A plan before the first call.
    pub fn new(failing: Vec<u32>) -> FaultPlan
        ensures { result ≡ record { failing = failing; calls = 0; faults = 0 } }
    {
        FaultPlan {
            failing,
            calls: 0,
            faults: 0,
        }
    }

    /// Counts a call, and a fault where it is one of those that are to fail.
    pub fn count_call(&mut self) -> Result<(), Failed>
        ensures fails { IsErr result ↔ Contains self.old.failing.items (one_more self.old.calls) }
        ensures failing { self.new.failing ≡ self.old.failing }
        ensures calls { self.new.calls ≡ one_more self.old.calls }
        ensures faults { self.new.faults ≡ faults_after result self.old.faults }
        ensures later { self.old.faults ≤ self.new.faults }
    {
        self.calls = self.calls.saturating_add(1);
        if self
            .failing
            .iter()
            .any(|number| u64::from(*number) == self.calls)
        {
            return Err(self.count_fault());
        }
        Ok(())
    }

    /// Counts a fault.
    pub fn count_fault(&mut self) -> Failed
        ensures counted { self.new ≡ record self.old { faults = one_more self.old.faults } }
        ensures later { self.old.faults ≤ self.new.faults }
    {
        self.faults = self.faults.saturating_add(1);
        Failed
    }
}
