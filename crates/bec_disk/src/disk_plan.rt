ghost use Rattle.std.specs.Prelude.{◌≡◌, ◌⊎◌, ◌≤◌, ◌<◌, ◌↔◌, IsErr, IsTrue, Contains, false, true};
ghost use Rattle.bec_bytes.specs.Causes.{one_more, faults_after};
ghost use Rattle.bec_disk.specs.Plan.{IsToFail, new_plan, one_unrecorded};

use crate::disk_fault::DiskFault;
use std::marker::Model;

/// Which calls of a disk in memory are to fail, and how many it had.
#[derive(Drop)]
pub struct DiskPlan {
    failing: Vec<u32>,
    last: u64,
    calls: u64,
    faults: u64,
    starved: bool,
    unrecorded: u64,
}

impl Model for DiskPlan {
    ghost use Rattle.bec_disk.specs.Plan.{PlanState};

    ghost Value = { PlanState };

    ghost view = { λ p. record {
      failing = p.failing.items;
      last = p.last;
      calls = p.calls;
      faults = p.faults;
      starved = p.starved;
      unrecorded = p.unrecorded;
    } };
}

impl DiskPlan {
    ghost use Rattle.bec_disk.specs.Left.{planned};

    /// A plan before the first call: the calls that `failing` numbers, counted from 1, and those
    /// behind the number `last` are to fail.
    pub fn new(failing: Vec<u32>, last: u64) -> DiskPlan
        ensures { result ≡ new_plan failing.items last }
    {
        DiskPlan {
            failing,
            last,
            calls: 0,
            faults: 0,
            starved: false,
            unrecorded: 0,
        }
    }

    /// Counts a call, and a fault where it is one of those that are to fail.
    pub fn count_call(&mut self) -> Result<(), DiskFault>
        ensures fails { IsErr result ↔ IsToFail self.old }
        ensures counted { self.new ≡ record self.old {
          calls = one_more self.old.calls;
          faults = faults_after result self.old.faults;
        } }
        ensures later { self.old.faults ≤ self.new.faults }
    {
        self.calls = self.calls.saturating_add(1);
        if is_to_fail(&self.failing, self.last, self.calls) {
            self.faults = self.faults.saturating_add(1);
            return Err(DiskFault);
        }
        Ok(())
    }

    /// Counts a fault that is for want of memory.
    pub fn starve(&mut self) -> DiskFault
        ensures starved { self.new ≡ record self.old { faults = one_more self.old.faults; starved = true } }
        ensures later { self.old.faults ≤ self.new.faults }
    {
        self.starved = true;
        self.faults = self.faults.saturating_add(1);
        DiskFault
    }

    /// Counts a write or a cut that was to fail and is not in the record.
    pub fn miss(&mut self)
        ensures { self.new ≡ one_unrecorded self.old }
    {
        self.unrecorded = self.unrecorded.saturating_add(1);
    }

    /// Plans the calls from the next one on, which is the first: those that `failing` numbers, and those behind the
    /// number `last`, are to fail.
    pub fn arm(&mut self, failing: Vec<u32>, last: u64)
        ensures { self.new ≡ planned failing.items last self.old }
    {
        self.failing = failing;
        self.last = last;
        self.calls = 0;
    }

    /// Lets the next call be the first.
    pub fn number_anew(&mut self)
        ensures { self.new ≡ record self.old { calls = 0 } }
    {
        self.calls = 0;
    }

    /// Forgets the faults.
    pub fn clear_faults(&mut self)
        ensures { self.new ≡ record self.old { faults = 0 } }
    {
        self.faults = 0;
    }

    /// How many faults there were.
    pub fn faults(&self) -> u64
        ensures { result ≡ self.now.faults }
    {
        self.faults
    }

    /// How many writes and cuts that were to fail are not in the record.
    pub fn unrecorded(&self) -> u64
        ensures { result ≡ self.now.unrecorded }
    {
        self.unrecorded
    }

    /// Whether a call failed that was not to fail.
    pub fn starved(&self) -> bool
        ensures { result ≡ self.now.starved }
    {
        self.starved
    }
}

/// Whether the call of this number is to fail.
fn is_to_fail(failing: &[u32], last: u64, call: u64) -> bool
    ensures { IsTrue result ↔ (Contains failing.now call ⊎ (last < call)) }
{
    if last < call {
        return true;
    }
    failing.iter().any(|number| u64::from(*number) == call)
}
