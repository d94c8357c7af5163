ghost use Rattle.std.specs.Prelude.{◌≡◌, ◌⊎◌, ◌<◌, ℕ, ◌++◌, [], List, Some, IsErr, IfOk, OnErr, OnOk, length};
ghost use Rattle.std.specs.Io.{WritesAtMost};
ghost use Rattle.std.specs.Io.KnownBytes.{WriteAppends};
ghost use Rattle.bec_bytes.specs.Causes.{HasCause};
ghost use Rattle.bec_bytes.specs.Memory.{MemoryState, IsToFail, after_call};

use crate::counted::Counted;
use crate::failed::Failed;
use crate::fault_plan::FaultPlan;
use crate::sink::Sink;
use std::alloc::Global;
use std::marker::Model;

/// A sink that keeps its bytes in memory, some of whose calls fail, for tests of what a fault does.
#[derive(Drop)]
pub struct MemSink {
    bytes: Vec<u8>,
    plan: FaultPlan,
}

impl Model for MemSink {
    ghost Value = { MemoryState };

    ghost view = { λ s. record {
      bytes = s.bytes.items;
      failing = s.plan.failing.items;
      calls = s.plan.calls;
      faults = s.plan.faults;
    } };
}

impl MemSink {
    /// A sink that is empty. The calls of `put` that `failing` numbers, counted from 1, fail; of the
    /// others only those for whose bytes there is no memory.
    pub fn new(alloc: Global, failing: Vec<u32>) -> MemSink
        ensures { result ≡ record {
          bytes = [];
          failing = failing.items;
          calls = 0;
          faults = 0;
        } }
    {
        MemSink {
            bytes: Vec::new(alloc),
            plan: FaultPlan::new(failing),
        }
    }

    /// The bytes that were put.
    pub fn bytes(&self) -> &[u8]
        ensures { result.now ≡ self.now.bytes }
    {
        &self.bytes
    }
}

impl Counted for MemSink {
    ghost faults = { λ s. s.faults };
}

impl Sink for MemSink {
    ghost held = { λ s. Some s.bytes };

    /// Takes the piece whole, unless the call is one of those that are to fail or memory is refused.
    /// Both are counted as faults.
    fn put(&mut self, bytes: &[u8]) -> Result<usize, Failed>
        ensures bound { WritesAtMost result bytes.now }
        ensures some { 0 < length bytes.now → IfOk result (λ n. 0 < n) }
        ensures bytes { WriteAppends (Some self.old.bytes) (Some self.new.bytes) result bytes.now }
        ensures cause { HasCause self.old.faults self.new.faults result }

        // It fails at the numbered calls and for want of memory, and then takes nothing.
        ensures fails { IsToFail self.old → IsErr result }
        ensures refused { OnErr result (IsToFail self.old ⊎ (0 < length bytes.now)) }
        ensures unchanged { OnErr result (self.new ≡ after_call self.old result self.old.bytes) }

        // Else it takes the piece whole.
        ensures whole { IfOk result (λ n. n ≡ length bytes.now) }
        ensures taken { OnOk result
            (self.new ≡ after_call self.old result (self.old.bytes ++ bytes.now)) }
    {
        self.plan.count_call()?;
        match self.bytes.extend_from_slice(bytes) {
            Ok(()) => Ok(bytes.len()),
            Err(_) => Err(self.plan.count_fault()),
        }
    }
}
