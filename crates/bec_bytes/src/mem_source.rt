ghost use Rattle.std.specs.Prelude.{◌≡◌, ◌↔◌, ℕ, ◌++◌, List, Some, IsErr, IfOk, OnErr, OnOk, length, take, drop, min};
ghost use Rattle.std.specs.Io.{ReadsAtMost};
ghost use Rattle.std.specs.Io.KnownBytes.{ReadConsumes};
ghost use Rattle.bec_bytes.specs.Causes.{HasCause};
ghost use Rattle.bec_bytes.specs.Memory.{MemoryState, IsToFail, after_call, filled_from};

use crate::counted::Counted;
use crate::failed::Failed;
use crate::fault_plan::FaultPlan;
use crate::plain_source::PlainSource;
use crate::source::Source;
use std::marker::Model;

/// A source of bytes in memory, some of whose calls fail, for tests of what a fault does.
#[derive(Drop)]
pub struct MemSource {
    inner: PlainSource,
    plan: FaultPlan,
}

impl Model for MemSource {
    ghost Value = { MemoryState };

    ghost view = { λ s. record {
      bytes = s.inner;
      failing = s.plan.failing.items;
      calls = s.plan.calls;
      faults = s.plan.faults;
    } };
}

impl MemSource {
    /// A source that gives these bytes. The calls of `take` that `failing` numbers, counted from 1,
    /// fail, and no others.
    pub fn new(bytes: Vec<u8>, failing: Vec<u32>) -> MemSource
        ensures { result ≡ record {
          bytes = bytes.items;
          failing = failing.items;
          calls = 0;
          faults = 0;
        } }
    {
        MemSource {
            inner: PlainSource::new(bytes),
            plan: FaultPlan::new(failing),
        }
    }
}

impl Counted for MemSource {
    ghost faults = { λ s. s.faults };
}

impl Source for MemSource {
    ghost left = { λ s. Some s.bytes };

    /// Gives as many of the bytes that are left as `buf` has room for, unless the call is one of
    /// those that are to fail.
    fn take(&mut self, buf: &mut [u8]) -> Result<usize, Failed>
        ensures bound { ReadsAtMost result buf.new }
        ensures bytes { ReadConsumes (Some self.old.bytes) (Some self.new.bytes) result buf.new }
        ensures cause { HasCause self.old.faults self.new.faults result }

        // It fails exactly at the numbered calls, and then gives nothing.
        ensures fails { IsErr result ↔ IsToFail self.old }
        ensures unchanged { OnErr result (self.new ≡ after_call self.old result self.old.bytes) }
        ensures untouched { OnErr result (buf.new ≡ buf.old) }

        // At the others, what it answers, what is left, and what the buffer holds.
        ensures count { IfOk result (λ n. n ≡ min (length buf.old) (length self.old.bytes)) }
        ensures rest { OnOk result
            (self.new ≡ after_call self.old result (drop (length buf.old) self.old.bytes)) }
        ensures given { OnOk result (buf.new ≡ filled_from self.old.bytes buf.old) }
    {
        self.plan.count_call()?;
        self.inner.take(buf)
    }
}
