ghost use Rattle.std.specs.Prelude.{◌≡◌, ◌⊎◌, ◌↔◌, ◌<◌, ◌++◌, [], Some, IsErr, IfOk, OnErr, OnOk, length, drop, min};
ghost use Rattle.std.specs.Io.{ReadsAtMost, WritesAtMost};
ghost use Rattle.std.specs.Io.KnownBytes.{ReadConsumes, WriteAppends};
ghost use Rattle.bec_bytes.specs.Causes.{HasCause};
ghost use Rattle.bec_bytes.specs.Memory.{filled_from};
ghost use Rattle.bec_bytes.specs.Moved.{TakesAll};
ghost use Rattle.bec_links.specs.Memory.{MemLinkState, IsToFail, after_call};

use crate::link::Link;
use bec_bytes::{Counted, Failed, FaultPlan, PlainSource, Sink, Source};
use std::alloc::Global;
use std::marker::Model;

/// A link in memory, some of whose calls fail, for tests of what a fault does.
#[derive(Drop)]
pub struct MemLink {
    coming: PlainSource,
    bytes: Vec<u8>,
    plan: FaultPlan,
}

impl Model for MemLink {
    ghost Value = { MemLinkState };

    ghost view = { λ l. record {
      left = l.coming;
      held = l.bytes.items;
      plan = record { failing = l.plan.failing.items; calls = l.plan.calls; faults = l.plan.faults };
    } };
}

impl MemLink {
    /// A link that gives these bytes, and on which nothing was put. The calls of `take` and `put`,
    /// counted together from 1, that `failing` numbers fail; of the others only a `put` for whose
    /// bytes there is no memory.
    pub fn new(alloc: Global, coming: Vec<u8>, failing: Vec<u32>) -> MemLink
        ensures { result ≡ record {
          left = coming.items;
          held = [];
          plan = record { failing = failing.items; calls = 0; faults = 0 };
        } }
    {
        MemLink {
            coming: PlainSource::new(coming),
            bytes: Vec::new(alloc),
            plan: FaultPlan::new(failing),
        }
    }

    /// The bytes that were put.
    pub fn bytes(&self) -> &[u8]
        ensures { result.now ≡ self.now.held }
    {
        &self.bytes
    }

    /// How many faults there were.
    pub(crate) fn faults(&self) -> u64
        ensures { result ≡ self.now.plan.faults }
    {
        self.plan.faults
    }
}

impl Counted for MemLink {
    ghost faults = { λ l. l.plan.faults };
}

impl Source for MemLink {
    ghost left = { λ l. Some l.left };

    /// Gives as many of the bytes that are left as `buf` has room for, unless the call is one of
    /// those that are to fail.
    fn take(&mut self, buf: &mut [u8]) -> Result<usize, Failed>
        ensures bound { ReadsAtMost result buf.new }
        ensures bytes { ReadConsumes (Some self.old.left) (Some self.new.left) result buf.new }
        ensures cause { HasCause self.old.plan.faults self.new.plan.faults result }

        // It fails exactly at the numbered calls, and then gives nothing.
        ensures fails { IsErr result ↔ IsToFail self.old.plan }
        ensures unchanged { OnErr result (self.new ≡ record self.old { plan = after_call result self.old.plan }) }
        ensures untouched { OnErr result (buf.new ≡ buf.old) }

        // At the others, what it answers, what is left, and what the buffer holds.
        ensures count { IfOk result (λ n. n ≡ min (length buf.old) (length self.old.left)) }
        ensures rest { OnOk result
            (self.new ≡ record self.old {
              left = drop (length buf.old) self.old.left;
              plan = after_call result self.old.plan;
            }) }
        ensures given { OnOk result (buf.new ≡ filled_from self.old.left buf.old) }
    {
        self.plan.count_call()?;
        self.coming.take(buf)
    }
}

impl Sink for MemLink {
    ghost held = { λ l. Some l.held };

    /// Takes the piece whole, unless the call is one of those that are to fail or memory is refused.
    /// Both are counted as faults.
    fn put(&mut self, bytes: &[u8]) -> Result<usize, Failed>
        ensures bound { WritesAtMost result bytes.now }
        ensures some { 0 < length bytes.now → IfOk result (λ n. 0 < n) }
        ensures bytes { WriteAppends (Some self.old.held) (Some self.new.held) result bytes.now }
        ensures cause { HasCause self.old.plan.faults self.new.plan.faults result }

        // It fails at the numbered calls and for want of memory, and then takes nothing.
        ensures fails { IsToFail self.old.plan → IsErr result }
        ensures refused { OnErr result (IsToFail self.old.plan ⊎ (0 < length bytes.now)) }
        ensures unchanged { OnErr result (self.new ≡ record self.old { plan = after_call result self.old.plan }) }

        // Else it takes the piece whole.
        ensures whole { IfOk result (λ n. n ≡ length bytes.now) }
        ensures taken { OnOk result
            (self.new ≡ record self.old { held = self.old.held ++ bytes.now; plan = after_call result self.old.plan }) }
    {
        self.plan.count_call()?;
        match self.bytes.extend_from_slice(bytes) {
            Ok(()) => Ok(bytes.len()),
            Err(_) => Err(self.plan.count_fault()),
        }
    }
}

impl Link for MemLink {
    /// Just as `take`.
    fn receive(&mut self, buf: &mut [u8]) -> Result<usize, Failed>
        ensures bound { ReadsAtMost result buf.new }
        ensures bytes { ReadConsumes (Some self.old.left) (Some self.new.left) result buf.new }
        ensures held { Some self.new.held ≡ Some self.old.held }
        ensures cause { HasCause self.old.plan.faults self.new.plan.faults result }
        ensures fails { IsErr result ↔ IsToFail self.old.plan }
        ensures count { IfOk result (λ n. n ≡ min (length buf.old) (length self.old.left)) }
        ensures plan { self.new.plan ≡ after_call result self.old.plan }
    {
        self.take(buf)
    }

    /// Sends all in one `put`, which takes the bytes whole or fails.
    fn send(&mut self, bytes: &[u8]) -> Result<(), Failed>
        ensures bytes { TakesAll (Some self.old.held) (Some self.new.held) result bytes.now }
        ensures left { Some self.new.left ≡ Some self.old.left }
        ensures cause { HasCause self.old.plan.faults self.new.plan.faults result }
        ensures fails { IsToFail self.old.plan → IsErr result }
        ensures refused { OnErr result (IsToFail self.old.plan ⊎ (0 < length bytes.now)) }
        ensures unchanged { OnErr result (self.new.held ≡ self.old.held) }
        ensures plan { self.new.plan ≡ after_call result self.old.plan }
    {
        self.put(bytes)?;
        Ok(())
    }
}
