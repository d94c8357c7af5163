ghost use Rattle.std.specs.Prelude.{◌≡◌, ℕ, ◌+◌, ◌≤◌, ◌++◌, List, Some, Ok, length, take, drop, min};
ghost use Rattle.std.specs.Io.{ReadsAtMost};
ghost use Rattle.std.specs.Io.KnownBytes.{ReadConsumes};
ghost use Rattle.bec_bytes.specs.Causes.{HasCause};
ghost use Rattle.bec_bytes.specs.Memory.{filled_from};

use crate::counted::Counted;
use crate::failed::Failed;
use crate::source::Source;
use std::marker::Model;

/// A source of bytes in memory that never fails. A contract sees it as the bytes that are left.
#[derive(Drop)]
pub struct PlainSource {
    bytes: Vec<u8>,
    place: usize,
}

impl Model for PlainSource {
    ghost Value = { List ℕ };

    ghost view = { λ s. drop s.place s.bytes.items };

    ghost invariant = { λ s. s.place ≤ length s.bytes.items };
}

impl PlainSource {
    /// A source that gives these bytes.
    pub fn new(bytes: Vec<u8>) -> PlainSource
        ensures { result ≡ bytes.items }
    {
        PlainSource { bytes, place: 0 }
    }
}

impl Counted for PlainSource {
    ghost faults = { λ _. 0 };
}

impl Source for PlainSource {
    ghost left = { λ s. Some s };

    /// Gives as many of the bytes that are left as `buf` has room for. It never fails.
    fn take(&mut self, buf: &mut [u8]) -> Result<usize, Failed>
        ensures bound { ReadsAtMost result buf.new }
        ensures bytes { ReadConsumes (Some self.old) (Some self.new) result buf.new }
        ensures cause { HasCause 0 0 result }

        // What it answers, what is left, and what the buffer holds.
        ensures count { result ≡ Ok (min (length buf.old) (length self.old)) }
        ensures rest { self.new ≡ drop (length buf.old) self.old }
        ensures given { buf.new ≡ filled_from self.old buf.old }
    {
        let rest = &self.bytes[self.place..];
        let count = buf.len().min(rest.len());
        buf[..count].copy_from_slice(&rest[..count]);
        self.place += count;
        Ok(count)
    }
}
