ghost use Rattle.std.specs.Prelude.{◌≡◌, ◌<◌, None, Ok, length, IfOk};
ghost use Rattle.std.specs.Io.{WritesAtMost};
ghost use Rattle.std.specs.Io.KnownBytes.{WriteAppends};
ghost use Rattle.bec_bytes.specs.Causes.{HasCause};

use crate::counted::Counted;
use crate::failed::Failed;
use crate::sink::Sink;

/// A sink that never fails, keeps no bytes and tells none.
#[derive(Clone, Copy)]
pub struct PlainSink;

impl PlainSink {
    /// A sink for bytes that nobody wants.
    pub fn new() -> PlainSink
        ensures { result ≡ record {} }
    {
        PlainSink
    }
}

impl Counted for PlainSink {
    ghost faults = { λ _. 0 };
}

impl Sink for PlainSink {
    ghost held = { λ _. None };

    /// Takes every piece whole. It never fails.
    fn put(&mut self, bytes: &[u8]) -> Result<usize, Failed>
        ensures bound { WritesAtMost result bytes.now }
        ensures some { 0 < length bytes.now → IfOk result (λ n. 0 < n) }
        ensures bytes { WriteAppends None None result bytes.now }
        ensures cause { HasCause 0 0 result }
        ensures whole { result ≡ Ok (length bytes.now) }
    {
        Ok(bytes.len())
    }
}
