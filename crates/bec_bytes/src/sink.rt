ghost use Rattle.std.specs.Prelude.{ℕ, ◌<◌, List, Option, length, IfOk};
ghost use Rattle.std.specs.Io.{WritesAtMost};
ghost use Rattle.std.specs.Io.KnownBytes.{WriteAppends};
ghost use Rattle.bec_bytes.specs.Causes.{HasCause};

use crate::counted::Counted;
use crate::failed::Failed;

/// Where bytes go.
pub trait Sink: Counted {
    /// The bytes that were put, or `None` where the sink does not tell them.
    ghost held: { Self → Option (List ℕ) };

    /// Takes a front of `bytes` and answers how many, at least one of a piece that is not empty. A
    /// call that fails adds nothing to the sink.
    fn put(&mut self, bytes: &[u8]) -> Result<usize, Failed>
        ensures bound { WritesAtMost result bytes.now }
        ensures some { 0 < length bytes.now → IfOk result (λ n. 0 < n) }
        ensures bytes { WriteAppends (held self.old) (held self.new) result bytes.now }
        ensures cause { HasCause (Self.faults self.old) (Self.faults self.new) result };
}
