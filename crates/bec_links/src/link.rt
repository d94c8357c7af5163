ghost use Rattle.std.specs.Prelude.{◌≡◌};
ghost use Rattle.std.specs.Io.{ReadsAtMost};
ghost use Rattle.std.specs.Io.KnownBytes.{ReadConsumes};
ghost use Rattle.bec_bytes.specs.Causes.{HasCause};
ghost use Rattle.bec_bytes.specs.Moved.{TakesAll};

use bec_bytes::{Failed, Sink, Source};

/// A connection: a source of what the other end sends, and a sink of what this end sends. Both count
/// their faults together.
///
/// `take` says nothing of what was put, and `put` nothing of what is left; `receive` and `send` say both.
pub trait Link: Source + Sink + Send + Drop {
    /// Takes the next bytes, as `take` does. What was put stays.
    fn receive(&mut self, buf: &mut [u8]) -> Result<usize, Failed>
        ensures bound { ReadsAtMost result buf.new }
        ensures bytes { ReadConsumes (Self.left self.old) (Self.left self.new) result buf.new }
        ensures held { Self.held self.new ≡ Self.held self.old }
        ensures cause { HasCause (Self.faults self.old) (Self.faults self.new) result };

    /// Puts all the bytes, or a front of them where a fault comes between. What is left to take stays.
    fn send(&mut self, bytes: &[u8]) -> Result<(), Failed>
        ensures bytes { TakesAll (Self.held self.old) (Self.held self.new) result bytes.now }
        ensures left { Self.left self.new ≡ Self.left self.old }
        ensures cause { HasCause (Self.faults self.old) (Self.faults self.new) result };
}
