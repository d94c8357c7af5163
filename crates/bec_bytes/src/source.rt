ghost use Rattle.std.specs.Prelude.{ℕ, List, Option};
ghost use Rattle.std.specs.Io.{ReadsAtMost};
ghost use Rattle.std.specs.Io.KnownBytes.{ReadConsumes};
ghost use Rattle.bec_bytes.specs.Causes.{HasCause};

use crate::counted::Counted;
use crate::failed::Failed;

/// Where bytes come from.
pub trait Source: Counted {
    /// The bytes that are left, or `None` where the source does not tell them.
    ghost left: { Self → Option (List ℕ) };

    /// Fills the front of `buf` with the next bytes and answers how many. For a buffer that is not
    /// empty, 0 is the end of input. A call that fails takes nothing from the source.
    fn take(&mut self, buf: &mut [u8]) -> Result<usize, Failed>
        ensures bound { ReadsAtMost result buf.new }
        ensures bytes { ReadConsumes (left self.old) (left self.new) result buf.new }
        ensures cause { HasCause (Self.faults self.old) (Self.faults self.new) result };
}
