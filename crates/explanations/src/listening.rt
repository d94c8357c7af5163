ghost use Rattle.std.specs.Prelude.{◌≡◌, ℕ, ◌<◌, ◌++◌, [], List, false, length, IfOk};
ghost use Rattle.std.specs.Io.{WritesAtMost};
ghost use Rattle.std.specs.Io.KnownBytes.{WriteAppends};
ghost use Rattle.bec_bytes.specs.Causes.{HasCause};
ghost use Rattle.explanations.specs.Heard.{HasHeard, taken_by};

use crate::heard_lines::HeardLines;
use bec_bytes::{Counted, Failed, Sink};
use std::alloc::Global;
use std::marker::Model;

/// How many bytes of lines are kept.
const LIMIT: usize = 4096;

/// A sink that passes on what it is given to another one, and keeps the lines that begin with `! ` or `session `, each
/// with an LF behind it, as far as there is room.
#[derive(Drop)]
pub struct Listening<K: Sink> {
    sink: K,
    lines: HeardLines,
}

impl<K: Sink> Model for Listening<K> {
    ghost use Rattle.explanations.specs.Heard.{ListeningState, hearing_of};

    ghost Value = { ListeningState };

    ghost view = { λ l. record {
      held = K.held l.sink;
      faults = K.faults l.sink;
      hearing = hearing_of l.lines;
    } };
}

impl<K: Sink> Listening<K> {
    /// A sink over another one.
    pub fn new(alloc: Global, sink: K) -> Listening<K>
        ensures made { result ≡ record {
          held = K.held sink;
          faults = K.faults sink;
          hearing = record {
            heard = [];
            limit = LIMIT;
            line = [];
            passes = false;
            is_over = false;
          };
        } }
        ensures heard { HasHeard result.hearing [] }
    {
        Listening {
            sink,
            lines: HeardLines::new(alloc, LIMIT),
        }
    }

    /// The other sink.
    pub fn sink(&self) -> &K
        ensures held { K.held result.now ≡ self.now.held }
        ensures faults { K.faults result.now ≡ self.now.faults }
    {
        &self.sink
    }

    /// The lines that were kept.
    pub fn heard(&self) -> &[u8]
        ensures { result.now ≡ self.now.hearing.heard }
    {
        self.lines.heard()
    }
}

impl<K: Sink> Counted for Listening<K> {
    ghost faults = { λ s. s.faults };
}

impl<K: Sink> Sink for Listening<K> {
    ghost held = { λ s. s.held };

    /// Puts the bytes into the other sink, and listens to those that it took.
    fn put(&mut self, bytes: &[u8]) -> Result<usize, Failed>
        ensures bound { WritesAtMost result bytes.now }
        ensures some { 0 < length bytes.now → IfOk result (λ n. 0 < n) }
        ensures bytes { WriteAppends self.old.held self.new.held result bytes.now }
        ensures cause { HasCause self.old.faults self.new.faults result }

        // What is heard is of the lines of what was taken.
        ensures heard { (given : List ℕ) → HasHeard self.old.hearing given
            → HasHeard self.new.hearing (given ++ taken_by result bytes.now) }
        ensures limit { self.new.hearing.limit ≡ self.old.hearing.limit }
    {
        let count = self.sink.put(bytes)?;
        self.lines.hear(&bytes[..count]);
        Ok(count)
    }
}
