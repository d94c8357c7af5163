ghost use Rattle.std.specs.Prelude.{◌≡◌, ℕ, ◌++◌, [], List, false};
ghost use Rattle.std.specs.Io.{ReadsAtMost};
ghost use Rattle.std.specs.Io.KnownBytes.{ReadConsumes};
ghost use Rattle.bec_bytes.specs.Causes.{HasCause};
ghost use Rattle.explanations.specs.Recorded.{HasKept, IsFrontWithin, given_by};

use crate::fronts::front_of;
use bec_bytes::{Counted, Failed, Source};
use std::alloc::Global;
use std::marker::Model;

/// A source that passes on what another one gives, and keeps the first bytes of it.
#[derive(Drop)]
pub struct Recording<S: Source> {
    source: S,
    front: Front,
}

impl<S: Source> Model for Recording<S> {
    ghost use Rattle.explanations.specs.Recorded.{RecordingState};

    ghost Value = { RecordingState };

    ghost view = { λ r. record {
      left = S.left r.source;
      faults = S.faults r.source;
      kept = r.front.kept.items;
      limit = r.front.limit;
      is_over = r.front.is_over;
    } };
}

impl<S: Source> Recording<S> {
    /// A source over another one, of which at most so many bytes are kept.
    pub fn new(alloc: Global, source: S, limit: usize) -> Recording<S>
        ensures made { result ≡ record {
          left = S.left source;
          faults = S.faults source;
          kept = [];
          limit = limit;
          is_over = false;
        } }
        ensures kept { HasKept result [] }
    {
        let kept = Vec::new(alloc);
        Recording {
            source,
            front: Front {
                kept,
                limit,
                is_over: false,
            },
        }
    }

    /// The bytes that were kept.
    pub fn kept(&self) -> &[u8]
        ensures { result.now ≡ self.now.kept }
    {
        &self.front.kept
    }
}

impl<S: Source> Counted for Recording<S> {
    ghost faults = { λ s. s.faults };
}

impl<S: Source> Source for Recording<S> {
    ghost left = { λ s. s.left };

    /// Gives what the other source gives, and keeps it.
    fn take(&mut self, buf: &mut [u8]) -> Result<usize, Failed>
        ensures bound { ReadsAtMost result buf.new }
        ensures bytes { ReadConsumes self.old.left self.new.left result buf.new }
        ensures cause { HasCause self.old.faults self.new.faults result }

        // What is kept is a front of what was given, of at most so many bytes as before.
        ensures kept { (given : List ℕ) → HasKept self.old given → HasKept self.new (given ++ given_by result buf.new) }
        ensures limit { self.new.limit ≡ self.old.limit }
    {
        let count = self.source.take(buf)?;
        self.front.keep(&buf[..count]);
        Ok(count)
    }
}

/// The first bytes of a stream.
#[derive(Drop)]
struct Front {
    kept: Vec<u8>,
    /// How many bytes are kept at most.
    limit: usize,
    /// Memory ran out, and no more are kept.
    is_over: bool,
}

impl Front {
    /// Keeps bytes as far as there is room. Where memory runs out no more are kept from then on.
    fn keep(&mut self, bytes: &[u8])
        ensures kept { (given : List ℕ)
            → IsFrontWithin self.old.limit self.old.is_over self.old.kept.items given
            → IsFrontWithin self.new.limit self.new.is_over self.new.kept.items (given ++ bytes.now) }
        ensures limit { self.new.limit ≡ self.old.limit }
    {
        if self.is_over {
            return;
        }
        let room = self.limit.saturating_sub(self.kept.len());
        let kept = self.kept.extend_from_slice(front_of(bytes, room));
        self.is_over = kept.is_err();
    }
}
