ghost use Rattle.std.specs.Prelude.{◌≡◌, ◌∷◌, ◌++◌, ◌-◌, [], List, ℕ, true, false, not, ◌&&◌, nat_lt, length, ◌⊎◌};
ghost use Rattle.explanations.specs.Heard.{HasHeard, MayKeep, NeverHeard, heard_at_end, hearing_of, is_report};

use std::alloc::Global;

/// The lines of a stream that begin with `! ` or `session `. Where memory runs out no more are kept from then on.
#[derive(Drop)]
pub(crate) struct HeardLines {
    heard: Vec<u8>,
    limit: usize,
    /// What came of the line that was begun, unless it is passed over.
    line: Vec<u8>,
    passes: bool,
    /// Memory ran out, and no more are kept.
    is_over: bool,
}

impl HeardLines {
    /// No line yet, of which at most so many bytes will be kept.
    pub(crate) fn new(alloc: Global, limit: usize) -> HeardLines
        ensures { hearing_of result ≡ record {
          heard = [];
          limit = limit;
          line = [];
          passes = false;
          is_over = false;
        } }
    {
        HeardLines {
            heard: Vec::new(alloc),
            limit,
            line: Vec::new(alloc),
            passes: false,
            is_over: false,
        }
    }

    /// The lines that were kept, each with an LF behind it.
    pub(crate) fn heard(&self) -> &[u8]
        ensures { result.now ≡ self.now.heard.items }
    {
        &self.heard
    }

    /// Takes what comes next in the stream.
    pub(crate) fn hear(&mut self, bytes: &[u8])
        ensures heard { (given : List ℕ) → HasHeard (hearing_of self.old) given
            → HasHeard (hearing_of self.new) (given ++ bytes.now) }
        ensures limit { self.new.limit ≡ self.old.limit }
    {
        for byte in bytes {
            self.hear_next(*byte);
        }
    }

    /// Takes the next byte.
    fn hear_next(&mut self, byte: u8)
        ensures heard { (given : List ℕ) → HasHeard (hearing_of self.old) given
            → HasHeard (hearing_of self.new) (given ++ byte ∷ []) }
        ensures limit { self.new.limit ≡ self.old.limit }
    {
        if self.is_over {
            return;
        }
        if byte == b'\n' {
            self.end_line();
            return;
        }
        self.hear_byte(byte);
    }

    /// Takes a byte of a line, unless that is passed over.
    fn hear_byte(&mut self, byte: u8)
        ensures heard { self.new.heard.items ≡ self.old.heard.items }
        ensures limit { self.new.limit ≡ self.old.limit }
        ensures line { self.new.is_over ≡ false → self.new.passes ≡ false
            → (self.old.passes ≡ false) × (self.new.line.items ≡ self.old.line.items ++ byte ∷ []) }
        ensures passed { self.new.is_over ≡ false → self.new.passes ≡ true → (self.old.passes ≡ true)
            ⊎ ((self.old.passes ≡ false) × NeverHeard self.old.limit (self.old.line.items ++ byte ∷ [])) }
    {
        if self.passes {
            return;
        }
        if self.line.len() >= self.limit {
            self.passes = true;
            return;
        }
        if self.line.push(byte).is_err() {
            self.is_over = true;
            return;
        }
        self.passes = !may_be_kept(self.line.as_slice());
    }

    /// Ends a line, and keeps it where it is to be kept.
    fn end_line(&mut self)
        ensures heard { MayKeep (hearing_of self.old) self.new.heard.items }
        ensures limit { self.new.limit ≡ self.old.limit }
        ensures all { self.new.is_over ≡ false → self.new.heard.items ≡ heard_at_end (hearing_of self.old) }
        ensures line { self.new.line.items ≡ [] }
        ensures passes { self.new.passes ≡ false }
    {
        if self.is_due() {
            self.keep_line();
        }
        self.line.clear();
        self.passes = false;
    }

    /// Whether the line that was begun is one to be kept, for which there is room.
    fn is_due(&self) -> bool
        ensures { result ≡ (not self.now.passes && is_report self.now.line.items
            && nat_lt (length self.now.line.items) (self.now.limit - length self.now.heard.items)) }
    {
        let room = self.limit.saturating_sub(self.heard.len());
        !self.passes && is_kept(self.line.as_slice()) && self.line.len() < room
    }

    /// Keeps the line that was begun.
    fn keep_line(&mut self)
        ensures heard { (self.new.heard.items ≡ self.old.heard.items)
            ⊎ (self.new.heard.items ≡ self.old.heard.items ++ (self.old.line.items ++ 10 ∷ [])) }
        ensures kept { self.new.is_over ≡ false
            → self.new.heard.items ≡ self.old.heard.items ++ (self.old.line.items ++ 10 ∷ []) }
        ensures limit { self.new.limit ≡ self.old.limit }
    {
        if self.line.push(b'\n').is_err() {
            self.is_over = true;
            return;
        }
        let kept = self.heard.extend_from_slice(self.line.as_slice());
        self.is_over = kept.is_err();
    }
}

/// Whether a line is one of those that are kept.
fn is_kept(line: &[u8]) -> bool
    ensures { result ≡ is_report line.now }
{
    line.starts_with(b"! ") || line.starts_with(b"session ")
}

/// Whether a line that begins so may be one.
fn may_be_kept(front: &[u8]) -> bool
    ensures { result ≡ false → (more : List ℕ) → is_report (front.now ++ more) ≡ false }
{
    is_kept(front) || b"! ".starts_with(front) || b"session ".starts_with(front)
}
