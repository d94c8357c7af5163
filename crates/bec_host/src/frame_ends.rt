//! Where frames end in what a peer sends.

ghost use Rattle.std.specs.Prelude.{◌≡◌};

/// How many bytes a frame begins with: its kind, and its length in four bytes, the high one first.
const HEADER: u8 = 5;

/// How far a peer has come in a frame. Whether it is one is for its reader to judge.
#[derive(Drop)]
pub(crate) struct FrameEnds {
    /// How many bytes of its beginning came.
    begun: u8,
    /// What the bytes of its length say so far.
    length: u32,
    /// How many bytes behind its beginning are still to come.
    left: u32,
}

impl FrameEnds {
    /// Before the first frame.
    pub(crate) fn new() -> FrameEnds {
        FrameEnds {
            begun: 0,
            length: 0,
            left: 0,
        }
    }

    /// Whether a frame ends in these bytes, which come next.
    pub(crate) fn pass(&mut self, bytes: &[u8]) -> bool {
        let mut is_whole = false;
        for byte in bytes {
            if self.ends_at(*byte) {
                is_whole = true;
            }
        }
        is_whole
    }

    /// Whether a frame ends at this byte, which comes next.
    fn ends_at(&mut self, byte: u8) -> bool {
        if self.left > 0 {
            self.left -= 1;
            return self.left == 0;
        }
        self.length = self.length.wrapping_shl(8) | u32::from(byte);
        self.begun = self.begun.saturating_add(1);
        if self.begun < HEADER {
            return false;
        }
        self.left = self.length;
        self.begun = 0;
        self.length = 0;
        self.left == 0
    }
}
