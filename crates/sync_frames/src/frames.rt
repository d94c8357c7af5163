ghost use Rattle.std.specs.Prelude.{◌≡◌, ◌≤◌, [], length, drop, IfOk, IfErr, OnErr};
ghost use Rattle.sync_frames.specs.Fed.{Feeds, HasCause};

use crate::finding::split;
use crate::{FeedError, Frame, FrameFault};
use std::alloc::Global;
use std::marker::Model;

/// A decoder of a stream of frames. A contract sees how many bytes the frames that were given have, and what came
/// since.
///
/// It takes memory for the bytes of one frame, and for what a piece brings besides.
#[derive(Drop)]
pub struct Frames {
    /// What came since the last frame.
    rest: Vec<u8>,
    /// How many bytes the frames that were given have.
    place: u64,
    /// Whether `rest` is known to be no frame.
    broken: bool,
}

impl Model for Frames {
    ghost use Rattle.sync_frames.specs.Fed.{FedData, IsFed};

    ghost Value = { FedData };

    ghost view = { λ frames. record { place = frames.place; rest = frames.rest.items } };

    ghost invariant = { λ frames. IsFed frames.rest.items frames.broken };
}

impl Frames {
    /// A decoder at the beginning of a stream. It takes no memory yet.
    pub fn new(alloc: Global) -> Frames
        ensures { result ≡ record { place = 0; rest = [] } }
    {
        Frames {
            rest: Vec::new(alloc),
            place: 0,
            broken: false,
        }
    }

    /// Takes the next bytes of the stream, and gives the frames that are whole now and were not before.
    ///
    /// The stream's frames are given in order, each once, however it is cut into pieces: see
    /// [`one_split`](crate::one_split) and [`pieces_join`](crate::pieces_join). [`FeedError::Fault`] comes exactly
    /// where what follows the frames that were given is no frame; frames that were whole before it are given first. It
    /// names the fault's first byte, and every later call answers the same. Kind and length are judged as soon as five
    /// bytes are there. An `Err` changes nothing, so a call that lacked memory may be made again with its piece.
    ///
    /// Each byte is moved a bounded number of times, however small the pieces are.
    pub fn feed(&mut self, alloc: Global, piece: &[u8]) -> Result<Vec<Frame>, FeedError>
        ensures frames { IfOk result (λ frames. Feeds self.old self.new piece.now frames.items) }
        ensures cause { IfErr result (HasCause self.old) }
        ensures same { OnErr result (self.new ≡ self.old) }
    {
        if self.broken {
            return Err(FeedError::Fault(FrameFault { place: self.place }));
        }
        let len = self.rest.len();
        self.rest.extend_from_slice(piece)?;
        match split(alloc, self.rest.as_slice()) {
            Ok(front) => {
                take_off(&mut self.rest, front.len);
                self.place = self.place.saturating_add(front.len as u64);
                self.broken = front.broken;
                Ok(front.frames)
            }
            Err(error) => {
                self.rest.truncate(len);
                Err(FeedError::from(error))
            }
        }
    }

    /// How many bytes the frames that were given have; after a fault, its place. It stays at 2^64 - 1 when it comes
    /// there.
    pub fn place(&self) -> u64
        ensures { result ≡ self.now.place }
    {
        self.place
    }
}

/// Takes so many bytes off the front. Where that is none, nothing is moved.
fn take_off(bytes: &mut Vec<u8>, count: usize)
    requires { count ≤ length bytes.old.items }
    ensures { bytes.new.items ≡ drop count bytes.old.items }
{
    if count > 0 {
        let left = bytes.len() - count;
        bytes.copy_within(count.., 0);
        bytes.truncate(left);
    }
}
