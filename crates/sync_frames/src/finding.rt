//! Finding the frames at the front of some bytes.

ghost use Rattle.std.specs.Prelude.{◌≡◌, ◌≤◌, length, IfOk};
ghost use Rattle.sync_frames.specs.Stream.{is_head, length_of};
ghost use Rattle.sync_frames.specs.Reading.{Finds};
ghost use Rattle.sync_frames.specs.Fed.{Fronts};

use crate::fields::PayloadError;
use crate::payloads::frame_of;
use crate::{Frame, PAYLOAD_LIMIT};
use byteorder::{BigEndian, ByteOrder};
use std::alloc::{AllocError, Global};
use update_codec::UPDATE_LIMIT;

/// What stands at the front of some bytes.
#[derive(Drop)]
pub(crate) enum FoundFrame {
    /// Less than a frame.
    Partial,
    /// Something that is no frame.
    Broken,
    /// A frame, and how many bytes it has.
    Whole(Frame, usize),
}

/// The frames at the front of some bytes.
#[derive(Drop)]
pub(crate) struct Front {
    /// What they say.
    pub(crate) frames: Vec<Frame>,
    /// How many bytes they have.
    pub(crate) len: usize,
    /// Whether what follows is no frame.
    pub(crate) broken: bool,
}

/// Whether a frame may begin with this kind and this length.
fn head_is_fine(kind: u8, len: u32) -> bool
    ensures { result ≡ is_head kind len }
{
    (kind == 1 || kind == 3) && len <= PAYLOAD_LIMIT || kind == 2 && len as usize <= UPDATE_LIMIT
}

/// The length that the second to fifth byte spell.
fn length_at(bytes: &[u8]) -> u32
    requires { 5 ≤ length bytes.now }
    ensures { result ≡ length_of bytes.now }
{
    BigEndian::read_u32(&bytes[1..])
}

/// What stands at the front.
fn find_frame(alloc: Global, bytes: &[u8]) -> Result<FoundFrame, AllocError>
    ensures { IfOk result (λ found. Finds found bytes.now) }
{
    if bytes.len() < 5 {
        return Ok(FoundFrame::Partial);
    }
    let len = length_at(bytes);
    if !head_is_fine(bytes[0], len) {
        return Ok(FoundFrame::Broken);
    }
    let end = 5 + len as usize;
    if bytes.len() < end {
        return Ok(FoundFrame::Partial);
    }
    match frame_of(alloc, bytes[0], &bytes[5..end]) {
        Ok(frame) => Ok(FoundFrame::Whole(frame, end)),
        Err(PayloadError::NoForm) => Ok(FoundFrame::Broken),
        Err(PayloadError::Memory) => Err(AllocError),
    }
}

/// The frames at the front.
pub(crate) fn split(alloc: Global, bytes: &[u8]) -> Result<Front, AllocError>
    ensures { IfOk result (λ front. Fronts bytes.now front.frames.items front.len front.broken) }
{
    let mut frames = Vec::new(alloc);
    let mut len = 0;
    loop {
        match find_frame(alloc, &bytes[len..])? {
            FoundFrame::Whole(frame, more) => {
                frames.push(frame)?;
                len += more;
            }
            FoundFrame::Partial => {
                return Ok(Front {
                    frames,
                    len,
                    broken: false,
                });
            }
            FoundFrame::Broken => {
                return Ok(Front {
                    frames,
                    len,
                    broken: true,
                });
            }
        }
    }
}
