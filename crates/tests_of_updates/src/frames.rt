//! Known frames, streams cut at every place, and what is no frame.

use std::alloc::{AllocError, Global};
use sync_frames::{FeedError, Frame, FrameFault, Frames, Hello, Turn, write_hello, write_turn};
use update_model::{ByteList, IdList};

/// The Hello of a node that holds nothing.
fn hello(alloc: Global) -> Hello {
    Hello::new(
        [0xd1; 32],
        [0x4e; 32],
        IdList::from_vec(Vec::new(alloc)),
        IdList::from_vec(Vec::new(alloc)),
        ByteList::from_vec(Vec::new(alloc)),
    )
}

/// What a frame is, in a letter.
fn letter(frame: &Frame) -> char {
    match frame {
        Frame::Hello(_) => 'h',
        Frame::OtherVersion(_) => 'v',
        Frame::Item(_) => 'i',
        Frame::Turn(turn) if turn.have => 'f',
        Frame::Turn(_) => 't',
    }
}

/// What is written of the Hello of a node that holds nothing.
const HELLO: &[&[u8]] = &[
    &[0x01, 0x00, 0x00, 0x00, 0x4b, 0x02],
    &[0xd1; 32],
    &[0x4e; 32],
    &[0; 10],
];

/// Whether such a Hello and two Turns are written so.
fn writes_known(alloc: Global) -> Result<bool, AllocError> {
    let neither = Turn::asking(IdList::from_vec(Vec::new(alloc)));
    let known = HELLO.concat(alloc)?;
    let bytes = write_hello(alloc, &hello(alloc))?;
    let full = write_turn(alloc, &Turn::all_held(alloc))?;
    let empty = write_turn(alloc, &neither)?;
    let are_turns = full.as_slice() == [3, 0, 0, 0, 3, 1, 0, 0].as_slice()
        && empty.as_slice() == [3, 0, 0, 0, 3, 0, 0, 0].as_slice();
    Ok(bytes == known && are_turns)
}

#[test]
fn writes_known_bytes(rt: HostRuntime) {
    assert!(rt; matches!(writes_known(rt.alloc()), Ok(true)));
}

/// Writes the letters of the frames that a piece makes whole.
fn read_piece(
    alloc: Global,
    frames: &mut Frames,
    piece: &[u8],
    read: &mut String,
) -> Result<(), FeedError> {
    for frame in &frames.feed(alloc, piece)? {
        read.push(letter(frame))?;
    }
    Ok(())
}

/// Whether two pieces are read as a Hello, one of version 1, an Item, and both Turns.
fn is_read(alloc: Global, one: &[u8], other: &[u8]) -> Result<bool, FeedError> {
    let mut frames = Frames::new(alloc);
    let mut read = String::new(alloc);
    read_piece(alloc, &mut frames, one, &mut read)?;
    read_piece(alloc, &mut frames, other, &mut read)?;
    Ok(read.as_str() == "hvitf" && frames.place() == 109)
}

/// Whether these frames are read, cut into two pieces at every place.
fn reads_each_cut(alloc: Global) -> Result<bool, FeedError> {
    let mut stream = write_hello(alloc, &hello(alloc))?;
    stream.extend_from_slice(&[1, 0, 0, 0, 2, 1, 9, 2, 0, 0, 0, 1, 5])?;
    stream.extend_from_slice(&[3, 0, 0, 0, 3, 0, 0, 0, 3, 0, 0, 0, 3, 1, 0, 0])?;
    for cut in 0..stream.len() {
        if !is_read(alloc, &stream[..cut], &stream[cut..])? {
            return Ok(false);
        }
    }
    Ok(true)
}

#[test]
fn reads_however_it_is_cut(rt: HostRuntime) {
    assert!(rt; matches!(reads_each_cut(rt.alloc()), Ok(true)));
}

/// Bytes behind a Turn that are no frame.
const REFUSED: &[&[u8]] = &[
    &[4, 0, 0, 0, 0], // no such kind
    &[1, 0, 0x80, 0, 1], // a length one too great
    &[2, 0, 4, 0, 1], // the same of an Item
    &[1, 0, 0, 0, 0], // a Hello of no version
    &[3, 0, 0, 0, 2, 0, 0], // a Turn that is too short
    &[3, 0, 0, 0, 3, 2, 0, 0], // one whose flag is none
];

/// Whether the next byte is refused for those behind a Turn.
fn is_refused(alloc: Global, frames: &mut Frames) -> bool {
    let fault = FeedError::Fault(FrameFault { place: 8 });
    matches!(frames.feed(alloc, &[0]), Err(error) if error == fault)
}

/// Whether the Turn before these bytes is given first, and they are refused from then on.
fn refuses(alloc: Global, bytes: &[u8]) -> Result<bool, FeedError> {
    let mut frames = Frames::new(alloc);
    let mut stream = write_turn(alloc, &Turn::all_held(alloc))?;
    stream.extend_from_slice(bytes)?;
    let count = frames.feed(alloc, &stream)?.len();
    let is_refused = is_refused(alloc, &mut frames) && is_refused(alloc, &mut frames);
    Ok(count == 1 && is_refused && frames.place() == 8)
}

/// Whether each row is refused so.
fn refuses_all(alloc: Global) -> Result<bool, FeedError> {
    for bytes in REFUSED {
        if !refuses(alloc, bytes)? {
            return Ok(false);
        }
    }
    Ok(true)
}

#[test]
fn refuses_at_once(rt: HostRuntime) {
    assert!(rt; matches!(refuses_all(rt.alloc()), Ok(true)));
}
