//! Payloads that are exactly of their form, and such that miss it by little.

use std::alloc::{AllocError, Global};
use sync_frames::{FeedError, Frames};

/// An id.
const LOW: &[u8] = &[0x11; 32];

/// A greater one.
const HIGH: &[u8] = &[0x22; 32];

/// Parts of a payload, and whether they are one.
type Row = (&'static [&'static [u8]], bool);

/// What stands in a Turn: whether all is held, a count in two bytes, and ids.
const TURNS: &[Row] = &[
    (&[&[0, 0, 1], LOW], true),
    (&[&[0, 0, 2], LOW, HIGH], true),
    (&[&[0, 0, 2], HIGH, LOW], false),
    (&[&[0, 0, 2], LOW, LOW], false),
    (&[&[0, 0, 2], LOW], false),
    (&[&[0, 0, 1], LOW, &[0]], false),
    (&[&[1, 0, 1], LOW], false),
    (&[&[0, 0x10, 1], LOW], false),
];

/// What stands in a Hello behind its node: heads behind a count in four bytes, old ids behind one in two, and a filter
/// behind its length in four.
const HELLOS: &[Row] = &[
    (&[&[0, 0, 0, 1], LOW, &[0, 0, 0, 0, 0, 0]], true),
    (&[&[0, 0, 0, 2], LOW, HIGH, &[0, 0, 0, 0, 0, 0]], true),
    (&[&[0, 0, 0, 2], HIGH, LOW, &[0, 0, 0, 0, 0, 0]], false),
    (&[&[0, 0, 0, 2], LOW, LOW, &[0, 0, 0, 0, 0, 0]], false),
    (&[&[0, 0, 0, 0, 0, 1], LOW, &[0, 0, 0, 0]], true),
    (&[&[0, 0, 0, 0, 0, 2], LOW, HIGH, &[0, 0, 0, 0]], true),
    (&[&[0, 0, 0, 0, 0, 2], HIGH, LOW, &[0, 0, 0, 0]], false),
    (&[&[0, 0, 0, 0, 0, 2], LOW, LOW, &[0, 0, 0, 0]], false),
    (&[&[0, 0, 0, 0, 0, 0, 0, 0, 0, 1, 0xff]], true),
    (&[&[0, 0, 0, 0, 0, 0, 0, 0, 0, 2, 0xff]], false),
    (&[&[0, 0, 0, 0, 0, 0, 0, 0, 0, 0, 0]], false),
    (&[&[0, 0, 0, 0, 0, 0, 0, 0, 0]], false),
];

/// Whether a payload of this kind is read as one frame.
fn is_frame(alloc: Global, kind: u8, payload: &[u8]) -> Result<bool, AllocError> {
    let len = payload.len().min(255) as u8;
    let mut bytes = Vec::from_slice(alloc, &[kind, 0, 0, 0, len])?;
    bytes.extend_from_slice(payload)?;
    let mut frames = Frames::new(alloc);
    match frames.feed(alloc, &bytes) {
        Ok(whole) => Ok(whole.len() == 1),
        Err(FeedError::Fault(_)) => Ok(false),
        Err(FeedError::Memory) => Err(AllocError),
    }
}

/// Whether payloads of this kind, each behind the same front, are read as one frame where their rows say so.
fn are_so(alloc: Global, kind: u8, front: &[u8], rows: &[Row]) -> Result<bool, AllocError> {
    for (parts, is_so) in rows {
        let mut payload = Vec::from_slice(alloc, front)?;
        payload.extend_from_slice(&parts.concat(alloc)?)?;
        if is_frame(alloc, kind, &payload)? != *is_so {
            return Ok(false);
        }
    }
    Ok(true)
}

#[test]
fn a_turn_is_exactly_of_its_form(rt: HostRuntime) {
    assert!(rt; matches!(are_so(rt.alloc(), 3, &[], TURNS), Ok(true)));
}

/// What a Hello begins with: its version, and bytes for the database and the node.
fn hello_front() -> [u8; 65] {
    let mut front = [0xd1; 65];
    front[0] = 2;
    front
}

#[test]
fn a_hello_is_exactly_of_its_form(rt: HostRuntime) {
    assert!(rt; matches!(are_so(rt.alloc(), 1, &hello_front(), HELLOS), Ok(true)));
}
