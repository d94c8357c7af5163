//! Reading frames of a link.

ghost use Rattle.std.specs.Prelude.{◌≡◌, ◌≤◌, ◌<◌, [], length, map, All, IfOk, MatchResult};
ghost use Rattle.record_check.specs.Records.{bytes_of};
ghost use Rattle.sync_frames.specs.declared.frame.Frame.TheVariants.{Item};
ghost use Rattle.sync_session.specs.Kept.{frame_of, IsFrameUnder};
ghost use Rattle.link_frames.specs.Checking.{IsPlain, Puts, answered, items_of};
ghost use Rattle.link_frames.specs.Hearing.{AllArrive};
ghost use Rattle.link_frames.specs.Listening.{IsFed, Listens, ReadsPiece, is_none};

use bec_links::Link;
use record_check::{Answer, Verifier};
use std::alloc::{AllocError, Global};
use std::mem;
use sync_frames::{FeedError, Frame, Frames};
use sync_session::CheckedFrame;
use update_model::DbRule;

/// What a call of [`listen`] heard.
#[derive(Drop)]
pub enum Heard {
    /// Frames that are whole now, which may be none.
    Frames(Vec<Frame>),
    /// Bytes that are no frame. They begin at this place of the stream, counted in bytes.
    NoFrame(u64),
    /// The link ended, and no whole frame is left.
    End,
    /// A call of the link failed.
    Broken,
    /// Memory ran out.
    Memory,
}

/// Reads a piece of a link, unless what was read before is known to be no frame.
pub fn listen<K: Link>(alloc: Global, link: &mut K, frames: &mut Frames, buffer: &mut [u8]) -> Heard
    requires { 0 < length buffer.old }
    ensures listens { Listens (K.left link.old) (K.left link.new) frames.old frames.new (K.faults link.old)
        (K.faults link.new) result }
    ensures held { K.held link.new ≡ K.held link.old }
    ensures later { K.faults link.old ≤ K.faults link.new }
    ensures len { length buffer.new ≡ length buffer.old }
{
    let whole = feed(alloc, frames, &[]);
    if !is_nothing(&whole) {
        return whole;
    }
    read(alloc, link, frames, buffer)
}

/// Reads a piece of a link and takes it in.
fn read<K: Link>(alloc: Global, link: &mut K, frames: &mut Frames, buffer: &mut [u8]) -> Heard
    requires { 0 < length buffer.old }
    ensures reads { ReadsPiece (K.left link.old) (K.left link.new) frames.old frames.new (K.faults link.old)
        (K.faults link.new) result }
    ensures held { K.held link.new ≡ K.held link.old }
    ensures later { K.faults link.old ≤ K.faults link.new }
    ensures len { length buffer.new ≡ length buffer.old }
{
    match link.receive(buffer) {
        Ok(0) => Heard::End,
        Ok(count) => feed(alloc, frames, &buffer[..count]),
        Err(_) => Heard::Broken,
    }
}

/// Whether these are no frames.
fn is_nothing(heard: &Heard) -> bool
    ensures { result ≡ is_none heard.now }
{
    match heard {
        Heard::Frames(frames) => frames.is_empty(),
        _ => false,
    }
}

/// Takes a piece in.
fn feed(alloc: Global, frames: &mut Frames, piece: &[u8]) -> Heard
    ensures { IsFed frames.old frames.new piece.now result }
{
    match frames.feed(alloc, piece) {
        Ok(all) => Heard::Frames(all),
        Err(FeedError::Fault(fault)) => Heard::NoFrame(fault.place),
        Err(FeedError::Memory) => Heard::Memory,
    }
}

/// Frames with what the check of updates says of each, in order. The updates among them that follow one another are
/// checked at once, by the verifier. The error is want of memory.
pub fn checked_all<V: Verifier>(
    alloc: Global,
    verifier: &V,
    rule: &DbRule,
    frames: Vec<Frame>,
) -> Result<Vec<CheckedFrame>, AllocError>
    ensures arrives { IfOk result (λ all. AllArrive rule.now frames.items (map frame_of all.items)) }
    ensures under { IfOk result (λ all. All (IsFrameUnder rule.now) all.items) }
{
    let mut all = Vec::with_capacity(alloc, frames.len())?;
    let mut run = Vec::new(alloc);
    for frame in frames {
        match plain(frame) {
            Ok(frame) => {
                put_checked(alloc, verifier, rule, &mut run, &mut all)?;
                all.push(frame)?;
            }
            Err(bytes) => run.push(bytes)?,
        }
    }
    put_checked(alloc, verifier, rule, &mut run, &mut all)?;
    Ok(all)
}

/// A frame of which the check of updates says nothing, or the bytes of an update.
fn plain(frame: Frame) -> Result<CheckedFrame, Vec<u8>>
    ensures { MatchResult result (λ plain. IsPlain frame plain) (λ bytes. frame ≡ Item bytes.items) }
{
    match frame {
        Frame::Hello(hello) => Ok(CheckedFrame::Hello(hello)),
        Frame::OtherVersion(version) => Ok(CheckedFrame::OtherVersion(version)),
        Frame::Turn(turn) => Ok(CheckedFrame::Turn(turn)),
        Frame::Item(bytes) => Err(bytes.into_vec()),
    }
}

/// Takes updates out, has them checked at once, and puts each behind the frames that are there, with what the check
/// says of it.
fn put_checked<V: Verifier>(
    alloc: Global,
    verifier: &V,
    rule: &DbRule,
    run: &mut Vec<Vec<u8>>,
    all: &mut Vec<CheckedFrame>,
) -> Result<(), AllocError>
    ensures none { run.new.items ≡ [] }
    ensures puts { IfOk result (λ _. Puts rule.now (items_of (bytes_of run.old.items)) all.old.items all.new.items) }
{
    let records = mem::replace(run, Vec::new(alloc));
    for answer in verifier.check_each(alloc, rule, records)? {
        all.push(with_answer(answer))?;
    }
    Ok(())
}

/// An update with what the check of updates says of it.
fn with_answer(answer: Answer) -> CheckedFrame
    ensures { result ≡ answered answer }
{
    match answer {
        Ok(update) => CheckedFrame::Item(update),
        Err(fault) => CheckedFrame::BadItem(fault),
    }
}
