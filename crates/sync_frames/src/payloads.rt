//! Reading payloads.

ghost use Rattle.std.specs.Prelude.{◌≡◌, ◌≤◌, None, IfOk, length};
ghost use Rattle.std.specs.Int.{w16, w32};
ghost use Rattle.std.specs.List.Sorted.{IsStrictlySortedBy};
ghost use Rattle.update_model.specs.Entry.{id_cmp};
ghost use Rattle.sync_frames.specs.Reading.{Gives, ids_at, is_next as may_follow, counted_at, filter_at, hello_in};
ghost use Rattle.sync_frames.specs.Reading.{flag_of, turn_in, greeting_in, frame_in};

use crate::fields::{PayloadError, array_of, block_of, byte_of, id_of, u16_of, u32_of};
use crate::{Frame, Hello, MAX_NEEDS, MAX_OLD, Turn};
use bloom_summary::MAX_SUMMARY_BYTES;
use std::alloc::Global;
use update_model::{ByteList, IdList, MAX_MEMBERS, UpdateId};

/// Whether an id may come after the one before it, if there is one.
fn is_next(last: Option<UpdateId>, id: UpdateId) -> bool
    ensures { result ≡ may_follow last id }
{
    match last {
        None => true,
        Some(last) => last.cmp(&id).is_lt(),
    }
}

/// This many ids, each above the one before it, and the bytes after them.
fn ids_of(alloc: Global, count: usize, bytes: &[u8]) -> Result<(Vec<UpdateId>, &[u8]), PayloadError>
    ensures { Gives (λ read. (read.0.items, read.1.now)) result (ids_at count None bytes.now) }
{
    // a count may be too large for the bytes, and is then to take no more memory than they do
    let mut ids = Vec::with_capacity(alloc, count.min(bytes.len() / 32))?;
    let mut last = None;
    let mut rest = bytes;
    for _ in 0..count {
        let (id, after) = id_of(rest)?;
        if !is_next(last, id) {
            return Err(PayloadError::NoForm);
        }
        ids.push(id)?;
        last = Some(id);
        rest = after;
    }
    Ok((ids, rest))
}

/// The heads of what a node holds, behind their number.
#[tactic(auto, unfolding(crate::specs::Reading::counted_at))]
fn heads_of(alloc: Global, bytes: &[u8]) -> Result<(Vec<UpdateId>, &[u8]), PayloadError>
    ensures { Gives (λ read. (read.0.items, read.1.now)) result (counted_at w32 MAX_MEMBERS bytes.now) }
{
    let (count, rest) = u32_of(bytes)?;
    if MAX_MEMBERS < count {
        return Err(PayloadError::NoForm);
    }
    ids_of(alloc, count as usize, rest)
}

/// No more than this many ids, behind their number.
#[tactic(auto, unfolding(crate::specs::Reading::counted_at))]
fn few_of(alloc: Global, most: u16, bytes: &[u8]) -> Result<(Vec<UpdateId>, &[u8]), PayloadError>
    ensures { Gives (λ read. (read.0.items, read.1.now)) result (counted_at w16 most bytes.now) }
{
    let (count, rest) = u16_of(bytes)?;
    if most < count {
        return Err(PayloadError::NoForm);
    }
    ids_of(alloc, count as usize, rest)
}

/// A filter behind its length.
#[tactic(auto, unfolding(crate::specs::Reading::filter_at))]
fn filter_of(bytes: &[u8]) -> Result<(&[u8], &[u8]), PayloadError>
    ensures { Gives (λ read. (read.0.now, read.1.now)) result (filter_at bytes.now) }
{
    let (len, rest) = u32_of(bytes)?;
    if MAX_SUMMARY_BYTES < len as usize {
        return Err(PayloadError::NoForm);
    }
    block_of(rest, len as usize)
}

/// All that stands behind the version of a Hello.
#[tactic(auto, unfolding(crate::specs::Reading::hello_in))]
fn hello_of(alloc: Global, bytes: &[u8]) -> Result<Hello, PayloadError>
    ensures { Gives (λ hello. hello) result (hello_in bytes.now) }
{
    let (database, rest) = array_of(bytes)?;
    let (node, rest) = array_of(rest)?;
    let (heads, rest) = heads_of(alloc, rest)?;
    let (old, rest) = few_of(alloc, MAX_OLD, rest)?;
    let (filter, rest) = filter_of(rest)?;
    if !rest.is_empty() {
        return Err(PayloadError::NoForm);
    }
    let filter = Vec::from_slice(alloc, filter)?;
    Ok(Hello::new(
        database,
        node,
        IdList::from_vec(heads),
        IdList::from_vec(old),
        ByteList::from_vec(filter),
    ))
}

/// A truth value.
fn flag(byte: u8) -> Result<bool, PayloadError>
    ensures { Gives (λ flag. flag) result (flag_of byte) }
{
    match byte {
        0 => Ok(false),
        1 => Ok(true),
        _ => Err(PayloadError::NoForm),
    }
}

#[tactic(auto, unfolding(crate::specs::Reading::turn_in))]
fn turn_of(alloc: Global, bytes: &[u8]) -> Result<Turn, PayloadError>
    ensures { Gives (λ turn. turn) result (turn_in bytes.now) }
{
    let (first, rest) = byte_of(bytes)?;
    let have = flag(first)?;
    let (needs, rest) = few_of(alloc, MAX_NEEDS, rest)?;
    if !rest.is_empty() {
        return Err(PayloadError::NoForm);
    }
    if !have {
        return Ok(Turn::asking(IdList::from_vec(needs)));
    }
    if !needs.is_empty() {
        return Err(PayloadError::NoForm);
    }
    Ok(Turn::all_held(alloc))
}

/// The payload of a Hello, which tells the version first.
#[tactic(auto, unfolding(crate::specs::Reading::greeting_in))]
fn greeting_of(alloc: Global, payload: &[u8]) -> Result<Frame, PayloadError>
    ensures { Gives (λ frame. frame) result (greeting_in payload.now) }
{
    match payload {
        [] => Err(PayloadError::NoForm),
        [2, rest @ ..] => Ok(Frame::Hello(hello_of(alloc, rest)?)),
        [version, ..] => Ok(Frame::OtherVersion(*version)),
    }
}

/// What a payload of this kind says, which is 1, 2 or 3.
#[tactic(auto, unfolding(crate::specs::Reading::frame_in))]
pub(crate) fn frame_of(alloc: Global, kind: u8, payload: &[u8]) -> Result<Frame, PayloadError>
    ensures { Gives (λ frame. frame) result (frame_in kind payload.now) }
{
    match kind {
        1 => greeting_of(alloc, payload),
        2 => Ok(Frame::Item(ByteList::from_vec(Vec::from_slice(alloc, payload)?))),
        _ => Ok(Frame::Turn(turn_of(alloc, payload)?)),
    }
}
