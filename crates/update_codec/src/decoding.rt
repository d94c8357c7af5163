//! Reading whole updates.

ghost use Rattle.std.specs.Prelude.{◌≡◌, ◌+◌, List, ℕ, Ok, Err, IfOk, IfErr};
ghost use Rattle.update_model.specs.Form.{BodyData, UpdateData, most_ops as most_by};
ghost use Rattle.update_codec.specs.Outcome.{Shows, Answers, Fails, HasCause};
ghost use Rattle.update_codec.specs.Parts.{body_of as body_by, update_of};
ghost use Rattle.update_codec.specs.Reading.{Gives, Stops, first_note as first_by, before_ops_at, note_at, body_at};
ghost use Rattle.update_codec.specs.Reading.{whole, placed as placed_in, first_of};
ghost use Rattle.update_codec.specs.Spelling.{Spells};

use crate::fields::{array_of, author_of, block_of, byte_of, u16_of, u32_of};
use crate::halt::{UpdateReadError, fault_at};
use crate::limits::{NOTED_VERSION, PLAIN_VERSION, UPDATE_LIMIT};
use crate::operations::ops_of;
use crate::predecessors::preds_of;
use crate::values::text_of;
use crate::{CodecFault, CodecKind, DecodeError};
use std::alloc::{AllocError, Global};
use update_model::{
    Body, ByteList, IdList, MAX_NOTE, MAX_OPS, MAX_PLAIN_OPS, MAX_PREDS, OpList, TextValue, Update,
    signature_len,
};

/// The update whose spelling these bytes are.
///
/// A fault comes exactly where the bytes spell no update, and is their first one: fields are judged from left to
/// right, each as soon as it is whole, and more than 262,144 bytes are too long before any field is. What is kept of
/// the bytes is copied, once.
pub fn decode(alloc: Global, bytes: &[u8]) -> Result<Update, DecodeError>
    ensures found { IfOk result (λ update. Spells bytes.now update) }
    ensures only { (update : UpdateData) → Spells bytes.now update → Answers result (Ok update) }
    ensures fault { IfErr result (λ error. HasCause bytes.now error) }
{
    read_update(alloc, bytes)
}

fn read_update(alloc: Global, bytes: &[u8]) -> Result<Update, DecodeError>
    ensures { Answers result (first_of bytes.now) }
{
    let (body, signature) = parts_of(alloc, bytes)?;
    let signature = ByteList::from_vec(Vec::from_slice(alloc, signature)?);
    Ok(Update { body, signature })
}

/// The body and the signature of the update whose spelling these bytes are.
#[tactic(auto, unfolding(crate::specs::Reading::first_of))]
pub(crate) fn parts_of(alloc: Global, bytes: &[u8]) -> Result<(Body, &[u8]), DecodeError>
    ensures { Shows (λ read. record { body = read.0; signature = read.1.now }) result (first_of bytes.now) }
{
    if UPDATE_LIMIT < bytes.len() {
        return Err(DecodeError::Fault(CodecFault {
            kind: CodecKind::TooLong,
            place: UPDATE_LIMIT as u32,
        }));
    }
    match whole_of(alloc, bytes) {
        Ok(parts) => Ok(parts),
        Err(UpdateReadError::Memory) => Err(DecodeError::Memory),
        Err(UpdateReadError::Halted(halt)) => Err(DecodeError::Fault(CodecFault {
            kind: halt.kind,
            place: bytes.len().saturating_sub(halt.left) as u32,
        })),
    }
}

/// The body of the update that these bytes spell. They have no fault, so nothing but want of memory is in the way.
pub(crate) fn spelled_body(alloc: Global, bytes: &[u8]) -> Result<Body, AllocError>
    requires { Spells bytes.now (update_of bytes.now) }
    ensures { IfOk result (λ body. body ≡ body_by bytes.now) }
{
    match parts_of(alloc, bytes) {
        Ok((body, _signature)) => Ok(body),
        Err(DecodeError::Memory) => Err(AllocError),
        Err(DecodeError::Fault(_)) => unreachable!(),
    }
}

#[tactic(auto, unfolding(crate::specs::Reading::whole, crate::specs::Reading::update_at))]
fn whole_of(alloc: Global, bytes: &[u8]) -> Result<(Body, &[u8]), UpdateReadError>
    ensures { Gives (λ read. record { body = read.0; signature = read.1.now }) result (whole bytes.now) }
{
    let (body, after_body) = body_of(alloc, bytes)?;
    let (len, rest) = u32_of(after_body)?;
    if len != signature_len(&body.author) {
        return Err(fault_at(CodecKind::SignatureLength, after_body));
    }
    let (signature, rest) = block_of(rest, len as usize)?;
    if !rest.is_empty() {
        return Err(fault_at(CodecKind::Trailing, rest));
    }
    Ok((body, signature))
}

/// All that is signed.
#[tactic(auto, unfolding(crate::specs::Reading::body_at))]
fn body_of(alloc: Global, bytes: &[u8]) -> Result<(Body, &[u8]), UpdateReadError>
    ensures { Gives (λ read. (read.0, read.1.now)) result (body_at bytes.now) }
{
    let (before, after_preds) = before_ops_of(alloc, bytes)?;
    let (count, rest) = u16_of(after_preds)?;
    if most_ops(&before.note) < count {
        return Err(fault_at(CodecKind::Count, after_preds));
    }
    let (ops, rest) = ops_of(alloc, count, rest)?;
    let ops = OpList::from_vec(ops);
    let (note, rest) = note_of(alloc, &before.note, rest)?;
    Ok((
        Body {
            ops,
            note,
            ..before
        },
        rest,
    ))
}

/// How many operations a body may have with this note, or without one.
fn most_ops(note: &Option<TextValue>) -> u16
    ensures { result ≡ most_by note.now }
{
    match note {
        None => MAX_PLAIN_OPS,
        Some(_) => MAX_OPS,
    }
}

/// What stands behind the operations of a body that has this note until then.
#[tactic(auto, unfolding(crate::specs::Reading::note_at))]
fn note_of<'a>(
    alloc: Global,
    first: &Option<TextValue>,
    bytes: &'a [u8],
) -> Result<(Option<TextValue>, &'a [u8]), UpdateReadError>
    ensures { Gives (λ read. (read.0, read.1.now)) result (note_at first.now bytes.now) }
{
    match first {
        None => Ok((None, bytes)),
        Some(_) => {
            let (text, rest) = text_of(alloc, MAX_NOTE, bytes)?;
            Ok((Some(text), rest))
        }
    }
}

/// The note of a body of which no note is read yet: none in version 1, an empty one in version 2.
fn first_note(alloc: Global, version: u8) -> Option<TextValue>
    ensures { result ≡ first_by version }
{
    if version == PLAIN_VERSION {
        None
    } else {
        Some(TextValue::from_vec(Vec::new(alloc)))
    }
}

/// All that stands before the number of operations: a body that has none.
#[tactic(auto, unfolding(crate::specs::Reading::before_ops_at))]
fn before_ops_of(alloc: Global, bytes: &[u8]) -> Result<(Body, &[u8]), UpdateReadError>
    ensures { Gives (λ read. (read.0, read.1.now)) result (before_ops_at bytes.now) }
{
    let (version, rest) = byte_of(bytes)?;
    if version != PLAIN_VERSION && version != NOTED_VERSION {
        return Err(fault_at(CodecKind::Version, bytes));
    }
    let (database, rest) = array_of(rest)?;
    let (author, after_author) = author_of(rest)?;
    let (count, rest) = u16_of(after_author)?;
    if MAX_PREDS < count {
        return Err(fault_at(CodecKind::Count, after_author));
    }
    let (preds, rest) = preds_of(alloc, count as usize, rest)?;
    let preds = IdList::from_vec(preds);
    let ops = OpList::from_vec(Vec::new(alloc));
    let note = first_note(alloc, version);
    Ok((
        Body {
            database,
            author,
            preds,
            ops,
            note,
        },
        rest,
    ))
}
