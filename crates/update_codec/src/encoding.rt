//! Writing updates.

ghost use Rattle.std.specs.Prelude.{◌≡◌, ◌+◌, ◌≤◌, ◌<◌, ◌++◌, length, IfOk, OnOk};
ghost use Rattle.update_codec.specs.Outcome.{Writes, Refuses};
ghost use Rattle.update_codec.specs.Spelling.{Spells, before_ops, message, note as note_bytes, signed_length, spelling};
ghost use Rattle.update_codec.specs.Spelling.{version as version_by};

use crate::limits::{NOTED_VERSION, PLAIN_VERSION, UPDATE_LIMIT};
use crate::writing_ops::{put_ops, put_text, put_u16, put_u32};
use crate::{EncodeError, TooLong};
use std::alloc::{AllocError, Global};
use update_model::{Body, TextValue, Update, signature_len};

/// The bytes that the author of a body signs: its spelling up to the signature's length.
///
/// `TooLong` comes exactly where the update, with the signature that its author's key makes, would have bytes
/// than [`UPDATE_LIMIT`].
pub fn encode_body(alloc: Global, body: &Body) -> Result<Vec<u8>, EncodeError>
    ensures short { signed_length body.now ≤ UPDATE_LIMIT → Writes result (message body.now) }
    ensures long { UPDATE_LIMIT < signed_length body.now → Refuses result (signed_length body.now) }
{
    let out = message_of(alloc, body, 0)?;
    let len = out.len() + 4 + signature_len(&body.author) as usize;
    if UPDATE_LIMIT < len {
        return Err(EncodeError::TooLong(TooLong { len: len as u64 }));
    }
    Ok(out)
}

/// The spelling of an update.
///
/// `TooLong` comes exactly where it has more than [`UPDATE_LIMIT`] bytes.
pub fn encode(alloc: Global, update: &Update) -> Result<Vec<u8>, EncodeError>
    ensures spells { IfOk result (λ out. Spells out.items update.now) }
    ensures short { length (spelling update.now) ≤ UPDATE_LIMIT → Writes result (spelling update.now) }
    ensures long { UPDATE_LIMIT < length (spelling update.now) → Refuses result (length (spelling update.now)) }
{
    let signature = update.signature.as_slice();
    let mut out = message_of(alloc, &update.body, 4 + signature.len())?;
    put_u32(&mut out, signature.len() as u32)?;
    out.extend_from_slice(signature)?;
    if UPDATE_LIMIT < out.len() {
        return Err(EncodeError::TooLong(TooLong {
            len: out.len() as u64,
        }));
    }
    Ok(out)
}

/// The message, in a vector with room for more.
fn message_of(alloc: Global, body: &Body, more: usize) -> Result<Vec<u8>, AllocError>
    requires { more ≤ 65536 }
    ensures { IfOk result (λ out. out.items ≡ message body.now) }
{
    let preds = body.preds.as_slice().len();
    let mut out = Vec::with_capacity(alloc, 93 + 32 * preds + more)?;
    put_before_ops(&mut out, body)?;
    put_ops(&mut out, body.ops.as_slice())?;
    put_note(&mut out, &body.note)?;
    Ok(out)
}

fn put_note(out: &mut Vec<u8>, note: &Option<TextValue>) -> Result<(), AllocError>
    ensures { OnOk result (out.new.items ≡ out.old.items ++ note_bytes note.now) }
{
    match note {
        None => Ok(()),
        Some(text) => put_text(out, text),
    }
}

/// The version of a body that has this note, or none.
fn version_of(note: &Option<TextValue>) -> u8
    ensures { result ≡ version_by note.now }
{
    match note {
        None => PLAIN_VERSION,
        Some(_) => NOTED_VERSION,
    }
}

fn put_before_ops(out: &mut Vec<u8>, body: &Body) -> Result<(), AllocError>
    ensures { OnOk result (out.new.items ≡ out.old.items ++ before_ops body.now) }
{
    out.push(version_of(&body.note))?;
    out.extend_from_slice(&body.database)?;
    put_u32(out, body.author.lms)?;
    put_u32(out, body.author.ots)?;
    out.extend_from_slice(&body.author.ident)?;
    out.extend_from_slice(&body.author.root)?;
    let preds = body.preds.as_slice();
    put_u16(out, preds.len() as u16)?;
    for pred in preds {
        out.extend_from_slice(&pred.0)?;
    }
    Ok(())
}
