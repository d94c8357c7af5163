//! Reading the fields of fixed size. Each function gives what the bytes begin with, and the bytes after it.

ghost use Rattle.update_codec.specs.Reading.{Gives, byte_at, block_at, number_at, id_at, row_at, author_at};
ghost use Rattle.std.specs.Int.{w16, w32, w64};

use crate::CodecKind;
use crate::halt::{SHORT, UpdateReadError, fault_at};
use byteorder::{BigEndian, ByteOrder};
use update_model::{AuthorKey, RowName, UpdateId};

pub(crate) fn byte_of(bytes: &[u8]) -> Result<(u8, &[u8]), UpdateReadError>
    ensures { Gives (λ read. (read.0, read.1.now)) result (byte_at bytes.now) }
{
    match bytes {
        [] => Err(SHORT),
        [first, rest @ ..] => Ok((*first, rest)),
    }
}

pub(crate) fn block_of(bytes: &[u8], len: usize) -> Result<(&[u8], &[u8]), UpdateReadError>
    ensures { Gives (λ read. (read.0.now, read.1.now)) result (block_at len bytes.now) }
{
    if bytes.len() < len {
        return Err(SHORT);
    }
    Ok(bytes.split_at(len))
}

pub(crate) fn array_of<const N: usize>(bytes: &[u8]) -> Result<([u8; N], &[u8]), UpdateReadError>
    ensures { Gives (λ read. (read.0, read.1.now)) result (block_at N bytes.now) }
{
    let (block, rest) = block_of(bytes, N)?;
    let mut array = [0; N];
    array.copy_from_slice(block);
    Ok((array, rest))
}

pub(crate) fn u16_of(bytes: &[u8]) -> Result<(u16, &[u8]), UpdateReadError>
    ensures { Gives (λ read. (read.0, read.1.now)) result (number_at w16 bytes.now) }
{
    if bytes.len() < 2 {
        return Err(SHORT);
    }
    Ok((BigEndian::read_u16(bytes), &bytes[2..]))
}

pub(crate) fn u32_of(bytes: &[u8]) -> Result<(u32, &[u8]), UpdateReadError>
    ensures { Gives (λ read. (read.0, read.1.now)) result (number_at w32 bytes.now) }
{
    if bytes.len() < 4 {
        return Err(SHORT);
    }
    Ok((BigEndian::read_u32(bytes), &bytes[4..]))
}

pub(crate) fn u64_of(bytes: &[u8]) -> Result<(u64, &[u8]), UpdateReadError>
    ensures { Gives (λ read. (read.0, read.1.now)) result (number_at w64 bytes.now) }
{
    if bytes.len() < 8 {
        return Err(SHORT);
    }
    Ok((BigEndian::read_u64(bytes), &bytes[8..]))
}

#[tactic(auto, unfolding(crate::specs::Reading::id_at))]
pub(crate) fn id_of_update(bytes: &[u8]) -> Result<(UpdateId, &[u8]), UpdateReadError>
    ensures { Gives (λ read. (read.0, read.1.now)) result (id_at bytes.now) }
{
    let (digest, rest) = array_of(bytes)?;
    Ok((UpdateId(digest), rest))
}

/// The name of a row.
#[tactic(auto, unfolding(crate::specs::Reading::row_at))]
pub(crate) fn row_of(bytes: &[u8]) -> Result<(RowName, &[u8]), UpdateReadError>
    ensures { Gives (λ read. (read.0, read.1.now)) result (row_at bytes.now) }
{
    let (update, rest) = id_of_update(bytes)?;
    let (index, rest) = u16_of(rest)?;
    Ok((RowName { update, index }, rest))
}

/// An author's key, of known types.
#[tactic(auto, unfolding(crate::specs::Reading::author_at))]
pub(crate) fn author_of(bytes: &[u8]) -> Result<(AuthorKey, &[u8]), UpdateReadError>
    ensures { Gives (λ read. (read.0, read.1.now)) result (author_at bytes.now) }
{
    let (lms, after_lms) = u32_of(bytes)?;
    if lms < 5 || 7 < lms {
        return Err(fault_at(CodecKind::KeyType, bytes));
    }
    let (ots, rest) = u32_of(after_lms)?;
    if ots < 1 || 4 < ots {
        return Err(fault_at(CodecKind::KeyType, after_lms));
    }
    let (ident, rest) = array_of(rest)?;
    let (root, rest) = array_of(rest)?;
    Ok((
        AuthorKey {
            lms,
            ots,
            ident,
            root,
        },
        rest,
    ))
}
