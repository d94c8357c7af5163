//! Reading the fields of fixed size. Each function gives what the bytes begin with, and the bytes after it.

ghost use Rattle.std.specs.Int.{w16, w32};
ghost use Rattle.std.specs.Prelude.{◌≡◌};
ghost use Rattle.sync_frames.specs.Reading.{Gives, byte_at, block_at, number_at, id_at};

use byteorder::{BigEndian, ByteOrder};
use std::alloc::{AllocError, AllocFailed};
use update_model::UpdateId;

/// Why a payload was not read.
#[derive(Clone, Copy, Drop)]
pub(crate) enum PayloadError {
    /// There was not enough memory.
    Memory,
    /// It has not the form of its kind.
    NoForm,
}

impl From<AllocError> for PayloadError {
    ghost use Rattle.std.specs.Prelude.{◌≡◌};
    ghost use Rattle.sync_frames.specs.declared.fields.PayloadError.TheVariants.{Memory};

    ghost from_gives = { λ _ error. error ≡ Memory };

    fn from(_error: AllocError) -> PayloadError {
        PayloadError::Memory
    }
}

impl<T: Drop> From<AllocFailed<T>> for PayloadError {
    ghost use Rattle.std.specs.Prelude.{◌≡◌};
    ghost use Rattle.sync_frames.specs.declared.fields.PayloadError.TheVariants.{Memory};

    ghost from_gives = { λ _ error. error ≡ Memory };

    fn from(_error: AllocFailed<T>) -> PayloadError {
        PayloadError::Memory
    }
}

pub(crate) fn byte_of(bytes: &[u8]) -> Result<(u8, &[u8]), PayloadError>
    ensures { Gives (λ read. (read.0, read.1.now)) result (byte_at bytes.now) }
{
    match bytes {
        [] => Err(PayloadError::NoForm),
        [first, rest @ ..] => Ok((*first, rest)),
    }
}

pub(crate) fn block_of(bytes: &[u8], len: usize) -> Result<(&[u8], &[u8]), PayloadError>
    ensures { Gives (λ read. (read.0.now, read.1.now)) result (block_at len bytes.now) }
{
    if bytes.len() < len {
        return Err(PayloadError::NoForm);
    }
    Ok(bytes.split_at(len))
}

pub(crate) fn array_of<const N: usize>(bytes: &[u8]) -> Result<([u8; N], &[u8]), PayloadError>
    ensures { Gives (λ read. (read.0, read.1.now)) result (block_at N bytes.now) }
{
    let (block, rest) = block_of(bytes, N)?;
    let mut array = [0; N];
    array.copy_from_slice(block);
    Ok((array, rest))
}

pub(crate) fn u16_of(bytes: &[u8]) -> Result<(u16, &[u8]), PayloadError>
    ensures { Gives (λ read. (read.0, read.1.now)) result (number_at w16 bytes.now) }
{
    if bytes.len() < 2 {
        return Err(PayloadError::NoForm);
    }
    Ok((BigEndian::read_u16(bytes), &bytes[2..]))
}

pub(crate) fn u32_of(bytes: &[u8]) -> Result<(u32, &[u8]), PayloadError>
    ensures { Gives (λ read. (read.0, read.1.now)) result (number_at w32 bytes.now) }
{
    if bytes.len() < 4 {
        return Err(PayloadError::NoForm);
    }
    Ok((BigEndian::read_u32(bytes), &bytes[4..]))
}

#[tactic(auto, unfolding(crate::specs::Reading::id_at))]
pub(crate) fn id_of(bytes: &[u8]) -> Result<(UpdateId, &[u8]), PayloadError>
    ensures { Gives (λ read. (read.0, read.1.now)) result (id_at bytes.now) }
{
    let (block, rest) = array_of(bytes)?;
    Ok((UpdateId(block), rest))
}
