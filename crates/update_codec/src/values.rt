//! Reading the values of an insert.

ghost use Rattle.std.specs.Prelude.{◌≡◌, ◌≤◌};
ghost use Rattle.update_model.specs.declared.limits.TheConstants.{MAX_TEXT};
ghost use Rattle.std.specs.Str.{is_utf8 as has_utf8};
ghost use Rattle.update_codec.specs.Reading.{Gives, int_at, text_at, flag_at, own_at, value_at, values_at};

use crate::CodecKind;
use crate::fields::{block_of, row_of, u16_of, u64_of};
use crate::halt::{SHORT, UpdateReadError, fault_at};
use std::alloc::Global;
use std::str;
use update_model::{MAX_TEXT, TextValue, Value};

#[tactic(auto, unfolding(crate::specs::Reading::int_at))]
fn int_of(bytes: &[u8]) -> Result<(Value, &[u8]), UpdateReadError>
    ensures { Gives (λ read. (read.0, read.1.now)) result (int_at bytes.now) }
{
    let (bits, rest) = u64_of(bytes)?;
    Ok((Value::Int(bits.cast_signed()), rest))
}

fn is_utf8(bytes: &[u8]) -> bool
    ensures { result ≡ has_utf8 bytes.now }
{
    str::from_utf8(bytes).is_ok()
}

/// A text of at most this many bytes, which is judged when its length is whole, and again when its bytes are.
#[tactic(auto, unfolding(crate::specs::Reading::text_at))]
pub(crate) fn text_of(
    alloc: Global,
    most: u16,
    bytes: &[u8],
) -> Result<(TextValue, &[u8]), UpdateReadError>
    requires { most ≤ MAX_TEXT }
    ensures { Gives (λ read. (read.0, read.1.now)) result (text_at most bytes.now) }
{
    let (len, after_len) = u16_of(bytes)?;
    if most < len {
        return Err(fault_at(CodecKind::Text, bytes));
    }
    let (text, rest) = block_of(after_len, len as usize)?;
    if !is_utf8(text) {
        return Err(fault_at(CodecKind::Text, after_len));
    }
    let text = TextValue::from_vec(Vec::from_slice(alloc, text)?);
    Ok((text, rest))
}

#[tactic(auto, unfolding(crate::specs::Reading::flag_at))]
fn flag_of(bytes: &[u8]) -> Result<(Value, &[u8]), UpdateReadError>
    ensures { Gives (λ read. (read.0, read.1.now)) result (flag_at bytes.now) }
{
    match bytes {
        [] => Err(SHORT),
        [0, rest @ ..] => Ok((Value::Flag(false), rest)),
        [1, rest @ ..] => Ok((Value::Flag(true), rest)),
        [_, ..] => Err(fault_at(CodecKind::Tag, bytes)),
    }
}

/// A reference to an operation before the one with this number.
#[tactic(auto, unfolding(crate::specs::Reading::own_at))]
fn own_of(number: u16, bytes: &[u8]) -> Result<(Value, &[u8]), UpdateReadError>
    ensures { Gives (λ read. (read.0, read.1.now)) result (own_at number bytes.now) }
{
    let (index, rest) = u16_of(bytes)?;
    if number <= index {
        return Err(fault_at(CodecKind::OwnIndex, bytes));
    }
    Ok((Value::Own(index), rest))
}

/// A value in the operation with this number.
#[tactic(auto, unfolding(crate::specs::Reading::value_at))]
fn value_of(alloc: Global, number: u16, bytes: &[u8]) -> Result<(Value, &[u8]), UpdateReadError>
    ensures { Gives (λ read. (read.0, read.1.now)) result (value_at number bytes.now) }
{
    match bytes {
        [] => Err(SHORT),
        [0, rest @ ..] => Ok((Value::Null, rest)),
        [1, rest @ ..] => int_of(rest),
        [2, rest @ ..] => {
            let (text, rest) = text_of(alloc, MAX_TEXT, rest)?;
            Ok((Value::Text(text), rest))
        }
        [3, rest @ ..] => flag_of(rest),
        [4, rest @ ..] => {
            let (row, rest) = row_of(rest)?;
            Ok((Value::Row(row), rest))
        }
        [5, rest @ ..] => own_of(number, rest),
        [_, ..] => Err(fault_at(CodecKind::Tag, bytes)),
    }
}

/// This many values of the operation with this number, and the bytes after them.
pub(crate) fn values_of(
    alloc: Global,
    number: u16,
    count: u8,
    bytes: &[u8],
) -> Result<(Vec<Value>, &[u8]), UpdateReadError>
    ensures { Gives (λ read. (read.0.items, read.1.now)) result (values_at number count bytes.now) }
{
    let mut values = Vec::with_capacity(alloc, count as usize)?;
    let mut rest = bytes;
    for _ in 0..count {
        let (value, after) = value_of(alloc, number, rest)?;
        values.push(value)?;
        rest = after;
    }
    Ok((values, rest))
}
