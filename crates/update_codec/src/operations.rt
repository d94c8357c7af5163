//! Reading operations.

ghost use Rattle.std.specs.Prelude.{◌≡◌};
ghost use Rattle.update_codec.specs.Reading.{Gives, insert_at, op_at, ops_at};

use crate::CodecKind;
use crate::fields::{byte_of, row_of};
use crate::halt::{SHORT, UpdateReadError, fault_at};
use crate::values::values_of;
use std::alloc::Global;
use update_model::{MAX_VALUES, Op, ValueList};

/// An insert, behind its tag, that is the operation with this number.
#[tactic(auto, unfolding(crate::specs::Reading::insert_at))]
fn insert_of(alloc: Global, number: u16, bytes: &[u8]) -> Result<(Op, &[u8]), UpdateReadError>
    ensures { Gives (λ read. (read.0, read.1.now)) result (insert_at number bytes.now) }
{
    let (table, after_table) = byte_of(bytes)?;
    let (count, rest) = byte_of(after_table)?;
    if count < 1 || MAX_VALUES < count {
        return Err(fault_at(CodecKind::Count, after_table));
    }
    let (values, rest) = values_of(alloc, number, count, rest)?;
    let values = ValueList::from_vec(values);
    Ok((Op::Insert { table, values }, rest))
}

/// The operation with this number.
#[tactic(auto, unfolding(crate::specs::Reading::op_at))]
fn op_of(alloc: Global, number: u16, bytes: &[u8]) -> Result<(Op, &[u8]), UpdateReadError>
    ensures { Gives (λ read. (read.0, read.1.now)) result (op_at number bytes.now) }
{
    match bytes {
        [] => Err(SHORT),
        [1, rest @ ..] => insert_of(alloc, number, rest),
        [2, rest @ ..] => {
            let (row, rest) = row_of(rest)?;
            Ok((Op::Delete { row }, rest))
        }
        [_, ..] => Err(fault_at(CodecKind::Tag, bytes)),
    }
}

/// This many operations, which number from 0, and the bytes after them.
pub(crate) fn ops_of(
    alloc: Global,
    count: u16,
    bytes: &[u8],
) -> Result<(Vec<Op>, &[u8]), UpdateReadError>
    ensures { Gives (λ read. (read.0.items, read.1.now)) result (ops_at count 0 bytes.now) }
{
    let mut ops = Vec::with_capacity(alloc, count as usize)?;
    let mut rest = bytes;
    for number in 0..count {
        let (op, after) = op_of(alloc, number, rest)?;
        ops.push(op)?;
        rest = after;
    }
    Ok((ops, rest))
}
