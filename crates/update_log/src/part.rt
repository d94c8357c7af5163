//! Reading records in parts, which are checked together.

ghost use Rattle.std.specs.Prelude.{◌≡◌, ◌≤◌, ◌+◌, ◌∷◌, ◌++◌, ℕ, List, [], IsTrue, IfOk, OnOk, IsErrOf, length};
ghost use Rattle.std.specs.Prelude.{vec_len};
ghost use Rattle.bec_bytes.specs.Causes.{Rose};
ghost use Rattle.bec_bytes.specs.Framed.{HoldsPiece, stream_of};
ghost use Rattle.record_check.specs.Records.{bytes_of};
ghost use Rattle.update_codec.specs.declared.limits.TheConstants.{UPDATE_LIMIT};
ghost use Rattle.update_log.specs.Reading.{HoldsRecords, IsOver, count_left, left_of};

use crate::piece_reader::PieceReader;
use bec_disk::{Disk, DiskError};
use std::alloc::{AllocError, Global};

/// How many records a part has at most.
const PART: usize = 4096;

/// Behind so many bytes a part has no record more.
const PART_BYTES: usize = 1 << 24;

/// Takes the next records of a disk. None are taken only where none stands there.
pub fn next_part<D: Disk>(
    alloc: Global,
    disk: &mut D,
    reader: &mut PieceReader,
) -> Result<Vec<Vec<u8>>, DiskError>
    requires { IsOver reader.old (D.state disk.old) }
    ensures found { IsTrue (D.state disk.old).tells
        → IfOk result (λ records. HoldsRecords (left_of reader.old (D.state disk.old).seen) (bytes_of records.items)
        (left_of reader.new (D.state disk.old).seen)) }
    ensures none { IsTrue (D.state disk.old).tells → IfOk result (λ records. vec_len records ≡ 0
        → (r rest : List ℕ) → HoldsPiece UPDATE_LIMIT (left_of reader.old (D.state disk.old).seen) r rest → ⊥) }
    ensures count { IfOk result (λ records. length (stream_of (bytes_of records.items)) + count_left
        reader.new ≡ count_left reader.old) }
    ensures over { IsOver reader.new (D.state disk.new) }
    ensures same { D.state disk.new ≡ D.state disk.old }
    ensures later { D.faults disk.old ≤ D.faults disk.new }
    ensures failed { IsErrOf result DiskError.DiskFault → Rose (D.faults disk.old) (D.faults disk.new) }
{
    let mut records = Vec::new(alloc);
    let mut size = 0;
    'records: while let Some(bytes) = reader.next_record(alloc, disk)? {
        size += bytes.len();
        push(&mut records, bytes)?;
        if size >= PART_BYTES {
            return Ok(records);
        }
        if records.len() >= PART {
            return Ok(records);
        }
    }
    Ok(records)
}

/// Adds a record.
fn push(records: &mut Vec<Vec<u8>>, bytes: Vec<u8>) -> Result<(), AllocError>
    ensures { OnOk result (records.new.items ≡ records.old.items ++ bytes ∷ []) }
{
    records.push(bytes)?;
    Ok(())
}
