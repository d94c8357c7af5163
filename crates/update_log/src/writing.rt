//! Writing records behind one another, in few large writes.

ghost use Rattle.std.specs.Prelude.{◌≡◌, ◌≤◌, ◌<◌, ◌+◌, ◌^◌, ◌++◌, ℕ, List, All, IsTrue, OnOk, IfOk, length, take};
ghost use Rattle.bec_bytes.specs.Causes.{HasCause};
ghost use Rattle.bec_bytes.specs.Framed.{framed, stream_of};
ghost use Rattle.bec_disk.specs.Disk.{LeavesOnly};
ghost use Rattle.update_log.specs.Log.{IsClean};
ghost use Rattle.update_log.specs.Logset.{BeginsWith};

use crate::piece_reader::PIECE;
use bec_disk::{Disk, DiskFault};
use update_check::Checked;
use update_codec::UPDATE_LIMIT;
use update_model::Member;

/// Writes the records of a batch from the end of the disk on, and answers where they end. They are gathered in `piece`.
pub fn write_records<D: Disk>(
    disk: &mut D,
    piece: &mut [u8],
    start: u64,
    batch: &[Checked],
) -> Result<u64, DiskFault>
    requires room { length piece.old ≡ PIECE }
    requires short { All (λ r. length r ≤ UPDATE_LIMIT) batch.now }
    requires fits { start + length (stream_of batch.now) < 2 ^ 64 }
    requires clean { IsTrue (D.state disk.old).tells → IsClean start (D.state disk.old) }
    ensures end { IfOk result (λ end. end ≡ start + length (stream_of batch.now)) }
    ensures written { IsTrue (D.state disk.old).tells
        → OnOk result ((D.state disk.new).seen ≡ (D.state disk.old).seen ++ stream_of batch.now) }

    // A crash at any moment of it leaves what stood there before in front.
    ensures any_moment { LeavesOnly (D.state disk.old) (D.state disk.new) (BeginsWith (D.state disk.old).seen) }
    ensures cause { HasCause (D.faults disk.old) (D.faults disk.new) result }
{
    let mut at = start;
    let mut filled = 0;
    for update in batch {
        let bytes = update.bytes();
        if piece.len() - filled < 4 + bytes.len() {
            disk.write_at(at, &piece[..filled])?;
            at += filled as u64;
            filled = 0;
        }
        filled = put_framed(piece, filled, bytes);
    }
    disk.write_at(at, &piece[..filled])?;
    Ok(at + filled as u64)
}

/// Puts a record behind the part of `piece` that is filled, and answers up to where it is filled then.
fn put_framed(piece: &mut [u8], filled: usize, bytes: &[u8]) -> usize
    requires short { length bytes.now ≤ UPDATE_LIMIT }
    requires room { filled + (4 + length bytes.now) ≤ length piece.old }
    ensures end { result ≡ filled + (4 + length bytes.now) }
    ensures put { take result piece.new ≡ take filled piece.old ++ framed bytes.now }
{
    let start = filled + 4;
    let end = start + bytes.len();
    piece[filled..start].copy_from_slice(&(bytes.len() as u32).to_be_bytes());
    piece[start..end].copy_from_slice(bytes);
    end
}
