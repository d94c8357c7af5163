//! Reading a disk from front to back, in large pieces.

ghost use Rattle.std.specs.Prelude.{◌≡◌, ◌≤◌, ◌<◌, ◌+◌, ◌^◌, [], IsTrue, IfOk, IfNone, IfSome, OnOk, OnErr, IsErrOf};
ghost use Rattle.std.specs.Prelude.{length, take, drop};
ghost use Rattle.std.specs.Int.{w32, to_be_bytes};
ghost use Rattle.bec_bytes.specs.Causes.{HasCause, Rose};
ghost use Rattle.update_log.specs.Reading.{FindsRecord, IsOver, count_left, left_of};

use bec_disk::{Disk, DiskError, DiskFault};
use byteorder::{BigEndian, ByteOrder};
use std::alloc::{AllocError, Global};
use std::marker::Model;
use update_codec::UPDATE_LIMIT;

/// How many bytes are read and written at once: a record of greatest length has room.
pub const PIECE: usize = 4 + UPDATE_LIMIT;

/// The records of a disk from front to back. The disk is read in large pieces, each byte once.
#[derive(Drop)]
pub struct PieceReader {
    /// What was read and not yet taken stands here from `from` to `to`.
    piece: Vec<u8>,
    from: usize,
    to: usize,
    /// Up to where the disk was read.
    at: u64,
    /// How many bytes stand behind that.
    unread: u64,
}

impl Model for PieceReader {
    ghost use Rattle.std.specs.Prelude.{◌-◌, length, take, drop};
    ghost use Rattle.update_log.specs.Reading.{HasRoom, ReaderState};

    ghost Value = { ReaderState };

    ghost view = { λ r. record {
      ahead = take (r.to - r.from) (drop r.from r.piece.items);
      at = r.at;
      unread = r.unread;
    } };

    ghost invariant = { λ r. HasRoom (length r.piece.items) r.from r.to r.at r.unread };
}

impl PieceReader {
    /// A reader at the front of a disk of this length.
    pub fn new(alloc: Global, len: u64) -> Result<PieceReader, AllocError>
        ensures { IfOk result (λ reader. reader ≡ record { ahead = []; at = 0; unread = len }) }
    {
        Ok(PieceReader {
            piece: vec![in alloc; 0; PIECE]?,
            from: 0,
            to: 0,
            at: 0,
            unread: len,
        })
    }

    /// Gives the room for a piece back.
    pub fn into_piece(self) -> Vec<u8>
        ensures { length result.items ≡ PIECE }
    {
        let PieceReader { piece, .. } = self;
        piece
    }

    /// Takes the next record, where a whole one of at most 262,144 bytes stands there.
    pub fn next_record<D: Disk>(
        &mut self,
        alloc: Global,
        disk: &mut D,
    ) -> Result<Option<Vec<u8>>, DiskError>
        requires { IsOver self.old (D.state disk.old) }
        ensures found { IsTrue (D.state disk.old).tells
            → IfOk result (λ found. FindsRecord (left_of self.old (D.state disk.old).seen)
            (left_of self.new (D.state disk.old).seen) found) }
        ensures left { IsTrue (D.state disk.old).tells
            → IfOk result (λ found. IfNone found (left_of self.new (D.state disk.old).seen ≡ left_of self.old
            (D.state disk.old).seen)) }
        ensures count_none { IfOk result (λ found. IfNone found (count_left self.new ≡ count_left self.old)) }
        ensures count { IfOk result (λ found. IfSome found (λ r. count_left self.new + (4 + length r.items) ≡ count_left
            self.old)) }
        ensures over { IsOver self.new (D.state disk.new) }
        ensures same { D.state disk.new ≡ D.state disk.old }
        ensures later { D.faults disk.old ≤ D.faults disk.new }
        ensures failed { IsErrOf result DiskError.DiskFault → Rose (D.faults disk.old) (D.faults disk.new) }
    {
        if self.count_left() < 4 {
            return Ok(None);
        }
        self.read_ahead(disk, 4)?;
        let size = self.next_size();
        if size > UPDATE_LIMIT || 4 + size as u64 > self.count_left() {
            return Ok(None);
        }
        self.read_ahead(disk, 4 + size)?;
        Ok(Some(self.take(alloc, size)?))
    }

    /// How many bytes are left.
    fn count_left(&self) -> u64
        ensures { result ≡ count_left self.now }
    {
        (self.to - self.from) as u64 + self.unread
    }

    /// Reads on until this many bytes stand ready.
    fn read_ahead<D: Disk>(&mut self, disk: &mut D, count: usize) -> Result<(), DiskFault>
        requires room { count ≤ PIECE }
        requires there { count ≤ count_left self.old }
        requires over { IsOver self.old (D.state disk.old) }
        ensures ready { OnOk result (count ≤ length self.new.ahead) }
        ensures left { IsTrue (D.state disk.old).tells
            → OnOk result (left_of self.new (D.state disk.old).seen ≡ left_of self.old (D.state disk.old).seen) }
        ensures count { OnOk result (count_left self.new ≡ count_left self.old) }
        ensures over { IsOver self.new (D.state disk.new) }
        ensures same { D.state disk.new ≡ D.state disk.old }
        ensures cause { HasCause (D.faults disk.old) (D.faults disk.new) result }
    {
        if self.to - self.from >= count {
            return Ok(());
        }
        self.piece.copy_within(self.from..self.to, 0);
        self.to -= self.from;
        self.from = 0;
        let more = self.unread.min((self.piece.len() - self.to) as u64);
        let end = self.to + more as usize;
        disk.read(self.at, &mut self.piece[self.to..end])?;
        self.to = end;
        self.at += more;
        self.unread -= more;
        Ok(())
    }

    /// The length that stands before the next record, the high byte first.
    fn next_size(&self) -> usize
        requires { 4 ≤ length self.now.ahead }
        ensures value { to_be_bytes w32 result ≡ take 4 self.now.ahead }
        ensures fits { result < 2 ^ 32 }
    {
        let mut prefix = [0; 4];
        prefix.copy_from_slice(&self.piece[self.from..self.from + 4]);
        length_of(&prefix) as usize
    }

    /// Takes the bytes of a record of this length, behind which four bytes are passed over.
    fn take(&mut self, alloc: Global, size: usize) -> Result<Vec<u8>, AllocError>
        requires { 4 + size ≤ length self.old.ahead }
        ensures bytes { IfOk result (λ bytes. bytes.items ≡ take size (drop 4 self.old.ahead)) }
        ensures ahead { OnOk result (self.new ≡ record {
          ahead = drop (4 + size) self.old.ahead;
          at = self.old.at;
          unread = self.old.unread;
        }) }
        ensures kept { OnErr result (self.new ≡ self.old) }
    {
        let start = self.from + 4;
        let bytes = Vec::from_slice(alloc, &self.piece[start..start + size])?;
        self.from = start + size;
        Ok(bytes)
    }
}

/// The number that four bytes spell, the high byte first.
fn length_of(prefix: &[u8; 4]) -> u32
    ensures { to_be_bytes w32 result ≡ prefix.now }
{
    BigEndian::read_u32(prefix)
}
