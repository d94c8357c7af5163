ghost use Rattle.std.specs.Prelude.{◌≡◌, ◌≤◌, IfOk, IfErr};
ghost use Rattle.std.specs.Int.{w32, to_be_bytes};
ghost use Rattle.bec_bytes.specs.Causes.{Rose};
ghost use Rattle.bec_bytes.specs.Framed.{IsLeft, IsShort, StandsFirst};
ghost use Rattle.bec_bytes.specs.Moved.{IfTold};

use crate::moving::read_full;
use crate::read_error::ReadError;
use crate::source::Source;
use byteorder::{BigEndian, ByteOrder};
use std::alloc::Global;

/// What stands next in a stream of pieces, each behind its length.
#[derive(Drop)]
pub enum Framed {
    /// The end of input.
    End,
    /// The input ends in a piece, of which this many bytes came, or in its length.
    Cut(usize),
    /// A length that is above the limit.
    TooLong,
    /// A whole piece, whose bytes these are.
    Whole(Vec<u8>),
}

/// Reads a length of four bytes, the high byte first, and then so many bytes, where that is at most `limit`.
///
/// No more is read than the piece that stands there, and of one that is too long, its length alone.
/// [`ReadError::Failed`] comes only where a `take` of the source failed, and after that nothing is read.
pub fn read_framed<S: Source>(
    alloc: Global,
    source: &mut S,
    limit: usize,
) -> Result<Framed, ReadError>
    ensures found { IfOk result (λ found. IfTold (S.left source.old) (S.left source.new) (λ bytes rest.
        StandsFirst limit bytes rest found)) }
    ensures short { IfOk result (λ found. IsShort limit found) }
    ensures left { IfErr result (λ error. IfTold (S.left source.old) (S.left source.new) (λ bytes rest.
        IsLeft limit bytes rest error)) }
    ensures later { S.faults source.old ≤ S.faults source.new }
    ensures failed { IfErr result (λ error. error ≡ ReadError.Failed → Rose (S.faults source.old) (S.faults source.new)) }
{
    let mut prefix = [0u8; 4];
    let count = read_full(source, &mut prefix)?;
    if count == 0 {
        return Ok(Framed::End);
    }
    if count < 4 {
        return Ok(Framed::Cut(0));
    }
    let length = length_of(&prefix) as usize;
    if length > limit {
        return Ok(Framed::TooLong);
    }
    let mut piece = vec![in alloc; 0u8; length]?;
    let came = read_full(source, &mut piece)?;
    if came < piece.len() {
        return Ok(Framed::Cut(came));
    }
    Ok(Framed::Whole(piece))
}

/// The number that four bytes spell, the high byte first.
fn length_of(prefix: &[u8; 4]) -> u32
    ensures { to_be_bytes w32 result ≡ prefix.now }
{
    BigEndian::read_u32(prefix)
}
