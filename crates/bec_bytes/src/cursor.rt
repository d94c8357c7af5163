ghost use Rattle.std.specs.Prelude.{◌≡◌, ℕ, ◌+◌, ◌<◌, ◌^◌, length};
ghost use Rattle.std.specs.Int.{w16, w32};
ghost use Rattle.bec_bytes.specs.Reading.{Reading, TakesByte, TakesBytes, TakesNumber};

use byteorder::{BigEndian, ByteOrder};
use std::marker::Model;

/// Reads fields from a slice, from its front on. Each call that takes answers `None` exactly where
/// too few bytes are left, and the cursor then stays where it is.
#[derive(Drop)]
pub struct Cursor<'a> {
    place: usize,
    rest: &'a [u8],
}

impl<'a> Model for Cursor<'a> {
    ghost Value = { Reading };

    ghost view = { λ c. record { place = c.place; rest = c.rest.now } };

    ghost invariant = { λ c. c.place + length c.rest.now < 2 ^ 64 };
}

impl<'a> Cursor<'a> {
    /// A cursor at the front of `bytes`.
    pub fn new(bytes: &'a [u8]) -> Cursor<'a>
        ensures { result ≡ record { place = 0; rest = bytes.now } }
    {
        Cursor {
            place: 0,
            rest: bytes,
        }
    }

    /// The next byte.
    pub fn take_u8(&mut self) -> Option<u8>
        ensures { TakesByte self.old self.new result }
    {
        let bytes = self.take_bytes(1)?;
        Some(bytes[0])
    }

    /// The number that the next two bytes spell, the high byte first.
    pub fn take_u16(&mut self) -> Option<u16>
        ensures { TakesNumber w16 self.old self.new result }
    {
        let bytes = self.take_bytes(2)?;
        Some(BigEndian::read_u16(bytes))
    }

    /// The number that the next four bytes spell, the high byte first.
    pub fn take_u32(&mut self) -> Option<u32>
        ensures { TakesNumber w32 self.old self.new result }
    {
        let bytes = self.take_bytes(4)?;
        Some(BigEndian::read_u32(bytes))
    }

    /// The next `n` bytes.
    pub fn take_bytes(&mut self, n: usize) -> Option<&'a [u8]>
        ensures { TakesBytes n self.old self.new result }
    {
        let (taken, rest) = self.rest.split_at_checked(n)?;
        self.rest = rest;
        self.place += n;
        Some(taken)
    }

    /// The offset of the next byte.
    pub fn place(&self) -> usize
        ensures { result ≡ self.now.place }
    {
        self.place
    }

    /// How many bytes are left.
    pub fn left(&self) -> usize
        ensures { result ≡ length self.now.rest }
    {
        self.rest.len()
    }
}
