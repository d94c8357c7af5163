// The message of a chain's steps, which is written once and then changed in place.

ghost use Rattle.std.specs.Prelude.{◌≡◌, ◌-◌, ◌≤◌, ◌++◌, length, take, drop};
ghost use Rattle.std.specs.Int.{w16, w32, to_be_bytes};
ghost use Rattle.lm_ots.specs.Chain.{start_value, step_of, stepped};

use byteorder::{BigEndian, ByteOrder};
use sha2::{Digest, Sha256};

/// I, q, the chain's number, the step's number and the value, as the steps of RFC 8554, section 4.3,
/// digest them. The 55 bytes fill one block of SHA-256 with its padding, and no step copies more of
/// them than its value.
#[derive(Drop)]
pub struct ChainMessage {
    bytes: [u8; 55],
}

impl ChainMessage {
    /// The message for the chains of one leaf, of which none is chosen yet.
    pub fn new(ident: &[u8; 16], q: u32) -> ChainMessage
        ensures { take 20 result.bytes ≡ ident.now ++ to_be_bytes w32 q }
    {
        let mut bytes = [0; 55];
        bytes[..16].copy_from_slice(ident);
        BigEndian::write_u32(&mut bytes[16..], q);
        ChainMessage { bytes }
    }

    /// Chooses chain `i`, at this value.
    pub fn choose(&mut self, i: u16, value: &[u8])
        requires { length value.now ≡ 32 }
        ensures leaf { take 20 self.new.bytes ≡ take 20 self.old.bytes }
        ensures chain { take 22 self.new.bytes ≡ take 20 self.old.bytes ++ to_be_bytes w16 i }
        ensures value { drop 23 self.new.bytes ≡ value.now }
    {
        BigEndian::write_u16(&mut self.bytes[20..], i);
        self.bytes[23..].copy_from_slice(value);
    }

    /// Chooses chain `i`, at its first value from the seed (RFC 8554, Appendix A).
    pub fn start(&mut self, i: u16, seed: &[u8; 32])
        ensures leaf { take 20 self.new.bytes ≡ take 20 self.old.bytes }
        ensures chain { take 22 self.new.bytes ≡ take 20 self.old.bytes ++ to_be_bytes w16 i }
        ensures value { drop 23 self.new.bytes ≡ start_value (take 22 self.new.bytes) seed.now }
    {
        self.choose(i, seed);
        self.step(0xff);
    }

    fn step(&mut self, j: u8)
        ensures chain { take 22 self.new.bytes ≡ take 22 self.old.bytes }
        ensures value { drop 23 self.new.bytes ≡ step_of (take 22 self.old.bytes) j (drop 23 self.old.bytes) }
    {
        self.bytes[22] = j;
        let digest = Sha256::digest(&self.bytes);
        self.bytes[23..].copy_from_slice(&digest);
    }

    /// Takes the chain's value through the steps `from..to`.
    pub fn run(&mut self, from: u8, to: u8)
        requires { from ≤ to }
        ensures chain { take 22 self.new.bytes ≡ take 22 self.old.bytes }
        ensures value { drop 23 self.new.bytes ≡ stepped (take 22 self.old.bytes) from (to - from)
            (drop 23 self.old.bytes) }
    {
        for j in from..to {
            self.step(j);
        }
    }

    /// The chain's value.
    pub fn value(&self) -> &[u8]
        ensures value { result.now ≡ drop 23 self.now.bytes }
        ensures len { length result.now ≡ 32 }
    {
        &self.bytes[23..]
    }
}
