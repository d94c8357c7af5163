ghost use Rattle.std.specs.Prelude.{◌≡◌, ◌<◌, length};
ghost use Rattle.std.specs.Int.{w32, w64, from_le_bytes};
ghost use Rattle.rand_core.specs.Steps.{stream_of, word_bytes};
ghost use Rattle.bec_host.specs.HashStream.{HashState, block_bytes, next_byte, hash_steps, one_byte};

use rand_core::Rng;
use rand_core::utils::NextWord;
use sha2::{Digest, Sha256};
use std::marker::Model;

const BLOCK_LEN: usize = 32;

/// A generator whose bytes are the SHA-256 digests of the key and a block number of 8 bytes, from 0 on.
/// A digest is computed when its first byte is asked for.
#[derive(Drop)]
pub struct HashRng {
    key: [u8; 32],
    number: u64,
    used: usize,
    block: [u8; 32],
}

impl Model for HashRng {
    ghost Value = { HashState };

    ghost view = { λ g. record { key = g.key; number = g.number; used = g.used } };

    ghost invariant = { λ g. (g.used < 32) × (0 < g.used → g.block ≡ block_bytes g.key g.number) };
}

impl HashRng {
    /// The generator of a key, at its first byte.
    pub fn new(key: [u8; 32]) -> HashRng
        ensures { result ≡ record { key = key; number = 0; used = 0 } }
    {
        HashRng {
            key,
            number: 0,
            used: 0,
            block: [0; 32],
        }
    }
}

/// The digest with this number.
fn digest_of(key: &[u8; 32], number: u64) -> [u8; 32]
    ensures { result ≡ block_bytes key.now number }
{
    let mut hasher = Sha256::new();
    hasher.update(key);
    hasher.update(&number.to_be_bytes());
    hasher.finalize()
}

impl NextWord<u8> for HashRng {
    ghost step = { next_byte };

    fn next_word(&mut self) -> u8 {
        if self.used == 0 {
            self.block = digest_of(&self.key, self.number);
        }
        let byte = self.block[self.used];
        if self.used + 1 == BLOCK_LEN {
            self.number = self.number.wrapping_add(1);
            self.used = 0;
        } else {
            self.used += 1;
        }
        byte
    }
}

/// The next bytes, one after the other.
fn fill(rng: &mut HashRng, bytes: &mut [u8])
    ensures { (bytes.new, rng.new) ≡ word_bytes one_byte next_byte (length bytes.old) rng.old }
{
    'bytes: for i in 0..bytes.len() {
        bytes[i] = rng.next_word();
    }
}

impl Rng for HashRng {
    ghost stream = { stream_of hash_steps };

    fn next_u32(&mut self) -> u32 {
        let mut bytes = [0; 4];
        fill(self, &mut bytes);
        u32::from_le_bytes(bytes)
    }

    fn next_u64(&mut self) -> u64 {
        let mut bytes = [0; 8];
        fill(self, &mut bytes);
        u64::from_le_bytes(bytes)
    }

    fn fill_bytes(&mut self, dst: &mut [u8]) {
        fill(self, dst);
    }
}
