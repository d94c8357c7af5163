//! Single bits, and the positions of an id.

ghost use Rattle.std.specs.Prelude.{◌≡◌, ℕ, ◌<◌, ◌≤◌, ◌*◌, ◌^◌, ◌==◌, ◌||◌, length};
ghost use Rattle.std.specs.List.{list_all};
ghost use Rattle.bloom_summary.specs.Bloom.{is_bit_set, is_position, offsets, position_at};

use byteorder::{BigEndian, ByteOrder};
use update_model::UpdateId;

/// Where the seven words of an id begin that give its positions.
const OFFSETS: [usize; 7] = [0, 4, 8, 12, 16, 20, 24];

/// The position among so many bits that the word at this offset of an id gives.
fn position(bits: usize, id: &UpdateId, offset: usize) -> usize
    requires some { 0 < bits }
    requires within { offset ≤ 28 }
    ensures value { result ≡ position_at bits id.now offset }
    ensures fits { result < bits }
{
    BigEndian::read_u32(&id.0[offset..]) as usize % bits
}

/// Whether bit k is set, the highest bit of the first byte being bit 0.
fn is_set(bytes: &[u8], k: usize) -> bool
    requires { k < 8 * length bytes.now }
    ensures { result ≡ is_bit_set bytes.now k }
{
    (bytes[k / 8] >> (7 - k % 8)) & 1 == 1
}

/// Sets bit k.
fn set(bytes: &mut [u8], k: usize)
    requires { k < 8 * length bytes.old }
    ensures { (j : ℕ) → is_bit_set bytes.new j ≡ (is_bit_set bytes.old j || (k == j)) }
{
    bytes[k / 8] |= 1 << (7 - k % 8);
}

/// Sets the bits at the positions of an id.
pub(crate) fn set_all(bytes: &mut [u8], id: &UpdateId)
    requires some { 0 < length bytes.old }
    requires fits { 8 * length bytes.old < 2 ^ 64 }
    ensures { (j : ℕ) → is_bit_set bytes.new j ≡ (is_bit_set bytes.old j || is_position (8 * length bytes.old) id.now j) }
{
    let bits = 8 * bytes.len();
    for offset in OFFSETS {
        set(bytes, position(bits, id, offset));
    }
}

/// Whether the bits at all positions of an id are set.
pub(crate) fn are_set(bytes: &[u8], id: &UpdateId) -> bool
    requires some { 0 < length bytes.now }
    requires fits { 8 * length bytes.now < 2 ^ 64 }
    ensures { result ≡ list_all (λ offset. is_bit_set bytes.now (position_at (8 * length bytes.now) id.now offset))
        offsets }
{
    let bits = 8 * bytes.len();
    OFFSETS
        .iter()
        .all(|offset| is_set(bytes, position(bits, id, *offset)))
}
