//! What a key is made from, drawn and kept in the part Key.

ghost use Rattle.std.specs.Prelude.{◌≡◌, IfOk, MatchOption};
ghost use Rattle.lms_tree.specs.SecretKey.{SecretData};
ghost use Rattle.key_index.specs.Creating.{drawn_key, after_draw};
ghost use Rattle.key_index.specs.Payload.{IsPayload, payload_of};

use bec_bytes::Cursor;
use lm_ots::OtsType;
use lms_tree::{KeySeed, KeyTypes, LmsType};
use rand_core::Rng;
use std::alloc::{AllocError, Global};

/// The bytes of the payload of the part Key.
const PAYLOAD_LENGTH: usize = 56;

/// Of these types, with the next 16 bytes of `random` for I and the 32 bytes after them for SEED.
pub fn draw_seed<R: Rng>(types: KeyTypes, random: &mut R) -> KeySeed
    ensures value { result ≡ drawn_key types.lms types.ots (R.stream random.old) }
    ensures left { R.stream random.new ≡ after_draw (R.stream random.old) }
{
    let mut ident = [0; 16];
    random.fill_bytes(&mut ident);
    let mut start = [0; 32];
    random.fill_bytes(&mut start);
    KeySeed {
        lms: types.lms,
        ots: types.ots,
        ident,
        start,
    }
}

/// The payload that keeps it in the part Key.
pub fn payload_of(alloc: Global, seed: &KeySeed) -> Result<Vec<u8>, AllocError>
    ensures { IfOk result (λ payload. IsPayload payload.items seed.now) }
{
    let mut payload = Vec::with_capacity(alloc, PAYLOAD_LENGTH)?;
    payload.extend_from_slice(&seed.lms.type_word().to_be_bytes())?;
    payload.extend_from_slice(&seed.ots.type_word().to_be_bytes())?;
    payload.extend_from_slice(&seed.ident)?;
    payload.extend_from_slice(&seed.start)?;
    Ok(payload)
}

/// What this payload keeps, or `None` where it is the payload of no key.
pub fn seed_of(payload: &[u8]) -> Option<KeySeed>
    ensures { MatchOption result ((secret : SecretData) → IsPayload payload.now secret
        → ⊥) (λ seed. IsPayload payload.now seed) }
{
    if payload.len() != PAYLOAD_LENGTH {
        return None;
    }
    let mut cursor = Cursor::new(payload);
    let lms = LmsType::from_type_word(cursor.take_u32()?)?;
    let ots = OtsType::from_type_word(cursor.take_u32()?)?;
    let mut ident = [0; 16];
    ident.copy_from_slice(cursor.take_bytes(16)?);
    let mut start = [0; 32];
    start.copy_from_slice(cursor.take_bytes(32)?);
    Some(KeySeed {
        lms,
        ots,
        ident,
        start,
    })
}
