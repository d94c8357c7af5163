//! Keys that other programs were given, and what they sign: both are made of digests of texts.

use lm_ots::OtsType;
use lms_tree::{KeySeed, LmsType, OneThread, Secret, make_secret};
use sha2::{Digest, Sha256};
use std::alloc::{AllocError, Global};
use update_model::signature_len;

/// The key that a name and two types stand for: I and SEED are digests of texts.
pub fn seed_of(
    alloc: Global,
    name: &str,
    lms: LmsType,
    ots: OtsType,
) -> Result<KeySeed, AllocError> {
    let (tree, one_time) = (lms.type_word(), ots.type_word());
    let text = format!(in alloc; "{name} I {tree} {one_time}")?;
    let mut ident = [0; 16];
    ident.copy_from_slice(&Sha256::digest(&text)[..16]);
    let text = format!(in alloc; "{name} SEED {tree} {one_time}")?;
    let start = Sha256::digest(&text);
    Ok(KeySeed {
        lms,
        ots,
        ident,
        start,
    })
}

/// What a leaf digests a message behind: H(I, q, 0xfffd, 0xff, SEED).
pub fn random_of(seed: &KeySeed, q: u32) -> [u8; 32] {
    Sha256::new()
        .chain_update(&seed.ident)
        .chain_update(&u32::to_be_bytes(q))
        .chain_update(&[0xff, 0xfd, 0xff])
        .chain_update(&seed.start)
        .finalize()
}

/// A key, the leaf that signs, and what it digests a message behind.
#[derive(Drop)]
pub struct Signer {
    pub secret: Secret,
    leaf: u32,
    random: [u8; 32],
}

/// The signer that a name, a type and a leaf stand for, whose key has height 5.
pub fn signer_of(alloc: Global, name: &str, ots: OtsType, leaf: u32) -> Result<Signer, AllocError> {
    let seed = seed_of(alloc, name, LmsType::H5, ots)?;
    let random = random_of(&seed, leaf);
    let secret = make_secret(&OneThread, alloc, &seed)?;
    Ok(Signer {
        secret,
        leaf,
        random,
    })
}

/// What a signer signs of a message.
pub fn signature(alloc: Global, signer: &Signer, msg: &[u8]) -> Result<Vec<u8>, AllocError> {
    let secret = &signer.secret;
    let mut bytes = vec![in alloc; 0u8; signature_len(&secret.public()) as usize]?;
    if signer.leaf < secret.leaf_count() {
        secret.sign_at(signer.leaf, &signer.random, msg, &mut bytes);
    }
    Ok(bytes)
}
