//! Seals that another program made, and changes to one of them.

use crate::signers::{Signer, signature, signer_of};
use hss_chain::{public_bytes, push_key, seal_bytes, verify_hss};
use lm_ots::OtsType;
use sha2::{Digest, Sha256};
use std::alloc::{AllocError, Global};
use std::test::Fail;

/// What is sealed.
const MESSAGE: &[u8] = b"a bundle";

/// A seal of [`MESSAGE`] by keys of height 5, as bench/hss_model.py prints it: the types of both one-time keys, the
/// leaves that signed, the length of the seal, and the SHA-256 digests of the public key and of the seal.
struct Row {
    top: OtsType,
    top_leaf: u32,
    low: OtsType,
    low_leaf: u32,
    length: usize,
    key: [u8; 32],
    seal: [u8; 32],
}

static ROWS: [Row; 4] = [
    Row {
        top: OtsType::W8,
        top_leaf: 7,
        low: OtsType::W8,
        low_leaf: 24,
        length: 2_644,
        key: *b"\x3d\x57\xb2\x4f\xbc\xd0\x0a\x8e\x80\x6e\x00\x1a\xb1\x8c\xbf\x55\x17\x97\xa4\xdc\x52\x8a\xfe\xbe\x7f\x8f\x2f\xb5\x01\x9d\xb2\x83",
        seal: *b"\xef\x17\xd1\xe0\x2e\xd2\x95\x49\xae\xb1\x67\xa3\xfa\x97\xd1\x01\x53\xab\xd0\x78\x4c\xd6\x75\x47\xb6\x95\x4c\xbd\x48\x2d\xf6\x39",
    },
    Row {
        top: OtsType::W4,
        top_leaf: 6,
        low: OtsType::W8,
        low_leaf: 24,
        length: 3_700,
        key: *b"\xc3\x9a\xb0\x43\x5e\x97\x02\xc7\x02\x67\x54\xa8\x32\x74\x83\xbd\x8f\x44\xb8\xfa\xeb\xf3\xbd\xd4\x2a\x39\x2f\x29\x3f\xb2\x60\xbb",
        seal: *b"\xa6\xb4\x01\xa3\x73\xb1\xed\x94\x1d\x3c\xc4\x3d\xf3\xe8\x7b\x05\xec\x6c\xd9\x8e\x8d\xcb\x60\x20\xea\xd1\xc4\x6d\x91\x90\xc4\x56",
    },
    Row {
        top: OtsType::W2,
        top_leaf: 5,
        low: OtsType::W1,
        low_leaf: 21,
        length: 13_204,
        key: *b"\x7b\x02\xf5\xd5\xb1\x04\xd6\xac\x1b\xc6\x20\xeb\x7c\xd9\xe6\x47\xce\x8b\xb7\x74\x4c\x36\x5f\x1a\x1e\x59\x04\x30\x24\xb2\x1a\xaf",
        seal: *b"\xfa\xc9\x0f\xc0\x55\x5e\x4b\xe1\x07\xe1\x58\xe8\xeb\xfb\x19\xac\xe9\x22\x78\x19\xbf\x5f\x5e\x03\x03\x40\xdb\xf6\xab\x0f\x0c\x30",
    },
    Row {
        top: OtsType::W1,
        top_leaf: 4,
        low: OtsType::W2,
        low_leaf: 22,
        length: 13_204,
        key: *b"\x2e\x62\xaf\xc7\xfe\x24\xcc\x08\xd3\xee\x9a\x06\x5d\xa0\x41\xf3\x03\x63\x6b\x50\x09\xf8\x37\x18\x40\x35\x6a\xc6\xd6\xb2\x35\xe3",
        seal: *b"\xa4\x57\x5b\x1f\x67\xb7\xb2\x37\xdf\xe0\x8f\x0c\xc7\x11\x69\xd7\x4c\xdd\xd3\x55\x04\xa1\x64\x86\xb3\x3d\xd1\xa4\x5d\xcf\xd3\x55",
    },
];

/// The bytes of a signer's public key.
fn key_of(alloc: Global, signer: &Signer) -> Result<Vec<u8>, AllocError> {
    let mut key = Vec::new(alloc);
    push_key(&mut key, &signer.secret.public())?;
    Ok(key)
}

/// A public key and a seal.
#[derive(Drop)]
struct Sealed {
    key: Vec<u8>,
    seal: Vec<u8>,
}

/// The seal of [`MESSAGE`] by two signers.
fn sealed_by(alloc: Global, top: &Signer, low: &Signer) -> Result<Sealed, AllocError> {
    let top_sig = signature(alloc, top, &key_of(alloc, low)?)?;
    let low_sig = signature(alloc, low, MESSAGE)?;
    let key = public_bytes(alloc, &top.secret.public())?;
    let seal = seal_bytes(alloc, &top_sig, &low.secret.public(), &low_sig)?;
    Ok(Sealed { key, seal })
}

/// The seal that is made as a row says.
fn sealed_as(alloc: Global, row: &Row) -> Result<Sealed, AllocError> {
    let top = signer_of(alloc, "hss top", row.top, row.top_leaf)?;
    let low = signer_of(alloc, "hss low", row.low, row.low_leaf)?;
    sealed_by(alloc, &top, &low)
}

/// Whether a row's seal is the other program's, byte for byte, and is good.
fn is_made(alloc: Global, row: &Row) -> Result<bool, AllocError> {
    let made = sealed_as(alloc, row)?;
    let is_same = Sha256::digest(&made.key) == row.key && Sha256::digest(&made.seal) == row.seal;
    let is_good = verify_hss(&made.key, MESSAGE, &made.seal);
    Ok(is_same && is_good && made.seal.len() == row.length)
}

#[test]
fn seals_are_made_again(rt: HostRuntime) -> Result<(), Fail> {
    for row in &ROWS {
        assert!(rt; is_made(rt.alloc(), row)?);
    }
    Ok(())
}

/// Flips a bit of the byte in this place.
fn flip(bytes: &mut [u8], place: usize) {
    if let Some(byte) = bytes.get_mut(place) {
        *byte ^= 1 << (place % 8);
    }
}

/// How many single bits of the seal can be changed so that it stays good: one in every 13 bytes, and one in each of the
/// first 16, of the lower key and of the head of its signature.
fn seals_that_pass(key: &[u8], seal: &mut [u8]) -> usize {
    let mut passing = 0usize;
    for place in 0..seal.len() {
        if place % 13 == 0 || place < 16 || (1_296..1_364).contains(&place) {
            flip(seal, place);
            passing = passing.saturating_add(usize::from(verify_hss(key, MESSAGE, seal)));
            flip(seal, place);
        }
    }
    passing
}

/// How many single bits of the key, one in each byte, can be changed so that the seal stays good.
fn keys_that_pass(key: &mut [u8], seal: &[u8]) -> usize {
    let mut passing = 0usize;
    for place in 0..key.len() {
        flip(key, place);
        passing = passing.saturating_add(usize::from(verify_hss(key, MESSAGE, seal)));
        flip(key, place);
    }
    passing
}

#[test]
fn changed_seals_are_refused(rt: HostRuntime) -> Result<(), Fail> {
    let mut made = sealed_as(rt.alloc(), &ROWS[0])?;
    let passing = seals_that_pass(&made.key, &mut made.seal);
    assert_eq!(rt;
        (passing, keys_that_pass(&mut made.key, &made.seal)),
        (0, 0)
    );
    assert!(rt; verify_hss(&made.key, MESSAGE, &made.seal));
    assert!(rt; !verify_hss(&made.key, b"a bungle", &made.seal));
    Ok(())
}
