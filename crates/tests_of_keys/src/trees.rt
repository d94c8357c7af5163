//! Signatures that another implementation made, and changes to one of them.

use crate::signers::{random_of, seed_of, signature, signer_of};
use crate::vectors::{MADE, Made, TALL_LEAF, TALL_PATH, TALL_ROOT};
use lm_ots::{OtsType, sign};
use lms_tree::{LmsType, ManyThreads, make_secret, verify};
use sha2::{Digest, Sha256};
use std::alloc::{AllocError, Global};
use std::test::Fail;
use std::thread::Threads;
use update_model::AuthorKey;

/// The name of the keys that BouncyCastle was given.
const NAME: &str = "lms vector";

/// The parameters of RFC 8554, section 4.1: a type, its number, w, p, ls and the length of a signature.
const PARAMETERS: &[(OtsType, [usize; 5])] = &[
    (OtsType::W1, [1, 1, 265, 7, 8516]),
    (OtsType::W2, [2, 2, 133, 6, 4292]),
    (OtsType::W4, [3, 4, 67, 4, 2180]),
    (OtsType::W8, [4, 8, 34, 0, 1124]),
];

#[test]
fn one_time_keys_have_their_parameters(rt: HostRuntime) {
    for (kind, numbers) in PARAMETERS {
        let got = [
            kind.type_word() as usize,
            kind.width() as usize,
            kind.chain_count() as usize,
            kind.checksum_shift() as usize,
            kind.signature_length(),
        ];
        assert_eq!(rt; got, *numbers);
    }
}

/// Whether the row's key is made whole, on one thread and on many, and signs "abc" as the row says, which is valid.
fn is_made<R: Threads + Sync>(rt: &R, alloc: Global, row: &Made) -> Result<bool, AllocError> {
    let by = signer_of(alloc, NAME, row.ots, row.q)?;
    let seed = seed_of(alloc, NAME, LmsType::H5, row.ots)?;
    let many = make_secret(&ManyThreads::new(rt), alloc, &seed)?;
    let key = by.secret.public();
    let sig = signature(alloc, &by, b"abc")?;
    let are_roots = key.root == row.root && many.public().root == row.root;
    Ok(are_roots && Sha256::digest(&sig) == row.digest && verify(&key, b"abc", &sig))
}

#[test]
fn signatures_are_made_again(rt: HostRuntime) -> Result<(), Fail> {
    for row in &MADE {
        assert!(rt; is_made(&rt, rt.alloc(), row)?, "leaf {}", row.q);
    }
    Ok(())
}

/// A key of height 15 and a signature by it: the one-time signature is made, and the path is taken over.
fn tall(alloc: Global) -> Result<(AuthorKey, Vec<u8>), AllocError> {
    let seed = seed_of(alloc, NAME, LmsType::H15, OtsType::W8)?;
    let random = random_of(&seed, TALL_LEAF);
    let mut one_time = [0; 1124];
    sign(
        OtsType::W8,
        &seed.ident,
        TALL_LEAF,
        &seed.start,
        &random,
        b"abc",
        &mut one_time,
    );
    let mut sig = Vec::from_slice(alloc, &u32::to_be_bytes(TALL_LEAF))?;
    sig.extend_from_slice(&one_time)?;
    sig.extend_from_slice(&u32::to_be_bytes(LmsType::H15.type_word()))?;
    for value in &TALL_PATH {
        sig.extend_from_slice(value)?;
    }
    let key = AuthorKey {
        lms: LmsType::H15.type_word(),
        ots: OtsType::W8.type_word(),
        ident: seed.ident,
        root: TALL_ROOT,
    };
    Ok((key, sig))
}

/// A byte of that signature, and what is changed in it: another q, a q beyond the leaves, another LM-OTS type, C, y[0],
/// the last y, another LMS type, the path's ends. Another program written from the RFC refused each of them.
const CHANGES: &[(usize, u8)] = &[
    (3, 1),
    (1, 0x80),
    (7, 7),
    (8, 1),
    (71, 0x80),
    (1127, 1),
    (1131, 3),
    (1132, 1),
    (1611, 1),
];

/// Changes a byte.
fn change(bytes: &mut [u8], place: usize, change: u8) {
    if let Some(byte) = bytes.get_mut(place) {
        *byte ^= change;
    }
}

/// How many changes of a signature are refused.
fn refused(key: &AuthorKey, sig: &mut [u8]) -> usize {
    let mut refused = 0usize;
    for (place, by) in CHANGES {
        change(sig, *place, *by);
        refused = refused.saturating_add(usize::from(!verify(key, b"abc", sig)));
        change(sig, *place, *by);
    }
    refused
}

#[test]
fn a_tall_tree_verifies(rt: HostRuntime) -> Result<(), Fail> {
    let (key, mut sig) = tall(rt.alloc())?;
    assert_eq!(rt; refused(&key, &mut sig), CHANGES.len());
    assert!(rt; verify(&key, b"abc", &sig) && !verify(&key, b"abd", &sig));
    Ok(())
}
