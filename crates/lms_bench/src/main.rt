//! Repeats one operation on signatures, for `bench/lms` to time from outside: it makes no claim and measures nothing.
//!
//! The words are the operation, the pair of types and how often, as `verify H5/W8 1000`. `digest` feeds `sha2` with the
//! 55 bytes of one step of a chain, which is one block, and takes a pair of types for the form's sake. What is printed
//! are the words, and how often the operation did what it is for.
#![tactic(auto)]

use bec_host::hold_closed_streams;
use lm_ots::OtsType;
use lms_tree::{KeySeed, LmsType, OneThread, Secret, make_secret, verify};
use sha2::{Digest, Sha256};
use std::alloc::AllocError;
use std::process::ExitCode;
use std::{env, io};
use update_model::signature_len;

/// What is repeated.
#[derive(Clone, Copy)]
enum Operation {
    /// A secret key is made.
    Make,
    /// A message is signed by leaf 0.
    Sign,
    /// A signature is verified.
    Verify,
    /// One block is compressed.
    Digest,
}

const IDENT: [u8; 16] = [1; 16];

const SEED: [u8; 32] = [2; 32];

const RANDOMIZER: [u8; 32] = [3; 32];

const MESSAGE: &[u8] = b"abc";

fn main(rt: HostRuntime) -> io::Result<ExitCode> {
    let _held = hold_closed_streams(&rt)?;
    let mut words = Vec::new(rt.alloc());
    for argument in env::args(&rt)?.skip(1) {
        words.push(argument).map_err(AllocError::from)?;
    }
    let [operation, pair, rounds] = words.as_slice() else {
        return Ok(ExitCode::from(2));
    };
    let Some(seed) = seed_named(pair.as_str()) else {
        return Ok(ExitCode::from(2));
    };
    let (Some(known), Ok(times)) = (
        operation_named(operation.as_str()),
        rounds.as_str().parse::<u32>(),
    ) else {
        return Ok(ExitCode::from(2));
    };
    let done = repeat(&rt, known, &seed, times)?;
    println!(rt; "{operation} {pair} {rounds}: {done}")?;
    Ok(ExitCode::from(0))
}

/// What the key of a pair of types is made from.
fn seed_named(word: &str) -> Option<KeySeed> {
    let (lms, ots) = match word {
        "H5/W8" => (LmsType::H5, OtsType::W8),
        "H5/W4" => (LmsType::H5, OtsType::W4),
        "H10/W4" => (LmsType::H10, OtsType::W4),
        _ => return None,
    };
    Some(KeySeed {
        lms,
        ots,
        ident: IDENT,
        start: SEED,
    })
}

fn operation_named(word: &str) -> Option<Operation> {
    match word {
        "make" => Some(Operation::Make),
        "sign" => Some(Operation::Sign),
        "verify" => Some(Operation::Verify),
        "digest" => Some(Operation::Digest),
        _ => None,
    }
}

/// Repeats the operation, and tells how often it did what it is for.
fn repeat(
    rt: &impl AllocGlobal,
    operation: Operation,
    seed: &KeySeed,
    times: u32,
) -> Result<u32, AllocError> {
    match operation {
        Operation::Digest => Ok(digest(times)),
        Operation::Make => {
            let mut done = 0u32;
            for _ in 0..times {
                let secret = make_secret(&OneThread, rt.alloc(), seed)?;
                done = done.saturating_add(secret.leaf_count().min(1));
            }
            Ok(done)
        }
        Operation::Sign | Operation::Verify => {
            let secret = make_secret(&OneThread, rt.alloc(), seed)?;
            sign_or_verify(rt, &secret, operation, times)
        }
    }
}

/// Signs or verifies the message again and again.
fn sign_or_verify(
    rt: &impl AllocGlobal,
    secret: &Secret,
    operation: Operation,
    times: u32,
) -> Result<u32, AllocError> {
    let key = secret.public();
    let mut signature = vec![in rt.alloc(); 0u8; signature_len(&key) as usize]?;
    secret.sign_at(0, &RANDOMIZER, MESSAGE, &mut signature);
    let mut done = 0u32;
    for _ in 0..times {
        let good = match operation {
            Operation::Verify => verify(&key, MESSAGE, &signature),
            _ => {
                secret.sign_at(0, &RANDOMIZER, MESSAGE, &mut signature);
                true
            }
        };
        done = done.saturating_add(u32::from(good));
    }
    Ok(done)
}

/// Compresses one block again and again, each over what the one before gave.
fn digest(times: u32) -> u32 {
    let mut block = [0u8; 55];
    for _ in 0..times {
        let value = Sha256::digest(block.as_slice());
        block[23..].copy_from_slice(&value);
    }
    times
}
