//! Summaries: one id whose bits are known, how many bytes a few ids have, and no ids.

use bloom_summary::{MAX_SUMMARY_BYTES, Summary};
use std::alloc::{AllocError, Global};
use update_model::UpdateId;

/// An id with these seven words in front.
fn id(words: [u32; 7]) -> UpdateId {
    let mut bytes = [0; 32];
    for (place, word) in words.iter().enumerate() {
        bytes[4 * place..4 * place + 4].copy_from_slice(&word.to_be_bytes());
    }
    UpdateId(bytes)
}

/// Whether the bits of an id are 0 to 3 and 15.
fn sets_bits(alloc: Global) -> Result<bool, AllocError> {
    let one = id([1, 2, 3, 16, 17, 18, 65535]);
    let summary = Summary::of(alloc, &[one])?;
    let read = Summary::from_bytes(alloc, &[0xf0, 0x01])?;
    let has_bits = summary.bytes() == [0xf0, 0x01].as_slice();
    let has_same = summary.member(&id([0, 1, 2, 3, 15, 31, 16]));
    let has_other = summary.member(&id([1, 2, 3, 4, 0, 0, 0]));
    Ok(has_bits && summary.member(&one) && has_same && !has_other && read.member(&one))
}

#[test]
fn sets_known_bits(rt: HostRuntime) {
    assert!(rt; matches!(sets_bits(rt.alloc()), Ok(true)));
}

/// Whether each id has ten bits in a summary.
fn has_ten_bits(alloc: Global) -> Result<bool, AllocError> {
    let ids = [id([7, 8, 9, 10, 11, 12, 13]); 9];
    let eight = Summary::of(alloc, &ids[..8])?;
    let nine = Summary::of(alloc, &ids)?;
    let none = Summary::of(alloc, &[])?;
    let is_none = none.bytes().is_empty() && !none.member(&ids[0]);
    Ok(eight.bytes().len() == 10 && nine.bytes().len() == 12 && is_none)
}

#[test]
fn has_ten_bits_for_each(rt: HostRuntime) {
    assert!(rt; matches!(has_ten_bits(rt.alloc()), Ok(true)));
    assert!(rt; MAX_SUMMARY_BYTES == 131_072 * 10 / 8);
}
