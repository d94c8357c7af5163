//! Updates without predecessors, signed by keys that tests know.

use lm_ots::OtsType;
use lms_tree::{KeySeed, LmsType, OneThread, make_secret};
use std::alloc::{AllocError, Global};
use update_model::{AuthorKey, DbRule, KeyList};

/// The database of the updates.
pub const DATABASE: [u8; 32] = [0xdd; 32];

/// A root's number of predecessors, and no operations.
pub const PLAIN: &[u8] = b"\x00\x00\x00\x00";

/// Any author may sign.
pub fn rule(alloc: Global) -> DbRule {
    DbRule {
        database: DATABASE,
        authors: KeyList::from_vec(Vec::new(alloc)),
    }
}

/// Who signs and how: the key whose own bytes and whose seed are all the first of these, under the index that is the
/// second, with 32 times the third before the message.
pub type By = [u8; 3];

/// The spelling of an update with what stands behind its author, and its author. A signature has 4,460 bytes, and
/// verifying it is cheap.
pub fn signed(alloc: Global, by: By, rest: &[u8]) -> Result<(Vec<u8>, AuthorKey), AllocError> {
    let [seed, index, random] = by;
    let made_from = KeySeed {
        lms: LmsType::H5,
        ots: OtsType::W2,
        ident: [seed; 16],
        start: [seed; 32],
    };
    let secret = make_secret(&OneThread, alloc, &made_from)?;
    let author = secret.public();
    let types = [0, 0, 0, 5, 0, 0, 0, 2];
    let parts = [
        &[1],
        DATABASE.as_slice(),
        &types,
        &author.ident,
        &author.root,
        rest,
    ];
    let message = parts.concat(alloc)?;
    let mut signature = [0; 4460];
    secret.sign_at((index % 32) as u32, &[random; 32], &message, &mut signature);
    let bytes = [message.as_slice(), &[0, 0, 17, 108], &signature].concat(alloc)?;
    Ok((bytes, author))
}
