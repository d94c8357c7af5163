//! Signed updates, one after another by one key.

ghost use Rattle.std.specs.Prelude.{◌<◌};
ghost use Rattle.lms_tree.specs.LmsKind.{leaf_count};

use lm_ots::OtsType;
use lms_tree::{KeySeed, LmsType, OneThread, Secret, make_secret};
use std::alloc::{AllocError, Global};
use std::test::Fail;
use update_check::{Checked, check};
use update_model::{AuthorKey, DbRule, KeyList, UpdateId, signature_len};

/// The database of the updates.
const DATABASE: [u8; 32] = [0xdd; 32];

/// A key of 32 leaves. Verifying what it signs is cheap.
pub fn secret(alloc: Global) -> Result<Secret, AllocError> {
    let seed = KeySeed {
        lms: LmsType::H5,
        ots: OtsType::W2,
        ident: [3; 16],
        start: [7; 32],
    };
    make_secret(&OneThread, alloc, &seed)
}

/// What an author signs: an update of version 2 with an empty note, behind at most one other, of so many operations.
fn message(
    alloc: Global,
    author: &AuthorKey,
    before: Option<UpdateId>,
    count: u16,
    operations: &[u8],
) -> Result<Vec<u8>, AllocError> {
    let mut bytes = Vec::from_slice(alloc, &[2])?;
    bytes.extend_from_slice(&DATABASE)?;
    bytes.extend_from_slice(&author.lms.to_be_bytes())?;
    bytes.extend_from_slice(&author.ots.to_be_bytes())?;
    bytes.extend_from_slice(&author.ident)?;
    bytes.extend_from_slice(&author.root)?;
    match before {
        Some(id) => {
            bytes.extend_from_slice(&[0, 1])?;
            bytes.extend_from_slice(&id.0)?;
        }
        None => bytes.extend_from_slice(&[0, 0])?,
    }
    bytes.extend_from_slice(&count.to_be_bytes())?;
    bytes.extend_from_slice(operations)?;
    bytes.extend_from_slice(&[0, 0])?;
    Ok(bytes)
}

/// The update that a key's leaf signs.
pub fn signed(
    alloc: Global,
    secret: &Secret,
    leaf: u32,
    before: Option<UpdateId>,
    count: u16,
    operations: &[u8],
) -> Result<Checked, Fail>
    requires { leaf < leaf_count secret.now.lms }
{
    let author = secret.public();
    let mut bytes = message(alloc, &author, before, count, operations)?;
    let len = signature_len(&author);
    let mut signature = vec![in alloc; 0; len as usize]?;
    secret.sign_at(leaf, &[0; 32], bytes.as_slice(), &mut signature);
    bytes.extend_from_slice(&len.to_be_bytes())?;
    bytes.extend_from_slice(signature.as_slice())?;
    let rule = DbRule {
        database: DATABASE,
        authors: KeyList::from_vec(Vec::new(alloc)),
    };
    Ok(check(alloc, &rule, bytes)?)
}
