//! Whether two updates are a certificate against a key.

ghost use Rattle.std.specs.Prelude.{◌≡◌, ℕ, [], IfOk, MatchOption};
ghost use Rattle.update_model.specs.declared.author_key.AuthorKey.{AuthorKey as Key};
ghost use Rattle.update_codec.specs.Parts.{database_of};
ghost use Rattle.update_check.specs.Signed.{IsSigned};
ghost use Rattle.key_audit.specs.Doubles.{AreDoubled, ArePair};

use crate::reading::{author_of, index_of, message_of};
use std::alloc::{AllocError, Global};
use update_check::{Checked, check_spelled};
use update_codec::{DecodeError, Spelled, fields_of_spelling, no_fault, spelled};
use update_model::{AuthorKey, DbRule, KeyList};

/// The key and the index under which its owner signed two different messages, where these bytes are two such updates,
/// and else `None`. It gives up where memory runs out.
pub fn confirms_doubled(
    alloc: Global,
    first: &[u8],
    second: &[u8],
) -> Result<Option<(AuthorKey, u32)>, AllocError>
    ensures { IfOk result (λ found. MatchOption found
        ((key : Key) (index : ℕ) → AreDoubled first.now second.now key index → ⊥)
        (λ pair. AreDoubled first.now second.now pair.0 pair.1)) }
{
    let Some(one) = signed_of(alloc, first)? else {
        return Ok(None);
    };
    let Some(two) = signed_of(alloc, second)? else {
        return Ok(None);
    };
    Ok(doubled_key(&one, &two))
}

/// The update that the bytes spell, where its author signed it.
fn signed_of(alloc: Global, bytes: &[u8]) -> Result<Option<Checked>, AllocError>
    ensures { IfOk result (λ found. MatchOption found
        (IsSigned bytes.now → ⊥)
        (λ update. (update ≡ bytes.now) × IsSigned bytes.now)) }
{
    fields_of_spelling();
    no_fault();
    let copy = Vec::from_slice(alloc, bytes)?;
    match spelled(alloc, copy) {
        Ok(update) => match check_spelled(&own_rule(alloc, &update), update) {
            Ok(checked) => Ok(Some(checked)),
            Err(_) => Ok(None),
        },
        Err(DecodeError::Fault(_)) => Ok(None),
        Err(DecodeError::Memory) => Err(AllocError),
    }
}

/// The rule of an update's own database, with every author listed.
fn own_rule(alloc: Global, update: &Spelled) -> DbRule
    ensures { result ≡ record { database = database_of update.now; authors = [] } }
{
    DbRule {
        database: *update.database(),
        authors: KeyList::from_vec(Vec::new(alloc)),
    }
}

/// The key and the index of two updates whose messages differ, where they have one.
fn doubled_key(one: &Checked, two: &Checked) -> Option<(AuthorKey, u32)>
    ensures { MatchOption result
        ((key : Key) (index : ℕ) → ArePair one.now two.now key index → ⊥)
        (λ pair. ArePair one.now two.now pair.0 pair.1) }
{
    let author = author_of(one);
    let index = index_of(one);
    if author_of(two) != author {
        return None;
    }
    if index_of(two) != index {
        return None;
    }
    if message_of(one) == message_of(two) {
        return None;
    }
    Some((author, index))
}
