//! Signing an update.

ghost use Rattle.std.specs.Prelude.{◌≡◌, ◌<◌, ◌≤◌, ◌+◌, ◌++◌, ◌∷◌, ◌↔◌, [], ℕ, None, Some, Err, IsTrue, IfOk, IfErr};
ghost use Rattle.std.specs.Prelude.{OnErr, OnOk, false, length, map};
ghost use Rattle.std.specs.Int.{w32, to_be_bytes};
ghost use Rattle.std.specs.List.{AllByRecursion};
ghost use Rattle.bec_bytes.specs.Causes.{Rose};
ghost use Rattle.bec_disk.specs.Disk.{EveryImage, LeavesOnly};
ghost use Rattle.update_model.specs.Block.{IsBlock, IsId};
ghost use Rattle.update_model.specs.Form.{AreRising, IsBody, IsKnownKey, IsNote, most_ops, signature_length};
ghost use Rattle.update_model.specs.Graph.{holds};
ghost use Rattle.update_model.specs.Rows.{AreOps};
ghost use Rattle.update_model.specs.Rule.{IsListed};
ghost use Rattle.update_codec.specs.Parts.{entry_of, id_of};
ghost use Rattle.update_codec.specs.Spelling.{message, signed_length};
ghost use Rattle.update_check.specs.Signed.{IsChecked};
ghost use Rattle.key_index.specs.Used.{IsUsed};
ghost use Rattle.lms_tree.specs.SecretKey.{public_key};
ghost use Rattle.replica.specs.Faults.{message_fault};
ghost use Rattle.replica.specs.Making.{AreSignedBy, HasLength, HasRoom, IsBytesCause, IsMadeWith, IsMessageCause};
ghost use Rattle.replica.specs.Making.{IsNewCause, IsSignCause, IsSignedBy, body_with};
ghost use Rattle.replica.specs.Signing.{KeyAfter};
ghost use Rattle.replica.specs.declared.make_fault.Side.TheVariants.{Key as KeySide};
ghost use Rattle.replica.specs.declared.make_fault.MakeFault.TheVariants.{DiskFault as DiskFailed};

use crate::contents::Contents;
use crate::make_fault::{MakeFault, Side};
use bec_disk::Disk;
use history::History;
use key_index::{KeyStore, Reserve};
use row_check::{Checks, Relation};
use std::alloc::{AllocError, Global};
use update_check::{CheckError, Checked, check};
use update_codec::{EncodeError, UPDATE_LIMIT, encode_body};
use update_model::{
    AuthorKey, Body, IdList, MAX_BYTES, MAX_MEMBERS, MAX_PREDS, Member, UpdateId, signature_len,
};

/// Signs an update that says this after these predecessors, and answers it where its id is not held. It is not added.
pub fn sign_update<D: Disk, L: Relation, C: Checks<L>>(
    alloc: Global,
    history: &History<L, C>,
    key: &mut KeyStore<D>,
    c: &[u8; 32],
    preds: IdList,
    says: Contents,
) -> Result<Checked, MakeFault>
    requires few { length says.ops ≤ most_ops says.note }
    requires form { AreOps 0 says.ops }
    requires note { IsNote says.note }
    requires few_preds { length preds ≤ MAX_PREDS }
    requires rising { AreRising None preds }
    requires listed { IsListed history.now.schema.rule.authors (public_key key.old.secret) }
    ensures made { IfOk result (λ update. IsMadeWith history.now key.old.secret key.old.taken preds says c.now update) }
    ensures checked { IfOk result (λ update. IsChecked history.now.schema.rule update) }
    ensures form { IsBody (body_with history.now (public_key key.old.secret) preds says) }
    ensures length { OnOk result (HasLength history.now key.old.secret preds says) }
    ensures new { IfOk result (λ update. holds (map entry_of history.now.members) (id_of update) ≡ false) }
    ensures refused { IfErr result (λ why. IsSignCause history.now key.old.secret key.old.taken preds says c.now why) }
    ensures key { KeyAfter key.old result key.new }
    ensures used { (index : ℕ) → (IsTrue key.old.parts.used.tells → EveryImage key.old.parts.used.now (IsUsed index))
        → LeavesOnly key.old.parts.used key.new.parts.used (IsUsed index) }
    ensures later { key.old.parts.used_faults ≤ key.new.parts.used_faults }
    ensures failed { result ≡ Err (DiskFailed KeySide) → Rose key.old.parts.used_faults key.new.parts.used_faults }
{
    let body = body_of(history.schema().rule().database, key.public(), preds, says);
    let message = message_of(alloc, &body)?;
    let size = signature_len(&body.author) as usize;
    if !has_room(history, message.len() + 4 + size) {
        return Err(MakeFault::Full);
    }
    let bytes = signed_bytes(alloc, key, c, &message, size)?;
    check_new(alloc, history, bytes)
}

/// The body that an author signs.
fn body_of(database: [u8; 32], author: AuthorKey, preds: IdList, says: Contents) -> Body
    requires known { IsKnownKey author }
    requires few { length says.ops ≤ most_ops says.note }
    requires form { AreOps 0 says.ops }
    requires note { IsNote says.note }
    requires few_preds { length preds ≤ MAX_PREDS }
    requires rising { AreRising None preds }
    ensures { result ≡ record { database = database; author = author; preds = preds; ops = says.ops; note = says.note } }
{
    are_ids(preds.as_slice());
    let Contents { ops, note } = says;
    Body {
        database,
        author,
        preds,
        ops,
        note,
    }
}

/// What holds of ids by their type.
fn are_ids(ids: &[UpdateId])
    ensures { AllByRecursion IsId ids.now }
{
    for id in ids {
        is_id(*id);
    }
}

/// What holds of an id by its type.
fn is_id(_id: UpdateId)
    ensures { IsId _id }
{}

/// The bytes that the author of a body signs, where the update is short enough.
#[tactic(auto, using(crate::proofs::Mapped::message_cause))]
fn message_of(alloc: Global, body: &Body) -> Result<Vec<u8>, MakeFault>
    ensures message { IfOk result (λ out. out.items ≡ message body.now) }
    ensures short { OnOk result (signed_length body.now ≤ UPDATE_LIMIT) }
    ensures refused { IfErr result (λ why. IsMessageCause body.now why) }
{
    match encode_body(alloc, body) {
        Ok(message) => Ok(message),
        Err(error) => Err(message_fault(error)),
    }
}

/// Why a body has no message is why no update is made.
fn message_fault(error: EncodeError) -> MakeFault
    ensures { result ≡ message_fault error }
{
    match error {
        EncodeError::TooLong(refused) => MakeFault::TooLong(refused.len),
        EncodeError::Memory => MakeFault::Memory,
    }
}

/// Takes over bytes that were signed for the database, where their id is not held.
fn check_new<L: Relation, C: Checks<L>>(
    alloc: Global,
    history: &History<L, C>,
    bytes: Vec<u8>,
) -> Result<Checked, MakeFault>
    requires { IsChecked history.now.schema.rule bytes.items }
    ensures same { IfOk result (λ update. update ≡ bytes.items) }
    ensures checked { IfOk result (λ update. IsChecked history.now.schema.rule update) }
    ensures new { IfOk result (λ update. holds (map entry_of history.now.members) (id_of update) ≡ false) }
    ensures refused { IfErr result (λ why. IsNewCause history.now bytes.items why) }
{
    let update = match check(alloc, history.schema().rule(), bytes) {
        Ok(update) => update,
        Err(error) => return Err(MakeFault::from(want_of_memory(error))),
    };
    let id = update.id();
    if history.position(&id).is_some() {
        return Err(MakeFault::Taken(id));
    }
    Ok(update)
}

/// The error of a check that no fault of the bytes can be.
fn want_of_memory(_error: CheckError) -> AllocError
    requires { _error ≡ CheckError.Memory }
{
    AllocError
}

/// Whether one more update of so many bytes is within the limits of a store.
fn has_room<L: Relation, C: Checks<L>>(history: &History<L, C>, len: usize) -> bool
    ensures { IsTrue result ↔ HasRoom history.now len }
{
    history.len() < MAX_MEMBERS && len as u64 <= MAX_BYTES - history.byte_len()
}

/// The bytes of an update: its message, and the signature behind its length. Memory is taken before the index is
/// reserved.
fn signed_bytes<D: Disk>(
    alloc: Global,
    key: &mut KeyStore<D>,
    c: &[u8; 32],
    message: &[u8],
    size: usize,
) -> Result<Vec<u8>, MakeFault>
    requires size { size ≡ signature_length (public_key key.old.secret) }
    requires short { length message.now + 4 + size ≤ UPDATE_LIMIT }
    ensures made { IfOk result (λ bytes. AreSignedBy key.old.secret key.old.taken c.now message.now bytes.items) }
    ensures short { IfOk result (λ bytes. length bytes.items ≤ UPDATE_LIMIT) }
    ensures spent { IfErr result (λ why. IsBytesCause key.old.taken why) }
    ensures key { KeyAfter key.old result key.new }
    ensures used { (index : ℕ) → (IsTrue key.old.parts.used.tells → EveryImage key.old.parts.used.now (IsUsed index))
        → LeavesOnly key.old.parts.used key.new.parts.used (IsUsed index) }
    ensures later { key.old.parts.used_faults ≤ key.new.parts.used_faults }
    ensures failed { result ≡ Err (DiskFailed KeySide) → Rose key.old.parts.used_faults key.new.parts.used_faults }
{
    let mut signature = vec![in alloc; 0u8; size]?;
    let mut bytes = Vec::with_capacity(alloc, message.len() + 4 + size)?;
    sign_into(key, c, message, &mut signature)?;
    put_signed(&mut bytes, message, &signature)?;
    Ok(bytes)
}

/// Signs a message at the least index that is not used.
fn sign_into<D: Disk>(
    key: &mut KeyStore<D>,
    c: &[u8; 32],
    message: &[u8],
    out: &mut [u8],
) -> Result<(), MakeFault>
    requires { length out.old ≡ signature_length (public_key key.old.secret) }
    ensures made { OnOk result (IsSignedBy key.old.secret key.old.taken c.now message.now out.new) }
    ensures refused { IfErr result (λ why. IsBytesCause key.old.taken why) }
    ensures key { KeyAfter key.old result key.new }
    ensures used { (index : ℕ) → (IsTrue key.old.parts.used.tells → EveryImage key.old.parts.used.now (IsUsed index))
        → LeavesOnly key.old.parts.used key.new.parts.used (IsUsed index) }
    ensures later { key.old.parts.used_faults ≤ key.new.parts.used_faults }
    ensures failed { result ≡ Err (DiskFailed KeySide) → Rose key.old.parts.used_faults key.new.parts.used_faults }
{
    match key.sign(c, message, out) {
        Ok(_index) => Ok(()),
        Err(Reserve::Spent) => Err(MakeFault::Spent),
        Err(Reserve::DiskFault) => Err(MakeFault::DiskFault(Side::Key)),
    }
}

/// Writes a message, and a signature behind its length.
fn put_signed(out: &mut Vec<u8>, message: &[u8], signature: &[u8]) -> Result<(), AllocError>
    requires { length signature.now < 65536 }
    ensures items { OnOk result
        (out.new.items ≡ out.old.items ++ (message.now ++ (to_be_bytes w32 (length signature.now) ++ signature.now))) }
    ensures block { IsBlock (length signature.now) signature.now }
{
    out.extend_from_slice(message)?;
    out.extend_from_slice(&(signature.len() as u32).to_be_bytes())?;
    out.extend_from_slice(signature)
}
