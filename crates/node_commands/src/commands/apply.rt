ghost use Rattle.std.specs.Prelude.{◌≡◌, ◌≤◌, IfErr, IfOk, IfSome, length, option_map};
ghost use Rattle.update_model.specs.declared.limits.TheConstants.{MAX_NOTE};
ghost use Rattle.replica.specs.Making.{saying};
ghost use Rattle.node_commands.specs.Signing.{ApplyAnswer, IsNoStop, MakeAnswer, SignsOpen, StopsReading, TakesText};
ghost use Rattle.outcomes.specs.Comes.{IsSourceFault};
ghost use Rattle.outcomes.specs.StoreAnswers.{next_bytes};
ghost use Rattle.txn_text.specs.Outcome.{MayStand};

use bec_bytes::Source;
use bec_disk::Disk;
use key_index::KeyStore;
use outcomes::{Refusal, id_line, made_refusal, room_for_id};
use rand_core::Rng;
use replica::Replica;
use row_check::Luhn;
use schema::Schema;
use schema_verdict::read_text;
use std::alloc::{AllocError, Global};
use store_directory::each_stands;
use txn_text::{MAX_TRANSACTION_BYTES, read_txn};
use update_model::{OpList, TextValue};

/// Makes an update of the transaction that is read in a store, by a key, with a note or without one, and answers the
/// line of its id.
pub fn apply<D: Disk, R: Rng, S: Source>(
    alloc: Global,
    replica: &mut Replica<D, Luhn, Luhn>,
    key: &mut KeyStore<D>,
    note: Option<&str>,
    random: &mut R,
    input: &mut S,
) -> Result<Vec<u8>, Refusal>
    requires { IfSome note (λ n. length n.now ≤ MAX_NOTE) }
    ensures { SignsOpen (ApplyAnswer (option_map (λ n. n.now) note.entry) (S.left input.old) (S.left input.new)
        (R.stream random.old)) (IsSourceFault (S.faults input.old) (S.faults input.new))
        (R.stream random.old) (R.stream random.new) replica.old key.old replica.new key.new result }
{
    each_stands(replica);
    let ops = read_ops(alloc, replica.schema(), input)?;
    make_update(alloc, replica, key, ops, note, random)
}

/// The operations of the transaction that is read.
fn read_ops<S: Source>(alloc: Global, schema: &Schema, input: &mut S) -> Result<OpList, Refusal>
    ensures read { IfOk result (λ ops. TakesText (S.left input.old) (S.left input.new) schema.now ops) }
    ensures form { IfOk result (λ ops. MayStand ops) }
    ensures stopped { IfErr result (λ refusal. StopsReading (S.left input.old) (S.left input.new) (S.faults input.old)
        (S.faults input.new) schema.now refusal) }
{
    let text = read_text(alloc, input, MAX_TRANSACTION_BYTES)?;
    let ops = read_txn(alloc, schema, &text)?;
    Ok(ops)
}

/// Makes an update of these operations, with a note or without one. The memory for the line of its id is taken before.
fn make_update<D: Disk, R: Rng>(
    alloc: Global,
    replica: &mut Replica<D, Luhn, Luhn>,
    key: &mut KeyStore<D>,
    ops: OpList,
    note: Option<&str>,
    random: &mut R,
) -> Result<Vec<u8>, Refusal>
    requires form { MayStand ops }
    requires short { IfSome note (λ n. length n.now ≤ MAX_NOTE) }
    ensures { SignsOpen (MakeAnswer (saying (option_map (λ n. n.now) note.entry) ops)
        (next_bytes (R.stream random.old))) IsNoStop
        (R.stream random.old) (R.stream random.new) replica.old key.old replica.new key.new result }
{
    each_stands(replica);
    let room = room_for_id(alloc)?;
    let text = note_of(alloc, note)?;
    let mut c = [0; 32];
    random.fill_bytes(&mut c);
    let made = replica.make_noted(alloc, ops, text, key, &c);
    each_stands(replica);
    match made {
        Ok(id) => Ok(id_line(room, &id)),
        Err(fault) => Err(made_refusal(key, fault)),
    }
}

/// A note on memory of its own.
fn note_of(alloc: Global, note: Option<&str>) -> Result<Option<TextValue>, AllocError>
    requires { IfSome note (λ n. length n.now ≤ MAX_NOTE) }
    ensures { IfOk result (λ text. text ≡ option_map (λ n. n.now) note.entry) }
{
    match note {
        Some(note) => {
            let bytes = Vec::from_slice(alloc, note.as_bytes())?;
            Ok(Some(TextValue::from_vec(bytes)))
        }
        None => Ok(None),
    }
}
