ghost use Rattle.std.specs.Prelude.{◌≡◌, ◌<◌, ◌^◌, ◌++◌, IfOk, OnOk, cond, length};
ghost use Rattle.bec_bytes.specs.Framed.{framed, stream_of};

use bec_disk::Disk;
use replica::Replica;
use row_check::Luhn;
use std::alloc::{AllocError, Global};
use store_directory::each_stands;
use update_model::Member;

/// The bundle of a store, or its update stream alone.
pub fn exported<D: Disk>(
    alloc: Global,
    replica: &Replica<D, Luhn, Luhn>,
    updates_only: bool,
) -> Result<Vec<u8>, AllocError>
    ensures { IfOk result (λ text. text.items ≡ cond updates_only (stream_of replica.now.history.members)
        (framed replica.now.history.schema.text ++ stream_of replica.now.history.members)) }
{
    let mut bytes = Vec::new(alloc);
    if updates_only {
        push_records(&mut bytes, replica)?;
        return Ok(bytes);
    }
    each_stands(replica);
    push_framed(&mut bytes, replica.schema().text())?;
    push_records(&mut bytes, replica)?;
    Ok(bytes)
}

/// Adds the records of a store's updates.
fn push_records<D: Disk>(
    bytes: &mut Vec<u8>,
    replica: &Replica<D, Luhn, Luhn>,
) -> Result<(), AllocError>
    ensures { OnOk result (bytes.new.items ≡ bytes.old.items ++ stream_of replica.now.history.members) }
{
    each_stands(replica);
    for position in 0..replica.len() {
        push_framed(bytes, replica.update_at(position).bytes())?;
    }
    Ok(())
}

/// Adds a piece behind its length.
fn push_framed(bytes: &mut Vec<u8>, piece: &[u8]) -> Result<(), AllocError>
    requires { length piece.now < 2 ^ 32 }
    ensures { OnOk result (bytes.new.items ≡ bytes.old.items ++ framed piece.now) }
{
    let size = piece.len() as u32;
    bytes.extend_from_slice(&size.to_be_bytes())?;
    bytes.extend_from_slice(piece)?;
    Ok(())
}
