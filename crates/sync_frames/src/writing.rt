//! Writing frames.

ghost use Rattle.std.specs.Prelude.{◌≡◌, ◌≤◌, ◌++◌, ◌∷◌, ℕ, List, length, IfOk, OnOk};
ghost use Rattle.std.specs.Int.{w16, w32, to_be_bytes};
ghost use Rattle.sync_frames.specs.declared.frame.Frame.TheVariants as frames;
ghost use Rattle.sync_frames.specs.Payload.{AreIds, hello_payload, turn_payload, spelled_ids};
ghost use Rattle.sync_frames.specs.Stream.{Spells};

use crate::{Hello, Turn};
use byteorder::{BigEndian, ByteOrder};
use std::alloc::{AllocError, Global};
use update_codec::UPDATE_LIMIT;
use update_model::UpdateId;

/// The frame of a Hello. It gives up where memory runs out.
pub fn write_hello(alloc: Global, hello: &Hello) -> Result<Vec<u8>, AllocError>
    ensures { IfOk result (λ bytes. Spells (frames.Hello hello.now) bytes.items) }
{
    let heads = hello.heads.as_slice();
    let old = hello.old.as_slice();
    let filter = hello.filter.as_slice();
    let len = 75 + 32 * heads.len() + 32 * old.len() + filter.len();
    let mut out = begun(alloc, 1, len as u32)?;
    out.push(2)?;
    out.extend_from_slice(&hello.database)?;
    out.extend_from_slice(&hello.node)?;
    put_u32(&mut out, heads.len() as u32)?;
    put_ids(&mut out, heads)?;
    put_u16(&mut out, old.len() as u16)?;
    put_ids(&mut out, old)?;
    put_u32(&mut out, filter.len() as u32)?;
    out.extend_from_slice(filter)?;
    Ok(out)
}

/// The frame of a Turn. It gives up where memory runs out.
pub fn write_turn(alloc: Global, turn: &Turn) -> Result<Vec<u8>, AllocError>
    ensures { IfOk result (λ bytes. Spells (frames.Turn turn.now) bytes.items) }
{
    let needs = turn.needs.as_slice();
    let mut out = begun(alloc, 3, (3 + 32 * needs.len()) as u32)?;
    out.push(u8::from(turn.have))?;
    put_u16(&mut out, needs.len() as u16)?;
    put_ids(&mut out, needs)?;
    Ok(out)
}

/// What stands before the bytes of an update of this length, of which there are at most 262,144, so that both are the
/// frame of an Item.
pub fn item_header(len: u32) -> [u8; 5]
    requires { len ≤ UPDATE_LIMIT }
    ensures bytes { result ≡ 2 ∷ to_be_bytes w32 len }
    ensures spells { (update : List ℕ) → length update ≡ len → Spells (frames.Item update) (result ++ update) }
{
    let [a, b, c, d] = len.to_be_bytes();
    [2, a, b, c, d]
}

/// The beginning of a frame, in a vector with room for all of it.
fn begun(alloc: Global, kind: u8, len: u32) -> Result<Vec<u8>, AllocError>
    ensures { IfOk result (λ out. out.items ≡ kind ∷ to_be_bytes w32 len) }
{
    let mut out = Vec::with_capacity(alloc, 5 + len as usize)?;
    out.push(kind)?;
    put_u32(&mut out, len)?;
    Ok(out)
}

fn put_u16(out: &mut Vec<u8>, number: u16) -> Result<(), AllocError>
    ensures { OnOk result (out.new.items ≡ out.old.items ++ to_be_bytes w16 number) }
{
    let mut field = [0; 2];
    BigEndian::write_u16(&mut field, number);
    out.extend_from_slice(&field)
}

fn put_u32(out: &mut Vec<u8>, number: u32) -> Result<(), AllocError>
    ensures { OnOk result (out.new.items ≡ out.old.items ++ to_be_bytes w32 number) }
{
    let mut field = [0; 4];
    BigEndian::write_u32(&mut field, number);
    out.extend_from_slice(&field)
}

/// Ids one after the other.
fn put_ids(out: &mut Vec<u8>, ids: &[UpdateId]) -> Result<(), AllocError>
    ensures items { OnOk result (out.new.items ≡ out.old.items ++ spelled_ids ids.now) }
    ensures ids { OnOk result (AreIds ids.now) }
{
    for id in ids {
        out.extend_from_slice(&id.0)?;
    }
    Ok(())
}
