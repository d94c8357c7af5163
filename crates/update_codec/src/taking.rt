//! Taking over bytes.

ghost use Rattle.std.specs.Prelude.{◌≡◌, Ok, Err, IfOk, IfErr};
ghost use Rattle.update_model.specs.Form.{UpdateData};
ghost use Rattle.update_codec.specs.Kept.{IsKept};
ghost use Rattle.update_codec.specs.Outcome.{Answers, Fails, HasCause};
ghost use Rattle.update_codec.specs.Parts.{update_of};
ghost use Rattle.update_codec.specs.Reading.{first_of};
ghost use Rattle.update_codec.specs.Spelling.{Spells};

use crate::decoding::parts_of;
use crate::header::Header;
use crate::{DecodeError, Spelled, id_of};
use std::alloc::Global;
use update_model::UpdateId;

/// Takes over bytes that spell an update, with its id and what it says beside its operations.
///
/// It refuses as [`decode`](crate::decode) does: it reads the operations too, and lets them go. It does not copy the
/// signature.
pub fn spelled(alloc: Global, bytes: Vec<u8>) -> Result<Spelled, DecodeError>
    ensures found { IfOk result (λ kept. Spells kept (update_of kept)) }
    ensures same { IfOk result (λ kept. kept ≡ bytes.items) }
    ensures only { (update : UpdateData) → Spells bytes.items update → Answers result (Ok bytes.items) }
    ensures fault { IfErr result (λ error. HasCause bytes.items error) }
{
    let (header, id) = beside(alloc, bytes.as_slice())?;
    Ok(Spelled::new(bytes, header, id))
}

/// What is kept beside these bytes.
fn beside(alloc: Global, bytes: &[u8]) -> Result<(Header, UpdateId), DecodeError>
    ensures kept { IfOk result (λ read. IsKept bytes.now read.0 read.1) }
    ensures fails { IfErr result (λ error. Fails error (first_of bytes.now)) }
    ensures cause { IfErr result (λ error. HasCause bytes.now error) }
{
    let (body, _signature) = parts_of(alloc, bytes)?;
    Ok((Header::of_body(body), id_of(bytes)))
}
