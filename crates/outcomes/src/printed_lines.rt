//! A line whose memory is taken before anything changes, and that is filled afterwards.

ghost use Rattle.std.specs.Prelude.{◌≡◌, IfOk, length};
ghost use Rattle.outcomes.specs.Texts.{line_of};

use std::alloc::{AllocError, Global};
use update_model::UpdateId;

/// How many bytes the line of an id has: 64 digits and the end.
pub const ID_LINE: usize = 65;

/// Room for the line of an id.
pub fn room_for_id(alloc: Global) -> Result<Vec<u8>, AllocError>
    ensures { IfOk result (λ room. length room.items ≡ ID_LINE) }
{
    vec![in alloc; b'\n'; ID_LINE]
}

/// The line of an id, in this room. It takes no memory.
pub fn id_line(mut room: Vec<u8>, id: &UpdateId) -> Vec<u8>
    requires { length room.items ≡ ID_LINE }
    ensures { result.items ≡ line_of id.now }
{
    let mut line = [b'\n'; ID_LINE];
    let _ = hex::encode_to_slice(id.0, &mut line[..ID_LINE - 1]);
    room.copy_from_slice(&line);
    room
}
