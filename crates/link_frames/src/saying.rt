//! Writing frames to a link.

ghost use Rattle.std.specs.Prelude.{◌≡◌, ◌≤◌, [], ◌∷◌, length, option_map};
ghost use Rattle.session_rules.specs.Pair.{hello_frames, turn_frames};
ghost use Rattle.session_rules.specs.State.{Item};
ghost use Rattle.sync_frames.specs.declared.frame.Frame.{Frame};
ghost use Rattle.sync_frames.specs.Stream.{Spells};
ghost use Rattle.sync_session.specs.Kept.{hello_of, turn_of};
ghost use Rattle.update_codec.specs.Parts.{entry_of};
ghost use Rattle.update_codec.specs.declared.limits.TheConstants.{UPDATE_LIMIT};
ghost use Rattle.link_frames.specs.Hearing.{said_by};
ghost use Rattle.link_frames.specs.Saying.{HasCause, Says};
ghost use Rattle.link_frames.specs.declared.saying.Halt.TheVariants.{Memory};

use bec_links::Link;
use std::alloc::{AllocError, Global};
use sync_frames::{Hello, Turn, item_header, write_hello, write_turn};

/// Why not all was said.
#[derive(Clone, Copy)]
pub enum Halt {
    /// A call of the link failed.
    Broken,
    /// Memory ran out.
    Memory,
}

impl From<AllocError> for Halt {
    ghost from_gives = { λ _ halt. halt ≡ Memory };

    fn from(_error: AllocError) -> Halt {
        Halt::Memory
    }
}

/// Says a Hello, where there is one.
pub fn say_hello<K: Link>(alloc: Global, link: &mut K, hello: &Option<Hello>) -> Result<(), Halt>
    ensures said { Says (K.held link.old) (K.held link.new) result (hello_frames (option_map hello_of hello.now)) }
    ensures left { K.left link.new ≡ K.left link.old }
    ensures cause { HasCause (K.faults link.old) (K.faults link.new) result }
{
    match hello {
        None => Ok(()),
        Some(hello) => put(link, write_hello(alloc, hello)?.as_slice()),
    }
}

/// Says a Turn, where there is one.
pub fn say_turn<K: Link>(alloc: Global, link: &mut K, turn: &Option<Turn>) -> Result<(), Halt>
    ensures said { Says (K.held link.old) (K.held link.new) result (turn_frames (option_map turn_of turn.now)) }
    ensures left { K.left link.new ≡ K.left link.old }
    ensures cause { HasCause (K.faults link.old) (K.faults link.new) result }
{
    match turn {
        None => Ok(()),
        Some(turn) => put(link, write_turn(alloc, turn)?.as_slice()),
    }
}

/// Says an update, of at most 262,144 bytes.
pub fn say_item<K: Link>(alloc: Global, link: &mut K, update: &[u8]) -> Result<(), Halt>
    requires { length update.now ≤ UPDATE_LIMIT }
    ensures said { Says (K.held link.old) (K.held link.new) result (Item (entry_of update.now) ∷ []) }
    ensures left { K.left link.new ≡ K.left link.old }
    ensures cause { HasCause (K.faults link.old) (K.faults link.new) result }
{
    let header = item_header(update.len() as u32);
    let mut frame = Vec::with_capacity(alloc, header.len() + update.len())?;
    frame.extend_from_slice(&header)?;
    frame.extend_from_slice(update)?;
    put(link, frame.as_slice())
}

/// Puts the bytes of one frame on a link.
fn put<K: Link>(link: &mut K, bytes: &[u8]) -> Result<(), Halt>
    ensures said { (frame : Frame) → Spells frame bytes.now → Says (K.held link.old) (K.held link.new) result
        (said_by frame ∷ []) }
    ensures left { K.left link.new ≡ K.left link.old }
    ensures cause { HasCause (K.faults link.old) (K.faults link.new) result }
{
    match link.send(bytes) {
        Ok(()) => Ok(()),
        Err(_) => Err(Halt::Broken),
    }
}
