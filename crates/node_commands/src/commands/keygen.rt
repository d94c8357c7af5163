ghost use Rattle.std.specs.Prelude.{◌≡◌, ◌++◌, IsTrue, OnOk};
ghost use Rattle.node_commands.specs.Creating.{DrawsKey};
ghost use Rattle.outcomes.specs.Texts.{key_text};
ghost use Rattle.key_directory.specs.Parts.{IsHome};

use bec_disk::Shelf;
use key_directory::{new_key, put_key};
use lms_tree::{KeyTypes, LeafGenerator};
use outcomes::Refusal;
use rand_core::Rng;
use std::alloc::{AllocError, Global};
use update_model::AuthorKey;

/// How many bytes the line of a public key has: 112 digits and the end.
const KEY_LINE: usize = 113;

/// Draws a key of these types for a directory that has none, and answers the line of its public key. Room for the line
/// is there before anything is made.
pub fn keygen<G: LeafGenerator, H: Shelf, R: Rng>(
    generator: &G,
    alloc: Global,
    shelf: &mut H,
    dir: &str,
    types: KeyTypes,
    random: &mut R,
) -> Result<Vec<u8>, Refusal>
    requires { IsTrue (H.state shelf.old).tells → IsHome (H.state shelf.old) }
    ensures { DrawsKey types.lms types.ots (R.stream random.old) (R.stream random.new) dir.now (H.state shelf.old)
        (H.state shelf.new) (H.faults shelf.old) (H.faults shelf.new) result }
{
    let mut line = Vec::with_capacity(alloc, KEY_LINE)?;
    let key = new_key(generator, alloc, shelf, dir, types, random)?;
    let told = push_key(&mut line, &key.public());
    put_key(shelf, dir, key);
    told?;
    Ok(line)
}

/// Adds the line of a public key: the digits of its types, of its identifier and of its root, and the end.
fn push_key(line: &mut Vec<u8>, key: &AuthorKey) -> Result<(), AllocError>
    ensures { OnOk result (line.new.items ≡ line.old.items ++ key_text key.now) }
{
    let mut word = [0u8; 8];
    let _ = hex::encode_to_slice(key.lms.to_be_bytes(), &mut word);
    line.extend_from_slice(&word)?;
    let _ = hex::encode_to_slice(key.ots.to_be_bytes(), &mut word);
    line.extend_from_slice(&word)?;
    let mut ident = [0u8; 32];
    let _ = hex::encode_to_slice(key.ident, &mut ident);
    line.extend_from_slice(&ident)?;
    let mut root = [0u8; 64];
    let _ = hex::encode_to_slice(key.root, &mut root);
    line.extend_from_slice(&root)?;
    line.push(b'\n')?;
    Ok(())
}
