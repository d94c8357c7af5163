//! The public key of a directory.

ghost use Rattle.std.specs.Prelude.{◌≡◌, IfOk, IsTrue};
ghost use Rattle.key_directory.specs.Parts.{IsHome};
ghost use Rattle.outcomes.specs.Texts.{key_text};
ghost use Rattle.look_commands.specs.Keys.{ShowsKey};

use bec_disk::Shelf;
use graph_drawing::push_key;
use key_directory::{KeyMaker, put_key, take_key};
use lms_tree::LeafGenerator;
use outcomes::Refusal;
use std::alloc::{AllocError, Global};
use update_model::AuthorKey;

/// The line of the public key of a directory, as `keygen` printed it. Its root is computed from the seed that the part
/// Key has. Nothing is written, and every part is put back.
pub(crate) fn public_line<G: LeafGenerator, H: Shelf>(
    maker: &KeyMaker<G>,
    shelf: &mut H,
    dir: &str,
) -> Result<Vec<u8>, Refusal>
    requires { IsTrue (H.state shelf.old).tells → IsHome (H.state shelf.old) }
    ensures { ShowsKey dir.now (H.state shelf.old) (H.state shelf.new) (H.faults shelf.old) (H.faults shelf.new) result }
{
    let key = take_key(maker.generator, maker.alloc, shelf, dir)?;
    let public = key.public();
    put_key(shelf, dir, key);
    Ok(key_line(maker.alloc, &public)?)
}

/// The line of a public key.
fn key_line(alloc: Global, key: &AuthorKey) -> Result<Vec<u8>, AllocError>
    ensures { IfOk result (λ line. line.items ≡ key_text key.now) }
{
    let mut line = Vec::new(alloc);
    push_key(&mut line, key)?;
    line.push(b'\n')?;
    Ok(line)
}
