//! A request that brings updates into a directory, done.

ghost use Rattle.std.specs.Prelude.{IsTrue};
ghost use Rattle.command_words.specs.Seen.{import_seen};
ghost use Rattle.key_directory.specs.Parts.{IsHome};
ghost use Rattle.outcomes.specs.Seen.{seen_outside};
ghost use Rattle.import_commands.specs.Bringing.{BlamesRightly, Brings};

use crate::cloning::{clone_bundle, clone_store};
use crate::importing::import;
use bec_bytes::Source;
use bec_disk::Shelf;
use command_words::ImportRequest;
use key_directory::KeyMaker;
use outcomes::{Outside, Refusal};
use rand_core::Rng;
use record_check::Verifier;

/// Does what a request asks for: answers the text that is printed, or why it is refused. Every part is put back.
pub fn bring<V: Verifier, H: Shelf, R: Rng, S: Source>(
    maker: &KeyMaker<V>,
    request: &ImportRequest,
    outside: &mut Outside<H, R, S>,
) -> Result<Vec<u8>, Refusal>
    requires { IsTrue (H.state outside.old.shelf).tells → IsHome (H.state outside.old.shelf) }
    ensures brings { Brings (import_seen request.now) (seen_outside S.Source H.Shelf R.stream outside.old)
        (seen_outside S.Source H.Shelf R.stream outside.new) result }
    ensures blames { BlamesRightly (seen_outside S.Source H.Shelf R.stream outside.old)
        (seen_outside S.Source H.Shelf R.stream outside.new) result }
    ensures home { IsTrue (H.state outside.old.shelf).tells → IsHome (H.state outside.new.shelf) }
{
    match request {
        ImportRequest::Import { directory } => import(maker, outside, directory),
        ImportRequest::CloneBundle { directory } => clone_bundle(maker, outside, directory),
        ImportRequest::CloneStore { from, directory } => clone_store(
            maker,
            &mut outside.shelf,
            &mut outside.random,
            from,
            directory,
        ),
    }
}
