//! Importing a bundle.

ghost use Rattle.std.specs.Prelude.{IsTrue};
ghost use Rattle.key_directory.specs.Parts.{IsHome};
ghost use Rattle.outcomes.specs.Seen.{seen_outside};
ghost use Rattle.import_commands.specs.Importing.{Imports};

use crate::contents::bundle_contents;
use crate::putting::put_in;
use bec_bytes::Source;
use bec_disk::Shelf;
use key_directory::KeyMaker;
use outcomes::{Outside, Refusal};
use rand_core::Rng;
use record_check::Verifier;

/// Takes the updates of the bundle that is read into the store of a directory, or makes a store of it where there is
/// none, and answers how many updates that gained; of a new store, its database before that.
///
/// The whole bundle is read and verified first. Then all is added that the store lacks of it, or nothing. Where a disk
/// fails once a new store was made, it stays, without updates, and `import` takes them into it later.
pub fn import<V: Verifier, H: Shelf, R: Rng, S: Source>(
    maker: &KeyMaker<V>,
    outside: &mut Outside<H, R, S>,
    dir: &str,
) -> Result<Vec<u8>, Refusal>
    requires { IsTrue (H.state outside.old.shelf).tells → IsHome (H.state outside.old.shelf) }
    ensures { Imports dir.now (seen_outside S.Source H.Shelf R.stream outside.old)
        (seen_outside S.Source H.Shelf R.stream outside.new) result }
{
    let contents = bundle_contents(maker.alloc, &mut outside.input)?;
    put_in(
        maker,
        &mut outside.shelf,
        &mut outside.random,
        dir,
        contents,
    )
}
