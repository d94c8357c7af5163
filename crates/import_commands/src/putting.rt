//! Putting updates into a directory, whether it has a store or not.

ghost use Rattle.std.specs.Prelude.{◌≡◌, IsTrue, map};
ghost use Rattle.key_directory.specs.Parts.{IsHome};
ghost use Rattle.schema.specs.Data.{SchemaData};
ghost use Rattle.update_codec.specs.Parts.{entry_of};
ghost use Rattle.update_model.specs.Graph.{IsClosed};
ghost use Rattle.import_commands.specs.Importing.{PutsIn};
ghost use Rattle.import_commands.specs.Making.{IsTextOf};

use crate::contents::Contents;
use crate::making::make_empty;
use crate::taking::take_into;
use bec_disk::Shelf;
use key_directory::KeyMaker;
use outcomes::Refusal;
use rand_core::Rng;
use record_check::Verifier;
use store_directory::is_there;

/// Puts updates into the store of a directory, or where it has none into one that is made of their text, and answers
/// the lines of that. Where a disk fails once the new store was made, it stays, without updates.
pub(crate) fn put_in<V: Verifier, H: Shelf, R: Rng>(
    maker: &KeyMaker<V>,
    shelf: &mut H,
    random: &mut R,
    dir: &str,
    contents: Contents,
) -> Result<Vec<u8>, Refusal>
    requires home { IsTrue (H.state shelf.old).tells → IsHome (H.state shelf.old) }
    requires closed { IsClosed (map entry_of contents.updates.items) }
    requires text { (schema : SchemaData) × IsTextOf schema contents.database contents.text.items }
    ensures { PutsIn (record { text = contents.text.items; updates = contents.updates.items }) dir.now
        (R.stream random.old) (R.stream random.new) (H.state shelf.old) (H.state shelf.new) (H.faults shelf.old)
        (H.faults shelf.new) result }
{
    if is_there(maker.alloc, shelf, dir)? {
        return take_into(maker, shelf, dir, contents, Vec::new(maker.alloc));
    }
    let lines = make_empty(maker.alloc, shelf, dir, random, &contents)?;
    take_into(maker, shelf, dir, contents, lines)
}
