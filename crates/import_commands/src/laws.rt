//! Laws of taking updates. Each function does no work: its contract is a theorem for callers to cite.

ghost use Rattle.std.specs.Prelude.{◌++◌, ℕ, IsTrue, List, map};
ghost use Rattle.rand_core.specs.Stream.{Stream as Random};
ghost use Rattle.bec_disk.specs.Shelf.{ShelfState};
ghost use Rattle.confluence_test.specs.Taking.{TakesSchema};
ghost use Rattle.key_directory.specs.Parts.{IsHome};
ghost use Rattle.outcomes.specs.Outcome.{Outcome};
ghost use Rattle.row_check.specs.Checksum.{is_luhn};
ghost use Rattle.schema.specs.Data.{SchemaData};
ghost use Rattle.session_rules.specs.Laws.{NoCollision};
ghost use Rattle.update_codec.specs.Parts.{entry_of};
ghost use Rattle.update_model.specs.Graph.{HaveSameMembers, IsClosed};
ghost use Rattle.import_commands.specs.Importing.{PutsIn};
ghost use Rattle.import_commands.specs.Taking.{ContentsData, TakesIn};
ghost use Rattle.import_commands.specs.Told.{IsToldOfPut};

use confluence_test::taken_or_refused;
use store_directory::{one_store, store_or_not};

/// With what is taken of updates, a list has its own members and theirs, where no two of them share an id.
pub fn taken_are_both()
    ensures { (before updates added : List (List ℕ)) → IsClosed (map entry_of updates)
        → NoCollision (map entry_of before) (map entry_of updates) → TakesIn before updates added
        → HaveSameMembers (map entry_of (before ++ added)) (map entry_of (before ++ updates)) }
{}

/// What putting updates into a directory comes to, by what its parts read as before and after.
pub fn put_is_told()
    ensures { (contents : ContentsData) (schema : SchemaData) (dir : List ℕ) (stream stream_new : Random)
        (before after : ShelfState) (old new : ℕ) (outcome : Outcome) → TakesSchema is_luhn contents.text schema
        → (IsTrue before.tells → IsHome before)
        → PutsIn contents dir stream stream_new before after old new outcome
        → IsToldOfPut contents dir stream stream_new before after old new outcome }
{
    taken_or_refused();
    one_store();
    store_or_not();
}
