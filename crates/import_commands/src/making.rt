//! Making a store that has no updates yet.

ghost use Rattle.std.specs.Prelude.{◌≡◌, IfOk, IsTrue};
ghost use Rattle.bec_disk.specs.declared.part.Part.TheVariants.{Schema as SchemaPart};
ghost use Rattle.key_directory.specs.Parts.{IsHome, part_in, reading};
ghost use Rattle.outcomes.specs.Texts.{database_text};
ghost use Rattle.schema.specs.Data.{SchemaData};
ghost use Rattle.store_directory.specs.Stores.{IsNoStore};
ghost use Rattle.import_commands.specs.Making.{IsTextOf, MakesEmpty};

use crate::contents::Contents;
use bec_disk::Shelf;
use confluence_test::taken_or_refused;
use outcomes::Refusal;
use rand_core::Rng;
use row_check::{Luhn, Native};
use schema_text::one_schema;
use std::alloc::{AllocError, Global};
use store_directory::{each_stands, new_store, put_store};

/// Makes a store without updates in a directory that has none, of the text of these, and answers the line of its
/// database. The line is there before anything is made.
pub(crate) fn make_empty<H: Shelf, R: Rng>(
    alloc: Global,
    shelf: &mut H,
    dir: &str,
    random: &mut R,
    contents: &Contents,
) -> Result<Vec<u8>, Refusal>
    requires home { IsTrue (H.state shelf.old).tells → IsHome (H.state shelf.old) }
    requires none { IsTrue (H.state shelf.old).tells
        → IsNoStore (reading (part_in (H.state shelf.old) dir.now SchemaPart)) }
    requires text { (schema : SchemaData) × IsTextOf schema contents.now.database contents.now.text.items }
    ensures { MakesEmpty contents.now.text.items dir.now (R.stream random.old) (R.stream random.new)
        (H.state shelf.old) (H.state shelf.new) (H.faults shelf.old) (H.faults shelf.new) result }
{
    one_schema();
    taken_or_refused();
    let line = database_line(alloc, &contents.database)?;
    let mut node = [0; 32];
    random.fill_bytes(&mut node);
    let native: Native<Luhn, Luhn> = Native::new(Luhn);
    let store = new_store(alloc, shelf, dir, node, &contents.text, native)?;
    each_stands(&store.replica);
    put_store(shelf, dir, store);
    Ok(line)
}

/// The line of a database's id.
fn database_line(alloc: Global, database: &[u8; 32]) -> Result<Vec<u8>, AllocError>
    ensures { IfOk result (λ line. line.items ≡ database_text database.now) }
{
    let digits = hex::encode(alloc, *database)?;
    let id = digits.as_str();
    Ok(format!(in alloc; "database {id}\n")?.into_bytes())
}
