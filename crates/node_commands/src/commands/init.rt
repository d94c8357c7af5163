ghost use Rattle.std.specs.Prelude.{◌≡◌, IfOk, IsTrue};
ghost use Rattle.node_commands.specs.Creating.{Inits};
ghost use Rattle.outcomes.specs.Outside.{outside};
ghost use Rattle.outcomes.specs.Texts.{database_text};
ghost use Rattle.key_directory.specs.Parts.{IsHome};

use bec_bytes::Source;
use bec_disk::Shelf;
use confluence_test::{take_schema, taken_or_refused};
use outcomes::Refusal;
use rand_core::Rng;
use row_check::{Luhn, Native};
use schema_text::{MAX_SCHEMA_BYTES, one_schema};
use schema_verdict::read_text;
use std::alloc::{AllocError, Global};
use store_directory::{each_stands, is_there, new_store, put_store};

/// Makes a store in a directory that has none, of the schema that is read, and answers the line of its database. The
/// line is there before anything is made.
pub fn init<H: Shelf, R: Rng, S: Source>(
    alloc: Global,
    shelf: &mut H,
    dir: &str,
    random: &mut R,
    input: &mut S,
) -> Result<Vec<u8>, Refusal>
    requires { IsTrue (H.state shelf.old).tells → IsHome (H.state shelf.old) }
    ensures { Inits dir.now (outside S.left S.faults H.state H.faults R.stream input.old shelf.old random.old)
        (outside S.left S.faults H.state H.faults R.stream input.new shelf.new random.new) result }
{
    one_schema();
    taken_or_refused();
    if is_there(alloc, shelf, dir)? {
        return Err(Refusal::StoreThere);
    }
    let native: Native<Luhn, Luhn> = Native::new(Luhn);
    let text = read_text(alloc, input, MAX_SCHEMA_BYTES)?;
    let schema = take_schema(alloc, &text, &native)?;
    let line = database_line(alloc, &schema.rule().database)?;
    let mut node = [0; 32];
    random.fill_bytes(&mut node);
    let store = new_store(alloc, shelf, dir, node, &text, native)?;
    each_stands(&store.replica);
    put_store(shelf, dir, store);
    Ok(line)
}

/// The line of a database's id.
fn database_line(alloc: Global, database: &[u8; 32]) -> Result<Vec<u8>, AllocError>
    ensures { IfOk result (λ line. line.items ≡ database_text database.now) }
{
    let digits = hex::encode(alloc, *database)?;
    let id = digits.as_str();
    Ok(format!(in alloc; "database {id}\n")?.into_bytes())
}
