//! The command `audit`.

ghost use Rattle.std.specs.Prelude.{◌≡◌, IfOk, IsTrue, List};
ghost use Rattle.key_directory.specs.Parts.{IsHome};
ghost use Rattle.outcomes.specs.Comes.{ReadsShelf};
ghost use Rattle.outcomes.specs.StoreAnswers.{Printing, ReadsStore};
ghost use Rattle.key_audit.specs.Entries.{AreFound};
ghost use Rattle.key_audit.specs.declared.doubled.Doubled.{Doubled as Entry};
ghost use Rattle.audit_text.specs.Texts.{audit_text};
ghost use Rattle.store_directory.specs.Standing.{Stands};
ghost use Rattle.audit_commands.specs.Audits.{ShowsDoubled};

use audit_text::entries_text;
use bec_disk::{Disk, Shelf};
use key_audit::find;
use outcomes::Refusal;
use record_check::Verifier;
use schema_text::one_schema;
use std::alloc::{AllocError, Global};
use store_directory::{Needs, Opened, close, each_stands, open};

/// The one-time keys that signed two messages in the store of a directory, as they are printed.
pub fn audit<V: Verifier, H: Shelf>(
    verifier: &V,
    alloc: Global,
    shelf: &mut H,
    dir: &str,
) -> Result<Vec<u8>, Refusal>
    requires { IsTrue (H.state shelf.old).tells → IsHome (H.state shelf.old) }
    ensures { ReadsShelf (ReadsStore (Printing ShowsDoubled)) dir.now
        (H.state shelf.old) (H.state shelf.new) (H.faults shelf.old) (H.faults shelf.new) result }
{
    one_schema();
    let opened = open(verifier, alloc, shelf, dir, Needs::Store)?;
    let text = audited(alloc, &opened);
    close(shelf, dir, opened);
    Ok(text?)
}

/// The one-time keys that signed two messages among the updates of a store that is open, as they are printed.
fn audited<D: Disk>(alloc: Global, opened: &Opened<D>) -> Result<Vec<u8>, AllocError>
    ensures stands { Stands opened.now.store.replica }
    ensures found { IfOk result (λ text. (entries : List Entry)
        × AreFound opened.now.store.replica.history.members entries
        × (text.items ≡ audit_text entries)) }
{
    let replica = &opened.store.replica;
    each_stands(replica);
    let entries = find(alloc, replica)?;
    let text = entries_text(alloc, &entries)?;
    Ok(text)
}
