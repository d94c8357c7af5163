ghost use Rattle.std.specs.Prelude.{◌≡◌, IfOk};

use crate::{AuthorKey, IdList, OpList, TextValue};
use std::alloc::{AllocError, Global};
use std::marker::Model;

/// What an author signs: the database, who writes, which updates came directly before, what is done to rows, and a
/// note of it.
///
/// Every value is in form: predecessors rise strictly, there are at most 1,024 of them, the key's two types are
/// known ones, a note has at most 256 bytes, and there are at most 256 operations with a note and 64 without one, of
/// which [`crate::check_ops`] is true.
#[derive(Drop)]
pub struct Body {
    /// The id of the database that the update belongs to.
    pub database: [u8; 32],
    /// The author's public key.
    pub author: AuthorKey,
    /// The ids of the direct predecessors, rising.
    pub preds: IdList,
    /// The operations, which number from 0.
    pub ops: OpList,
    /// What the author says of it, if anything.
    pub note: Option<TextValue>,
}

impl Model for Body {
    ghost use Rattle.update_model.specs.Form.{BodyData, IsBody};

    ghost Value = { BodyData };

    ghost view = { λ body. record {
      database = body.database;
      author = body.author;
      preds = body.preds;
      ops = body.ops;
      note = body.note;
    } };

    ghost invariant = { λ body. IsBody (record {
      database = body.database;
      author = body.author;
      preds = body.preds;
      ops = body.ops;
      note = body.note;
    }) };
}

impl Body {
    /// An equal body on memory of its own.
    pub fn copy(&self, alloc: Global) -> Result<Body, AllocError>
        ensures { IfOk result (λ body. body ≡ self.now) }
    {
        Ok(Body {
            database: self.database,
            author: self.author,
            preds: self.preds.copy(alloc)?,
            ops: self.ops.copy(alloc)?,
            note: copy_note(alloc, &self.note)?,
        })
    }
}

fn copy_note(alloc: Global, note: &Option<TextValue>) -> Result<Option<TextValue>, AllocError>
    ensures { IfOk result (λ copy. copy ≡ note.now) }
{
    match note {
        None => Ok(None),
        Some(text) => Ok(Some(text.copy(alloc)?)),
    }
}
