ghost use Rattle.std.specs.Prelude.{◌≡◌, IfOk};
ghost use Rattle.update_codec.specs.Kept.{header_from};

use std::alloc::{AllocError, Global};
use update_model::{AuthorKey, Body, IdList, TextValue};

/// What a body says beside its operations: what is often asked of an update that is kept.
#[derive(Drop)]
pub(crate) struct Header {
    /// The id of the database that the update belongs to.
    pub(crate) database: [u8; 32],
    /// The author's public key.
    pub(crate) author: AuthorKey,
    /// The ids of the direct predecessors, rising.
    pub(crate) preds: IdList,
    /// What the author says of it, if anything.
    pub(crate) note: Option<TextValue>,
}

impl Header {
    /// The header of a body, whose operations are let go.
    pub(crate) fn of_body(body: Body) -> Header
        ensures { result ≡ header_from body }
    {
        let Body {
            database,
            author,
            preds,
            note,
            ..
        } = body;
        Header {
            database,
            author,
            preds,
            note,
        }
    }

    /// An equal header on memory of its own.
    pub(crate) fn copy(&self, alloc: Global) -> Result<Header, AllocError>
        ensures { IfOk result (λ copy. copy ≡ self.now) }
    {
        Ok(Header {
            database: self.database,
            author: self.author,
            preds: self.preds.copy(alloc)?,
            note: copy_note(alloc, &self.note)?,
        })
    }
}

fn copy_note(alloc: Global, note: &Option<TextValue>) -> Result<Option<TextValue>, AllocError>
    ensures { IfOk result (λ copy. copy ≡ note.now) }
{
    match note {
        None => Ok(None),
        Some(text) => Ok(Some(text.copy(alloc)?)),
    }
}
