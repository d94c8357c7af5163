ghost use Rattle.std.specs.Prelude.{◌≡◌, ◌++◌, length, IfOk};
ghost use Rattle.std.specs.Int.{w32, to_be_bytes};
ghost use Rattle.update_model.specs.Form.{IsKnownKey};
ghost use Rattle.update_codec.specs.Parts.{author_of, database_of, body_of, note_of, signature_of, update_of, entry_of};
ghost use Rattle.update_codec.specs.Kept.{IsKept};
ghost use Rattle.update_codec.specs.Spelling.{Spells, message as message_bytes};

use crate::decoding::spelled_body;
use crate::header::Header;
use std::alloc::{AllocError, Global};
use std::marker::Model;
use update_model::{AuthorKey, Body, Member, TextValue, UpdateId, signature_len};

/// An update as it is kept: its bytes, and beside them its id and what it says beside its operations, which agree
/// with the bytes.
///
/// A contract sees it as its bytes. Of the bytes, the database, the author's key, the predecessors and the note are
/// kept a second time, so that it takes little more than twice the memory of its bytes. The operations are not, which
/// would take many times their bytes: [`Spelled::body`] reads them again. Nor is the signature, which is lent from the
/// bytes.
#[derive(Drop)]
pub struct Spelled {
    bytes: Vec<u8>,
    header: Header,
    id: UpdateId,
}

impl Model for Spelled {
    ghost use Rattle.std.specs.Prelude.{List, ℕ};
    ghost use Rattle.update_codec.specs.Kept.{IsKept};

    ghost Value = { List ℕ };

    ghost view = { λ spelled. spelled.bytes.items };

    ghost invariant = { λ spelled. IsKept spelled.bytes.items spelled.header spelled.id };
}

impl Spelled {
    /// The bytes of an update with its header and id.
    pub(crate) fn new(bytes: Vec<u8>, header: Header, id: UpdateId) -> Spelled
        requires { IsKept bytes.items header id }
        ensures { result ≡ bytes.items }
    {
        Spelled { bytes, header, id }
    }

    /// What its author signed, read again from the bytes.
    pub fn body(&self, alloc: Global) -> Result<Body, AllocError>
        ensures { IfOk result (λ body. body ≡ body_of self.now) }
    {
        spelled_body(alloc, self.bytes.as_slice())
    }

    /// Its author's key, of known types.
    pub fn author(&self) -> &AuthorKey
        ensures value { result.now ≡ author_of self.now }
        ensures known { IsKnownKey result.now }
        ensures spells { Spells self.now (update_of self.now) }
    {
        &self.header.author
    }

    /// What its author says of it, if anything.
    pub fn note(&self) -> &Option<TextValue>
        ensures { result.now ≡ note_of self.now }
    {
        &self.header.note
    }

    /// The id of the database that it belongs to.
    pub fn database(&self) -> &[u8; 32]
        ensures { result.now ≡ database_of self.now }
    {
        &self.header.database
    }

    /// The bytes that its author signed: its spelling up to the signature's length.
    pub fn message(&self) -> &[u8]
        ensures value { result.now ≡ message_bytes (body_of self.now) }
        ensures parts { self.now ≡ result.now ++ (to_be_bytes w32 (length (signature_of self.now)) ++ signature_of
            self.now) }
    {
        let len = signature_len(self.author()) as usize;
        &self.bytes[..self.bytes.len() - len - 4]
    }

    /// Its author's signature.
    pub fn signature(&self) -> &[u8]
        ensures { result.now ≡ signature_of self.now }
    {
        let len = signature_len(self.author()) as usize;
        &self.bytes[self.bytes.len() - len..]
    }

    /// An equal update on memory of its own.
    pub fn copy(&self, alloc: Global) -> Result<Spelled, AllocError>
        ensures { IfOk result (λ copy. copy ≡ self.now) }
    {
        Ok(Spelled {
            bytes: Vec::from_slice(alloc, self.bytes.as_slice())?,
            header: self.header.copy(alloc)?,
            id: self.id,
        })
    }

    /// Gives the bytes back.
    pub fn into_bytes(self) -> Vec<u8>
        ensures value { result.items ≡ self }
        ensures spells { Spells self (update_of self) }
    {
        let Spelled { bytes, .. } = self;
        bytes
    }
}

impl Member for Spelled {
    ghost entry = { entry_of };

    fn id(&self) -> UpdateId {
        self.id
    }

    fn preds(&self) -> &[UpdateId] {
        self.header.preds.as_slice()
    }

    fn bytes(&self) -> &[u8] {
        self.bytes.as_slice()
    }
}
