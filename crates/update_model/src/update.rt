ghost use Rattle.std.specs.Prelude.{◌≡◌, IfOk};

use crate::{Body, ByteList};
use std::alloc::{AllocError, Global};
use std::marker::Model;

/// An update: a body and its author's signature, which has as many bytes as the author's key asks for.
#[derive(Drop)]
pub struct Update {
    /// What is signed.
    pub body: Body,
    /// The LMS signature (RFC 8554, section 5.4), which nothing here verifies.
    pub signature: ByteList,
}

impl Model for Update {
    ghost use Rattle.update_model.specs.Form.{UpdateData, IsUpdate};

    ghost Value = { UpdateData };

    ghost view = { λ update. record { body = update.body; signature = update.signature } };

    ghost invariant = { λ update. IsUpdate (record { body = update.body; signature = update.signature }) };
}

impl Update {
    /// An equal update on memory of its own.
    pub fn copy(&self, alloc: Global) -> Result<Update, AllocError>
        ensures { IfOk result (λ update. update ≡ self.now) }
    {
        Ok(Update {
            body: self.body.copy(alloc)?,
            signature: self.signature.copy(alloc)?,
        })
    }
}
