ghost use Rattle.std.specs.Prelude.{◌≡◌, ◌↔◌, IsTrue, IfOk};
ghost use Rattle.update_model.specs.Text.{IsText};

use crate::MAX_TEXT;
use std::alloc::{AllocError, Global};
use std::marker::Model;
use std::str;

/// Whether the bytes may stand in a row as a text: at most 1,024 bytes of UTF-8.
///
/// UTF-8 is strict (RFC 3629): no surrogates, no overlong forms, nothing above U+10FFFF. Control characters are
/// allowed.
pub fn check_value_text(bytes: &[u8]) -> bool
    ensures { IsTrue result ↔ IsText bytes.now }
{
    bytes.len() <= MAX_TEXT as usize && str::from_utf8(bytes).is_ok()
}

/// A text in a row, or a note: at most 1,024 bytes of UTF-8, which a contract sees as the list of its bytes.
#[derive(Drop)]
pub struct TextValue {
    bytes: Vec<u8>,
}

impl Model for TextValue {
    ghost use Rattle.std.specs.Prelude.{ℕ, List};
    ghost use Rattle.update_model.specs.Text.{IsText};

    ghost Value = { List ℕ };

    ghost view = { λ text. text.bytes.items };

    ghost invariant = { λ text. IsText text.bytes.items };
}

impl TextValue {
    /// Takes over a vector of which [`check_value_text`] is true.
    pub fn from_vec(bytes: Vec<u8>) -> Self
        requires { IsText bytes.items }
        ensures { result ≡ bytes.items }
    {
        TextValue { bytes }
    }

    /// Lends the bytes.
    pub fn as_slice(&self) -> &[u8]
        ensures value { result.now ≡ self.now }
        ensures text { IsText self.now }
    {
        self.bytes.as_slice()
    }

    /// Gives the vector back.
    pub fn into_vec(self) -> Vec<u8>
        ensures value { result.items ≡ self }
        ensures text { IsText result.items }
    {
        let TextValue { bytes } = self;
        bytes
    }

    /// An equal text on memory of its own.
    pub fn copy(&self, alloc: Global) -> Result<TextValue, AllocError>
        ensures { IfOk result (λ text. text ≡ self.now) }
    {
        Ok(TextValue {
            bytes: Vec::from_slice(alloc, self.bytes.as_slice())?,
        })
    }
}
