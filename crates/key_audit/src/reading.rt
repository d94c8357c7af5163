//! What an audit reads of an update.

ghost use Rattle.std.specs.Prelude.{◌≡◌};
ghost use Rattle.update_codec.specs.Parts.{author_of};
ghost use Rattle.key_audit.specs.Doubles.{index_of, message_of};

use byteorder::{BigEndian, ByteOrder};
use update_check::Checked;
use update_model::{AuthorKey, Member};

/// The key of its author.
pub fn author_of(update: &Checked) -> AuthorKey
    ensures { result ≡ author_of update.now }
{
    *update.author()
}

/// The index of the one-time key with which it is signed: a signature begins with it (RFC 8554, section 5.4).
pub fn index_of(update: &Checked) -> u32
    ensures { result ≡ index_of update.now }
{
    update.author(); // the signature has the length of the key's
    BigEndian::read_u32(update.signature())
}

/// What its author signed: its bytes up to the signature's length, which has four bytes.
pub fn message_of(update: &Checked) -> &[u8]
    ensures { result.now ≡ message_of update.now }
{
    update.author(); // the bytes end with the signature
    let bytes = update.bytes();
    &bytes[..bytes.len() - update.signature().len() - 4]
}
