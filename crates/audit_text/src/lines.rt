//! The lines of audits.

ghost use Rattle.std.specs.Prelude.{◌≡◌, IfOk};
ghost use Rattle.std.specs.String.{string_bytes};
ghost use Rattle.hex.specs.Hex.{encode_lower};
ghost use Rattle.update_codec.specs.Spelling.{author};
ghost use Rattle.audit_text.specs.Texts.{audit_text, doubled_text, entry_text};

use key_audit::Doubled;
use std::alloc::{AllocError, Global};
use update_model::AuthorKey;

/// The entries, one a line.
pub fn entries_text(alloc: Global, entries: &[Doubled]) -> Result<Vec<u8>, AllocError>
    ensures { IfOk result (λ text. text.items ≡ audit_text entries.now) }
{
    let mut text = Vec::new(alloc);
    for entry in entries {
        let line = entry_line(alloc, entry)?;
        text.extend_from_slice(line.as_bytes())?;
    }
    Ok(text)
}

/// The line of an entry: the key, the index and the two ids.
fn entry_line(alloc: Global, entry: &Doubled) -> Result<String, AllocError>
    ensures { IfOk result (λ line. string_bytes line ≡ entry_text entry.now) }
{
    let key = key_digits(alloc, &entry.key)?;
    let first = hex::encode(alloc, entry.first.0)?;
    let second = hex::encode(alloc, entry.second.0)?;
    let index = entry.index;
    let key_text = key.as_str();
    let first_text = first.as_str();
    let second_text = second.as_str();
    format!(in alloc; "{key_text} {index} {first_text} {second_text}\n")
}

/// The line for a key that signed two messages under an index.
pub fn doubled_line(alloc: Global, key: &AuthorKey, index: u32) -> Result<String, AllocError>
    ensures { IfOk result (λ line. string_bytes line ≡ doubled_text key.now index) }
{
    let digits = key_digits(alloc, key)?;
    let text = digits.as_str();
    format!(in alloc; "doubled {text} {index}\n")
}

/// A public key in lower-case hexadecimal: the words of its types, its identifier and its root.
fn key_digits(alloc: Global, key: &AuthorKey) -> Result<String, AllocError>
    ensures { IfOk result (λ digits. string_bytes digits ≡ encode_lower (author key.now)) }
{
    let bytes = key_bytes(alloc, key)?;
    hex::encode(alloc, bytes)
}

/// The bytes of a public key, as updates spell it.
fn key_bytes(alloc: Global, key: &AuthorKey) -> Result<Vec<u8>, AllocError>
    ensures { IfOk result (λ bytes. bytes.items ≡ author key.now) }
{
    let mut bytes = Vec::from_slice(alloc, &key.lms.to_be_bytes())?;
    bytes.extend_from_slice(&key.ots.to_be_bytes())?;
    bytes.extend_from_slice(&key.ident)?;
    bytes.extend_from_slice(&key.root)?;
    Ok(bytes)
}
