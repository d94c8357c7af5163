//! What a line that the program printed means.

ghost use Rattle.std.specs.Prelude.{◌≡◌, ◌++◌, IfOk, OnOk, option_copied, option_map};
ghost use Rattle.explanations.specs.Explained.{behind_front, explained, explained_by, key_of, session_end};
ghost use Rattle.explanations.specs.Explained.{session_name, setting_of};

use crate::asked::Asked;
use crate::excerpts::push_excerpt;
use crate::looking_up::entry_for;
use crate::marks::Marks;
use crate::numbers::{number_at, push_number};
use crate::refusals::table;
use crate::rows::push_rows;
use crate::values::{Values, help_text};
use std::alloc::{AllocError, Global};

/// What a line means that the program printed, and what to do, in rows that each end in an LF; nothing where the table
/// has no entry for it. The line is a refusal, `! ..`, or `session K ..`, the end of a session; of an empty one the
/// status is told.
pub fn explain(alloc: Global, said: &[u8], asked: &Asked) -> Result<Vec<u8>, AllocError>
    ensures { IfOk result (λ text. text.items ≡ explained said.now (setting_of asked.now)) }
{
    let mut front = Vec::from_slice(alloc, b"bec:")?;
    let mut key = Vec::new(alloc);
    push_key(&mut key, &mut front, said, asked.status)?;
    let command = asked.command.as_bytes();
    let found = entry_for(alloc, table(), command, key.as_slice())?;
    let mut out = Vec::new(alloc);
    push_entry(
        alloc,
        &mut out,
        front.as_slice(),
        key.as_slice(),
        found,
        asked,
    )?;
    Ok(out)
}

/// Adds what an entry of the table says, where there is one, and the line that the refusal is about.
fn push_entry(
    alloc: Global,
    out: &mut Vec<u8>,
    front: &[u8],
    key: &[u8],
    found: Option<(Marks, &[u8])>,
    asked: &Asked,
) -> Result<(), AllocError>
    ensures { OnOk result (out.new.items ≡ out.old.items ++ explained_by front.now key.now (setting_of asked.now)
        (option_map (λ entry. (entry.0, entry.1.now)) found.entry)) }
{
    let Some((marks, text)) = found else {
        return Ok(());
    };
    let help = help_text(alloc, asked.command.as_bytes())?;
    let values = Values {
        marks,
        help: help.as_slice(),
        directory: asked.directory.as_bytes(),
        other: asked.other.as_bytes(),
    };
    push_rows(alloc, out, front, text, &values)?;
    push_excerpt(alloc, out, key, &values, asked.text)
}

/// Adds what a line is looked up by, and to the front of the first row the session that it is of, where it is of one.
fn push_key(
    key: &mut Vec<u8>,
    front: &mut Vec<u8>,
    said: &[u8],
    status: u8,
) -> Result<(), AllocError>
    ensures key { OnOk result (key.new.items ≡ key.old.items ++ key_of said.now status) }
    ensures front { OnOk result (front.new.items ≡ front.old.items ++ session_name (session_end said.now)) }
{
    if said.is_empty() {
        key.extend_from_slice(b"status ")?;
        return push_number(key, u64::from(status));
    }
    if let Some((session, ended)) = session_of(said) {
        front.extend_from_slice(b" session ")?;
        push_number(front, session)?;
        front.push(b':')?;
        return key.extend_from_slice(ended);
    }
    key.extend_from_slice(behind(said, b"! ").unwrap_or(said))
}

/// The session whose end a line tells, and how it ended.
fn session_of(said: &[u8]) -> Option<(u64, &[u8])>
    ensures { option_map (λ read. (read.0, read.1.now)) result ≡ session_end said.now }
{
    let (session, rest) = number_at(behind(said, b"session ")?)?;
    Some((session, behind(rest, b" ")?))
}

/// What stands behind a front, where a text begins with it.
fn behind<'a>(text: &'a [u8], front: &[u8]) -> Option<&'a [u8]>
    ensures { option_copied result ≡ behind_front front.now text.now }
{
    text.strip_prefix(front)
}
