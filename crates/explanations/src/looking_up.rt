//! Looking a refusal up in a table.

ghost use Rattle.std.specs.Prelude.{◌≡◌, option_map, IfOk};
ghost use Rattle.explanations.specs.Table.{entry_of as entry_in_table, entry_for as entry_for_command};

use crate::marks::Marks;
use crate::matching::matched;
use std::alloc::{AllocError, Global};
use text_words::next_line;

/// What the first entry of a table says that describes this line, and the numbers that the line has.
pub(crate) fn entry_of<'a>(table: &'a [u8], said: &[u8]) -> Option<(Marks, &'a [u8])>
    ensures { option_map (λ entry. (entry.0, entry.1.now)) result ≡ entry_in_table table.now said.now }
{
    let mut rest = table;
    while let Some((key, after)) = next_line(rest) {
        let (text, later) = next_line(after)?;
        if let Some(marks) = matched(key, said) {
            return Some((marks, text));
        }
        rest = later;
    }
    None
}

/// The same, of the entry for this command alone where there is one.
pub(crate) fn entry_for<'a>(
    alloc: Global,
    table: &'a [u8],
    command: &[u8],
    said: &[u8],
) -> Result<Option<(Marks, &'a [u8])>, AllocError>
    ensures { IfOk result (λ found. option_map (λ entry. (entry.0, entry.1.now)) found ≡ entry_for_command table.now
        command.now said.now) }
{
    let mut own = Vec::from_slice(alloc, command)?;
    own.extend_from_slice(b": ")?;
    own.extend_from_slice(said)?;
    match entry_of(table, own.as_slice()) {
        Some(found) => Ok(Some(found)),
        None => Ok(entry_of(table, said)),
    }
}
