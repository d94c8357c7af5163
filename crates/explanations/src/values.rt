//! What the marks of the table stand for.

ghost use Rattle.std.specs.Prelude.{◌≡◌, ◌++◌, IfOk, OnOk};
ghost use Rattle.explanations.specs.Values.{help_on, known, value_of};

use crate::marks::Marks;
use crate::numbers::push_number;
use crate::words::is_command;
use std::alloc::{AllocError, Global};

/// What the letters between `{` and `}` stand for.
#[derive(Clone, Copy)]
pub(crate) struct Values<'a> {
    /// The numbers of the refusal.
    pub(crate) marks: Marks,
    /// How to get help on the command.
    pub(crate) help: &'a [u8],
    /// The directory of the command.
    pub(crate) directory: &'a [u8],
    /// The other directory, or the address.
    pub(crate) other: &'a [u8],
}

/// Adds what a letter stands for. A number that the refusal lacks is none, as another letter is.
pub(crate) fn push_value(out: &mut Vec<u8>, letter: u8, values: &Values) -> Result<(), AllocError>
    ensures { OnOk result (out.new.items ≡ out.old.items ++ value_of values.now.marks values.now.help.now
        values.now.directory.now values.now.other.now letter) }
{
    match letter {
        b'C' => push_known(out, values.marks.column),
        b'D' => out.extend_from_slice(values.directory),
        b'H' => out.extend_from_slice(values.help),
        b'K' => push_known(out, values.marks.operation),
        b'L' => push_known(out, values.marks.line),
        b'N' => push_known(out, values.marks.number),
        b'O' => out.extend_from_slice(values.other),
        _ => Ok(()),
    }
}

/// Adds a number where there is one.
fn push_known(out: &mut Vec<u8>, number: Option<u64>) -> Result<(), AllocError>
    ensures { OnOk result (out.new.items ≡ out.old.items ++ known number) }
{
    match number {
        Some(number) => push_number(out, number),
        None => Ok(()),
    }
}

/// How to get help on a command.
pub(crate) fn help_text(alloc: Global, command: &[u8]) -> Result<Vec<u8>, AllocError>
    ensures { IfOk result (λ text. text.items ≡ help_on command.now) }
{
    if !is_command(command) {
        return Vec::from_slice(alloc, b"`bec help` lists the commands");
    }
    let mut text = Vec::from_slice(alloc, b"`bec help ")?;
    text.extend_from_slice(command)?;
    text.extend_from_slice(b"` shows the form")?;
    Ok(text)
}
