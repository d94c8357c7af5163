//! Reading words by one simple command of `clap`.

ghost use Rattle.std.specs.Prelude.{◌≡◌, IfOk, true, map, string_bytes};
ghost use Rattle.clap.specs.Words.{app_of, is_simple_and_free};
ghost use Rattle.command_words.specs.Words.{command_app, rows_given, rule_for};

use crate::argument::Argument;
use crate::given::Given;
use clap::Command;
use clap::error::ErrorKind;
use std::alloc::{AllocError, Global};

/// What the words give for the arguments, or `None` where they are no command. The first of the words is the command's
/// name.
pub(crate) fn read_words<'a>(
    alloc: Global,
    name: &'a str,
    arguments: &'a [Argument<'a>],
    words: &'a [String],
) -> Result<Option<Given<'a>>, AllocError>
    requires simple { is_simple_and_free (command_app name.now (map rule_for arguments.now)) ≡ true }
    ensures { IfOk result (λ o.
        o ≡ rows_given (command_app name.entry.now (map rule_for arguments.entry.now))
        (map string_bytes words.entry.now)) }
{
    let command = command_of(alloc, name, arguments)?;
    match command.try_get_matches_from(words) {
        Ok(matches) => Ok(Some(Given { matches })),
        Err(error) => match error.kind() {
            ErrorKind::OutOfMemory => Err(AllocError),
            _ => Ok(None),
        },
    }
}

/// The command with these arguments, its help and version flags off.
fn command_of<'a>(
    alloc: Global,
    name: &'a str,
    arguments: &'a [Argument<'a>],
) -> Result<Command<'a>, AllocError>
    ensures { IfOk result (λ c. app_of c ≡ command_app name.entry.now (map rule_for arguments.entry.now)) }
{
    let mut command = Command::new(alloc, name)
        .disable_help_flag(true)
        .disable_version_flag(true);
    for argument in arguments {
        command = command.arg(argument.declared(alloc))?;
    }
    Ok(command)
}
