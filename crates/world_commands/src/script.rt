//! Taking the text of a script.

ghost use Rattle.std.specs.Prelude.{IfErr, IfOk};
ghost use Rattle.std.specs.List.{AllByRecursion};
ghost use Rattle.row_check.specs.Checksum.{is_luhn};
ghost use Rattle.world_commands.specs.Answers.{IsRefusal, IsTaken, RefusesScript};
ghost use Rattle.world_script.specs.Lines.{HasForm};
ghost use Rattle.world_script.specs.Scripts.{IsScript};

use crate::WorldRefusal;
use confluence_test::take_schema;
use row_check::{Luhn, Native};
use schema_text::no_fault;
use std::alloc::Global;
use world_script::{Script, read_script};

/// The script that a text is, where each invariant of its schema survives merging.
///
/// A text that is no script is refused first, for its first fault, and then the first invariant that does not survive.
pub(crate) fn parse_script(alloc: Global, text: &[u8]) -> Result<Script, WorldRefusal>
    ensures found { IfOk result (λ script. IsScript is_luhn text.now script) }
    ensures taken { IfOk result (λ script. IsTaken is_luhn script) }
    ensures form { IfOk result (λ script. AllByRecursion HasForm script.lines) }
    ensures refused { IfErr result (IsRefusal (RefusesScript is_luhn text.now)) }
{
    no_fault();
    let native: Native<Luhn, Luhn> = Native::new(Luhn);
    let script = read_script(alloc, text, &native)?;
    let _schema = take_schema(alloc, script.schema.as_slice(), &native)?;
    Ok(script)
}
