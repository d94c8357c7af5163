//! The schema of a script, and what follows it.

ghost use Rattle.std.specs.Prelude.{◌≡◌, ◌≤◌, length, IfNone, IfSome};
ghost use Rattle.world_script.specs.Scripts.{IsPassed, IsDivided, lines_before, schema_part};
ghost use Rattle.world_script.specs.Headings.{begins_world as is_world_line};
ghost use Rattle.text_words.specs.Lines.{lines_of};

use crate::MAX_SCRIPT_BYTES;
use crate::heading::begins_world;
use text_words::next_line;

/// The parts of a script.
#[derive(Clone, Copy)]
pub(crate) struct Parts<'a> {
    /// The bytes before the line `WORLD`, or all where there is no such line.
    pub schema: &'a [u8],
    /// The number of the line after them.
    pub number: u32,
    /// The bytes from the line `WORLD` on.
    pub rest: &'a [u8],
}

/// The schema of a script: all that stands before the line `WORLD`, or the whole text where there is no such line. The
/// text has at most [`MAX_SCRIPT_BYTES`].
pub fn schema_part(text: &[u8]) -> &[u8]
    requires { length text.now ≤ MAX_SCRIPT_BYTES }
    ensures { result.now ≡ schema_part text.now }
{
    parts_of(text).schema
}

/// The parts of a script.
pub(crate) fn parts_of(text: &[u8]) -> Parts<'_>
    requires { length text.now ≤ MAX_SCRIPT_BYTES }
    ensures { IsDivided text.now result.schema.now result.number result.rest.now }
{
    let mut rest = text;
    let mut number = 1;
    while let Some(after) = pass_line(rest) {
        rest = after;
        number += 1;
    }
    Parts {
        schema: &text[..text.len() - rest.len()],
        number,
        rest,
    }
}

/// What follows the first line, unless that is the line `WORLD`.
fn pass_line(text: &[u8]) -> Option<&[u8]>
    ensures passed { IfSome result (λ after. IsPassed text.now after.now) }
    ensures here { IfNone result (lines_before text.now ≡ 0) }
{
    match next_line(text) {
        Some((line, after)) if !begins_world(line) => Some(after),
        _ => None,
    }
}
