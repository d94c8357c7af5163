//! The command `check`, by itself.

ghost use Rattle.std.specs.Prelude.{◌≡◌, map, string_bytes};
ghost use Rattle.schema_verdict.specs.Checks.{Checks, RunsCheck, is_check};

use crate::judging::verdict;
use crate::lines::refusal_lines;
use crate::refusal::VerdictRefusal;
use crate::reply::{no_command, put};
use crate::status::{DONE, OUT_OF_MEMORY, REFUSED, STREAM_FAULT};
use bec_bytes::{Sink, Source};
use std::alloc::Global;

/// Reads the text of a schema, writes the verdict on it, and answers the exit status: `confluent` where each invariant
/// survives merging, or the line for the first fault of the text, or the lines for the first invariant that does not
/// survive, with a history that breaks it. Where the source fails that is said, and where memory runs out nothing is
/// written.
pub fn check<S: Source, K: Sink>(alloc: Global, input: &mut S, out: &mut K) -> u8
    ensures { Checks (record { left = S.left input.old; faults = S.faults input.old })
        (record { left = S.left input.new; faults = S.faults input.new })
        (record { held = K.held out.old; faults = K.faults out.old })
        (record { held = K.held out.new; faults = K.faults out.new }) result }
{
    match verdict(alloc, input) {
        Ok(text) => put(out, &text, DONE),
        Err(VerdictRefusal::Stream) => put(out, b"! stream fault\n", STREAM_FAULT),
        Err(VerdictRefusal::NotTaken(why)) => match refusal_lines(alloc, &why) {
            Ok(lines) => put(out, &lines, REFUSED),
            Err(_memory) => OUT_OF_MEMORY,
        },
    }
}

/// Does what the words of a command line ask for, where they are the one word `check`, and answers the exit status. It
/// is what [`check`] does. Other words are no command, and leave the source as it was.
pub fn run_check<S: Source, K: Sink>(
    alloc: Global,
    words: &[String],
    input: &mut S,
    out: &mut K,
) -> u8
    ensures { RunsCheck (map string_bytes words.now) input.old input.new
        (record { left = S.left input.old; faults = S.faults input.old })
        (record { left = S.left input.new; faults = S.faults input.new })
        (record { held = K.held out.old; faults = K.faults out.old })
        (record { held = K.held out.new; faults = K.faults out.new }) result }
{
    if is_check(words) {
        check(alloc, input, out)
    } else {
        no_command(out)
    }
}

/// Whether the words are the one word `check`.
fn is_check(words: &[String]) -> bool
    ensures { result ≡ is_check (map string_bytes words.now) }
{
    match words {
        [word] => word.as_str() == "check",
        _ => false,
    }
}
