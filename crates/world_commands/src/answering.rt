//! The commands, with what they write and their exit statuses.

ghost use Rattle.std.specs.Prelude.{◌≡◌, ◌≢◌, IfOk};
ghost use Rattle.confluence_test.specs.declared.refusal.SchemaRefusal.TheVariants.{Memory};
ghost use Rattle.world_commands.specs.Answers.{TellsRefusal, TellsWorld, text_for};
ghost use Rattle.world_commands.specs.Demos.{TellsDemo};
ghost use Rattle.world_commands.specs.declared.refusal.WorldRefusal.TheVariants.{NotTaken, Stream as StreamFailed};

use crate::demo::run_demo;
use crate::refusal::WorldRefusal;
use crate::world::run_world;
use bec_bytes::{Sink, Source};
use confluence_test::SchemaRefusal;
use schema_verdict::status::{DONE, OUT_OF_MEMORY, REFUSED, STREAM_FAULT};
use schema_verdict::{put, refused_lines, schema_line};
use std::alloc::{AllocError, Global};

/// Reads a script, writes the report of the world that it comes to, and answers the exit status; or writes the lines
/// for why there is none. Where memory runs out nothing is written.
pub fn tell_world<S: Source, K: Sink>(alloc: Global, audit: bool, input: &mut S, out: &mut K) -> u8
    ensures { TellsWorld audit (record { left = S.left input.old; faults = S.faults input.old })
        (record { left = S.left input.new; faults = S.faults input.new })
        (record { held = K.held out.old; faults = K.faults out.old })
        (record { held = K.held out.new; faults = K.faults out.new }) result }
{
    match run_world(alloc, audit, input) {
        Ok(report) => put(out, report.as_slice(), DONE),
        Err(why) => refuse(alloc, out, &why),
    }
}

/// Writes the lines for why there is no report, and answers the exit status.
fn refuse<K: Sink>(alloc: Global, out: &mut K, why: &WorldRefusal) -> u8
    ensures { TellsRefusal why.now (record { held = K.held out.old; faults = K.faults out.old })
        (record { held = K.held out.new; faults = K.faults out.new }) result }
{
    if let WorldRefusal::Stream = why {
        return put(out, b"! stream fault\n", STREAM_FAULT);
    }
    match refusal_lines(alloc, why) {
        Ok(lines) => put(out, lines.as_slice(), REFUSED),
        Err(_memory) => OUT_OF_MEMORY,
    }
}

/// The lines for why a script is refused. Want of memory and a source that failed have none here.
fn refusal_lines(alloc: Global, why: &WorldRefusal) -> Result<Vec<u8>, AllocError>
    ensures { IfOk result (λ lines. (lines.items ≡ text_for why.now) × (why.now ≢ NotTaken Memory)
        × (why.now ≢ StreamFailed)) }
{
    match why {
        WorldRefusal::NotTaken(SchemaRefusal::Schema(fault)) => {
            Ok(schema_line(alloc, fault)?.into_bytes())
        }
        WorldRefusal::NotTaken(
            SchemaRefusal::NotConfluent {
                schema,
                which,
                example,
            },
        ) => refused_lines(alloc, schema, which, example),
        WorldRefusal::AtLine(number) => Ok(format!(in alloc;
            "! script line {number}\n"
        )?.into_bytes()),
        WorldRefusal::NotTaken(SchemaRefusal::Memory) | WorldRefusal::Stream => Err(AllocError),
    }
}

/// Writes what the four replicas of a demonstration come to, and answers the exit status. Where memory runs out
/// nothing is written.
pub fn tell_demo<K: Sink>(alloc: Global, number: u64, count: u32, out: &mut K) -> u8
    ensures { TellsDemo number count (record { held = K.held out.old; faults = K.faults out.old })
        (record { held = K.held out.new; faults = K.faults out.new }) result }
{
    match run_demo(alloc, number, count) {
        Ok(counts) => put(out, counts.as_slice(), DONE),
        Err(_memory) => OUT_OF_MEMORY,
    }
}
