//! The report of a script.

ghost use Rattle.std.specs.Prelude.{◌≡◌, ◌⊎◌, IfErr, IfOk, Err, Ok};
ghost use Rattle.std.specs.List.{AllByRecursion};
ghost use Rattle.byzantine_world.specs.Begun.{IsBegun};
ghost use Rattle.row_check.specs.Checksum.{is_luhn};
ghost use Rattle.world_commands.specs.Answers.{IsFault, Reports, WorldAnswer, types_of};
ghost use Rattle.world_script.specs.Lines.{HasForm};

use crate::WorldRefusal;
use crate::reporting::push_world;
use crate::running::run_lines;
use crate::script::parse_script;
use bec_bytes::Source;
use byzantine_world::World;
use lms_tree::KeyTypes;
use schema_verdict::read_text;
use std::alloc::{AllocError, Global};
use world_script::{MAX_SCRIPT_BYTES, Script};

/// Reads a script, lets what it says happen to a world, and answers the report: a line for each event that changed
/// nothing or was refused, and then what each replica and each session came to; where `audit` is true, also how many
/// one-time keys signed twice.
///
/// No more than one byte past the longest script is read. A text is refused that is no script, or whose schema is not
/// taken.
pub fn run_world<S: Source>(
    alloc: Global,
    audit: bool,
    input: &mut S,
) -> Result<Vec<u8>, WorldRefusal>
    ensures reported { IfOk result (λ report. WorldAnswer audit (S.left input.old) (S.left input.new) (Ok report)) }
    ensures refused { IfErr result (λ why. WorldAnswer audit (S.left input.old) (S.left input.new) (Err why)
        ⊎ IsFault (S.faults input.old) (S.faults input.new) why) }
{
    let text = read_text(alloc, input, MAX_SCRIPT_BYTES)?;
    let script = parse_script(alloc, text.as_slice())?;
    let report = report_of(alloc, &script, audit)?;
    Ok(report)
}

/// The report of what a script says.
fn report_of(alloc: Global, script: &Script, audit: bool) -> Result<Vec<u8>, AllocError>
    requires { AllByRecursion HasForm script.now.lines }
    ensures { IfOk result (λ report. Reports is_luhn audit script.now report.items) }
{
    let mut world = world_of(alloc, script)?;
    let mut report = Vec::new(alloc);
    run_lines(&mut world, script.lines.as_slice(), &mut report)?;
    push_world(alloc, &world, audit, &mut report)?;
    Ok(report)
}

/// The world that a script begins with. Its schema is taken and its replicas are 1 to 16, so what is lacking is memory.
fn world_of(alloc: Global, script: &Script) -> Result<World, AllocError>
    ensures { IfOk result (λ world. IsBegun is_luhn script.now.schema script.now.replicas (types_of script.now)
        script.now.number world) }
{
    let types = KeyTypes {
        lms: script.lms,
        ots: script.ots,
    };
    let schema = script.schema.as_slice();
    match World::new(alloc, schema, script.replicas, types, script.number) {
        Ok(world) => Ok(world),
        Err(_) => Err(AllocError),
    }
}
