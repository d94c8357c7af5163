//! The lines of a script happen to a world.

ghost use Rattle.std.specs.Prelude.{◌≡◌, ◌++◌, false, IfOk, OnOk};
ghost use Rattle.std.specs.List.{AllByRecursion, flat_map};
ghost use Rattle.byzantine_world.specs.Codes.{ShowsWorld};
ghost use Rattle.row_check.specs.Checksum.{is_luhn};
ghost use Rattle.world_commands.specs.Lines.{CarriesRound, RunsOut, has_carried, missed_of};
ghost use Rattle.world_commands.specs.Running.{LineDone, LinesDone};
ghost use Rattle.world_report.specs.Reports.{missed_text};
ghost use Rattle.world_rules.specs.Happens.{Happens};
ghost use Rattle.world_rules.specs.Worlds.{WorldData};
ghost use Rattle.world_rules.specs.declared.event.Event.TheVariants.{Carry as CarryEvent};
ghost use Rattle.world_rules.specs.declared.event.Stepped.{Stepped as SteppedData};
ghost use Rattle.world_script.specs.Lines.{HasForm};

use byzantine_world::World;
use std::alloc::AllocError;
use world_report::{Missed, push_missed};
use world_rules::{Event, Stepped};
use world_script::Line;

/// What these lines say happens, one after another. What changes nothing, and what is refused, is reported where it
/// stands.
pub(crate) fn run_lines(
    world: &mut World,
    lines: &[Line],
    report: &mut Vec<u8>,
) -> Result<(), AllocError>
    requires form { AllByRecursion HasForm lines.now }
    requires runs { world.old.is_over ≡ false }
    ensures happens { OnOk result ((w : WorldData) → ShowsWorld world.old w
        → LinesDone is_luhn w lines.now world.new report.old.items report.new.items) }
    ensures runs { OnOk result (world.new.is_over ≡ false) }
{
    let mut rest = lines;
    while let Some((line, after)) = rest.split_first() {
        run_line(world, line, report)?;
        rest = after;
    }
    Ok(())
}

/// What a line says happens.
fn run_line(world: &mut World, line: &Line, report: &mut Vec<u8>) -> Result<(), AllocError>
    requires form { HasForm line.now }
    requires runs { world.old.is_over ≡ false }
    ensures happens { OnOk result ((w : WorldData) → ShowsWorld world.old w
        → LineDone is_luhn w line.now world.new report.old.items report.new.items) }
    ensures runs { OnOk result (world.new.is_over ≡ false) }
{
    match line {
        Line::One { line, event } => {
            let stepped = world.step(event)?;
            push_stepped(report, *line, stepped)?;
            Ok(())
        }
        Line::Run { line: _, session } => {
            run_session(world, *session)?;
            Ok(())
        }
    }
}

/// Reports an event that changed nothing or was refused.
fn push_stepped(report: &mut Vec<u8>, line: u32, stepped: Stepped) -> Result<(), AllocError>
    ensures { OnOk result (report.new.items ≡ report.old.items ++ flat_map missed_text (missed_of line stepped)) }
{
    match stepped {
        Stepped::Done => Ok(()),
        Stepped::NoSuch => push_missed(report, &Missed::NoSuch { line }),
        Stepped::Refused(cause) => push_missed(report, &Missed::Refused { line, cause }),
    }
}

/// Frames of a session are carried forward and back by turns, until both find nothing.
///
/// Sessions have few turns, so the loop ends long before its bound. The one error is want of memory.
fn run_session(world: &mut World, session: u32) -> Result<(), AllocError>
    requires { world.old.is_over ≡ false }
    ensures happens { OnOk result ((w : WorldData) → ShowsWorld world.old w → (next : WorldData)
        × RunsOut is_luhn session w next × ShowsWorld world.new next) }
    ensures runs { OnOk result (world.new.is_over ≡ false) }
{
    'rounds: for _ in 0..u64::MAX {
        let found = carry_both(world, session)?;
        if !found {
            return Ok(());
        }
    }
    Err(AllocError)
}

/// Carries a frame of a session forward and then one back, where there is one, and answers whether there was any.
fn carry_both(world: &mut World, session: u32) -> Result<bool, AllocError>
    ensures happens { IfOk result (λ found. (w : WorldData) → ShowsWorld world.old w → (next : WorldData)
        × CarriesRound is_luhn session w next found × ShowsWorld world.new next) }
    ensures runs { OnOk result (world.new.is_over ≡ false) }
{
    let forward = carry(world, session, true)?;
    let back = carry(world, session, false)?;
    Ok(forward || back)
}

/// Carries a frame of a session this way, and answers whether there was one.
fn carry(world: &mut World, session: u32, forward: bool) -> Result<bool, AllocError>
    ensures happens { IfOk result (λ found. (w : WorldData) → ShowsWorld world.old w → (answer : SteppedData)
        × ((next : WorldData) × Happens is_luhn w (CarryEvent session forward) answer next
        × ShowsWorld world.new next × (found ≡ has_carried answer))) }
    ensures runs { OnOk result (world.new.is_over ≡ false) }
{
    let stepped = world.step(&Event::Carry { session, forward })?;
    Ok(has_carried(stepped))
}

/// Whether a carry found a frame.
fn has_carried(stepped: Stepped) -> bool
    ensures { result ≡ has_carried stepped }
{
    match stepped {
        Stepped::NoSuch => false,
        Stepped::Done | Stepped::Refused(_) => true,
    }
}
