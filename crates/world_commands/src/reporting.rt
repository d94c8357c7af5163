//! What a world has come to, as it is reported.

ghost use Rattle.std.specs.Prelude.{◌≡◌, ◌++◌, false, ℕ, List, IfOk, OnOk, length, slice_get, Some};
ghost use Rattle.byzantine_world.specs.Codes.{ShowsWorld};
ghost use Rattle.row_check.specs.Checksum.{is_luhn};
ghost use Rattle.world_commands.specs.Shown.{AreOfSites, Audits, CountsDoubled, IsShown};
ghost use Rattle.world_rules.specs.Worlds.{SiteData, WorldData};

use byzantine_world::{World, audit_world};
use std::alloc::{AllocError, Global};
use world_report::{push_doubled, push_replicas, push_sessions};

/// Adds what the replicas and the sessions of a world have come to, and, where that is asked for, how many one-time
/// keys signed twice among what each replica holds.
pub(crate) fn push_world(
    alloc: Global,
    world: &World,
    audit: bool,
    report: &mut Vec<u8>,
) -> Result<(), AllocError>
    requires { world.now.is_over ≡ false }
    ensures { OnOk result ((w : WorldData) → ShowsWorld world.now w → (text : List ℕ) × IsShown is_luhn audit w text
        × (report.new.items ≡ report.old.items ++ text)) }
{
    let replicas = world.replicas()?;
    let sessions = world.sessions()?;
    push_replicas(report, replicas.as_slice())?;
    push_sessions(report, sessions.as_slice())?;
    push_audit(alloc, world, audit, replicas.len(), report)?;
    Ok(())
}

/// Adds how many one-time keys signed twice among what each replica holds, of which there are so many, where that is
/// asked for.
fn push_audit(
    alloc: Global,
    world: &World,
    audit: bool,
    count: usize,
    report: &mut Vec<u8>,
) -> Result<(), AllocError>
    requires { count ≡ length world.now.sites }
    ensures { OnOk result ((text : List ℕ) × Audits audit world.now.sites text
        × (report.new.items ≡ report.old.items ++ text)) }
{
    if !audit {
        return Ok(());
    }
    let counts = doubled_counts(alloc, world, count)?;
    push_doubled(report, counts.as_slice())?;
    Ok(())
}

/// How many one-time keys signed twice among what each replica holds, in their order. One that is down has `None`.
fn doubled_counts(
    alloc: Global,
    world: &World,
    count: usize,
) -> Result<Vec<Option<u64>>, AllocError>
    requires { count ≡ length world.now.sites }
    ensures { IfOk result (λ counts. AreOfSites CountsDoubled world.now.sites counts.items) }
{
    let mut counts = Vec::new(alloc);
    'replicas: for number in 0..count {
        counts.push(doubled_count(alloc, world, number)?)?;
    }
    Ok(counts)
}

/// The same of the replica with this number. There are few replicas, so each number is one of 32 bits.
fn doubled_count(alloc: Global, world: &World, number: usize) -> Result<Option<u64>, AllocError>
    ensures { IfOk result (λ count. (site : SiteData) → slice_get world.now.sites number ≡ Some site
        → CountsDoubled site count) }
{
    let Ok(number) = u32::try_from(number) else {
        return Err(AllocError);
    };
    match audit_world(alloc, world, number)? {
        Some(entries) => Ok(Some(entries.len() as u64)),
        None => Ok(None),
    }
}
