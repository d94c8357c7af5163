//! The counts of a demonstration.

ghost use Rattle.std.specs.Prelude.{◌≡◌, ◌++◌, IfOk, OnOk};
ghost use Rattle.demonstration.specs.Demos.{IsCounted, IsDemo};
ghost use Rattle.demonstration.specs.declared.counts.DemoCounts.{DemoCounts as Counted};
ghost use Rattle.row_check.specs.Checksum.{is_luhn};
ghost use Rattle.world_commands.specs.Demos.{count_line, counts_text};

use demonstration::demonstrate;
use itoa::Buffer;
use std::alloc::{AllocError, Global};

/// What the replicas of a demonstration by this number come to that make so many updates, a line each.
pub fn run_demo(alloc: Global, number: u64, count: u32) -> Result<Vec<u8>, AllocError>
    ensures { IfOk result (λ text. (counts : Counted) × IsCounted is_luhn counts × IsDemo number count counts
        × (text.items ≡ counts_text counts)) }
{
    let counts = demonstrate(alloc, number, count)?;
    let mut text = Vec::new(alloc);
    push_count(&mut text, b"updates ", counts.updates)?;
    push_count(&mut text, b"heads ", counts.heads)?;
    push_count(&mut text, b"list ", counts.lists)?;
    push_count(&mut text, b"task ", counts.tasks)?;
    push_count(&mut text, b"void ", counts.voids)?;
    Ok(text)
}

/// Adds a count on a line of its own.
fn push_count(text: &mut Vec<u8>, words: &[u8], count: u64) -> Result<(), AllocError>
    ensures { OnOk result (text.new.items ≡ text.old.items ++ count_line words.now count) }
{
    let mut buffer = Buffer::new();
    text.extend_from_slice(words)?;
    text.extend_from_slice(buffer.format(count).as_bytes())?;
    text.extend_from_slice(b"\n")
}
