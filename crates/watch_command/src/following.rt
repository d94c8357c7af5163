//! Taking the records of a stream one by one, and telling what they change.

ghost use Rattle.std.specs.Prelude.{◌≡◌, ◌≤◌, ◌<◌, ℕ, IfErr, IfOk, IsTrue, List, OnOk, Some, false};
ghost use Rattle.std.specs.Io.KnownBytes.{Appends};
ghost use Rattle.std.specs.declared.option.Option.{Option as Told};
ghost use Rattle.outcomes.specs.Rules.{nodes_of, rules_of};
ghost use Rattle.live_view.specs.Shown.{RefreshesOn};
ghost use Rattle.live_view.specs.Wishes.{is_at_least};
ghost use Rattle.live_view.specs.declared.change.Change.{Change as Difference};
ghost use Rattle.update_stream.specs.declared.stream.TheConstants.{MAX_RECORDS};
ghost use Rattle.watch_command.specs.Blocks.{told_block};
ghost use Rattle.watch_command.specs.Ending.{stop_of, streams};
ghost use Rattle.watch_command.specs.Steps.{FindsEnd, FollowsOpen, StopsClosing, TakesTurn, moment};
ghost use Rattle.watch_command.specs.Watching.{Closes};

use crate::blocks::{block, closing_block};
use crate::records::{at_end, take_next};
use crate::stop::Stop;
use bec_bytes::{Sink, Source, write_all_of};
use bec_disk::Disk;
use live_view::{AtLeast, LiveView};
use replica::Replica;
use row_check::{Luhn, Native};
use std::alloc::{AllocError, Global};
use update_stream::MAX_RECORDS;

/// Takes the records of a stream into a store one by one, and tells what they change of a view, to the end of the
/// stream or to a stop.
pub(crate) fn follow<D: Disk, S: Source, K: Sink>(
    alloc: Global,
    replica: &mut Replica<D, Luhn, Luhn>,
    view: &mut LiveView<AtLeast, AtLeast>,
    input: &mut S,
    out: &mut K,
) -> Result<(), Stop>
    ensures { FollowsOpen 0 replica.old replica.new view.old (streams S.left S.faults K.held K.faults input.old out.old)
        (streams S.left S.faults K.held K.faults input.new out.new) (stop_of result) }
{
    for count in 0..MAX_RECORDS {
        if !turn(alloc, replica, view, count, input, out)? {
            return close(alloc, replica, view, count, out);
        }
    }
    at_end(input)?;
    close(alloc, replica, view, MAX_RECORDS, out)
}

/// Takes one record more behind so many, and tells what it changes; or answers false, at the end of the stream.
fn turn<D: Disk, S: Source, K: Sink>(
    alloc: Global,
    replica: &mut Replica<D, Luhn, Luhn>,
    view: &mut LiveView<AtLeast, AtLeast>,
    count: u32,
    input: &mut S,
    out: &mut K,
) -> Result<bool, Stop>
    requires { count < MAX_RECORDS }
    ensures taken { IfOk result (λ more. IsTrue more → TakesTurn count replica.old replica.new view.old view.new
        (streams S.left S.faults K.held K.faults input.old out.old)
        (streams S.left S.faults K.held K.faults input.new out.new)) }
    ensures end { IfOk result (λ more. more ≡ false → FindsEnd replica.old replica.new view.old view.new
        (streams S.left S.faults K.held K.faults input.old out.old)
        (streams S.left S.faults K.held K.faults input.new out.new)) }
    ensures stopped { IfErr result (λ stop. FollowsOpen count replica.old replica.new view.old
        (streams S.left S.faults K.held K.faults input.old out.old)
        (streams S.left S.faults K.held K.faults input.new out.new) (Some stop)) }
{
    if !take_next(alloc, replica, count, input)? {
        return Ok(false);
    }
    let text = told(alloc, replica, view, count + 1)?;
    write_all_of(out, &text)?;
    Ok(true)
}

/// The block of what a view hands out at a refresh behind so many records.
fn told<D: Disk>(
    alloc: Global,
    replica: &Replica<D, Luhn, Luhn>,
    view: &mut LiveView<AtLeast, AtLeast>,
    count: u32,
) -> Result<Vec<u8>, AllocError>
    ensures { IfOk result (λ text. (change : Told Difference)
        × RefreshesOn is_at_least (rules_of replica.now.history.schema) (nodes_of replica.now.history.members) view.old
        change view.new × (text.items ≡ told_block change count)) }
{
    let native: Native<Luhn, Luhn> = Native::new(Luhn);
    match view.refresh(alloc, &native, replica.schema(), replica.tables())? {
        None => Ok(Vec::new(alloc)),
        Some(change) => block(alloc, change.went.as_slice(), change.came.as_slice(), count),
    }
}

/// Tells the change that is left behind so many records, at the end of the stream.
fn close<D: Disk, K: Sink>(
    alloc: Global,
    replica: &Replica<D, Luhn, Luhn>,
    view: &mut LiveView<AtLeast, AtLeast>,
    count: u32,
    out: &mut K,
) -> Result<(), Stop>
    ensures told { OnOk result ((text : List ℕ) × Closes replica.now.history.schema count (moment replica.now view.old)
        text × Appends (K.held out.old) (K.held out.new) text) }
    ensures stopped { IfErr result (λ stop. StopsClosing replica.now.history.schema count (moment replica.now view.old)
        (record { held = K.held out.old; faults = K.faults out.old })
        (record { held = K.held out.new; faults = K.faults out.new }) stop) }
    ensures later { K.faults out.old ≤ K.faults out.new }
{
    let text = last_told(alloc, replica, view, count)?;
    write_all_of(out, &text)?;
    Ok(())
}

/// The block of what a view hands out at the end, behind so many records.
fn last_told<D: Disk>(
    alloc: Global,
    replica: &Replica<D, Luhn, Luhn>,
    view: &mut LiveView<AtLeast, AtLeast>,
    count: u32,
) -> Result<Vec<u8>, AllocError>
    ensures { IfOk result (λ text. Closes replica.now.history.schema count (moment replica.now view.old) text.items) }
{
    let native: Native<Luhn, Luhn> = Native::new(Luhn);
    let change = view.flush(alloc, &native, replica.schema(), replica.tables())?;
    closing_block(alloc, change.went.as_slice(), change.came.as_slice(), count)
}
