//! Reading updates, and appending them to a log in batches.

ghost use Rattle.std.specs.Prelude.{◌≡◌, ◌≤◌, ◌<◌, All, false, IsTrue, IfOk, OnOk, length, take};
ghost use Rattle.bec_disk.specs.Disk.{IsSettled};
ghost use Rattle.update_model.specs.Rule.{RuleData};
ghost use Rattle.update_check.specs.Signed.{IsChecked};
ghost use Rattle.update_log.specs.Log.{IsLogOf};
ghost use Rattle.log_bench.specs.Growing.{Grows};

use bec_bytes::{Framed, Sink, Source, read_framed, write_all_of};
use bec_disk::{Disk, DiskError, DiskFault};
use hash_graph::Graph;
use record_check::Verifier;
use std::alloc::Global;
use update_check::{Checked, check};
use update_codec::UPDATE_LIMIT;
use update_log::{Log, LogFault};
use update_model::{DbRule, KeyList, MAX_MEMBERS};

/// Opens a log and tells how many updates it holds; where a batch's size is given, it reads updates before, and appends
/// those that it does not hold.
pub fn run<V: Verifier, D: Disk + Drop, S: Source, K: Sink>(
    verifier: &V,
    alloc: Global,
    disk: D,
    batch: Option<u32>,
    input: &mut S,
    output: &mut K,
) -> anyhow::Result<()>
    requires { IsTrue (D.state disk).tells → IsSettled (D.state disk) }
{
    let rule = DbRule {
        database: [0; 32],
        authors: KeyList::from_vec(Vec::new(alloc)),
    };
    let (mut log, mut graph) = opened(verifier, alloc, disk, &rule)?;
    let held = graph.len();
    let Some(size) = batch else {
        return tell(alloc, output, held);
    };
    read_all(alloc, &rule, input, &mut graph)?;
    tell(alloc, output, held)?;
    append_all(alloc, &mut log, &graph, held, size.max(1), output)
}

/// A log that is sure, and the graph of the updates that it holds.
fn opened<V: Verifier, D: Disk + Drop>(
    verifier: &V,
    alloc: Global,
    disk: D,
    rule: &DbRule,
) -> Result<(Log<D>, Graph<Checked>), DiskError>
    requires { IsTrue (D.state disk).tells → IsSettled (D.state disk) }
    ensures checked { IfOk result (λ opened. All (IsChecked rule.now) opened.1) }
    ensures log { IfOk result (λ opened. IsLogOf opened.1 opened.0) }
    ensures sure { IfOk result (λ opened. opened.0.is_unsure ≡ false) }
{
    match Log::open_log(verifier, alloc, disk, rule) {
        Ok(opened) => Ok(opened),
        Err(LogFault { why, .. }) => Err(why),
    }
}

/// Reads records up to the end of the input, and adds their updates to those that are held.
fn read_all<S: Source>(
    alloc: Global,
    rule: &DbRule,
    input: &mut S,
    graph: &mut Graph<Checked>,
) -> anyhow::Result<()>
    requires { All (IsChecked rule.now) graph.old }
    ensures { OnOk result (Grows rule.now graph.old graph.new) }
{
    'records: for _ in 0..MAX_MEMBERS {
        match read_framed(alloc, input, UPDATE_LIMIT)? {
            Framed::End => return Ok(()),
            Framed::Whole(bytes) => add(alloc, rule, graph, bytes)?,
            _ => anyhow::bail!("a record is cut short or too long"),
        }
    }
    Ok(())
}

/// Adds an update to those that are held.
fn add(
    alloc: Global,
    rule: &DbRule,
    graph: &mut Graph<Checked>,
    bytes: Vec<u8>,
) -> anyhow::Result<()>
    requires { All (IsChecked rule.now) graph.old }
    ensures { OnOk result (Grows rule.now graph.old graph.new) }
{
    let checked = check(alloc, rule, bytes)?;
    match graph.add(checked) {
        Ok(_added) => Ok(()),
        Err(refused) => Err(refused.why)?,
    }
}

/// Appends the updates from a position on in batches, and tells after each how many the log holds.
fn append_all<D: Disk, K: Sink>(
    alloc: Global,
    log: &mut Log<D>,
    graph: &Graph<Checked>,
    held: u32,
    size: u32,
    output: &mut K,
) -> anyhow::Result<()>
    requires sure { log.old.is_unsure ≡ false }
    requires log { IsLogOf (take held graph.now) log.old }
    requires checked { (rule : RuleData) × All (IsChecked rule) graph.now }
    requires low { held ≤ length graph.now }
    requires some { 0 < size }
    ensures { OnOk result (IsLogOf graph.now log.new) }
{
    let mut end = held;
    'batches: while end < graph.len() {
        end = append_next(log, graph, end, size)?;
        tell(alloc, output, end)?;
    }
    Ok(())
}

/// Appends the next batch, and answers how many updates the log holds then.
fn append_next<D: Disk>(
    log: &mut Log<D>,
    graph: &Graph<Checked>,
    held: u32,
    size: u32,
) -> Result<u32, DiskFault>
    requires sure { log.old.is_unsure ≡ false }
    requires log { IsLogOf (take held graph.now) log.old }
    requires checked { (rule : RuleData) × All (IsChecked rule) graph.now }
    requires low { held < length graph.now }
    requires some { 0 < size }
    ensures more { IfOk result (λ end. held < end) }
    ensures within { IfOk result (λ end. end ≤ length graph.now) }
    ensures log { IfOk result (λ end. IsLogOf (take end graph.now) log.new) }
    ensures sure { OnOk result (log.new.is_unsure ≡ false) }
{
    let end = graph.len().min(held.saturating_add(size));
    let count = (end - held) as usize;
    log.append(&graph.tail(held)[..count])?;
    Ok(end)
}

/// Prints a number and sends it off.
fn tell<K: Sink>(alloc: Global, output: &mut K, number: u32) -> anyhow::Result<()> {
    let line = format!(in alloc; "{number}\n")?;
    write_all_of(output, line.as_bytes())?;
    Ok(())
}
