//! Which records of a disk are a closed list under a rule, and cutting what stands behind them.

ghost use Rattle.std.specs.Prelude.{◌≡◌, ◌≤◌, ◌<◌, ◌+◌, ◌^◌, ◌++◌, ◌∷◌, [], All, IsTrue, IfOk, IsErrOf, OnErr, length};
ghost use Rattle.bec_bytes.specs.Causes.{Rose};
ghost use Rattle.bec_bytes.specs.Framed.{stream_of};
ghost use Rattle.bec_disk.specs.Disk.{IsSettled};
ghost use Rattle.update_log.specs.Log.{IsClean, KeepsLogset};
ghost use Rattle.update_log.specs.Logset.{IsLogset};
ghost use Rattle.update_check.specs.Members.{AreMembers};
ghost use Rattle.record_check.specs.Records.{bytes_of};
ghost use Rattle.update_check.specs.Signed.{IsChecked};
ghost use Rattle.update_log.specs.Reading.{HasNext, IsOver, StopsAt, TakesOne, TakesPart, count_left, left_of};

use crate::part::next_part;
use crate::piece_reader::{PIECE, PieceReader};
use bec_disk::{Disk, DiskError, cut_synced};
use hash_graph::{Added, Graph, Refusal};
use record_check::Verifier;
use std::alloc::{AllocError, Global};
use update_check::Checked;
use update_model::DbRule;

/// What stands on the disk of a log that is opened.
#[derive(Drop)]
pub struct OpenedLog {
    pub graph: Graph<Checked>,
    /// Where the records of the graph's members end.
    pub end: u64,
    /// How many bytes were cut behind them.
    pub dropped: u64,
    /// Room for a piece.
    pub piece: Vec<u8>,
}

/// Takes the records that can be taken, and cuts a disk behind them.
pub fn open_at<V: Verifier, D: Disk>(
    verifier: &V,
    alloc: Global,
    disk: &mut D,
    rule: &DbRule,
) -> Result<OpenedLog, DiskError>
    requires { IsTrue (D.state disk.old).tells → IsSettled (D.state disk.old) }
    ensures members { IfOk result (λ opened. AreMembers rule.now opened.graph) }
    ensures end { IfOk result (λ opened. opened.end ≡ length (stream_of opened.graph)) }
    ensures room { IfOk result (λ opened. length opened.piece.items ≡ PIECE) }
    ensures list { IsTrue (D.state disk.old).tells
        → IfOk result (λ opened. IsLogset rule.now (D.state disk.old).seen opened.graph) }
    ensures seen { IsTrue (D.state disk.old).tells
        → IfOk result (λ opened. (D.state disk.new).seen ≡ stream_of opened.graph) }
    ensures settled { IsTrue (D.state disk.old).tells → IfOk result (λ opened. IsSettled (D.state disk.new)) }
    ensures dropped { IsTrue (D.state disk.old).tells
        → IfOk result (λ opened. length (D.state disk.old).seen ≡ opened.end + opened.dropped) }
    ensures any_moment { KeepsLogset rule.now (D.state disk.old) (D.state disk.new) }
    ensures later { D.faults disk.old ≤ D.faults disk.new }
    ensures failed { IsErrOf result DiskError.DiskFault → Rose (D.faults disk.old) (D.faults disk.new) }
{
    let len = disk.len()?;
    let mut reader = PieceReader::new(alloc, len)?;
    let graph = scan(verifier, alloc, disk, rule, &mut reader)?;
    let end = end_of(&graph);
    let opened = OpenedLog {
        graph,
        end,
        dropped: len - end,
        piece: reader.into_piece(),
    };
    if end == len {
        return Ok(opened);
    }
    cut_synced(disk, end)?;
    Ok(opened)
}

/// How long the records of a graph's members are.
fn end_of(graph: &Graph<Checked>) -> u64
    ensures { result ≡ length (stream_of graph.now) }
{
    4 * u64::from(graph.len()) + graph.byte_len()
}

/// Takes records into a graph up to the first that can't be taken. They are read and checked in parts.
fn scan<V: Verifier, D: Disk>(
    verifier: &V,
    alloc: Global,
    disk: &mut D,
    rule: &DbRule,
    reader: &mut PieceReader,
) -> Result<Graph<Checked>, DiskError>
    requires { IsOver reader.old (D.state disk.old) }
    ensures members { IfOk result (AreMembers rule.now) }
    ensures within { IfOk result (λ graph. length (stream_of graph) ≤ count_left reader.old) }
    ensures stops { IsTrue (D.state disk.old).tells
        → IfOk result (StopsAt rule.now (left_of reader.old (D.state disk.old).seen)) }
    ensures same { D.state disk.new ≡ D.state disk.old }
    ensures later { D.faults disk.old ≤ D.faults disk.new }
    ensures failed { IsErrOf result DiskError.DiskFault → Rose (D.faults disk.old) (D.faults disk.new) }
{
    let mut graph = Graph::new(alloc);
    'parts: loop {
        let records = next_part(alloc, disk, reader)?;
        if records.len() == 0 {
            return Ok(graph);
        }
        if !take_part(verifier, alloc, rule, &mut graph, records)? {
            return Ok(graph);
        }
    }
}

/// Takes the records of a part into the graph, up to the first that can't stand there next, and tells whether these are
/// all.
fn take_part<V: Verifier>(
    verifier: &V,
    alloc: Global,
    rule: &DbRule,
    graph: &mut Graph<Checked>,
    records: Vec<Vec<u8>>,
) -> Result<bool, AllocError>
    requires { AreMembers rule.now graph.old }
    ensures { IfOk result (λ all. TakesPart rule.now graph.old (bytes_of records.items) all graph.new) }
{
    let count = records.len();
    let front = verifier.check_front(alloc, rule, records)?;
    let checked = front.len();
    let all = take_front(rule, graph, front)?;
    Ok(all && checked == count)
}

/// Takes checked updates into the graph, up to the first that can't stand there next, and tells whether these are all.
fn take_front(
    rule: &DbRule,
    graph: &mut Graph<Checked>,
    front: Vec<Checked>,
) -> Result<bool, AllocError>
    requires members { AreMembers rule.now graph.old }
    requires checked { All (IsChecked rule.now) front.items }
    ensures taken { IfOk result (λ all. TakesPart rule.now graph.old front.items all graph.new) }

    // Memory may run out only where one of them could be taken.
    ensures memory { OnErr result (HasNext rule.now graph.old front.items) }
{
    for update in front {
        if !take_update(rule, graph, update)? {
            return Ok(false);
        }
    }
    Ok(true)
}

/// Takes a checked update into the graph, if it can stand there next.
fn take_update(
    _rule: &DbRule,
    graph: &mut Graph<Checked>,
    update: Checked,
) -> Result<bool, AllocError>
    requires members { AreMembers _rule.now graph.old }
    requires checked { IsChecked _rule.now update }
    ensures taken { IfOk result (λ taken. TakesOne _rule.now graph.old update taken graph.new) }

    // Memory may run out only for one that can stand there.
    ensures memory { OnErr result (AreMembers _rule.now (graph.old ++ update ∷ [])) }
{
    match graph.add(update) {
        Ok(Added::New(_position)) => Ok(true),
        Ok(Added::Known(_position)) => Ok(false),
        Err(refused) => match refused.why {
            Refusal::Memory => Err(AllocError),
            _ => Ok(false),
        },
    }
}
