//! The records of updates, as `bec export --updates` prints them.

ghost use Rattle.std.specs.Prelude.{◌≡◌, ◌++◌, IfOk, OnOk};
ghost use Rattle.bec_bytes.specs.Framed.{framed, stream_of};

use hash_graph::Graph;
use std::alloc::{AllocError, Global};
use update_check::Checked;
use update_model::Member;

/// The records of a graph's updates. None stands before a predecessor.
pub(crate) fn records_of(alloc: Global, graph: &Graph<Checked>) -> Result<Vec<u8>, AllocError>
    ensures { IfOk result (λ records. records.items ≡ stream_of graph.now) }
{
    let mut records = Vec::new(alloc);
    for position in 0..graph.len() {
        let update = graph.at(position);
        push_record(&mut records, update)?;
    }
    Ok(records)
}

/// Adds the record of an update: four bytes of length, and its spelling.
fn push_record(records: &mut Vec<u8>, update: &Checked) -> Result<(), AllocError>
    ensures { OnOk result (records.new.items ≡ records.old.items ++ framed update.now) }
{
    update.author(); // short, as what is signed is
    let bytes = update.bytes();
    let size = bytes.len() as u32;
    records.extend_from_slice(&size.to_be_bytes())?;
    records.extend_from_slice(bytes)?;
    Ok(())
}
