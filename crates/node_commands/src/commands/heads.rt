ghost use Rattle.std.specs.Prelude.{IfOk, List, OnOk, map, ◌++◌, ◌≡◌};
ghost use Rattle.update_codec.specs.Parts.{entry_of};
ghost use Rattle.update_model.specs.Graph.{AreHeads};
ghost use Rattle.update_model.specs.declared.update_id.UpdateId.{UpdateId as Id};
ghost use Rattle.node_commands.specs.Heads.{HeadsAnswer};
ghost use Rattle.outcomes.specs.Outcome.{ComesTo};
ghost use Rattle.outcomes.specs.Texts.{line_of, printed};

use crate::heads::heads_of;
use crate::stream::read_graph;
use bec_bytes::Source;
use bec_disk::Disk;
use outcomes::Refusal;
use replica::Replica;
use row_check::Luhn;
use std::alloc::{AllocError, Global};
use update_model::UpdateId;

/// The heads of a stream, as they are printed.
pub fn stream_heads<S: Source>(alloc: Global, input: &mut S) -> Result<Vec<u8>, Refusal>
    ensures { ComesTo HeadsAnswer (S.left input.old) (S.left input.new) (S.faults input.old) (S.faults input.new) result }
{
    let graph = read_graph(alloc, &None, input)?;
    let heads = heads_of(alloc, &graph)?.list(alloc)?;
    let text = heads_text(alloc, &heads)?;
    Ok(text)
}

/// The heads of a store, as they are printed.
pub fn replica_heads<D: Disk>(
    alloc: Global,
    replica: &Replica<D, Luhn, Luhn>,
) -> Result<Vec<u8>, AllocError>
    ensures { IfOk result (λ text. (heads : List Id) × AreHeads (map entry_of replica.now.history.members) heads
        × (text.items ≡ printed heads)) }
{
    let heads = replica.heads(alloc)?;
    let text = heads_text(alloc, &heads)?;
    Ok(text)
}

/// The ids, one per line in lower-case hexadecimal.
fn heads_text(alloc: Global, heads: &[UpdateId]) -> Result<Vec<u8>, AllocError>
    ensures { IfOk result (λ text. text.items ≡ printed heads.now) }
{
    let mut text = Vec::new(alloc);
    for id in heads {
        push_line(&mut text, id)?;
    }
    Ok(text)
}

/// Adds an id in lower-case hexadecimal, on a line of its own.
fn push_line(text: &mut Vec<u8>, id: &UpdateId) -> Result<(), AllocError>
    ensures { OnOk result (text.new.items ≡ text.old.items ++ line_of id.now) }
{
    let mut line = [0u8; 64];
    let _ = hex::encode_to_slice(id.0, &mut line);
    text.extend_from_slice(&line)?;
    text.push(b'\n')?;
    Ok(())
}
