//! The notes of the updates of a graph.

ghost use Rattle.std.specs.Prelude.{◌≡◌, IfOk, filter, map};
ghost use Rattle.node_commands.specs.Notes.{is_noted};
ghost use Rattle.look_commands.specs.Telling.{AreNotesOf, note_line_of};

use graph_drawing::NoteLine;
use hash_graph::Graph;
use node_commands::{in_order, note_of};
use std::alloc::{AllocError, Global};
use text_words::ByteString;
use update_check::Checked;
use update_model::Member;

/// The notes of a graph's updates that are not empty, in rising order of ids.
pub(crate) fn notes_of(alloc: Global, graph: &Graph<Checked>) -> Result<Vec<NoteLine>, AllocError>
    ensures { IfOk result (λ notes. AreNotesOf graph.now notes.items) }
{
    graph.len();
    let arrived = noted_of(alloc, graph)?;
    let noted = in_order(arrived);
    let lines = lines_of(alloc, &noted)?;
    Ok(lines)
}

/// The updates of a graph whose note is not empty, in the order of arrival.
fn noted_of(alloc: Global, graph: &Graph<Checked>) -> Result<Vec<&Checked>, AllocError>
    ensures { IfOk result (λ noted. map (λ update. update.now) noted.items ≡ filter is_noted graph.now) }
{
    let mut noted = Vec::new(alloc);
    for position in 0..graph.len() {
        let update = graph.at(position);
        if !note_of(update).is_empty() {
            noted.push(update)?;
        }
    }
    Ok(noted)
}

/// The notes of updates, with their ids.
fn lines_of(alloc: Global, noted: &[&Checked]) -> Result<Vec<NoteLine>, AllocError>
    ensures { IfOk result (λ lines. lines.items ≡ map note_line_of (map (λ update. update.now) noted.now)) }
{
    let mut lines = Vec::new(alloc);
    for update in noted {
        let line = line_of(alloc, update)?;
        lines.push(line)?;
    }
    Ok(lines)
}

/// The note of an update, with its id.
fn line_of(alloc: Global, update: &Checked) -> Result<NoteLine, AllocError>
    ensures { IfOk result (λ line. line ≡ note_line_of update.now) }
{
    Ok(NoteLine {
        id: update.id(),
        text: ByteString::from_vec(Vec::from_slice(alloc, note_of(update))?),
    })
}
