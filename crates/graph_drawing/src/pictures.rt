//! The text of a picture.

ghost use Rattle.std.specs.Prelude.{◌≡◌, ◌-◌, IfOk};
ghost use Rattle.graph_drawing.specs.Boxes.{omitted};
ghost use Rattle.graph_drawing.specs.Depths.{nodes_of};
ghost use Rattle.graph_drawing.specs.Pictures.{IsPicture, text_in_order};

use crate::boxes::arrange;
use crate::dot::push_dot;
use crate::form::Form;
use crate::limits::MAX_DRAWN;
use crate::placed::Placed;
use crate::sorting::place_in_order;
use crate::svg::push_svg;
use crate::told::Told;
use hash_graph::Graph;
use schema::Schema;
use std::alloc::{AllocError, Global};
use update_check::Checked;

/// Draws a graph, with what is told of its updates.
pub fn draw(
    alloc: Global,
    form: Form,
    schema: &Schema,
    graph: &Graph<Checked>,
    told: &Told,
) -> Result<Vec<u8>, AllocError>
    ensures { IfOk result (λ text. IsPicture form schema.now.tables (nodes_of graph.now) told.now text.items) }
{
    let placed = place_in_order(alloc, graph)?;
    let text = text_in_order(alloc, form, schema, placed.as_slice(), told)?;
    Ok(text)
}

/// How many updates of so many are left out.
pub fn omitted(count: u32) -> usize
    ensures { result ≡ count - MAX_DRAWN }
{
    (count as usize).saturating_sub(MAX_DRAWN)
}

/// The text of updates in order, of which the last ones are drawn.
fn text_in_order(
    alloc: Global,
    form: Form,
    schema: &Schema,
    placed: &[Placed],
    told: &Told,
) -> Result<Vec<u8>, AllocError>
    ensures { IfOk result (λ text. text.items ≡ text_in_order form schema.now.tables told.now placed.now) }
{
    let omitted = placed.len().saturating_sub(MAX_DRAWN);
    let picture = arrange(alloc, &placed[omitted..], told)?;
    let mut text = Vec::new(alloc);
    match form {
        Form::Svg => push_svg(alloc, &mut text, schema, omitted, &picture)?,
        Form::Dot => push_dot(alloc, &mut text, schema, omitted, &picture)?,
    }
    Ok(text)
}
