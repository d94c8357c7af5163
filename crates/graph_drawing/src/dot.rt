//! A picture as DOT.

ghost use Rattle.std.specs.Prelude.{◌≡◌, ◌++◌, ◌∷◌, [], OnOk, codes};
ghost use Rattle.std.specs.List.{flat_map};
ghost use Rattle.graph_drawing.specs.Dot.{dot_begin, dot_edge_to, dot_edges, dot_front, dot_look, dot_node, dot_text};
ghost use Rattle.graph_drawing.specs.Dot.{head_style, named, void_style};
ghost use Rattle.graph_drawing.specs.Svg.{box_of};

use crate::boxes::Arrangement;
use crate::form::Form;
use crate::labels::push_box_lines;
use crate::spot::Spot;
use crate::svg::{box_of, push_omitted};
use crate::words::push_id;
use schema::Schema;
use std::alloc::{AllocError, Global};
use update_model::UpdateId;

/// Adds a picture as DOT, where so many updates are left out.
pub(crate) fn push_dot(
    alloc: Global,
    out: &mut Vec<u8>,
    schema: &Schema,
    omitted: usize,
    picture: &Arrangement,
) -> Result<(), AllocError>
    ensures { OnOk result (out.new.items ≡ out.old.items ++ dot_text schema.now.tables omitted
        (record { spots = picture.now.spots.items; width = picture.now.width })) }
{
    let spots = picture.spots.as_slice();
    push_front(out, omitted)?;
    push_nodes(alloc, out, schema, spots)?;
    push_all_edges(out, spots)?;
    out.extend_from_slice(b"}\n")
}

/// Adds all that stands above the nodes.
#[tactic(auto, unfolding(crate::specs::Dot::dot_front))]
fn push_front(out: &mut Vec<u8>, omitted: usize) -> Result<(), AllocError>
    ensures { OnOk result (out.new.items ≡ out.old.items ++ dot_front omitted) }
{
    out.extend_from_slice(dot_begin())?;
    push_omitted(out, omitted)?;
    out.extend_from_slice(b">\n")
}

/// What the text begins with.
#[tactic(auto, unfolding(crate::specs::Dot::dot_begin))]
fn dot_begin() -> &'static [u8]
    ensures { result.now ≡ dot_begin }
{
    b"digraph updates {\nrankdir=BT\nnode [shape=box, fontname=monospace]\nlabel=<Each box is an update."
}

/// Adds all nodes.
fn push_nodes(
    alloc: Global,
    out: &mut Vec<u8>,
    schema: &Schema,
    spots: &[Spot],
) -> Result<(), AllocError>
    ensures { OnOk result (out.new.items ≡ out.old.items ++ flat_map (dot_node schema.now.tables) spots.now) }
{
    for spot in spots {
        push_node(alloc, out, schema, spot)?;
    }
    Ok(())
}

/// Adds a node.
#[tactic(auto, unfolding(crate::specs::Dot::dot_node))]
fn push_node(
    alloc: Global,
    out: &mut Vec<u8>,
    schema: &Schema,
    spot: &Spot,
) -> Result<(), AllocError>
    ensures { OnOk result (out.new.items ≡ out.old.items ++ dot_node schema.now.tables spot.now) }
{
    push_named(out, &spot.node.id)?;
    out.extend_from_slice(b" [label=<")?;
    push_box_lines(alloc, out, Form::Dot, schema, spot)?;
    push_look(out, spot)
}

/// Adds how a node looks.
#[tactic(auto, unfolding(crate::specs::Dot::dot_look))]
fn push_look(out: &mut Vec<u8>, spot: &Spot) -> Result<(), AllocError>
    ensures { OnOk result (out.new.items ≡ out.old.items ++ dot_look spot.now) }
{
    out.extend_from_slice(b">")?;
    out.extend_from_slice(head_style(spot.head))?;
    out.extend_from_slice(void_style(spot.reason))?;
    out.extend_from_slice(b"]\n")
}

/// How the node of a head looks.
fn head_style(head: bool) -> &'static [u8]
    ensures { result.now ≡ head_style head }
{
    if head { b", penwidth=3" } else { b"" }
}

/// How the node of an update that does nothing looks.
fn void_style(reason: Option<u8>) -> &'static [u8]
    ensures { result.now ≡ void_style reason }
{
    match reason {
        Some(_) => b", style=dashed",
        None => b"",
    }
}

/// Adds an id between quotes.
#[tactic(auto, unfolding(crate::specs::Dot::named))]
fn push_named(out: &mut Vec<u8>, id: &UpdateId) -> Result<(), AllocError>
    ensures { OnOk result (out.new.items ≡ out.old.items ++ named id.now) }
{
    out.push(b'"')?;
    push_id(out, id)?;
    out.push(b'"')?;
    Ok(())
}

/// Adds the lines from all nodes to those of their predecessors.
fn push_all_edges(out: &mut Vec<u8>, spots: &[Spot]) -> Result<(), AllocError>
    ensures { OnOk result (out.new.items ≡ out.old.items ++ flat_map (dot_edges spots.now) spots.now) }
{
    for spot in spots {
        push_edges(out, spots, spot)?;
    }
    Ok(())
}

/// Adds the lines from a node to those of its predecessors.
fn push_edges(out: &mut Vec<u8>, spots: &[Spot], spot: &Spot) -> Result<(), AllocError>
    ensures { OnOk result (out.new.items ≡ out.old.items ++ dot_edges spots.now spot.now) }
{
    for id in spot.node.preds.as_slice() {
        push_edge_of_id(out, spots, spot, id)?;
    }
    Ok(())
}

/// Adds the line from a node to the one with this id, if it is drawn.
fn push_edge_of_id(
    out: &mut Vec<u8>,
    spots: &[Spot],
    spot: &Spot,
    id: &UpdateId,
) -> Result<(), AllocError>
    ensures { OnOk result (out.new.items ≡ out.old.items ++ dot_edge_to spot.now (box_of spots.now id.now)) }
{
    let Some(other) = box_of(spots, id) else {
        return Ok(());
    };
    push_named(out, &spot.node.id)?;
    out.extend_from_slice(b" -> ")?;
    push_named(out, &other.node.id)?;
    out.push(b'\n')?;
    Ok(())
}
