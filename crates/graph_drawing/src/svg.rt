//! A picture as SVG.

ghost use Rattle.std.specs.Prelude.{◌≡◌, ◌++◌, ◌∷◌, [], OnOk, IfNone, IfSome, option_copied, codes};
ghost use Rattle.std.specs.List.{flat_map};
ghost use Rattle.graph_drawing.specs.Svg.{across, box_begin, box_end, box_of, box_text, down, drawn_boxes, edge};
ghost use Rattle.graph_drawing.specs.Svg.{edge_to, edges, first_depth, front, head_look, last_depth, legend_begin};
ghost use Rattle.graph_drawing.specs.Svg.{legend_end, look, omitted_words, opening, place, point, style_text};
ghost use Rattle.graph_drawing.specs.Svg.{svg_begin, svg_text, void_look};

use crate::boxes::Arrangement;
use crate::form::Form;
use crate::ids::same_id;
use crate::labels::push_box_lines;
use crate::limits::{BOX_HEIGHT, CURVE, DOWN, HALF_WIDTH, LEFT, RIGHT, TOP};
use crate::spot::Spot;
use crate::words::{push_around, push_number};
use schema::Schema;
use std::alloc::{AllocError, Global};
use update_model::UpdateId;

/// Adds a picture as SVG, where so many updates are left out.
pub(crate) fn push_svg(
    alloc: Global,
    out: &mut Vec<u8>,
    schema: &Schema,
    omitted: usize,
    picture: &Arrangement,
) -> Result<(), AllocError>
    ensures { OnOk result (out.new.items ≡ out.old.items ++ svg_text schema.now.tables omitted
        (record { spots = picture.now.spots.items; width = picture.now.width })) }
{
    let spots = picture.spots.as_slice();
    let height = down(first_depth(spots), last_depth(spots)) + DOWN;
    push_front(out, across(picture.width), height, omitted)?;
    push_drawn_boxes(alloc, out, schema, spots)
}

/// Adds all that stands above the lines and the boxes.
#[tactic(auto, unfolding(crate::specs::Svg::front))]
fn push_front(out: &mut Vec<u8>, width: u64, height: u64, omitted: usize) -> Result<(), AllocError>
    ensures { OnOk result (out.new.items ≡ out.old.items ++ front width height omitted) }
{
    push_opening(out, width, height)?;
    push_style(out)?;
    out.extend_from_slice(legend_begin())?;
    push_omitted(out, omitted)?;
    out.extend_from_slice(legend_end())
}

/// Adds the lines, and the boxes above them.
#[tactic(auto, unfolding(crate::specs::Svg::drawn_boxes))]
fn push_drawn_boxes(
    alloc: Global,
    out: &mut Vec<u8>,
    schema: &Schema,
    spots: &[Spot],
) -> Result<(), AllocError>
    ensures { OnOk result (out.new.items ≡ out.old.items ++ drawn_boxes schema.now.tables spots.now) }
{
    push_all_edges(out, spots)?;
    push_boxes(alloc, out, schema, spots)?;
    out.extend_from_slice(b"</svg>\n")
}

/// Where a column begins.
fn across(column: u32) -> u64
    ensures { result ≡ across column }
{
    u64::from(column) * RIGHT + LEFT
}

/// Where a row begins.
fn down(least: u32, depth: u32) -> u64
    ensures { result ≡ down least depth }
{
    u64::from(depth.saturating_sub(least)) * DOWN + TOP
}

/// The depth of the first box.
fn first_depth(spots: &[Spot]) -> u32
    ensures { result ≡ first_depth spots.now }
{
    match spots {
        [] => 0,
        [spot, ..] => spot.depth,
    }
}

/// The depth of the last box.
fn last_depth(spots: &[Spot]) -> u32
    ensures { result ≡ last_depth spots.now }
{
    let mut depth = 0;
    for spot in spots {
        depth = spot.depth;
    }
    depth
}

/// Adds the size of the picture.
#[tactic(auto, unfolding(crate::specs::Svg::opening))]
fn push_opening(out: &mut Vec<u8>, width: u64, height: u64) -> Result<(), AllocError>
    ensures { OnOk result (out.new.items ≡ out.old.items ++ opening width height) }
{
    out.extend_from_slice(svg_begin())?;
    push_number(out, width)?;
    out.extend_from_slice(b"' height='")?;
    push_number(out, height)?;
    out.extend_from_slice(b"'>\n")
}

/// What the picture begins with.
#[tactic(auto, unfolding(crate::specs::Svg::svg_begin))]
fn svg_begin() -> &'static [u8]
    ensures { result.now ≡ svg_begin }
{
    b"<svg xmlns='http://www.w3.org/2000/svg' width='"
}

/// Adds the looks of all that is drawn.
#[tactic(auto, unfolding(crate::specs::Svg::style_text))]
fn push_style(out: &mut Vec<u8>) -> Result<(), AllocError>
    ensures { OnOk result (out.new.items ≡ out.old.items ++ style_text) }
{
    out.extend_from_slice(
        b"<style>text{font:12px monospace;fill:#222}rect{fill:#fff;stroke:#667}path{fill:none;stroke:#99a}\n",
    )?;
    out.extend_from_slice(b".c0 rect{fill:#e8f1fb}.c1 rect{fill:#fdf1dd}.c2 rect{fill:#e6f5e6}\n")?;
    out.extend_from_slice(b".c3 rect{fill:#fbe8ee}.c4 rect{fill:#efe9fa}.c5 rect{fill:#eef0d8}\n")?;
    out.extend_from_slice(
        b".head rect{stroke:#1a5fb4;stroke-width:3}.void rect{stroke-dasharray:7 5;fill:#fafafa}.void text{fill:#778}</style>\n",
    )
}

/// What the picture shows.
#[tactic(auto, unfolding(crate::specs::Svg::legend_begin))]
fn legend_begin() -> &'static [u8]
    ensures { result.now ≡ legend_begin }
{
    b"<text x='40' y='24'>Each box is an update, below its predecessors: its id, the end of its author's key, and what it does.</text>\n<text x='40' y='42'>A column is one author's. Bold blue: a head. Dashed: void, it does nothing."
}

/// What ends the legend.
#[tactic(auto, unfolding(crate::specs::Svg::legend_end))]
fn legend_end() -> &'static [u8]
    ensures { result.now ≡ legend_end }
{
    b"</text>\n"
}

/// Adds that so many updates are left out, if any are.
#[tactic(auto, unfolding(crate::specs::Svg::omitted_words))]
pub(crate) fn push_omitted(out: &mut Vec<u8>, omitted: usize) -> Result<(), AllocError>
    ensures { OnOk result (out.new.items ≡ out.old.items ++ omitted_words omitted) }
{
    if omitted == 0 {
        return Ok(());
    }
    push_around(
        out,
        b" Only the newest are drawn: ",
        omitted as u64,
        b" older ones are left out.",
    )
}

/// Adds the lines from all boxes to those of their predecessors.
fn push_all_edges(out: &mut Vec<u8>, spots: &[Spot]) -> Result<(), AllocError>
    ensures { OnOk result (out.new.items ≡ out.old.items ++ flat_map (edges spots.now) spots.now) }
{
    for spot in spots {
        push_edges(out, spots, spot)?;
    }
    Ok(())
}

/// Adds the lines from a box to those of its predecessors.
fn push_edges(out: &mut Vec<u8>, spots: &[Spot], spot: &Spot) -> Result<(), AllocError>
    ensures { OnOk result (out.new.items ≡ out.old.items ++ edges spots.now spot.now) }
{
    for id in spot.node.preds.as_slice() {
        push_edge_of_id(out, spots, spot, id)?;
    }
    Ok(())
}

/// Adds the line from a box to that of the update with this id, if it is drawn.
fn push_edge_of_id(
    out: &mut Vec<u8>,
    spots: &[Spot],
    spot: &Spot,
    id: &UpdateId,
) -> Result<(), AllocError>
    ensures { OnOk result (out.new.items ≡ out.old.items ++ edge_to (first_depth spots.now) spot.now
        (box_of spots.now id.now)) }
{
    match box_of(spots, id) {
        Some(other) => push_edge(out, first_depth(spots), spot, other),
        None => Ok(()),
    }
}

/// The box of the update with this id, if it is drawn.
pub(crate) fn box_of<'a>(spots: &'a [Spot], id: &UpdateId) -> Option<&'a Spot>
    ensures { option_copied result ≡ box_of spots.now id.now }
{
    spots.iter().find(|spot| same_id(&spot.node.id, id))
}

/// Adds the line from a box up to another.
fn push_edge(out: &mut Vec<u8>, least: u32, spot: &Spot, other: &Spot) -> Result<(), AllocError>
    ensures { OnOk result (out.new.items ≡ out.old.items ++ edge least spot.now other.now) }
{
    let from = across(spot.column) + HALF_WIDTH;
    let to = across(other.column) + HALF_WIDTH;
    let low = down(least, spot.depth);
    let high = down(least, other.depth) + BOX_HEIGHT;
    push_point(out, b"<path d='M", from, low)?;
    push_point(out, b" C", from, low - CURVE)?;
    push_point(out, b" ", to, high + CURVE)?;
    push_point(out, b" ", to, high)?;
    out.extend_from_slice(b"'/>\n")
}

/// Adds a text, and a point behind it.
fn push_point(out: &mut Vec<u8>, before: &[u8], x: u64, y: u64) -> Result<(), AllocError>
    ensures { OnOk result (out.new.items ≡ out.old.items ++ point before.now x y) }
{
    out.extend_from_slice(before)?;
    push_number(out, x)?;
    out.extend_from_slice(b",")?;
    push_number(out, y)
}

/// Adds all boxes.
fn push_boxes(
    alloc: Global,
    out: &mut Vec<u8>,
    schema: &Schema,
    spots: &[Spot],
) -> Result<(), AllocError>
    ensures { OnOk result (out.new.items ≡ out.old.items ++ flat_map
        (box_text schema.now.tables (first_depth spots.now)) spots.now) }
{
    for spot in spots {
        push_box(alloc, out, schema, first_depth(spots), spot)?;
    }
    Ok(())
}

/// Adds a box.
#[tactic(auto, unfolding(crate::specs::Svg::box_text))]
fn push_box(
    alloc: Global,
    out: &mut Vec<u8>,
    schema: &Schema,
    least: u32,
    spot: &Spot,
) -> Result<(), AllocError>
    ensures { OnOk result (out.new.items ≡ out.old.items ++ box_text schema.now.tables least spot.now) }
{
    push_place(out, least, spot)?;
    push_look(out, spot)?;
    out.extend_from_slice(box_begin())?;
    push_box_lines(alloc, out, Form::Svg, schema, spot)?;
    out.extend_from_slice(box_end())
}

/// Adds where a box stands.
#[tactic(auto, unfolding(crate::specs::Svg::place))]
fn push_place(out: &mut Vec<u8>, least: u32, spot: &Spot) -> Result<(), AllocError>
    ensures { OnOk result (out.new.items ≡ out.old.items ++ place least spot.now) }
{
    push_point(
        out,
        b"<g transform='translate(",
        across(spot.column),
        down(least, spot.depth),
    )
}

/// What stands before the lines of a box.
#[tactic(auto, unfolding(crate::specs::Svg::box_begin))]
fn box_begin() -> &'static [u8]
    ensures { result.now ≡ box_begin }
{
    b"'><rect width='296' height='124' rx='8'/><text x='12' y='6'>"
}

/// What stands behind the lines of a box.
#[tactic(auto, unfolding(crate::specs::Svg::box_end))]
fn box_end() -> &'static [u8]
    ensures { result.now ≡ box_end }
{
    b"</text></g>\n"
}

/// Adds how a box looks.
#[tactic(auto, unfolding(crate::specs::Svg::look))]
fn push_look(out: &mut Vec<u8>, spot: &Spot) -> Result<(), AllocError>
    ensures { OnOk result (out.new.items ≡ out.old.items ++ look spot.now) }
{
    out.extend_from_slice(b")' class='c")?;
    push_number(out, u64::from(spot.column % 6))?;
    out.extend_from_slice(head_look(spot.head))?;
    out.extend_from_slice(void_look(spot.reason))
}

/// How the box of a head looks.
fn head_look(head: bool) -> &'static [u8]
    ensures { result.now ≡ head_look head }
{
    if head { b" head" } else { b"" }
}

/// How the box of an update that does nothing looks.
fn void_look(reason: Option<u8>) -> &'static [u8]
    ensures { result.now ≡ void_look reason }
{
    match reason {
        Some(_) => b" void",
        None => b"",
    }
}
