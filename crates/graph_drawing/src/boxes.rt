//! The boxes of updates, and their columns.

ghost use Rattle.std.specs.Prelude.{◌≡◌, ◌≤◌, IfOk, length};
ghost use Rattle.graph_drawing.specs.Boxes.{arranged, column_of, is_beside, is_in_lane, lane_of, spot_of};

use crate::ids::{copy_note, is_head, reason_of, same_author};
use crate::limits::MAX_DRAWN;
use crate::placed::Placed;
use crate::spot::Spot;
use crate::told::Told;
use std::alloc::{AllocError, Global};
use update_model::AuthorKey;

/// Boxes, and how many columns they have.
#[derive(Drop)]
pub(crate) struct Arrangement {
    /// The boxes in order.
    pub spots: Vec<Spot>,
    /// How many columns there are.
    pub width: u32,
}

/// The boxes of these updates, which stand in order.
pub(crate) fn arrange(
    alloc: Global,
    placed: &[Placed],
    told: &Told,
) -> Result<Arrangement, AllocError>
    requires { length placed.now ≤ MAX_DRAWN }
    ensures { IfOk result (λ made. record { spots = made.spots.items; width = made.width } ≡ arranged told.now
        placed.now) }
{
    let mut spots = Vec::new(alloc);
    let mut width = 0;
    for next in placed {
        let spot = spot_of(alloc, told, &spots, width, next)?;
        width = if spot.column == width {
            width + 1
        } else {
            width
        };
        spots.push(spot)?;
    }
    Ok(Arrangement { spots, width })
}

/// The box of an update beside those that stand already.
fn spot_of(
    alloc: Global,
    told: &Told,
    spots: &[Spot],
    width: u32,
    placed: &Placed,
) -> Result<Spot, AllocError>
    ensures { IfOk result (λ spot. spot ≡ spot_of told.now spots.now width placed.now) }
{
    let lane = lane_of(spots, placed);
    let node = placed.node.copy(alloc)?;
    Ok(Spot {
        depth: placed.depth,
        lane,
        column: column_of(spots, width, &node.author, lane),
        head: is_head(&told.heads, &node.id),
        reason: reason_of(&told.voids, &node.id),
        note: copy_note(alloc, &told.notes, &node.id)?,
        node,
    })
}

/// How many boxes of the author stand in the row already.
fn lane_of(spots: &[Spot], placed: &Placed) -> usize
    ensures { result ≡ lane_of spots.now placed.now }
{
    spots.iter().filter(|spot| is_beside(placed, spot)).count()
}

/// Whether a box is of this author and in this row.
fn is_beside(placed: &Placed, spot: &Spot) -> bool
    ensures { result ≡ is_beside placed.now spot.now }
{
    spot.depth == placed.depth && same_author(&spot.node.author, &placed.node.author)
}

/// The column of this author and this lane, or else a new one, after so many.
fn column_of(spots: &[Spot], width: u32, author: &AuthorKey, lane: usize) -> u32
    ensures { result ≡ column_of spots.now width author.now lane }
{
    match spots.iter().find(|spot| is_in_lane(author, lane, spot)) {
        Some(spot) => spot.column,
        None => width,
    }
}

/// Whether a box stands in the column of this author and this lane.
fn is_in_lane(author: &AuthorKey, lane: usize, spot: &Spot) -> bool
    ensures { result ≡ is_in_lane author.now lane spot.now }
{
    spot.lane == lane && same_author(&spot.node.author, author)
}
