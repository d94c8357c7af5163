//! A picture of a hash graph: a box for each update, in a row by its depth and in a column of its author.
//!
//! [`draw`] answers the text of the picture as SVG or DOT. The text is a function of the set of updates, and not of
//! their order of arrival: [`same_set_same_picture`]. A box lies below those of its predecessors, and each column has
//! one author: [`boxes_lie_below`] and [`columns_have_one_author`].
//!
//! ```text
//! let told = Told { heads, voids, notes };
//! let text = draw(alloc, Form::Svg, &schema, &graph, &told)?;
//! ```
//!
//! At most [`MAX_DRAWN`] updates are drawn, the last ones in the order of depth and id.
//!
//! [`place_in_order`] answers the updates of a graph in the order of depth and id, for whoever lists them, and the
//! functions that begin with `push` add what they name to a text. What is told of updates beside themselves comes as
//! [`Told`].
#![tactic(auto)]

mod boxes;
mod depths;
mod dot;
mod form;
mod ids;
mod labels;
mod laws;
mod limits;
mod note_line;
mod pictures;
mod placed;
mod sorting;
mod spot;
mod svg;
mod told;
mod words;

pub use form::Form;
pub use laws::{boxes_lie_below, columns_have_one_author, same_set_same_picture};
pub use limits::MAX_DRAWN;
pub use note_line::NoteLine;
pub use pictures::{draw, omitted};
pub use placed::Placed;
pub use sorting::place_in_order;
pub use told::Told;
pub use words::{
    push_id, push_key, push_key_end, push_number, push_short_id, push_short_operation, reason_words,
};
