//! The frames of a session over a link: read as they come, checked, and written.
//!
//! [`listen`] reads a piece and gives the frames that are whole then, and [`checked_all`] has the updates among them
//! checked, by a verifier. [`say_hello`], [`say_item`] and [`say_turn`] write a frame each.
//!
//! ```text
//! match listen(alloc, &mut link, &mut frames, &mut buffer) {
//!     Heard::Frames(all) => ..,           // they go through `checked_all`, and then each to a session
//!     Heard::End => ..,
//!     ..
//! }
//! say_turn(alloc, &mut link, &out.turn)?;
//! ```
//!
//! It knows no order of frames, which is a session's, and holds no updates.
#![tactic(auto)]

mod hearing;
mod saying;

pub use hearing::{Heard, checked_all, listen};
pub use saying::{Halt, say_hello, say_item, say_turn};
