//! Scripts of worlds: the text of a schema, a line that says what world there is, and an event a line.
//!
//! ```text
//! DATABASE tasks
//! TABLE list
//! COLUMN title TEXT 1 40
//! SAMPLE "Home"
//! WORLD 2 5 8 1
//! MAKE 0 INSERT list "Home"; INSERT list "Work"
//! OPEN 0 0 1
//! RUN 0
//! ```
//!
//! [`read_script`] answers the [`Script`], or the first fault with its line. The line `WORLD` has the number of
//! replicas, the height and the width of their keys, and the number that all keys and random words come from. Each line
//! after it has one of these forms, where words stand apart by blanks:
//!
//! ```text
//! MAKE r operation {; operation}     replica r makes an update of these operations
//! OPEN s a b                         replica a begins the session s with the replica b, or with a liar where b is *
//! CARRY s >      CARRY s <           a frame is carried, forward or back
//! RUN s                              frames are carried forward and back by turns until there are none
//! CUT s                              the session is cut
//! FEED s hex                         the liar of the session sends bytes
//! STOP r n                           each disk of replica r passes n calls more, and then fails
//! RESTART r choice                   replica r stops, and opens what a crash left
//! ```
//!
//! What a text says is a relation over its lines (`IsScript` in specs/Scripts), apart from the code that reads. One
//! text has one reading ([`one_script`]).
#![tactic(auto)]

mod act;
mod fault;
mod heading;
mod laws;
mod limits;
mod line;
mod line_list;
mod lines;
mod operations;
mod parts;
mod place;
mod reading;
mod script;
mod words;

pub use fault::{ScriptError, ScriptFault};
pub use laws::{no_fault, one_fault, one_script};
pub use limits::{MAX_REPLICAS, MAX_SCRIPT_BYTES, MAX_SESSIONS};
pub use line::Line;
pub use line_list::LineList;
pub use parts::schema_part;
pub use reading::read_script;
pub use script::Script;
pub use world_rules::Event;
