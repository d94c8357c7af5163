//! What is told of a store as a whole: a page of HTML that shows it, and how much there is.
//!
//! [`page`] answers one page that every browser shows: the tables, the updates that do nothing, and the history as a
//! picture, which is given. It loads nothing, and what users wrote stands in it as text: [`no_marks_in_texts`].
//! [`status`] answers a line for each count. [`database_name`] is the name that a schema's text gives its database,
//! which is the title of its page.
//!
//! ```text
//! let name = database_name(alloc, schema.text())?;
//! let parts = PageParts { title: name.as_slice(), schema, lists, voids, picture };
//! let text = page(alloc, &parts)?;
//! ```
#![tactic(auto)]

mod cells;
mod counts;
mod laws;
mod marks;
mod naming;
mod numbers;
mod page_parts;
mod pages;
mod rows;
mod statuses;
mod voids;

pub use counts::Counts;
pub use laws::no_marks_in_texts;
pub use naming::database_name;
pub use page_parts::PageParts;
pub use pages::page;
pub use statuses::status;
