//! Live views: the answer of a query, kept and told by what went and what came.
//!
//! [`watch`] takes a query whose lines begin with the names of their rows and shows its answer. [`LiveView::refresh`]
//! takes the answer on other tables, and hands the [`Change`] out where the subscriber wants it: a type that implements
//! [`Wishes`] of a relation that a type names by [`Wish`], such as [`AtLeast`]. [`LiveView::flush`] hands it out in any
//! case.
//!
//! ```text
//! let mut view = watch(alloc, &native, schema, tables, query, When::new(2, AtLeast))?;
//! view.shown();                                                    // the answer
//! if let Some(change) = view.refresh(alloc, &native, schema, tables)? {
//!     change.went.as_slice();                                      // lines that are no more in the answer
//!     change.came.as_slice();                                      // lines that are new in it
//! }
//! ```
//!
//! Over any list of calls what was shown first, changed by each change that was handed out, is what is shown; and at
//! each change that is the answer from scratch ([`views_follow`]).
#![tactic(auto)]

mod change;
mod laws;
mod line_list;
mod live_view;
mod naming;
mod wish;

pub use change::Change;
pub use laws::{change_is, named_answers_rise, one_changed, views_follow};
pub use line_list::LineList;
pub use live_view::{LiveView, WatchError, watch};
pub use wish::{AtLeast, When, Wish, Wishes};
