//! The commands that look at a store and change nothing: what each prints, or why it is refused.
//!
//! ```text
//! bec log DIR               the updates of the store in a directory, the newest first
//! bec show DIR ID           the update whose id begins so, with what it did
//! bec who DIR ROW           the update that inserts the row whose name begins so
//! bec diff DIR OTHER        the updates that only one of two stores has
//! bec draw DIR              a picture of the updates
//! bec page DIR              a page of HTML
//! bec status DIR            how much there is
//! bec schema DIR            the text of the schema
//! bec records DIR           the records of the updates, each once
//! bec csv DIR TEXT          a table, or the answer of a query, as comma-separated values
//! bec key DIR               the public key
//! ```
//!
//! [`look`] does what a request of them asks for. A directory is opened once, and closed before anything is printed;
//! where a bundle is read in its place, all of it is verified first. What is shown of a store is what is shown of its
//! bundle, by one definition (`ShowsMembers` in specs/Looks).
//!
//! The texts stand in `graph_drawing`, `log_texts`, `page_text` and `csv_text`. Where one update is asked for and none
//! fits or several do, nothing is printed, and the status is that of a refusal: [`status_with`] and [`lacks_one`].
#![tactic(auto)]

mod answers;
mod bundle;
mod differing;
mod ending;
mod keys;
mod looking;
mod members;
mod notes;
mod records;
mod telling;
mod texts;

pub use ending::{lacks_one, status_with};
pub use looking::look;
