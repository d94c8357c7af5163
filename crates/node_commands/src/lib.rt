//! The commands of the program `bec` that need no net, over what they use: a shelf of directories, a generator of
//! random words, a source. Each answers the text that it prints, or why it is refused. What works over the store of one
//! directory is a [`Work`], and [`open_and_work`] does it: it opens the directory once, does the work, and closes it.
//!
//! ```text
//! bec heads < stream        the ids of the heads of an update stream, rising, one per line
//! bec check < schema        whether what a schema declares survives merging, and what is wrong first
//! bec dump < bundle         the tables of a schema and an update stream, and the updates that do nothing
//!
//! bec heads DIR             the same of the store in a directory
//! bec dump DIR              with `--json`, here and of a bundle, as one JSON object
//! bec init DIR < schema     makes a store of a schema in a directory that has none, and prints the id of its database
//! bec keygen DIR            draws a key for a directory that has none, and prints its public key
//! bec apply DIR < text      makes an update of a transaction by the key of the directory, and prints its id; with
//!                           `--note TEXT` the update has this note
//! bec join DIR              joins the heads of the store by an update, and prints its id
//! bec export DIR            the bundle of the store, or with `--updates` its update stream alone
//! bec query DIR TEXT        what a query asks of the store, one row a line, or with `--json` as one JSON object
//! bec merge DIR DIR         reconciles the stores of two directories, and prints what each gained
//! bec notes DIR             the ids and the notes of the updates of the store that have one, rising by id, one a line
//! ```
//!
//! What is told of each is an answer in specs/; that an input has one answer are the laws [`one_answer`],
//! [`one_answer_of_parts`], [`one_answer_of_makers`] and [`one_answer_of_merge`]. How a bundle is read and notes are
//! put in order stands here for other programs too: [`bundle_schema`], [`read_graph`], [`note_of`] and [`in_order`].
//!
//! It waits for nobody but its source, and opens nothing by itself.
#![tactic(auto)]

mod bundle;
mod commands;
mod graph_tables;
mod heads;
mod laws;
mod stream;
mod working;

pub use bundle::bundle_schema;
pub use commands::check::verdict;
pub use commands::dump::bundle_tables;
pub use commands::heads::stream_heads;
pub use commands::init::init;
pub use commands::keygen::keygen;
pub use commands::merge::merge;
pub use commands::notes::{in_order, note_of};
pub use heads::heads_of;
pub use laws::{one_answer, one_answer_of_makers, one_answer_of_merge, one_answer_of_parts};
pub use stream::read_graph;
pub use working::{Work, open_and_work};
