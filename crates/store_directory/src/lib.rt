//! A directory that is open: its store, and its key where that is needed, taken from a shelf, opened once and put back.
//!
//! A directory has a part Schema and a part Updates where it has a store. [`open`] hands out what is needed, and
//! [`close`] puts it back; where the store or the key is refused, every part is in its place again. [`take_store`] and
//! [`put_store`] are the same of the store alone, as `key_directory` has them of the key, and [`new_store`] makes a
//! store where there is none. What holds of each store that is open says [`each_stands`], and [`settle`] leaves its log
//! with its updates and nothing else. What the directory remembers of peers, in its part Peers, is a hint: [`peers_of`]
//! and [`keep_peers`], over [`read_memory`] and [`write_memory`].
//!
//! ```text
//! let mut opened = open(verifier, alloc, shelf, dir, Needs::Store)?;
//! let heads = opened.store.replica.heads(alloc)?;
//! close(shelf, dir, opened);
//! ```
//!
//! Its definitions say what a run leaves of a directory: the list of its store with what was added, at each moment, and
//! every other part as it was.
#![tactic(auto)]

mod laws;
mod making_store;
mod memory;
mod open_refusal;
mod opening;
mod remembering;
mod settling;
mod standing;
mod store;
mod store_refusal;

pub use laws::{one_store, store_or_not};
pub use making_store::{is_there, new_store};
pub use memory::{read_memory, write_memory};
pub use open_refusal::OpenRefusal;
pub use opening::{Needs, Opened, close, open};
pub use remembering::{keep_peers, peers_of};
pub use settling::settle;
pub use standing::each_stands;
pub use store::{OpenStore, put_store, take_store};
pub use store_refusal::StoreRefusal;
