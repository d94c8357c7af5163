//! All of a batch that can be added to a graph in some order.
//!
//! Members come in any order, and some may be held already. [`add_ready`] adds each member whose predecessors are held
//! or can be added before it, and hands back the others, in the batch's order, for a later batch.
//!
//! ```text
//! let waiting = add_ready(alloc, &mut graph, batch)?;    // the batch is [child, parent, orphan]
//! graph.tail(before);                                    // [parent, child]
//! waiting;                                               // [orphan], of which a predecessor is not held
//! ```
//!
//! A member that lacks a predecessor is noted under the first one that is not held, and is looked at again, from there
//! on, once that one is added: so a batch takes about as many look-ups as its members have predecessors together. The
//! member itself remembers where that is ([`Candidate`]), so that one which waits costs a look-up in a later batch.
//!
//! The laws say that the order makes no difference to who is held: [`orders_hold_the_same`] of any two orders, and
//! [`ready_is_added`] that whoever can be added is held.
//!
//! It verifies no signature, and it takes nothing back: where it fails, some of the batch may stand behind what was
//! held, and the caller cuts the graph.
#![tactic(auto)]

mod add_fault;
mod adding;
mod candidate;
mod laws;
mod parked;
mod tried;

pub use add_fault::AddFault;
pub use adding::add_ready;
pub use candidate::Candidate;
pub use laws::{orders_hold_the_same, ready_is_added};
