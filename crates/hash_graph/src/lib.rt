//! A store's members in arrival order, as a closed list: ids are distinct, and each predecessor stands earlier.
//!
//! A [`Graph`] takes a member only after its predecessors, so everything that is built over it (heads, ancestors,
//! bundles) may rely on arrival order. It keeps two limits, [`update_model::MAX_MEMBERS`] and
//! [`update_model::MAX_BYTES`], and finds a member's position by its id in logarithmic time.
//!
//! ```text
//! let mut graph = Graph::new(alloc);
//! graph.add(root)?;                        // Added::New(0)
//! graph.add(child)?;                       // Added::New(1); its one predecessor is `root`
//! let position = graph.position(&id);      // Some(1), where `id` is the child's
//! ```
//!
//! It verifies no signature and reads no bytes: whoever adds a member vouches for it. It knows neither heads nor
//! ancestors.
#![tactic(auto)]

mod added;
mod graph;
mod refusal;
mod refused;

pub use added::Added;
pub use graph::Graph;
pub use refusal::Refusal;
pub use refused::Refused;
