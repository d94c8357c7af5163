//! The world of a case in memory: its directories, the nodes that it can call, and which calls of a disk, a stream or a
//! link fail.
//!
//! A [`World`] has what commands act on, a [`Stage`], and what names and files the case has come to. [`act`] does what a
//! line of a case says that begins with `@`. A command is run over a [`CaseShelf`] with the parts of the stage and a
//! [`CaseNet`] with whoever is at the other end, and its [`Plan`] says what fails:
//!
//! ```text
//! let mut world = World::new(alloc);
//! act(&mut world, book, case, "disk club 3")?;
//! let trouble = Trouble::new(world.stage.plan.disks);
//! let shelf = CaseShelf::new(world.stage.parts, &trouble);
//! let net = CaseNet::new(rt, alloc, Peer::Nobody, 0);
//! ```
//!
//! It runs no command. What stands on the disks and goes over the links is told by no contract.
#![tactic(auto)]

mod acts;
mod case_disk;
mod case_net;
mod case_shelf;
mod parts;
mod pipes;
mod trouble;
mod world;

pub use acts::act;
pub use case_disk::CaseDisk;
pub use case_net::{Caller, CaseNet, Peer, one_number};
pub use case_shelf::CaseShelf;
pub use parts::Parts;
pub use pipes::{End, Socket};
pub use trouble::{Planned, Spot, Trouble};
pub use world::{Plan, Stage, World};
