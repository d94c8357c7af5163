//! Tests of what stands outside: disks, links, files and sockets, and what is told beside refusals.
#![tactic(auto)]

#[cfg(test)]
mod bytes;
#[cfg(test)]
mod explained;
#[cfg(test)]
mod files;
#[cfg(test)]
mod gated;
#[cfg(test)]
mod links;
#[cfg(test)]
mod readers;
#[cfg(test)]
mod shelves;
#[cfg(test)]
mod sockets;
#[cfg(test)]
mod words;
