//! Tests of stores and keys whose disks stop: commands at each call of a disk, with what a crash leaves then, a replica
//! of a world, and a shared replica.
#![tactic(auto)]

#[cfg(test)]
mod crashes;
#[cfg(test)]
mod replicas;
#[cfg(test)]
mod runs;
#[cfg(test)]
mod seals;
#[cfg(test)]
mod shared;
#[cfg(test)]
mod sites;
#[cfg(test)]
mod stopping;
