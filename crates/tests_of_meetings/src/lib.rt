//! Tests of threads that meet: the commands `sync` and `serve` over nets in memory, and turns at a lock.
#![tactic(auto)]

#[cfg(test)]
mod breaks;
#[cfg(test)]
mod crossings;
#[cfg(test)]
mod crowd;
#[cfg(test)]
mod meetings;
#[cfg(test)]
mod nodes;
#[cfg(test)]
mod pipes;
#[cfg(test)]
mod runs;
#[cfg(test)]
mod turns;
