//! Tests of what keeps updates and sends them: graphs, logs over disks that stop, frames, sessions and audits over
//! holders in memory, and what a checked update lends. Figures come from outside, and what grows with a square would
//! not end.
#![tactic(auto)]

#[cfg(test)]
mod ancestors;
#[cfg(test)]
mod batches;
#[cfg(test)]
mod entries;
#[cfg(test)]
mod frames;
#[cfg(test)]
mod heads;
#[cfg(test)]
mod ids;
#[cfg(test)]
mod logs;
#[cfg(test)]
mod payloads;
#[cfg(test)]
mod sessions;
#[cfg(test)]
mod signed;
#[cfg(test)]
mod summaries;
#[cfg(test)]
mod threads;
#[cfg(test)]
mod updates;
