//! Tests of keys and of seals: signatures that other programs made, what faults and crashes leave of a key and of its
//! indices, and all seals of a key of two levels.
#![tactic(auto)]

#[cfg(test)]
mod order;
#[cfg(test)]
mod seals;
#[cfg(test)]
mod signers;
#[cfg(test)]
mod stores;
#[cfg(test)]
mod trees;
#[cfg(test)]
mod vectors;
