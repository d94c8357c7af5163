//! The commands.

pub mod apply;
pub mod check;
pub mod dump;
pub mod export;
pub mod heads;
pub mod init;
pub mod join;
pub mod keygen;
pub mod merge;
pub mod notes;
pub mod query_store;
