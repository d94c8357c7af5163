//! Transactions as they are printed, so that `txn_text` reads them again.
//!
//! [`print_txn`] prints the operations of an update, one on a line, in the words that `read_txn` of `txn_text` reads
//! over the same schema. That the text is these operations again is a clause of it, and a law of the definitions for
//! callers to cite ([`transactions_are_read_again`]). Both ask that each table is found by its name, which
//! [`are_tables_named`] tells.
//!
//! ```text
//! let text = print_txn(alloc, &schema, ops.as_slice())?;
//! // INSERT list "Home" 9
//! // DELETE 5c6f..:0
//! ```
#![tactic(auto)]

mod laws;
mod naming;
mod printing;

pub use laws::transactions_are_read_again;
pub use naming::are_tables_named;
pub use printing::print_txn;
