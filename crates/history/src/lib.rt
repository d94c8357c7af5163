//! Histories: closed lists of updates under a schema without `ATMOST` and whose `UNIQUE` lines are with `KEEP LEAST`,
//! as every schema is whose invariants survive merging.
//!
//! A [`History`] takes an update only after its predecessors, and judges each once, on its ancestors. It keeps the
//! heads, the ancestors and the tables as updates arrive, and it goes back to its first updates without memory, as a
//! commit that is refused must.
//!
//! ```text
//! let mut history = History::over(alloc, schema, native, graph)?;
//! let waiting = history.add_batch(alloc, batch)?;          // what lacks predecessors
//! let verdict = history.push(alloc, update)?;              // of one that may stand next
//! history.judge(alloc, &draft)?;                           // the verdict on one that is not signed yet
//! history.tables();                                        // what the valid ones did
//! history.since(alloc, history.len(), &ids)?;              // what is new to whoever has these
//! history.cut(len);                                        // the first `len` updates
//! ```
//!
//! [`replay`] gives the tables of a whole graph, of which nothing else is kept.
//!
//! It is in memory alone, and it verifies no signature: what it takes is [`Checked`](update_check::Checked).
#![tactic(auto)]

mod draft;
mod growing;
mod history;
mod no_history;
mod replaying;
mod since;
mod views;

pub use history::History;
pub use no_history::NoHistory;
pub use replaying::replay;
