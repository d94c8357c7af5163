//! The tables of a graph of updates.

use confluence_test::{accepted_is_unlimited, take_schema};
use hash_graph::Graph;
use history::replay;
use row_check::{Luhn, Native};
use std::alloc::Global;
use tuple_state::Tables;
use update_check::Checked;

/// The tables of a graph under the schema of a text. Each update is judged and applied in turn.
pub fn tables_of(alloc: Global, text: &[u8], graph: &Graph<Checked>) -> Option<Tables> {
    let native: Native<Luhn, Luhn> = Native::new(Luhn);
    let Ok(schema) = take_schema(alloc, text, &native) else {
        return None;
    };
    accepted_is_unlimited();
    replay(alloc, &schema, &native, graph).ok()
}
