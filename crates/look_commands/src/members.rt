ghost use Rattle.std.specs.Prelude.{◌≡◌};
ghost use Rattle.outcomes.specs.Rules.{nodes_of, rules_of};
ghost use Rattle.tuple_state.specs.State.{IsStateOf};

use bec_disk::Disk;
use hash_graph::Graph;
use replica::Replica;
use row_check::{Luhn, Native};
use schema::Schema;
use tuple_state::Tables;
use update_check::Checked;

/// The updates of a store or of a bundle, with the schema that it declares and the tables that they make.
#[derive(Clone, Copy)]
pub(crate) struct Members<'a> {
    /// The schema.
    pub schema: &'a Schema,
    /// What native checks answer.
    pub native: &'a Native<Luhn, Luhn>,
    /// The updates.
    pub graph: &'a Graph<Checked>,
    /// Their tables.
    pub tables: &'a Tables,
}

/// Those of a store that is open.
pub(crate) fn members_of<'a, D: Disk>(
    replica: &'a Replica<D, Luhn, Luhn>,
    native: &'a Native<Luhn, Luhn>,
) -> Members<'a>
    ensures schema { result.schema.now ≡ replica.now.history.schema }
    ensures graph { result.graph.now ≡ replica.now.history.members }
    ensures tables { IsStateOf (rules_of replica.now.history.schema) (nodes_of replica.now.history.members)
        result.tables.now }
{
    Members {
        schema: replica.schema(),
        native,
        graph: replica.graph(),
        tables: replica.tables(),
    }
}
