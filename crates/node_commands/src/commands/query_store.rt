ghost use Rattle.std.specs.Prelude.{Err, ◌≡◌, ◌⊎◌};
ghost use Rattle.node_commands.specs.Asking.{QueryAnswer};
ghost use Rattle.outcomes.specs.OpenStores.{opened_store};
ghost use Rattle.outcomes.specs.declared.refusal.Refusal.TheVariants.{Memory as memory};

use bec_disk::Disk;
use confluence_laws::tables_are_of_the_set;
use head_set::equal_heads_mean_equal_sets;
use outcomes::Refusal;
use query::read_query;
use query_answer::{answer, json_lines, print_lines};
use replica::Replica;
use row_check::{Luhn, Native};
use std::alloc::Global;
use store_directory::each_stands;
use table_model::arrivals_are_closed;

/// What a query asks of a store, as it is printed.
pub fn asked<D: Disk>(
    alloc: Global,
    replica: &Replica<D, Luhn, Luhn>,
    text: &str,
    json: bool,
) -> Result<Vec<u8>, Refusal>
    ensures { QueryAnswer text.now json (opened_store replica.now) result ⊎ (result ≡ Err memory) }
{
    arrivals_are_closed();
    equal_heads_mean_equal_sets();
    tables_are_of_the_set();
    each_stands(replica);
    let query = read_query(alloc, replica.schema(), text.as_bytes())?;
    let native: Native<Luhn, Luhn> = Native::new(Luhn);
    let found = answer(alloc, &native, replica.schema(), &query, replica.tables())?;
    let lines = if json {
        json_lines(alloc, &found)
    } else {
        print_lines(alloc, &found)
    };
    Ok(lines?)
}
