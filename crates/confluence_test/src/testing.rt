//! The test itself.

ghost use Rattle.std.specs.Prelude.{◌≡◌, ℕ, Bool, List, IfOk};
ghost use Rattle.confluence_test.specs.Tests.{IsTested};
ghost use Rattle.schema.specs.Data.{Meaning};
ghost use Rattle.table_model.specs.Visible.{rules_with};

use crate::Tested;
use crate::examples::example_of;
use crate::permanence::permanent_tables;
use crate::scanning::first_refused;
use schema::Schema;
use std::alloc::{AllocError, Global};

/// Whether every invariant of a schema survives merging, before any data exists.
///
/// A `CHECK`, a `MATCH`, a `CASCADE`, a `SETNULL` and a `UNIQUE` with `KEEP LEAST` always do, a `RESTRICT` where no
/// row of the table that it refers to can vanish, a `UNIQUE` without `KEEP LEAST` and an `ATMOST` never. Of the
/// invariants in order (by table; in a table the `UNIQUE` lines, `ATMOST`, the references by column, the `CHECK` and
/// the `MATCH` lines) the first that does not is refused, with a counterexample. What native checks mean changes
/// nothing in the answer.
///
/// It gives up where memory runs out.
pub fn test(alloc: Global, schema: &Schema) -> Result<Tested, AllocError>
    ensures { IfOk result (λ tested. (ask : Meaning) → IsTested (rules_with ask schema.now.tables) tested) }
{
    let permanence = permanent_tables(alloc, schema)?;
    let Some(finding) = first_refused(schema, permanence.as_slice()) else {
        return Ok(Tested::Accepted);
    };
    let example = example_of(alloc, schema, permanence.as_slice(), finding.flaw)?;
    Ok(Tested::Refused {
        which: finding.which,
        example,
    })
}
