//! Which history confirms that a limit can be broken.

ghost use Rattle.std.specs.Prelude.{IfSome};
ghost use Rattle.schema.specs.Data.{Meaning};
ghost use Rattle.confluence_checker.specs.Forms.{IsInvariantOf};
ghost use Rattle.table_model.specs.Visible.{rules_with};

use confluence_checker::confirms;
use row_check::{Luhn, Native};
use schema::Schema;
use schema_text::{SchemaError, read_schema};
use std::alloc::{AllocError, Global};
use std::test::Fail;
use table_model::{Counterexample, Invariant, InvariantKind, NodeList};
use update_model::{AuthorKey, IdList, Node, Op, OpList, UpdateId, Value, ValueList};

/// At most one row.
const SINGLE: &str = "DATABASE d\nTABLE t\nCOLUMN n INT 0 9\nATMOST 1\nSAMPLE 5\n";

/// Updates with these numbers, without predecessors, each of which inserts a row.
fn side(alloc: Global, numbers: &[u8]) -> Result<NodeList, AllocError> {
    let mut nodes = Vec::new(alloc);
    for number in numbers {
        let insertion = Op::Insert {
            table: 0,
            values: ValueList::from_vec(vec![in alloc; Value::Int(5)]?),
        };
        let ops = vec![in alloc; insertion]?;
        nodes.push(Node {
            id: UpdateId([*number; 32]),
            preds: IdList::from_vec(Vec::new(alloc)),
            author: AuthorKey {
                lms: 5,
                ots: 4,
                ident: [0; 16],
                root: [0; 32],
            },
            ops: OpList::from_vec(ops),
        })?;
    }
    Ok(NodeList::from_vec(nodes))
}

/// The `ATMOST` of a schema's first table.
fn first_at_most(schema: &Schema) -> Option<Invariant>
    ensures { IfSome result (λ which. (ask : Meaning) → IsInvariantOf (rules_with ask schema.now.tables) which) }
{
    if schema.tables() == 0 {
        return None;
    }
    let table = schema.table(0);
    if table.at_most == 0 {
        return None;
    }
    Some(Invariant {
        kind: InvariantKind::AtMost,
        table: 0,
        place: 0,
        line: table.at_most_line,
    })
}

/// Whether a counterexample to the `ATMOST` confirms.
fn is_confirmed(alloc: Global, example: &Counterexample) -> Result<Option<bool>, SchemaError> {
    let native: Native<Luhn, Luhn> = Native::new(Luhn);
    let schema = read_schema(alloc, SINGLE.as_bytes(), &native)?;
    let Some(which) = first_at_most(&schema) else {
        return Ok(None);
    };
    Ok(Some(confirms(alloc, &schema, &native, &which, example)?))
}

/// Whether it confirms that the left side inserts a row and the right side those with these numbers.
fn are_confirmed(alloc: Global, right: &[u8]) -> Result<Option<bool>, SchemaError> {
    let example = Counterexample {
        base: side(alloc, &[])?,
        left: side(alloc, &[1])?,
        right: side(alloc, right)?,
    };
    is_confirmed(alloc, &example)
}

#[test]
fn both_sides_break_it_and_one_does_not(rt: HostRuntime) -> Result<(), Fail> {
    assert_eq!(rt; are_confirmed(rt.alloc(), &[2])?, Some(true));
    assert_eq!(rt; are_confirmed(rt.alloc(), &[])?, Some(false));
    Ok(())
}
