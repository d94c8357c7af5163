ghost use Rattle.std.specs.Prelude.{◌≡◌, ◌++◌, OnOk, OnErr};
ghost use mathlib.Core.List.{IsPrefix};
ghost use Rattle.table_text.specs.Examples.{step_text, node_text, side_text, example_text};

use crate::NameStyle;
use crate::names::number_of;
use crate::numbers::push_spaced;
use crate::operations::push_operation;
use schema::Schema;
use std::alloc::AllocError;
use table_model::Counterexample;
use update_model::{Node, Op, UpdateId};

/// Adds a counterexample at the end: a line for each operation, with its side `BASE`, `A` or `B`, the number of its
/// update, and the operation with short names. First comes the base, then one side, then the other.
pub fn push_counterexample(
    out: &mut Vec<u8>,
    schema: &Schema,
    example: &Counterexample,
) -> Result<(), AllocError>
    ensures added { OnOk result (out.new.items ≡ out.old.items ++ example_text schema.now.tables example.now) }
    ensures kept { OnErr result (IsPrefix out.old.items out.new.items) }
{
    push_side(out, schema, b"BASE", example.base.as_slice())?;
    push_side(out, schema, b"A", example.left.as_slice())?;
    push_side(out, schema, b"B", example.right.as_slice())
}

/// Adds the lines of a side.
fn push_side(
    out: &mut Vec<u8>,
    schema: &Schema,
    side: &[u8],
    nodes: &[Node],
) -> Result<(), AllocError>
    ensures added { OnOk result (out.new.items ≡ out.old.items ++ side_text schema.now.tables side.now nodes.now) }
    ensures kept { OnErr result (IsPrefix out.old.items out.new.items) }
{
    for node in nodes {
        push_node(out, schema, side, node)?;
    }
    Ok(())
}

/// Adds the lines of a node.
fn push_node(out: &mut Vec<u8>, schema: &Schema, side: &[u8], node: &Node) -> Result<(), AllocError>
    ensures added { OnOk result (out.new.items ≡ out.old.items ++ node_text schema.now.tables side.now node.now) }
    ensures kept { OnErr result (IsPrefix out.old.items out.new.items) }
{
    for operation in node.ops.as_slice() {
        push_step(out, schema, side, &node.id, operation)?;
    }
    Ok(())
}

/// Adds the line of an operation of the node with this id.
fn push_step(
    out: &mut Vec<u8>,
    schema: &Schema,
    side: &[u8],
    id: &UpdateId,
    operation: &Op,
) -> Result<(), AllocError>
    ensures added { OnOk result (out.new.items ≡ out.old.items ++ step_text schema.now.tables side.now id.now
        operation.now) }
    ensures kept { OnErr result (IsPrefix out.old.items out.new.items) }
{
    out.extend_from_slice(side)?;
    push_spaced(out, number_of(id))?;
    out.push(b' ')?;
    push_operation(out, schema, NameStyle::Short, operation)?;
    out.extend_from_slice(b"\n")
}
