ghost use Rattle.std.specs.Prelude.{◌≡◌, ◌++◌, IfOk, OnOk};
ghost use Rattle.txn_text.specs.Transactions.{Reads};
ghost use Rattle.txn_printing.specs.Printing.{line_text, transaction_text, AreNamed, IsPrintable};

use crate::transactions_are_read_again;
use schema::Schema;
use std::alloc::{AllocError, Global};
use table_text::{NameStyle, push_operation};
use update_model::Op;

/// The text of a transaction: a line for each operation.
///
/// It is read as these operations over the same schema (`Reads`) where each table is found by its name
/// ([`are_tables_named`](crate::are_tables_named)), and the operations are such as `read_txn` answers: at most
/// [`MAX_OPS`](update_model::MAX_OPS) of them, with values in form for each column of a table that is there, and with a
/// text that is not too long. In place of a table that the schema does not have its number is printed, which no
/// transaction may say. An error comes where memory runs out.
pub fn print_txn(alloc: Global, schema: &Schema, ops: &[Op]) -> Result<Vec<u8>, AllocError>
    ensures printed { IfOk result (λ text. text.items ≡ transaction_text schema.now.tables ops.now) }
    ensures read_again { AreNamed schema.now.tables → IsPrintable schema.now.tables ops.now
        → IfOk result (λ text. Reads schema.now text.items ops.now) }
{
    transactions_are_read_again();
    let mut text = Vec::new(alloc);
    push_lines(&mut text, schema, ops)?;
    Ok(text)
}

/// Adds the lines of operations.
fn push_lines(out: &mut Vec<u8>, schema: &Schema, ops: &[Op]) -> Result<(), AllocError>
    ensures added { OnOk result (out.new.items ≡ out.old.items ++ transaction_text schema.now.tables ops.now) }
{
    for op in ops {
        push_line(out, schema, op)?;
    }
    Ok(())
}

/// Adds the line of an operation.
fn push_line(out: &mut Vec<u8>, schema: &Schema, op: &Op) -> Result<(), AllocError>
    ensures added { OnOk result (out.new.items ≡ out.old.items ++ line_text schema.now.tables op.now) }
{
    push_operation(out, schema, NameStyle::Full, op)?;
    out.extend_from_slice(b"\n")
}
