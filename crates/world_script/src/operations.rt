//! The operations of a line, which semicolons part.

ghost use Rattle.std.specs.Prelude.{◌≡◌, ℕ, ◌^◌, List, ◌<◌, length, IfOk, IfSome, MatchOption};
ghost use Rattle.update_model.specs.declared.op.Op.{Op as Operation};
ghost use Rattle.std.specs.List.{list_any};
ghost use Rattle.txn_text.specs.Outcome.{MayStand};
ghost use Rattle.world_script.specs.Operations.{AreOperations, IsParted, if_so_many, is_cr, parts_here, quoting_after};
ghost use Rattle.world_script.specs.declared.operations.Quoting.TheVariants.{Outside};

use schema::Schema;
use std::alloc::{AllocError, Global};
use txn_text::{TextError, no_fault, one_transaction, read_txn};
use update_model::OpList;

/// Where a byte stands.
#[derive(Clone, Copy)]
enum Quoting {
    /// Outside quotes.
    Outside,
    /// In a text in quotes.
    Inside,
    /// After a backslash in a text in quotes.
    Escaped,
}

/// Operations as the lines of a transaction.
#[derive(Drop)]
struct Parted {
    lines: Vec<u8>,
    count: usize,
}

/// The operations that a text is, which semicolons outside quotes part.
pub(crate) fn operations_of(
    alloc: Global,
    schema: &Schema,
    text: &[u8],
) -> Result<Option<OpList>, AllocError>
    requires { length text.now < 2 ^ 63 }
    ensures found { IfOk result (λ found. MatchOption found ((ops : List Operation)
        → AreOperations schema.now text.now ops → ⊥) (λ ops. AreOperations schema.now text.now ops)) }
    ensures form { IfOk result (λ found. IfSome found (λ ops. MayStand ops)) }
{
    if has_cr(text) {
        return Ok(None);
    }
    one_transaction();
    no_fault();
    let parted = part(alloc, text)?;
    match read_txn(alloc, schema, parted.lines.as_slice()) {
        Ok(ops) => Ok(if_so_many(ops, parted.count)),
        Err(TextError::Fault(_)) => Ok(None),
        Err(TextError::Memory) => Err(AllocError),
    }
}

/// Operations where there are so many.
fn if_so_many(ops: OpList, count: usize) -> Option<OpList>
    ensures { result ≡ if_so_many ops count }
{
    if ops.as_slice().len() == count {
        Some(ops)
    } else {
        None
    }
}

fn has_cr(text: &[u8]) -> bool
    ensures { result ≡ list_any is_cr text.now }
{
    text.iter().any(|byte| *byte == b'\r')
}

/// A line for each operation.
fn part(alloc: Global, text: &[u8]) -> Result<Parted, AllocError>
    requires { length text.now < 2 ^ 63 }
    ensures { IfOk result (λ parted. IsParted text.now parted.lines.items parted.count) }
{
    let mut lines = Vec::with_capacity(alloc, text.len())?;
    let mut count = 1;
    let mut quoting = Quoting::Outside;
    let mut rest = text;
    while let [byte, after @ ..] = rest {
        let parts = parts_here(quoting, *byte);
        lines.push(if parts { b'\n' } else { *byte })?;
        count += usize::from(parts);
        quoting = quoting_after(quoting, *byte);
        rest = after;
    }
    Ok(Parted { lines, count })
}

/// Whether a byte is a semicolon that parts two operations.
fn parts_here(quoting: Quoting, byte: u8) -> bool
    ensures { result ≡ parts_here quoting byte }
{
    match quoting {
        Quoting::Outside => byte == b';',
        Quoting::Inside | Quoting::Escaped => false,
    }
}

/// Where the byte after this one stands.
fn quoting_after(quoting: Quoting, byte: u8) -> Quoting
    ensures { result ≡ quoting_after quoting byte }
{
    match (quoting, byte) {
        (Quoting::Outside, b'"') => Quoting::Inside,
        (Quoting::Outside, _) => Quoting::Outside,
        (Quoting::Inside, b'"') => Quoting::Outside,
        (Quoting::Inside, b'\\') => Quoting::Escaped,
        (Quoting::Inside | Quoting::Escaped, _) => Quoting::Inside,
    }
}
