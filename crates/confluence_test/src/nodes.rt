//! The updates of a counterexample, which number from 1.

ghost use Rattle.std.specs.Prelude.{◌≡◌, ◌<◌, IfOk, length, reverse};
ghost use Rattle.update_model.specs.declared.op.Op.TheVariants as op;
ghost use Rattle.confluence_laws.specs.Examples.{numbered, row_numbered, last_of, one_after, after, one_author, chain};

use crate::chain::PlannedRow;
use std::alloc::{AllocError, Global};
use update_model::{AuthorKey, IdList, Node, Op, OpList, RowName, UpdateId};

/// The author of every update.
fn one_author() -> AuthorKey
    ensures { result ≡ one_author }
{
    AuthorKey {
        lms: 5,
        ots: 4,
        ident: [0; 16],
        root: [0; 32],
    }
}

/// The id of the update with this number: 31 zero bytes and the number.
fn numbered(number: usize) -> UpdateId
    requires { number < 256 }
    ensures { result ≡ numbered number }
{
    let mut bytes = [0; 32];
    bytes[31] = number as u8;
    UpdateId(bytes)
}

/// The name of the row that the update with this number inserts.
pub(crate) fn row_numbered(number: usize) -> RowName
    requires { number < 256 }
    ensures { result ≡ row_numbered number }
{
    RowName {
        update: numbered(number),
        index: 0,
    }
}

/// What an update names after so many others: the last of them, or nothing.
fn last_of(alloc: Global, older: usize) -> Result<IdList, AllocError>
    requires { older < 256 }
    ensures { IfOk result (λ ids. ids ≡ last_of older) }
{
    let mut ids = Vec::new(alloc);
    if older > 0 {
        ids.push(numbered(older))?;
    }
    Ok(IdList::from_vec(ids))
}

/// An update of one operation, after so many others.
pub(crate) fn one_after(
    alloc: Global,
    older: usize,
    number: usize,
    op: Op,
) -> Result<Node, AllocError>
    requires older { older < 256 }
    requires number { number < 256 }
    ensures { IfOk result (λ node. node ≡ one_after older number op) }
{
    let mut ops = Vec::new(alloc);
    ops.push(op)?;
    Ok(Node {
        id: numbered(number),
        preds: last_of(alloc, older)?,
        author: one_author(),
        ops: OpList::from_vec(ops),
    })
}

/// An update that inserts a row, after so many others.
pub(crate) fn after(
    alloc: Global,
    older: usize,
    number: usize,
    row: PlannedRow,
) -> Result<Node, AllocError>
    requires older { older < 256 }
    requires number { number < 256 }
    ensures { IfOk result (λ node. node ≡ after older number row) }
{
    let PlannedRow { table, values } = row;
    one_after(alloc, older, number, Op::Insert { table, values })
}

/// Updates that insert these rows, each of which names the one before it.
#[tactic(auto, using(crate::proofs::Chains::chain_next))]
pub(crate) fn chain_of(alloc: Global, rows: &[PlannedRow]) -> Result<Vec<Node>, AllocError>
    requires { length rows.now < 256 }
    ensures { IfOk result (λ nodes. nodes.items ≡ reverse (chain (reverse rows.now))) }
{
    let mut nodes = Vec::with_capacity(alloc, rows.len())?;
    for (older, row) in rows.iter().enumerate() {
        nodes.push(after(alloc, older, older + 1, row.copy(alloc)?)?)?;
    }
    Ok(nodes)
}
