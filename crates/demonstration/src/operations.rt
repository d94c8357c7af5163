//! The operations of the updates of a demonstration.

ghost use Rattle.update_model.specs.declared.update_id.UpdateId.{UpdateId as Id};
ghost use Rattle.std.specs.Prelude.{Option, ◌≡◌, ◌<◌, ◌≤◌, ◌%◌, ◌∷◌, [], ℕ, None, IfOk, length, string_bytes};
ghost use Rattle.demonstration_laws.specs.Plans.{AreOpsOf, task_insert};
ghost use Rattle.update_model.specs.declared.limits.TheConstants.{MAX_TEXT};
ghost use Rattle.update_model.specs.declared.op.Op.TheVariants.{Delete as Deletes};
ghost use Rattle.update_model.specs.declared.value.Value.TheVariants.{Text as TextOf};
ghost use Rattle.update_model.specs.Rows.{AreOps};

use crate::counts::{LIST, TASK};
use numbered_words::Words;
use std::alloc::{AllocError, Global};
use update_model::{Op, OpList, RowName, TextValue, UpdateId, Value, ValueList};

/// The operations of an author's update with this number: each fifth one deletes the row that the one before inserted
/// first; the others insert a list and two tasks in it, whose priorities are the next words.
pub(crate) fn operations_of(
    alloc: Global,
    author: u32,
    number: u32,
    last: Option<UpdateId>,
    words: &mut Words,
) -> Result<OpList, AllocError>
    ensures plan { IfOk result (λ ops. AreOpsOf author number last ops) }
    ensures few { IfOk result (λ ops. length ops ≤ 3) }
    ensures form { IfOk result (λ ops. AreOps 0 ops) }
{
    let Some(update) = last else {
        return inserting(alloc, author, number, words);
    };
    if number % 5 == 4 {
        deleting(alloc, update)
    } else {
        inserting(alloc, author, number, words)
    }
}

/// Deletes the row that an update inserted first.
fn deleting(alloc: Global, update: UpdateId) -> Result<OpList, AllocError>
    ensures ops { IfOk result (λ ops. ops ≡ Deletes (record { update = update; index = 0 }) ∷ []) }
    ensures form { IfOk result (λ ops. AreOps 0 ops) }
{
    let row = RowName { update, index: 0 };
    Ok(OpList::from_vec(vec![in alloc; Op::Delete { row }]?))
}

/// Inserts a list and two tasks in it.
fn inserting(
    alloc: Global,
    author: u32,
    number: u32,
    words: &mut Words,
) -> Result<OpList, AllocError>
    ensures plan { IfOk result (λ ops. (last : Option Id) → (number % 5 ≡ 4 → last ≡ None)
        → AreOpsOf author number last ops) }
    ensures few { IfOk result (λ ops. length ops ≤ 3) }
    ensures form { IfOk result (λ ops. AreOps 0 ops) }
{
    let title = text(format!(in alloc; "{author}-{number}")?);
    let list = Op::Insert {
        table: LIST,
        values: ValueList::from_vec(vec![in alloc; title, Value::Int(9)]?),
    };
    let first = task(alloc, format!(in alloc; "{author}-{number}-0")?, words)?;
    let second = task(alloc, format!(in alloc; "{author}-{number}-1")?, words)?;
    Ok(OpList::from_vec(vec![in alloc; list, first, second]?))
}

/// Inserts a task with this title in the list that the first operation inserts.
fn task(alloc: Global, title: String, words: &mut Words) -> Result<Op, AllocError>
    requires { length (string_bytes title) ≤ MAX_TEXT }
    ensures { IfOk result (λ op. (prio : ℕ) × (prio < 9) × (op ≡ task_insert (string_bytes title) prio)) }
{
    let prio = words.word() % 9;
    let values = vec![in alloc;
        text(title),
        Value::Int(prio as i64),
        Value::Null,
        Value::Own(0),
        Value::Null,
    ]?;
    Ok(Op::Insert {
        table: TASK,
        values: ValueList::from_vec(values),
    })
}

/// A text as a value.
fn text(text: String) -> Value
    requires { length (string_bytes text) ≤ MAX_TEXT }
    ensures { result ≡ TextOf (string_bytes text) }
{
    Value::Text(TextValue::from_vec(text.into_bytes()))
}
