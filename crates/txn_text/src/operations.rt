//! The operation of a line.

ghost use Rattle.std.specs.Prelude.{◌≡◌, ◌≤◌, ◌≤◌, Ok, Err, option_map, IfOk, IfErr, IfSome};
ghost use Rattle.std.specs.List.{AllByRecursion};
ghost use Rattle.update_model.specs.Rows.{IsOp, IsValue};
ghost use Rattle.txn_text.specs.Operations.{next_value, operation_of, WriteAll, WriteUpTo, IsOperation, GoesWrong};
ghost use Rattle.txn_text.specs.Outcome.{IsStop, IsVerb};

use crate::TextKind;
use crate::heads::{verb_at, wrong_at};
use crate::stop::Stop;
use crate::values::value_for;
use crate::verb::Verb;
use schema::Schema;
use std::alloc::Global;
use text_words::{Style, first_word, skip_blanks};
use update_model::{Op, Value, ValueList};

/// The operation that begins here, after so many others, and goes on to the end of its line.
pub(crate) fn operation_at(
    alloc: Global,
    schema: &Schema,
    before: u16,
    start: &[u8],
) -> Result<Op, Stop>
    ensures found { IfOk result (λ op. IsOperation schema.now.tables before start.now op) }
    ensures form { IfOk result (λ op. IsOp before op) }
    ensures wrong { IfErr result (λ stop. IsStop stop (λ wrong. GoesWrong schema.now.tables before start.now wrong)) }
{
    let (verb, rest) = verb_at(alloc, schema, before, start)?;
    let values = values_in(alloc, verb, before, rest)?;
    match operation_of(before, verb, values) {
        Some(op) => Ok(op),
        None => Err(Stop::Fault(wrong_at(TextKind::WrongNumber, &[]))),
    }
}

/// The values that the words in the rest of a line write.
fn values_in(alloc: Global, verb: Verb, before: u16, rest: &[u8]) -> Result<Vec<Value>, Stop>
    ensures found { IfOk result (λ values. WriteAll verb before rest.now values.items) }
    ensures form { IfOk result (λ values. AllByRecursion (IsValue before) values.items) }
    ensures wrong { IfErr result (λ stop. IsStop stop (λ wrong. WriteUpTo verb before rest.now wrong)) }
{
    let mut values = Vec::new(alloc);
    let mut left = rest;
    while let Some((value, after)) = next_value(alloc, verb, before, left)? {
        values.push(value)?;
        left = after;
    }
    Ok(values)
}

/// The next value in the rest of a line, and what stands after it. There is none where the line ends.
fn next_value(
    alloc: Global,
    verb: Verb,
    before: u16,
    rest: &[u8],
) -> Result<Option<(Value, &[u8])>, Stop>
    ensures found { IfOk result (λ found. next_value verb before rest.now ≡ Ok
        (option_map (λ read. (read.0, read.1.now)) found)) }
    ensures form { IfOk result (λ found. IfSome found (λ read. IsValue before read.0)) }
    ensures wrong { IfErr result (λ stop. IsStop stop (λ wrong. next_value verb before rest.now ≡ Err wrong)) }
{
    let start = skip_blanks(rest);
    if start.is_empty() {
        return Ok(None);
    }
    let Some((word, after)) = first_word(alloc, Style::Spaced, start)? else {
        return Err(Stop::Fault(wrong_at(TextKind::NotAValue, start)));
    };
    match value_for(verb, before, word) {
        Ok(value) => Ok(Some((value, after))),
        Err(kind) => Err(Stop::Fault(wrong_at(kind, start))),
    }
}

/// The operation of these values.
fn operation_of(before: u16, verb: Verb, values: Vec<Value>) -> Option<Op>
    requires verb { IsVerb verb }
    requires values { AllByRecursion (IsValue before) values.items }
    ensures found { result ≡ operation_of verb values.items }
    ensures form { IfSome result (λ op. IsOp before op) }
{
    match verb {
        Verb::Insert { table, columns } if values.len() == columns => Some(Op::Insert {
            table,
            values: ValueList::from_vec(values),
        }),
        Verb::Insert { .. } => None,
        Verb::Delete => match values.as_slice() {
            [Value::Row(row)] => Some(Op::Delete { row: *row }),
            _ => None,
        },
    }
}
