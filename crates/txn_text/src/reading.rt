//! Reading a whole text.

ghost use Rattle.std.specs.Prelude.{◌≡◌, ◌≤◌, ◌+◌, ◌<◌, ℕ, List, length, IfOk, IfErr, IfSome, OnOk, MatchOption};
ghost use Rattle.std.specs.Prelude.{IsUtf8};
ghost use Rattle.std.specs.Str.{IsValidUpTo};
ghost use Rattle.update_model.specs.declared.op.Op.{Op as Operation};
ghost use Rattle.update_model.specs.Rows.{IsOp};
ghost use Rattle.text_words.specs.Lines.{lines_of};
ghost use Rattle.txn_text.specs.Operations.{IsBlank};
ghost use Rattle.txn_text.specs.Outcome.{HasCause, HasLineCause, HasFaultIn, Answers, MayStand, IsTaken};
ghost use Rattle.txn_text.specs.Transactions.{Reads, LineIs, LinesAre, IsSeen, IsCutShort, ends_before, place_in};
ghost use Rattle.txn_text.specs.Transactions.{is_not_utf8};

use crate::operations::operation_at;
use crate::stop::{Stop, Wrong};
use crate::{MAX_TRANSACTION_BYTES, TextError, TextFault, TextKind, no_fault, one_transaction};
use schema::Schema;
use std::alloc::Global;
use std::str;
use text_words::{next_line, skip_blanks};
use update_model::{Op, OpList};

/// The operations that a text is, over the tables of a schema.
///
/// A fault is the first one: the first line that has one, and in a line the first from left to right. A text of more
/// than [`MAX_TRANSACTION_BYTES`] is TooLong at 1:1. A body may hold the operations that are found. The time is linear
/// in the text.
pub fn read_txn(alloc: Global, schema: &Schema, text: &[u8]) -> Result<OpList, TextError>
    ensures found { IfOk result (λ ops. Reads schema.now text.now ops) }
    ensures form { IfOk result (λ ops. MayStand ops) }
    ensures only { (ops : List Operation) → Reads schema.now text.now ops → Answers result ops }
    ensures fault { IfErr result (λ error. HasCause schema.now text.now error) }
{
    if MAX_TRANSACTION_BYTES < text.len() {
        return Err(TextError::Fault(TextFault {
            line: 1,
            column: 1,
            kind: TextKind::TooLong,
        }));
    }
    one_transaction();
    no_fault();
    let ops = read_lines(alloc, schema, text)?;
    Ok(OpList::from_vec(ops))
}

/// The operations of the lines of a text.
fn read_lines(alloc: Global, schema: &Schema, text: &[u8]) -> Result<Vec<Op>, TextError>
    requires { length text.now ≤ MAX_TRANSACTION_BYTES }
    ensures found { IfOk result (λ ops. LinesAre schema.now.tables 0 (lines_of text.now) ops.items) }
    ensures form { IfOk result (λ ops. MayStand ops.items) }
    ensures fault { IfErr result (λ error. HasFaultIn schema.now.tables text.now error) }
{
    let mut ops = Vec::new(alloc);
    let mut number = 1;
    let mut rest = text;
    while let Some((line, after)) = next_line(rest) {
        take_line(alloc, schema, &mut ops, number, line)?;
        number += 1;
        rest = after;
    }
    Ok(ops)
}

/// Takes the line with this number after these operations.
fn take_line(
    alloc: Global,
    schema: &Schema,
    ops: &mut Vec<Op>,
    number: u32,
    line: &[u8],
) -> Result<(), TextError>
    requires ops { MayStand ops.old.items }
    requires line { length line.now ≤ MAX_TRANSACTION_BYTES }
    ensures taken { OnOk result (IsTaken schema.now.tables ops.old.items line.now ops.new.items) }
    ensures form { OnOk result (MayStand ops.new.items) }
    ensures fault { IfErr result (λ error. HasLineCause schema.now.tables (length ops.old.items) number line.now error) }
{
    let before = ops.len() as u16;
    match read_line(alloc, schema, before, number, line)? {
        Some(op) => Ok(ops.push(op)?),
        None => Ok(()),
    }
}

/// The operation of the line with this number, after so many others. There is none in a blank line.
fn read_line(
    alloc: Global,
    schema: &Schema,
    before: u16,
    number: u32,
    line: &[u8],
) -> Result<Option<Op>, TextError>
    requires { length line.now ≤ MAX_TRANSACTION_BYTES }
    ensures found { IfOk result (λ found. MatchOption found (IsBlank line.now) (λ op. LineIs schema.now.tables before
        line.now op)) }
    ensures form { IfOk result (λ found. IfSome found (λ op. IsOp before op)) }
    ensures fault { IfErr result (λ error. HasLineCause schema.now.tables before number line.now error) }
{
    let start = skip_blanks(line);
    if start.is_empty() {
        return Ok(None);
    }
    match operation_at(alloc, schema, before, start) {
        Ok(op) => Ok(Some(op)),
        Err(Stop::Fault(wrong)) => Err(TextError::Fault(seen(number, line, wrong))),
        Err(Stop::Memory) => Err(TextError::Memory),
    }
}

/// The fault that is seen where something is wrong in the line with this number.
fn seen(number: u32, line: &[u8], wrong: Wrong) -> TextFault
    requires { length line.now ≤ MAX_TRANSACTION_BYTES }
    ensures seen { IsSeen line.now wrong result.kind result.column }
    ensures line { result.line ≡ number }
{
    match cut_short(line, wrong) {
        Some(front) => TextFault {
            line: number,
            column: front as u32 + 1,
            kind: TextKind::NotUtf8,
        },
        None => TextFault {
            line: number,
            column: place_in(line, wrong) as u32 + 1,
            kind: wrong.kind,
        },
    }
}

/// How many bytes of UTF-8 a line begins with, where they end at what is wrong or before it.
fn cut_short(line: &[u8], wrong: Wrong) -> Option<usize>
    ensures { MatchOption result ((front : ℕ) → IsCutShort line.now wrong front
        → ⊥) (λ front. IsCutShort line.now wrong front) }
{
    match front_of_utf8(line) {
        Some(front) if ends_before(line, wrong, front) => Some(front),
        _ => None,
    }
}

/// Whether a front of so many bytes ends at what is wrong or before it, or inside a text that is wrong for this.
fn ends_before(line: &[u8], wrong: Wrong, front: usize) -> bool
    ensures { result ≡ ends_before line.now wrong front }
{
    is_not_utf8(wrong.kind) || front <= place_in(line, wrong)
}

/// The place of what is wrong in a line, from 0.
fn place_in(line: &[u8], wrong: Wrong) -> usize
    ensures { result ≡ place_in line.now wrong }
{
    line.len().saturating_sub(wrong.left)
}

fn is_not_utf8(kind: TextKind) -> bool
    ensures { result ≡ is_not_utf8 kind }
{
    matches!(kind, TextKind::NotUtf8)
}

/// How many bytes the longest front of UTF-8 has, where that is not all of the line.
fn front_of_utf8(line: &[u8]) -> Option<usize>
    ensures { MatchOption result (IsUtf8 line.now) (λ front. IsValidUpTo line.now front) }
{
    match str::from_utf8(line) {
        Ok(_) => None,
        Err(error) => Some(error.valid_up_to()),
    }
}
