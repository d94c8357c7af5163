//! One update of a log, and one row, each found by how its name begins.

ghost use Rattle.std.specs.Prelude.{◌≡◌, ◌≤◌, ◌∷◌, ◌++◌, IfOk, OnOk, bytes_eq, filter, length, option_copied};
ghost use Rattle.std.specs.Prelude.{option_map, position, take, unwrap_or};
ghost use Rattle.std.specs.Fmt.{decimal};
ghost use Rattle.std.specs.List.{flat_map};
ghost use Rattle.table_text.specs.Names.{id_text};
ghost use Rattle.log_texts.specs.Finding.{begins_so, colon_of, digits_in, found_in, insert_in, inserting, inserts_so};
ghost use Rattle.log_texts.specs.Finding.{is_colon, is_no_zero, named_id, named_line, named_lines, named_so, number_in};
ghost use Rattle.log_texts.specs.Finding.{show_text, who_text, without_zeros, zeros_of};

use crate::entry::Entry;
use crate::json::push_update_json;
use crate::lines::push_lines;
use crate::logs::manner_of;
use crate::manner::Manner;
use crate::style::Style;
use graph_drawing::{push_id, push_number};
use schema::Schema;
use std::alloc::{AllocError, Global};
use std::slice;
use text_words::ByteString;
use update_model::{Op, UpdateId};

/// The one entry whose id begins as this word does, with its note and its operations, if there is one. Those whose ids
/// begin so are left of the entries.
pub fn show_text(
    alloc: Global,
    style: Style,
    schema: &Schema,
    word: &[u8],
    entries: &mut Vec<Entry>,
) -> Result<Option<Vec<u8>>, AllocError>
    ensures text { IfOk result (λ found. option_map (λ text. text.items) found ≡ show_text style schema.now.tables
        word.now entries.old.items) }
    ensures left { IfOk result (λ found. entries.new.items ≡ named_so word.now entries.old.items) }
{
    let manner = manner_of(alloc, style, entries)?;
    keep_named(word, entries);
    match entries.as_slice() {
        [entry] => {
            let text = found_text(
                alloc,
                manner,
                schema,
                &entry.note,
                entry.placed.node.ops.as_slice(),
                entry,
            )?;
            Ok(Some(text))
        }
        _ => Ok(None),
    }
}

/// The one entry whose id begins as the name of this row does, with the operation that inserts the row, if there are
/// both. The entries whose ids begin so are left.
pub fn who_text(
    alloc: Global,
    style: Style,
    schema: &Schema,
    word: &[u8],
    entries: &mut Vec<Entry>,
) -> Result<Option<Vec<u8>>, AllocError>
    ensures { IfOk result (λ found. option_map (λ text. text.items) found ≡ who_text style schema.now.tables word.now
        entries.old.items) }
{
    let manner = manner_of(alloc, style, entries)?;
    let colon = colon_of(word);
    keep_named(&word[..colon], entries);
    match entries.as_slice() {
        [entry] => insert_text(alloc, manner, schema, &word[colon..], entry),
        _ => Ok(None),
    }
}

/// An entry with the operation that inserts the row whose name ends so, if there is one.
fn insert_text(
    alloc: Global,
    manner: Manner,
    schema: &Schema,
    ending: &[u8],
    entry: &Entry,
) -> Result<Option<Vec<u8>>, AllocError>
    ensures { IfOk result (λ found. option_map (λ text. text.items) found ≡ insert_in manner schema.now.tables
        ending.now entry.now) }
{
    match inserts_so(alloc, number_in(ending), entry.placed.node.ops.as_slice())? {
        Some(op) => {
            let text = found_text(alloc, manner, schema, &None, slice::from_ref(op), entry)?;
            Ok(Some(text))
        }
        None => Ok(None),
    }
}

/// The operation that inserts the row whose number is printed so.
fn inserts_so<'a>(alloc: Global, digits: &[u8], ops: &'a [Op]) -> Result<Option<&'a Op>, AllocError>
    ensures { IfOk result (λ found. option_copied found ≡ inserts_so digits.now 0 ops.now) }
{
    for number in 0..ops.len() {
        if is_number(alloc, digits, number)? {
            return Ok(inserting(&ops[number]));
        }
    }
    Ok(None)
}

/// Whether a number is printed so.
fn is_number(alloc: Global, digits: &[u8], number: usize) -> Result<bool, AllocError>
    ensures { IfOk result (λ is. is ≡ bytes_eq (decimal number) digits.now) }
{
    let mut text = Vec::new(alloc);
    push_number(&mut text, number as u64)?;
    Ok(text.as_slice() == digits)
}

/// The number that the end of a row's name has behind its colon, as it is printed. Without a colon it is that of the
/// first operation.
fn number_in(ending: &[u8]) -> &[u8]
    ensures { result.now ≡ number_in ending.now }
{
    match ending {
        [] => b"0",
        [_colon, digits @ ..] => without_zeros(digits),
    }
}

/// Digits without the zeros that they begin with, but for the last one.
fn without_zeros(digits: &[u8]) -> &[u8]
    ensures { result.now ≡ without_zeros digits.now }
{
    let zeros = zeros_of(digits);
    &digits[zeros.min(digits.len().saturating_sub(1))..]
}

/// How many zeros digits begin with.
fn zeros_of(digits: &[u8]) -> usize
    ensures { result ≡ zeros_of digits.now }
{
    match place_of_more(digits) {
        Some(zeros) => zeros,
        None => digits.len(),
    }
}

/// Where the first digit stands that is no zero.
fn place_of_more(digits: &[u8]) -> Option<usize>
    ensures { result ≡ position is_no_zero digits.now }
{
    digits.iter().position(|digit| *digit != b'0')
}

/// An operation, if it inserts a row.
fn inserting(op: &Op) -> Option<&Op>
    ensures { option_copied result ≡ inserting op.now }
{
    match op {
        Op::Insert { .. } => Some(op),
        Op::Delete { .. } => None,
    }
}

/// One entry with this note and these operations.
fn found_text(
    alloc: Global,
    manner: Manner,
    schema: &Schema,
    note: &Option<ByteString>,
    ops: &[Op],
    entry: &Entry,
) -> Result<Vec<u8>, AllocError>
    ensures { IfOk result (λ text. text.items ≡ found_in manner schema.now.tables note.now ops.now entry.now) }
{
    let mut text = Vec::new(alloc);
    match manner {
        Manner::Lines(names) => push_lines(&mut text, names, schema, note, ops, entry)?,
        Manner::Json => push_update_json(alloc, &mut text, schema, note, ops, entry)?,
    }
    Ok(text)
}

/// Leaves the entries whose ids begin as this word does.
fn keep_named(word: &[u8], entries: &mut Vec<Entry>)
    ensures { entries.new.items ≡ named_so word.now entries.old.items }
{
    keep_so(digits_in(word), entries);
}

/// Leaves the entries whose ids begin with these digits.
fn keep_so(digits: &[u8], entries: &mut Vec<Entry>)
    ensures { entries.new.items ≡ filter (begins_so digits.now) entries.old.items }
{
    entries.retain(|entry| begins_so(digits, entry));
}

/// The digits of a word, which may have two dots behind them.
fn digits_in(word: &[u8]) -> &[u8]
    ensures { result.now ≡ digits_in word.now }
{
    let end = word.len().saturating_sub(2);
    if &word[end..] == b"..".as_slice() {
        &word[..end]
    } else {
        word
    }
}

/// Whether the id of an entry begins with these digits, which are four at least.
fn begins_so(digits: &[u8], entry: &Entry) -> bool
    ensures { result ≡ begins_so digits.now entry.now }
{
    digits.len() >= 4 && starts_with(&id_digits(&entry.placed.node.id), digits)
}

/// The digits of an id.
fn id_digits(id: &UpdateId) -> [u8; 64]
    ensures { result ≡ id_text id.now }
{
    let mut digits = [0u8; 64];
    let _ = hex::encode_to_slice(id.0, &mut digits);
    digits
}

/// Whether a text begins so.
fn starts_with(text: &[u8], start: &[u8]) -> bool
    ensures { result ≡ bytes_eq (take (length start.now) text.now) start.now }
{
    &text[..start.len().min(text.len())] == start
}

/// Where the first colon of a word stands, or else its end.
fn colon_of(word: &[u8]) -> usize
    ensures within { result ≤ length word.now }
    ensures place { result ≡ colon_of word.now }
{
    match place_of_colon(word) {
        Some(place) => place,
        None => word.len(),
    }
}

/// Where the first colon of a word stands.
fn place_of_colon(word: &[u8]) -> Option<usize>
    ensures within { unwrap_or result (length word.now) ≤ length word.now }
    ensures place { result ≡ position is_colon word.now }
{
    word.iter().position(|byte| *byte == b':')
}

/// A line for each of these entries with its id, for standard error, if there are several.
pub fn named_lines(alloc: Global, entries: &[Entry]) -> Result<Vec<u8>, AllocError>
    ensures { IfOk result (λ text. text.items ≡ named_lines entries.now) }
{
    let mut text = Vec::new(alloc);
    if entries.len() > 1 {
        push_named(&mut text, entries)?;
    }
    Ok(text)
}

/// Adds a line for each of these entries with its id.
fn push_named(out: &mut Vec<u8>, entries: &[Entry]) -> Result<(), AllocError>
    ensures { OnOk result (out.new.items ≡ out.old.items ++ flat_map named_line entries.now) }
{
    for entry in entries {
        push_named_line(out, &entry.placed.node.id)?;
    }
    Ok(())
}

/// Adds the line of an id.
fn push_named_line(out: &mut Vec<u8>, id: &UpdateId) -> Result<(), AllocError>
    ensures { OnOk result (out.new.items ≡ out.old.items ++ named_id id.now) }
{
    out.extend_from_slice(b"bec: ")?;
    push_id(out, id)?;
    out.extend_from_slice(b"\n")
}
