//! Reading a whole text.

ghost use Rattle.std.specs.Prelude.{◌≡◌, ◌≤◌, ◌+◌, ◌<◌, ◌^◌, length, Ok, Err, true, IfOk, OnOk, IfErr, IsTrue};
ghost use Rattle.std.specs.Prelude.{MatchOption};
ghost use Rattle.text_words.specs.Lines.{lines_of};
ghost use Rattle.schema_text.specs.Drafts.{start, is_turn};
ghost use Rattle.schema_text.specs.Outcome.{HasCause, HasLineCause, HasFaultIn, Answers};
ghost use Rattle.schema_text.specs.Schemas.{Declares, FirstFault, Leads, LeadOn, FaultIn, IsGood, FormFault};
ghost use Rattle.schema_text.specs.Schemas.{IsComplete, schema_of};
ghost use Rattle.schema.specs.Data.{SchemaData};
ghost use Rattle.text_words.specs.Words.{passed_over};
ghost use Rattle.schema_text.specs.Forms.{HasForm, IsWhole};
ghost use Rattle.schema_text.specs.declared.fault.SchemaError.TheVariants.{Fault, Memory};
ghost use Rattle.schema_text.specs.Kept.{IsDraft};

use crate::draft::Draft;
use crate::draft_lists::AuthorList;
use crate::form::Form;
use crate::forms::{form_of, is_utf8};
use crate::kinds::{has_target, is_matchable, is_typed};
use crate::limits::is_within_limits;
use crate::names::is_named;
use crate::samples::has_sample;
use crate::{MAX_SCHEMA_BYTES, SchemaError, SchemaFault, SchemaKind, no_fault, one_schema};
use expression_text::one_expression;
use row_check::{Checks, Native, Relation};
use schema::{Schema, TableList};
use sha2::{Digest, Sha256};
use std::alloc::{AllocError, Global};
use std::mem;
use text_words::{is_passed_over, next_line};
use update_model::{ByteList, DbRule, KeyList};

/// The schema that a text declares.
///
/// A fault is the first one: the first line that has one, and in a line the first kind in the order Line, Limit, Name,
/// Target, WrongType, MatchKind, BadSample. A text of more than [`MAX_SCHEMA_BYTES`] is Limit at line 0. Samples are
/// tested by these native checks. The time is linear in the text.
pub fn read_schema<L: Relation, C: Checks<L>>(
    alloc: Global,
    text: &[u8],
    native: &Native<L, C>,
) -> Result<Schema, SchemaError>
    ensures found { IfOk result (λ schema. Declares L.answer text.now schema) }
    ensures only { (schema : SchemaData) → Declares L.answer text.now schema → Answers result schema }
    ensures fault { IfErr result (λ error. HasCause L.answer text.now error) }
{
    if MAX_SCHEMA_BYTES < text.len() {
        return Err(fault(SchemaKind::Limit, 0));
    }
    let mut draft = Draft::new(alloc);
    read_into(alloc, native, &mut draft, text)
}

/// The schema that a text declares, which is not too long, by way of a draft in which nothing stands.
fn read_into<L: Relation, C: Checks<L>>(
    alloc: Global,
    native: &Native<L, C>,
    draft: &mut Draft,
    text: &[u8],
) -> Result<Schema, SchemaError>
    requires few { length text.now ≤ MAX_SCHEMA_BYTES }
    requires start { draft.old ≡ start }
    ensures found { IfOk result (λ schema. Declares L.answer text.now schema) }
    ensures only { (schema : SchemaData) → Declares L.answer text.now schema → Answers result schema }
    ensures fault { IfErr result (λ error. HasCause L.answer text.now error) }
{
    one_schema();
    no_fault();
    take_lines(alloc, native, draft, text)?;
    schema_of(alloc, draft, text)
}

/// The schema of a draft, which loses its tables and authors, and the text that it is read from.
fn schema_of(alloc: Global, draft: &mut Draft, text: &[u8]) -> Result<Schema, SchemaError>
    requires draft { IsDraft draft.old }
    requires tables { 1 ≤ length draft.old.tables }
    ensures schema { IfOk result (λ schema. schema ≡ schema_of draft.old text.now) }
    ensures memory { IfErr result (λ error. error ≡ Memory) }
{
    let copy = ByteList::from_vec(Vec::from_slice(alloc, text)?);
    let tables = mem::replace(&mut draft.tables, TableList::from_vec(Vec::new(alloc)));
    let authors = mem::replace(&mut draft.authors, AuthorList::from_vec(Vec::new(alloc)));
    let rule = DbRule {
        database: Sha256::digest(text),
        authors: KeyList::from_vec(authors.into_vec()),
    };
    Ok(Schema::new(rule, tables, copy))
}

fn fault(kind: SchemaKind, line: u32) -> SchemaError
    ensures { result ≡ Fault (record { kind = kind; line = line }) }
{
    SchemaError::Fault(SchemaFault { kind, line })
}

/// Takes the lines of a text, which have to end with a table.
fn take_lines<L: Relation, C: Checks<L>>(
    alloc: Global,
    native: &Native<L, C>,
    draft: &mut Draft,
    text: &[u8],
) -> Result<(), SchemaError>
    requires few { length text.now ≤ MAX_SCHEMA_BYTES }
    requires start { draft.old ≡ start }
    ensures found { OnOk result (LeadOn L.answer 1 start (lines_of text.now) draft.new) }
    ensures complete { OnOk result (IsComplete draft.new) }
    ensures sound { OnOk result (IsDraft draft.new) }
    ensures fault { IfErr result (λ error. HasFaultIn L.answer text.now error) }
{
    one_expression();
    let mut number = 1;
    let mut rest = text;
    while let Some((line, after)) = next_line(rest) {
        take_line(alloc, native, draft, number, line)?;
        number += 1;
        rest = after;
    }
    if !draft.is_complete() {
        return Err(fault(SchemaKind::Line, number));
    }
    Ok(())
}

/// Takes the line with this number.
fn take_line<L: Relation, C: Checks<L>>(
    alloc: Global,
    native: &Native<L, C>,
    draft: &mut Draft,
    number: u32,
    line: &[u8],
) -> Result<(), SchemaError>
    requires { IsDraft draft.old }
    ensures taken { OnOk result (Leads L.answer number draft.old line.now draft.new) }
    ensures sound { OnOk result (IsDraft draft.new) }
    ensures fault { IfErr result (λ error. HasLineCause L.answer draft.old number line.now error) }
{
    if !is_utf8(line) {
        return Err(fault(SchemaKind::Line, number));
    }
    if is_passed_over(line) {
        return Ok(());
    }
    match form_of(alloc, line)? {
        Some(form) => take_form(alloc, native, draft, number, line, &form),
        None => Err(fault(SchemaKind::Line, number)),
    }
}

/// Takes the line with this number, of this form.
fn take_form<L: Relation, C: Checks<L>>(
    alloc: Global,
    native: &Native<L, C>,
    draft: &mut Draft,
    number: u32,
    line: &[u8],
    form: &Form,
) -> Result<(), SchemaError>
    requires draft { IsDraft draft.old }
    requires says { IsTrue (passed_over line.now) → ⊥ }
    requires form { HasForm line.now form.now }
    ensures taken { OnOk result (Leads L.answer number draft.old line.now draft.new) }
    ensures sound { OnOk result (IsDraft draft.new) }
    ensures fault { IfErr result (λ error. HasLineCause L.answer draft.old number line.now error) }
{
    one_expression();
    pass(alloc, native, draft, number, line, form)?;
    Ok(draft.add(alloc, number, form)?)
}

/// Passes the line with this number, of this form, where it is its turn and nothing is wrong with it.
fn pass<L: Relation, C: Checks<L>>(
    alloc: Global,
    native: &Native<L, C>,
    draft: &Draft,
    number: u32,
    line: &[u8],
    form: &Form,
) -> Result<(), SchemaError>
    requires draft { IsDraft draft.now }
    requires says { IsTrue (passed_over line.now) → ⊥ }
    requires form { HasForm line.now form.now }
    ensures turn { OnOk result (is_turn draft.now form.now ≡ true) }
    ensures good { OnOk result (IsGood L.answer draft.now form.now) }
    ensures fault { IfErr result (λ error. HasLineCause L.answer draft.now number line.now error) }
{
    if !draft.is_turn(form) {
        return Err(fault(SchemaKind::Line, number));
    }
    match judge(alloc, native, draft, form)? {
        Some(kind) => Err(fault(kind, number)),
        None => Ok(()),
    }
}

/// What is wrong with a line of this form, whose turn it is: the first kind that applies.
fn judge<L: Relation, C: Checks<L>>(
    alloc: Global,
    native: &Native<L, C>,
    draft: &Draft,
    form: &Form,
) -> Result<Option<SchemaKind>, AllocError>
    requires draft { IsDraft draft.now }
    requires whole { IsWhole form.now }
    ensures { IfOk result (λ found. MatchOption found (IsGood L.answer draft.now form.now) (λ kind.
        FormFault L.answer draft.now form.now kind)) }
{
    if !is_within_limits(draft, form) {
        return Ok(Some(SchemaKind::Limit));
    }
    if !is_named(alloc, draft, form)? {
        return Ok(Some(SchemaKind::Name));
    }
    if !has_target(alloc, draft, form)? {
        return Ok(Some(SchemaKind::Target));
    }
    if !is_typed(alloc, draft, form)? {
        return Ok(Some(SchemaKind::WrongType));
    }
    if !is_matchable(draft, form) {
        return Ok(Some(SchemaKind::MatchKind));
    }
    if !has_sample(alloc, native, draft, form)? {
        return Ok(Some(SchemaKind::BadSample));
    }
    Ok(None)
}
