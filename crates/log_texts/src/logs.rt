//! The text of a log.

ghost use Rattle.std.specs.Prelude.{◌≡◌, ◌++◌, IfOk, OnOk};
ghost use Rattle.std.specs.List.{flat_map};
ghost use Rattle.log_texts.specs.Entries.{ids_of};
ghost use Rattle.log_texts.specs.Lines.{asked_ops, lines_text};
ghost use Rattle.log_texts.specs.Logs.{log_in, log_text, manner_of};

use crate::digits::digits_of;
use crate::entries::ids_of;
use crate::entry::Entry;
use crate::json::push_updates_json;
use crate::lines::{asked_ops, push_lines};
use crate::manner::Manner;
use crate::names::Names;
use crate::style::Style;
use schema::Schema;
use std::alloc::{AllocError, Global};
use update_model::UpdateId;

/// The log of these entries: of each a line with its id, its author, its depth, whether it is a head, and why it does
/// nothing if so; behind it a line with its note, if it has one; and behind these what the update does, if `rows` says
/// so. Or the same as one JSON object.
pub fn log_text(
    alloc: Global,
    style: Style,
    rows: bool,
    schema: &Schema,
    entries: &[Entry],
) -> Result<Vec<u8>, AllocError>
    ensures { IfOk result (λ text. text.items ≡ log_text style rows schema.now.tables entries.now) }
{
    let manner = manner_of(alloc, style, entries)?;
    let mut text = Vec::new(alloc);
    push_log(alloc, &mut text, manner, rows, schema, entries)?;
    Ok(text)
}

/// How entries are written, where these are those of the whole log.
pub(crate) fn manner_of(
    alloc: Global,
    style: Style,
    entries: &[Entry],
) -> Result<Manner, AllocError>
    ensures { IfOk result (λ manner. manner ≡ manner_of style (ids_of entries.now)) }
{
    let ids = ids_of(alloc, entries)?;
    manner_by(alloc, style, &ids)
}

/// How entries are written, where these ids are to be told apart.
pub(crate) fn manner_by(alloc: Global, style: Style, ids: &[UpdateId]) -> Result<Manner, AllocError>
    ensures { IfOk result (λ manner. manner ≡ manner_of style ids.now) }
{
    match style {
        Style::Whole => Ok(Manner::Lines(Names::Whole)),
        Style::Short => Ok(Manner::Lines(Names::Cut(digits_of(alloc, ids)?))),
        Style::Json => Ok(Manner::Json),
    }
}

/// Adds all entries.
fn push_log(
    alloc: Global,
    out: &mut Vec<u8>,
    manner: Manner,
    rows: bool,
    schema: &Schema,
    entries: &[Entry],
) -> Result<(), AllocError>
    ensures { OnOk result (out.new.items ≡ out.old.items ++ log_in manner rows schema.now.tables entries.now) }
{
    match manner {
        Manner::Lines(names) => push_all(out, names, rows, schema, entries),
        Manner::Json => push_updates_json(alloc, out, rows, schema, entries),
    }
}

/// Adds the lines of all entries.
fn push_all(
    out: &mut Vec<u8>,
    names: Names,
    rows: bool,
    schema: &Schema,
    entries: &[Entry],
) -> Result<(), AllocError>
    ensures { OnOk result (out.new.items ≡ out.old.items ++ flat_map (λ entry. lines_text names schema.now.tables
        entry.note (asked_ops rows entry) entry) entries.now) }
{
    for entry in entries {
        push_lines(
            out,
            names,
            schema,
            &entry.note,
            asked_ops(rows, entry),
            entry,
        )?;
    }
    Ok(())
}
