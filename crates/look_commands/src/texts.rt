//! The texts that are asked of members.

ghost use Rattle.std.specs.Prelude.{◌≡◌, [], IfOk, unwrap_or};
ghost use Rattle.command_words.specs.Seen.{listing_seen};
ghost use Rattle.graph_drawing.specs.Depths.{nodes_of};
ghost use Rattle.graph_drawing.specs.Pictures.{IsPicture};
ghost use Rattle.log_texts.specs.Finding.{show_text, who_text};
ghost use Rattle.outcomes.specs.Rules.{nodes_of as state_nodes, rules_of};
ghost use Rattle.tuple_state.specs.State.{IsStateOf};
ghost use Rattle.look_commands.specs.Texts.{IsListing, IsPage, IsPageWith, IsStatus, IsTextOf, counts_of, form_of};
ghost use Rattle.look_commands.specs.Texts.{style_of};

use crate::members::Members;
use crate::telling::told_of;
use command_words::Listing;
use graph_drawing::{Form, Told, draw, omitted};
use hash_graph::Graph;
use log_texts::{Entry, Style, entries_of, log_text, named_lines, show_text, who_text};
use page_text::{Counts, PageParts, database_name, page, status};
use query_answer::shown_lists;
use schema::Schema;
use std::alloc::{AllocError, Global};
use table_model::ShownRowList;
use update_check::Checked;

/// What is asked of the updates. What goes to standard error is added beside.
pub(crate) fn listing_text(
    alloc: Global,
    asked: &Listing,
    members: Members,
    beside: &mut Vec<u8>,
) -> Result<Vec<u8>, AllocError>
    requires { IsStateOf (rules_of members.schema.now) (state_nodes members.graph.now) members.tables.now }
    ensures { IfOk result (λ text. IsListing (listing_seen asked.now) members.entry.schema.now members.entry.graph.now
        text.items) }
{
    let told = told_of(alloc, members)?;
    let text = text_of(alloc, asked, members.schema, members.graph, &told, beside)?;
    Ok(text)
}

/// The same with what is told of the updates.
fn text_of(
    alloc: Global,
    asked: &Listing,
    schema: &Schema,
    graph: &Graph<Checked>,
    told: &Told,
    beside: &mut Vec<u8>,
) -> Result<Vec<u8>, AllocError>
    ensures { IfOk result (λ text. IsTextOf (listing_seen asked.now) schema.now.tables (nodes_of graph.now) told.now
        text.items) }
{
    match asked {
        Listing::Picture { dot } => {
            picture_of(alloc, form_of(*dot), schema, graph, told, beside)
        }
        Listing::Log { rows, full, json } => {
            let entries = entries_of(alloc, graph, told)?;
            log_text(alloc, style_of(*full, *json), *rows, schema, &entries)
        }
        Listing::Show { id, full, json } => {
            let entries = entries_of(alloc, graph, told)?;
            let style = style_of(*full, *json);
            shown_text(alloc, style, schema, id.as_bytes(), entries, beside)
        }
        Listing::Who { row, full, json } => {
            let entries = entries_of(alloc, graph, told)?;
            let style = style_of(*full, *json);
            written_text(alloc, style, schema, row.as_bytes(), entries)
        }
    }
}

/// The form of a picture.
fn form_of(dot: bool) -> Form
    ensures { result ≡ form_of dot }
{
    if dot { Form::Dot } else { Form::Svg }
}

/// How a text of updates is written.
pub(crate) fn style_of(full: bool, json: bool) -> Style
    ensures { result ≡ style_of full json }
{
    if json {
        Style::Json
    } else if full {
        Style::Whole
    } else {
        Style::Short
    }
}

/// A page that shows all. What goes to standard error is added beside.
pub(crate) fn page_of(
    alloc: Global,
    members: Members,
    beside: &mut Vec<u8>,
) -> Result<Vec<u8>, AllocError>
    requires { IsStateOf (rules_of members.schema.now) (state_nodes members.graph.now) members.tables.now }
    ensures { IfOk result (λ text. IsPage members.entry.schema.now members.entry.graph.now text.items) }
{
    let told = told_of(alloc, members)?;
    let lists = shown_lists(alloc, members.schema, members.tables)?;
    let text = page_with(
        alloc,
        members.schema,
        members.graph,
        &told,
        lists.as_slice(),
        beside,
    )?;
    Ok(text)
}

/// A page with what is told of the updates, the rows of each table and a picture.
fn page_with(
    alloc: Global,
    schema: &Schema,
    graph: &Graph<Checked>,
    told: &Told,
    lists: &[ShownRowList],
    beside: &mut Vec<u8>,
) -> Result<Vec<u8>, AllocError>
    ensures { IfOk result (λ text. IsPageWith schema.now graph.now told.now lists.now text.items) }
{
    let picture = picture_of(alloc, Form::Svg, schema, graph, told, beside)?;
    let title = database_name(alloc, schema.text())?;
    let parts = PageParts {
        title: title.as_slice(),
        schema,
        lists,
        voids: told.voids.as_slice(),
        picture: &picture,
    };
    let text = page(alloc, &parts)?;
    Ok(text)
}

/// How much there is.
pub(crate) fn status_of(alloc: Global, members: Members) -> Result<Vec<u8>, AllocError>
    requires { IsStateOf (rules_of members.schema.now) (state_nodes members.graph.now) members.tables.now }
    ensures { IfOk result (λ text. IsStatus members.entry.schema.now members.entry.graph.now text.items) }
{
    let told = told_of(alloc, members)?;
    let lists = shown_lists(alloc, members.schema, members.tables)?;
    let counts = counts_of(members.graph, &told);
    let text = status(alloc, &counts, members.schema, lists.as_slice())?;
    Ok(text)
}

/// How many updates there are, of which this is told.
fn counts_of(graph: &Graph<Checked>, told: &Told) -> Counts
    ensures { result ≡ counts_of graph.now told.now }
{
    Counts {
        updates: graph.len() as u64,
        heads: told.heads.len() as u64,
        voids: told.voids.len() as u64,
    }
}

/// A picture of the updates. That some are left out is said beside.
fn picture_of(
    alloc: Global,
    form: Form,
    schema: &Schema,
    graph: &Graph<Checked>,
    told: &Told,
    beside: &mut Vec<u8>,
) -> Result<Vec<u8>, AllocError>
    ensures { IfOk result (λ text. IsPicture form schema.now.tables (nodes_of graph.now) told.now text.items) }
{
    push_left_out(alloc, beside, omitted(graph.len()))?;
    draw(alloc, form, schema, graph, told)
}

/// Adds the line that says that so many updates are left out, if there are any.
fn push_left_out(alloc: Global, beside: &mut Vec<u8>, count: usize) -> Result<(), AllocError> {
    if count == 0 {
        return Ok(());
    }
    let line = format!(in alloc;
        "bec: only the newest updates are drawn; {count} older ones are left out\n"
    )?;
    beside.extend_from_slice(line.as_bytes())
}

/// The one update whose id begins so, or nothing. The ids of several go beside.
fn shown_text(
    alloc: Global,
    style: Style,
    schema: &Schema,
    word: &[u8],
    mut entries: Vec<Entry>,
    beside: &mut Vec<u8>,
) -> Result<Vec<u8>, AllocError>
    ensures { IfOk result (λ text. text.items ≡ unwrap_or (show_text style schema.now.tables word.now entries.items) []) }
{
    match show_text(alloc, style, schema, word, &mut entries)? {
        Some(text) => Ok(text),
        None => {
            *beside = named_lines(alloc, &entries)?;
            Ok(Vec::new(alloc))
        }
    }
}

/// The one update that inserts the row whose name begins so, or nothing.
fn written_text(
    alloc: Global,
    style: Style,
    schema: &Schema,
    word: &[u8],
    mut entries: Vec<Entry>,
) -> Result<Vec<u8>, AllocError>
    ensures { IfOk result (λ text. text.items ≡ unwrap_or (who_text style schema.now.tables word.now entries.items) []) }
{
    match who_text(alloc, style, schema, word, &mut entries)? {
        Some(text) => Ok(text),
        None => Ok(Vec::new(alloc)),
    }
}
