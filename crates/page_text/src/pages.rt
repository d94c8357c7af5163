//! The page of a store.

ghost use Rattle.std.specs.Prelude.{◌≡◌, ◌++◌, IfOk, OnOk};
ghost use Rattle.page_text.specs.Pages.{back, closing, front, heading, history, history_begin, look_of_cells};
ghost use Rattle.page_text.specs.Pages.{look_of_names, look_of_others, look_of_pages, looks, opening, page_text};
ghost use Rattle.page_text.specs.Pages.{title_end, title_line, titled};

use crate::page_parts::PageParts;
use crate::rows::push_tables;
use crate::voids::push_voids;
use std::alloc::{AllocError, Global};
use table_model::VoidLine;

/// One page of HTML that shows these parts: the tables with their rows, the updates that do nothing, and the history.
/// It loads nothing. It gives up where memory runs out.
#[tactic(auto, unfolding(crate::specs::Pages::page_text))]
pub fn page(alloc: Global, parts: &PageParts) -> Result<Vec<u8>, AllocError>
    ensures { IfOk result (λ text. text.items ≡ page_text parts.now.title.now parts.now.schema.now.tables
        parts.now.lists.now parts.now.voids.now parts.now.picture.now) }
{
    let mut out = Vec::new(alloc);
    push_front(&mut out, parts.title)?;
    push_tables(&mut out, parts.schema, parts.lists)?;
    push_back(&mut out, parts.voids, parts.picture)?;
    Ok(out)
}

/// Adds all that stands above the tables.
#[tactic(auto, unfolding(crate::specs::Pages::front))]
fn push_front(out: &mut Vec<u8>, title: &[u8]) -> Result<(), AllocError>
    ensures { OnOk result (out.new.items ≡ out.old.items ++ front title.now) }
{
    push_opening(out)?;
    push_looks(out)?;
    push_titled(out, title)
}

/// Adds all that stands below the tables.
#[tactic(auto, unfolding(crate::specs::Pages::back))]
fn push_back(out: &mut Vec<u8>, voids: &[VoidLine], picture: &[u8]) -> Result<(), AllocError>
    ensures { OnOk result (out.new.items ≡ out.old.items ++ back voids.now picture.now) }
{
    push_voids(out, voids)?;
    push_history(out, picture)
}

/// Adds what a page begins with.
#[tactic(auto, unfolding(crate::specs::Pages::opening))]
fn push_opening(out: &mut Vec<u8>) -> Result<(), AllocError>
    ensures { OnOk result (out.new.items ≡ out.old.items ++ opening) }
{
    out.extend_from_slice(b"<!doctype html>\n<html lang=\"en\"><head><meta charset=\"utf-8\">")?;
    out.extend_from_slice(b"<meta name=\"viewport\" content=\"width=device-width\">\n")
}

/// Adds how all of it looks.
#[tactic(auto, unfolding(crate::specs::Pages::looks))]
fn push_looks(out: &mut Vec<u8>) -> Result<(), AllocError>
    ensures { OnOk result (out.new.items ≡ out.old.items ++ looks) }
{
    out.extend_from_slice(look_of_pages())?;
    out.extend_from_slice(look_of_cells())?;
    out.extend_from_slice(look_of_names())?;
    out.extend_from_slice(look_of_others())
}

/// How a page looks.
#[tactic(auto, unfolding(crate::specs::Pages::look_of_pages))]
fn look_of_pages() -> &'static [u8]
    ensures { result.now ≡ look_of_pages }
{
    b"<style>\nbody { font: 16px/1.5 sans-serif; margin: 2em; color: #222 } table { border-collapse: collapse }"
}

/// How the cells of tables look.
#[tactic(auto, unfolding(crate::specs::Pages::look_of_cells))]
fn look_of_cells() -> &'static [u8]
    ensures { result.now ≡ look_of_cells }
{
    b" th, td { border: 1px solid #bbb; padding: .3em .7em; text-align: left; vertical-align: top; white-space: pre-wrap }\n"
}

/// How heads and names look.
#[tactic(auto, unfolding(crate::specs::Pages::look_of_names))]
fn look_of_names() -> &'static [u8]
    ensures { result.now ≡ look_of_names }
{
    b"th { background: #eee } td:first-child, .id { font-family: monospace; color: #666 }"
}

/// How the rest looks.
#[tactic(auto, unfolding(crate::specs::Pages::look_of_others))]
fn look_of_others() -> &'static [u8]
    ensures { result.now ≡ look_of_others }
{
    b" .null { color: #aaa } .picture { overflow: auto; border: 1px solid #bbb } tr:target { background: #ffc }\n</style>\n"
}

/// Adds the name of the database, in the title and above all.
#[tactic(auto, unfolding(crate::specs::Pages::titled))]
fn push_titled(out: &mut Vec<u8>, title: &[u8]) -> Result<(), AllocError>
    ensures { OnOk result (out.new.items ≡ out.old.items ++ titled title.now) }
{
    push_title_line(out, title)?;
    push_heading(out, title)
}

/// Adds the title.
#[tactic(auto, unfolding(crate::specs::Pages::title_line))]
fn push_title_line(out: &mut Vec<u8>, title: &[u8]) -> Result<(), AllocError>
    ensures { OnOk result (out.new.items ≡ out.old.items ++ title_line title.now) }
{
    out.extend_from_slice(b"<title>")?;
    out.extend_from_slice(title)?;
    out.extend_from_slice(title_end())
}

/// What ends the title.
#[tactic(auto, unfolding(crate::specs::Pages::title_end))]
fn title_end() -> &'static [u8]
    ensures { result.now ≡ title_end }
{
    b"</title></head><body>\n"
}

/// Adds the name of the database above all.
#[tactic(auto, unfolding(crate::specs::Pages::heading))]
fn push_heading(out: &mut Vec<u8>, title: &[u8]) -> Result<(), AllocError>
    ensures { OnOk result (out.new.items ≡ out.old.items ++ heading title.now) }
{
    out.extend_from_slice(b"<h1>")?;
    out.extend_from_slice(title)?;
    out.extend_from_slice(b"</h1>\n")
}

/// Adds the picture of the history, and the end of the page.
#[tactic(auto, unfolding(crate::specs::Pages::history))]
fn push_history(out: &mut Vec<u8>, picture: &[u8]) -> Result<(), AllocError>
    ensures { OnOk result (out.new.items ≡ out.old.items ++ history picture.now) }
{
    out.extend_from_slice(history_begin())?;
    out.extend_from_slice(picture)?;
    out.extend_from_slice(closing())
}

/// What stands above the picture.
#[tactic(auto, unfolding(crate::specs::Pages::history_begin))]
fn history_begin() -> &'static [u8]
    ensures { result.now ≡ history_begin }
{
    b"<h2>History</h2>\n<div class=\"picture\">\n"
}

/// What ends the page.
#[tactic(auto, unfolding(crate::specs::Pages::closing))]
fn closing() -> &'static [u8]
    ensures { result.now ≡ closing }
{
    b"</div>\n</body></html>\n"
}
