//! Cells of a table.

ghost use Rattle.std.specs.Prelude.{◌≡◌, ◌++◌, OnOk};
ghost use Rattle.page_text.specs.Cells.{cell, cell_of, cells, link_begin, link_to};
ghost use Rattle.page_text.specs.Marks.{html_text};
ghost use Rattle.table_text.specs.declared.name_style.NameStyle.TheVariants.{Full};
ghost use Rattle.table_text.specs.Values.{value_text};

use crate::marks::push_html;
use crate::numbers::push_short_name;
use std::alloc::AllocError;
use table_text::{NameStyle, push_row_name, push_value};
use update_model::{RowName, Value};

/// Adds the cells of a row.
pub(crate) fn push_cells(out: &mut Vec<u8>, values: &[Value]) -> Result<(), AllocError>
    ensures { OnOk result (out.new.items ≡ out.old.items ++ cells values.now) }
{
    for value in values {
        push_cell(out, value)?;
    }
    Ok(())
}

/// Adds the cell of a value.
fn push_cell(out: &mut Vec<u8>, value: &Value) -> Result<(), AllocError>
    ensures { OnOk result (out.new.items ≡ out.old.items ++ cell value.now) }
{
    match value {
        Value::Null => out.extend_from_slice(b"<td class=\"null\">null</td>"),
        Value::Text(text) => push_text_cell(out, text.as_slice()),
        Value::Row(name) => push_link_cell(out, name),
        _ => push_plain_cell(out, value),
    }
}

/// Adds the cell of a text.
fn push_text_cell(out: &mut Vec<u8>, text: &[u8]) -> Result<(), AllocError>
    ensures { OnOk result (out.new.items ≡ out.old.items ++ cell_of (html_text text.now)) }
{
    out.extend_from_slice(b"<td>")?;
    push_html(out, text)?;
    out.extend_from_slice(b"</td>")
}

/// Adds the cell of a row that is named.
fn push_link_cell(out: &mut Vec<u8>, name: &RowName) -> Result<(), AllocError>
    ensures { OnOk result (out.new.items ≡ out.old.items ++ cell_of (link_to name.now)) }
{
    out.extend_from_slice(b"<td>")?;
    push_link(out, name)?;
    out.extend_from_slice(b"</td>")
}

/// Adds the cell of a value that is as a dump has it.
fn push_plain_cell(out: &mut Vec<u8>, value: &Value) -> Result<(), AllocError>
    ensures { OnOk result (out.new.items ≡ out.old.items ++ cell_of (value_text Full value.now)) }
{
    out.extend_from_slice(b"<td>")?;
    push_value(out, NameStyle::Full, value)?;
    out.extend_from_slice(b"</td>")
}

/// Adds a short name that leads to the row.
#[tactic(auto, unfolding(crate::specs::Cells::link_to))]
fn push_link(out: &mut Vec<u8>, name: &RowName) -> Result<(), AllocError>
    ensures { OnOk result (out.new.items ≡ out.old.items ++ link_to name.now) }
{
    push_link_begin(out, name)?;
    push_short_name(out, name)?;
    out.extend_from_slice(b"</a>")
}

/// Adds where a link to a row leads.
#[tactic(auto, unfolding(crate::specs::Cells::link_begin))]
fn push_link_begin(out: &mut Vec<u8>, name: &RowName) -> Result<(), AllocError>
    ensures { OnOk result (out.new.items ≡ out.old.items ++ link_begin name.now) }
{
    out.extend_from_slice(b"<a class=\"id\" href=\"#r")?;
    push_row_name(out, NameStyle::Full, name)?;
    out.extend_from_slice(b"\">")
}
