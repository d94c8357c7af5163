//! The updates of a page that do nothing.

ghost use Rattle.std.specs.Prelude.{◌≡◌, ◌++◌, OnOk};
ghost use Rattle.std.specs.Fmt.{decimal};
ghost use Rattle.std.specs.List.{flat_map};
ghost use Rattle.page_text.specs.Cells.{cell_of, short_id};
ghost use Rattle.page_text.specs.Parts.{void_part, voids_head, voids_part, why};

use crate::numbers::{push_number, push_short_id};
use std::alloc::AllocError;
use table_model::VoidLine;
use table_model::reason::{
    CHECK_FALSE, MATCH_FALSE, MISFIT, NO_TABLE, NO_TARGET, NOT_DELETABLE, NOT_OWNER, RESTRICTED,
};
use update_model::UpdateId;

/// Adds the updates that do nothing, if there are any.
#[tactic(auto, unfolding(crate::specs::Parts::voids_part))]
pub(crate) fn push_voids(out: &mut Vec<u8>, voids: &[VoidLine]) -> Result<(), AllocError>
    ensures { OnOk result (out.new.items ≡ out.old.items ++ voids_part voids.now) }
{
    if voids.is_empty() {
        return Ok(());
    }
    out.extend_from_slice(voids_head())?;
    push_lines(out, voids)?;
    out.extend_from_slice(b"</table>\n")
}

/// What stands above the updates that do nothing.
#[tactic(auto, unfolding(crate::specs::Parts::voids_head))]
fn voids_head() -> &'static [u8]
    ensures { result.now ≡ voids_head }
{
    b"<h2>Updates that do nothing</h2>\n<table><tr><th>update</th><th>why</th><th>operation</th></tr>\n"
}

/// Adds the lines of updates that do nothing.
fn push_lines(out: &mut Vec<u8>, voids: &[VoidLine]) -> Result<(), AllocError>
    ensures { OnOk result (out.new.items ≡ out.old.items ++ flat_map void_part voids.now) }
{
    for line in voids {
        push_line(out, line)?;
    }
    Ok(())
}

/// Adds the line of an update that does nothing.
#[tactic(auto, unfolding(crate::specs::Parts::void_part))]
fn push_line(out: &mut Vec<u8>, line: &VoidLine) -> Result<(), AllocError>
    ensures { OnOk result (out.new.items ≡ out.old.items ++ void_part line.now) }
{
    out.extend_from_slice(b"<tr>")?;
    push_id_cell(out, &line.id)?;
    push_why_cell(out, line.reason)?;
    push_number_cell(out, u64::from(line.operation))?;
    out.extend_from_slice(b"</tr>\n")
}

/// Adds the cell of an id.
fn push_id_cell(out: &mut Vec<u8>, id: &UpdateId) -> Result<(), AllocError>
    ensures { OnOk result (out.new.items ≡ out.old.items ++ cell_of (short_id id.now)) }
{
    out.extend_from_slice(b"<td>")?;
    push_short_id(out, id)?;
    out.extend_from_slice(b"</td>")
}

/// Adds the cell of a reason.
fn push_why_cell(out: &mut Vec<u8>, reason: u8) -> Result<(), AllocError>
    ensures { OnOk result (out.new.items ≡ out.old.items ++ cell_of (why reason)) }
{
    out.extend_from_slice(b"<td>")?;
    out.extend_from_slice(why(reason))?;
    out.extend_from_slice(b"</td>")
}

/// Adds the cell of a number.
fn push_number_cell(out: &mut Vec<u8>, number: u64) -> Result<(), AllocError>
    ensures { OnOk result (out.new.items ≡ out.old.items ++ cell_of (decimal number)) }
{
    out.extend_from_slice(b"<td>")?;
    push_number(out, number)?;
    out.extend_from_slice(b"</td>")
}

/// Why an update does nothing.
fn why(reason: u8) -> &'static [u8]
    ensures { result.now ≡ why reason }
{
    match reason {
        NO_TABLE => b"there is no such table",
        MISFIT => b"values do not fit the columns",
        CHECK_FALSE => b"a CHECK is false",
        NO_TARGET => b"a row that it names is not there",
        MATCH_FALSE => b"a MATCH is false",
        NOT_DELETABLE => b"a row cannot be deleted",
        NOT_OWNER => b"it deletes another author's row",
        RESTRICTED => b"a row names the deleted one",
        _ => b"another row has this value",
    }
}
