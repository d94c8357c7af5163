ghost use Rattle.std.specs.Prelude.{◌≡◌, ◌++◌, OnOk, OnErr};
ghost use mathlib.Core.List.{IsPrefix};
ghost use Rattle.table_text.specs.Names.{id_text, number_of, update_text, name_text};

use crate::NameStyle;
use crate::numbers::push_number;
use std::alloc::AllocError;
use update_model::{RowName, UpdateId};

/// Adds the id of an update at the end, in 64 lower-case hexadecimal digits.
pub(crate) fn push_id(out: &mut Vec<u8>, id: &UpdateId) -> Result<(), AllocError>
    ensures added { OnOk result (out.new.items ≡ out.old.items ++ id_text id.now) }
    ensures kept { OnErr result (IsPrefix out.old.items out.new.items) }
{
    let mut digits = [0u8; 64];
    let _ = hex::encode_to_slice(id.0, &mut digits);
    out.extend_from_slice(&digits)
}

/// Adds the name of a row at the end: its update, `:`, and the number of the operation in decimal.
pub fn push_row_name(out: &mut Vec<u8>, style: NameStyle, name: &RowName) -> Result<(), AllocError>
    ensures added { OnOk result (out.new.items ≡ out.old.items ++ name_text style name.now) }
    ensures kept { OnErr result (IsPrefix out.old.items out.new.items) }
{
    push_update(out, style, &name.update)?;
    out.push(b':')?;
    push_number(out, u32::from(name.index))
}

/// The number of an update of a counterexample.
pub(crate) fn number_of(id: &UpdateId) -> u32
    ensures { result ≡ number_of id.now }
{
    u32::from(id.0[31])
}

/// Adds what stands for an update in the name of a row.
fn push_update(out: &mut Vec<u8>, style: NameStyle, id: &UpdateId) -> Result<(), AllocError>
    ensures added { OnOk result (out.new.items ≡ out.old.items ++ update_text style id.now) }
    ensures kept { OnErr result (IsPrefix out.old.items out.new.items) }
{
    match style {
        NameStyle::Full => push_id(out, id),
        NameStyle::Short => push_number(out, number_of(id)),
    }
}
