//! Numbers and ids.

ghost use Rattle.std.specs.Prelude.{◌≡◌, ◌++◌, OnOk};
ghost use Rattle.std.specs.Fmt.{decimal};
ghost use Rattle.page_text.specs.Cells.{short_id, short_name};

use itoa::Buffer;
use std::alloc::AllocError;
use update_model::{RowName, UpdateId};

/// Adds a number in decimal.
pub(crate) fn push_number(out: &mut Vec<u8>, number: u64) -> Result<(), AllocError>
    ensures { OnOk result (out.new.items ≡ out.old.items ++ decimal number) }
{
    let mut buffer = Buffer::new();
    out.extend_from_slice(buffer.format(number).as_bytes())
}

/// Adds the first eight digits of an id.
pub(crate) fn push_short_id(out: &mut Vec<u8>, id: &UpdateId) -> Result<(), AllocError>
    ensures { OnOk result (out.new.items ≡ out.old.items ++ short_id id.now) }
{
    let mut digits = [0u8; 8];
    let _ = hex::encode_to_slice(&id.0[..4], &mut digits);
    out.extend_from_slice(&digits)
}

/// Adds the name of a row, with a short id.
pub(crate) fn push_short_name(out: &mut Vec<u8>, name: &RowName) -> Result<(), AllocError>
    ensures { OnOk result (out.new.items ≡ out.old.items ++ short_name name.now) }
{
    push_short_id(out, &name.update)?;
    out.push(b':')?;
    push_number(out, u64::from(name.index))
}
