//! Numbers in decimal.

ghost use Rattle.std.specs.Prelude.{◌≡◌, ◌∷◌, ◌++◌, OnOk, OnErr};
ghost use mathlib.Core.List.{IsPrefix};
ghost use Rattle.std.specs.Fmt.{decimal, signed_decimal};

use itoa::Buffer;
use std::alloc::AllocError;

/// Adds a number.
pub(crate) fn push_number(out: &mut Vec<u8>, number: u32) -> Result<(), AllocError>
    ensures added { OnOk result (out.new.items ≡ out.old.items ++ decimal number) }
    ensures kept { OnErr result (IsPrefix out.old.items out.new.items) }
{
    let mut buffer = Buffer::new();
    out.extend_from_slice(buffer.format(number).as_bytes())
}

/// Adds a blank and a number.
pub(crate) fn push_spaced(out: &mut Vec<u8>, number: u32) -> Result<(), AllocError>
    ensures added { OnOk result (out.new.items ≡ out.old.items ++ 32 ∷ decimal number) }
    ensures kept { OnErr result (IsPrefix out.old.items out.new.items) }
{
    out.push(b' ')?;
    push_number(out, number)
}

/// Adds an integer, with a `-` before it where it is negative.
pub(crate) fn push_integer(out: &mut Vec<u8>, integer: i64) -> Result<(), AllocError>
    ensures added { OnOk result (out.new.items ≡ out.old.items ++ signed_decimal integer) }
    ensures kept { OnErr result (IsPrefix out.old.items out.new.items) }
{
    let mut buffer = Buffer::new();
    out.extend_from_slice(buffer.format(integer).as_bytes())
}
