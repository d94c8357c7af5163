//! Fronts of bytes, and what stands behind them.

ghost use Rattle.std.specs.Prelude.{◌≡◌, drop, take};

/// The bytes from a place on.
pub(crate) fn behind(bytes: &[u8], place: usize) -> &[u8]
    ensures { result.now ≡ drop place bytes.now }
{
    &bytes[place.min(bytes.len())..]
}

/// So many bytes of the front.
pub(crate) fn front_of(bytes: &[u8], count: usize) -> &[u8]
    ensures { result.now ≡ take count bytes.now }
{
    &bytes[..count.min(bytes.len())]
}
