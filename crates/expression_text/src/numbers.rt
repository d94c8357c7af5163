ghost use Rattle.std.specs.Prelude.{◌≡◌};
ghost use Rattle.expression_text.specs.Numbers.{small_number};

/// The number of a native check, which is at most 65,535.
pub(crate) fn check_number(n: i64) -> Option<u16>
    ensures { result ≡ small_number n }
{
    u16::try_from(n).ok()
}
