ghost use Rattle.std.specs.Prelude.{ℕ};

/// An object that counts its faults. The count never falls, and stays at 2^64 - 1 once it is there.
pub trait Counted {
    /// How many faults there were.
    ghost faults: { Self → ℕ };
}
