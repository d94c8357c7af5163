//! What the lock keeps.
ghost use Rattle.std.specs.Prelude.{◌≡◌, ℕ, List, Option, length};

/// A value with a list of entries that grows.
pub trait Kept {
    /// One entry of the list. No value of it has to be made.
    type Entry;

    /// The entries, in order of arrival.
    ghost list: { Self → List Self.Entry };

    /// The seat and the act that added the entry, or none for an opening entry.
    ghost maker: { Self.Entry → Option (ℕ × ℕ) };

    /// The number of entries.
    fn count(&self) -> u64
        ensures { result ≡ length (list self.now) };
}
