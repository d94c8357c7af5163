//! Laws of pieces behind their lengths. Each function does nothing: its contract is a theorem for callers to cite.

ghost use Rattle.std.specs.Prelude.{◌≡◌, ℕ, ◌+◌, ◌<◌, ◌^◌, ◌++◌, List, length};
ghost use Rattle.bec_bytes.specs.Framed.{framed};

/// A piece takes four bytes more in a stream than it has.
pub fn framed_length()
    ensures { (piece : List ℕ) → length (framed piece) ≡ 4 + length piece }
{}

/// Two pieces that stand at the front of one stream are one.
pub fn one_piece()
    ensures { (piece other rest more : List ℕ)
        → length piece < 2 ^ 32 → length other < 2 ^ 32 → framed piece ++ rest ≡ framed other ++ more
        → (piece ≡ other) × (rest ≡ more) }
{}
