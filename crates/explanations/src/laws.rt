//! Laws of rows. Each function does nothing: its contract is a theorem for callers to cite.

ghost use Rattle.std.specs.Prelude.{◌≡◌, ℕ, List};
ghost use Rattle.std.specs.List.{AllByRecursion, flat_map};
ghost use Rattle.explanations.specs.Rows.{IsShortRow, ended_row, laid, rows_of};

/// Each row that is laid out has at most 79 bytes, unless it is the front alone, or four blanks and one word.
pub fn rows_are_short()
    ensures rows { (front : List ℕ) (words : List (List ℕ)) → laid front words
        ≡ flat_map ended_row (rows_of front words) }
    ensures short { (front : List ℕ) (words : List (List ℕ))
        → AllByRecursion (IsShortRow front words) (rows_of front words) }
{}
