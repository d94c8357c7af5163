//! Laws of comma-separated values. Each function does no work: its contract is a theorem for callers to cite.

ghost use Rattle.std.specs.Prelude.{◌≡◌, ◌++◌, List, Some, ℕ};
ghost use Rattle.csv_text.specs.Csv.{BeginsOther, csv_quoted, text_at};

/// What is written of a text is read as that text, where no quote follows it. So no two texts are written alike.
pub fn texts_are_read_again()
    ensures again { (text rest : List ℕ) → BeginsOther rest → text_at (csv_quoted text ++ rest) ≡ Some (text, rest) }
    ensures apart { (text other : List ℕ) → csv_quoted text ≡ csv_quoted other → text ≡ other }
{}
