//! Laws of the definitions. Each function does nothing: its contract is a theorem for callers to cite.

ghost use Rattle.std.specs.Prelude.{ℕ, List};
ghost use Rattle.std.specs.List.{AllByRecursion};
ghost use Rattle.page_text.specs.Marks.{IsNoMark, html_text};

/// What users wrote begins no element of a page, ends none, and ends no value of an attribute.
pub fn no_marks_in_texts()
    ensures { (text : List ℕ) → AllByRecursion IsNoMark (html_text text) }
{}
