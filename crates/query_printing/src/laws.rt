//! Laws of printing. Each function does nothing: its contract is a theorem for callers to cite.

ghost use Rattle.std.specs.Prelude.{◌≡◌, List, Ok};
ghost use Rattle.expression_text.specs.declared.token.Token.{Token as Word};
ghost use Rattle.schema.specs.Data.{SchemaData};
ghost use Rattle.query.specs.Pieces.{pieces_of};
ghost use Rattle.query.specs.Queries.{QueryData, Reads, Say};
ghost use Rattle.query_printing.specs.Printing.{words_text, IsPrintable};

use text_words::{integers_are_as_printed, values_are_read_again, words_are_by_rule};

/// The text that is printed of words has these words; and where they say a query, it is that query.
pub fn words_are_read_again()
    ensures words { (words : List Word) → IsPrintable words → (pieces_of (words_text words)).0 ≡ words }
    ensures query { (schema : SchemaData) (words : List Word) (query : QueryData) → IsPrintable words
        → Say schema.tables words (Ok query)
        → Reads schema (words_text words) query }
{
    words_are_by_rule();
    integers_are_as_printed();
    values_are_read_again();
}
