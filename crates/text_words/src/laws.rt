//! Laws of reading. Each function does nothing: its contract is a theorem for callers to cite.

ghost use Rattle.std.specs.Prelude.{◌≡◌, ◌↔◌, ℕ, ℤ, List, [], ◌∷◌, FitsSigned};
ghost use Rattle.std.specs.Fmt.{signed_decimal};
ghost use Rattle.std.specs.Int.{w64};
ghost use Rattle.text_words.specs.declared.literal.Literal.{Literal};
ghost use Rattle.text_words.specs.declared.style.Style.{Style};
ghost use Rattle.text_words.specs.declared.word.Word.{Word};
ghost use Rattle.text_words.specs.Grammar.{AreWords};
ghost use Rattle.text_words.specs.Integers.{int_of};
ghost use Rattle.text_words.specs.Lines.{AreLines, lines_of};
ghost use Rattle.text_words.specs.Literals.{value_of};
ghost use Rattle.text_words.specs.Printing.{literal_text, IsLiteral};
ghost use Rattle.text_words.specs.Words.{words_of};

/// A text has exactly one list of lines that, each with what ends it, are the text.
pub fn lines_are_the_text()
    ensures { (text : List ℕ) (lines : List (List ℕ)) → AreLines text lines ↔ (lines ≡ lines_of text) }
{}

/// The words that are read are those of the rules, so a line has at most one list of words.
pub fn words_are_by_rule()
    ensures { (style : Style) (line : List ℕ) (words : List Word) → AreWords style line words
        ↔ (words_of style line ≡ Some words) }
{}

/// An integer is read from a word exactly where the word is what is printed of it, and 64 bits hold it.
pub fn integers_are_as_printed()
    ensures { (word : List ℕ) (n : ℤ) → (int_of word ≡ Some n) ↔ ((word ≡ signed_decimal n) × FitsSigned w64 n) }
{}

/// What is printed of a value is one word in a line of either style, and the value is read from that word again.
pub fn values_are_read_again()
    ensures { (style : Style) (literal : Literal) → IsLiteral literal
        → (word : Word) × (words_of style (literal_text literal) ≡ Some (word ∷ [])) × (value_of word ≡ Some literal) }
{}
