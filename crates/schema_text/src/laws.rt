//! Laws of the definitions. Each function does no work: its contract is a theorem for callers to cite.

ghost use Rattle.std.specs.Prelude.{◌≡◌, ℕ, List, Some, IsUtf8};
ghost use Rattle.text_words.specs.Words.{skip_blanks};
ghost use Rattle.schema_text.specs.declared.fault.SchemaKind.{SchemaKind};
ghost use Rattle.schema_text.specs.declared.form.Form.{Form};
ghost use Rattle.schema_text.specs.Forms.{HasForm, IsWhole, form_at};
ghost use Rattle.schema_text.specs.Printing.{HasLine, form_text};
ghost use Rattle.schema.specs.Samples.{SamplesPass};
ghost use Rattle.schema.specs.Data.{Meaning, SchemaData};
ghost use Rattle.schema_text.specs.Schemas.{Declares, FirstFault};
ghost use Rattle.schema.specs.Sound.{IsSchema};

use expression_text::one_expression;
use text_words::{integers_are_as_printed, values_are_read_again, words_are_by_rule};

/// A text declares at most one schema.
pub fn one_schema()
    ensures { (relation : Meaning) (text : List ℕ) (schema other : SchemaData)
        → Declares relation text schema → Declares relation text other → schema ≡ other }
{
    one_expression();
}

/// A text has at most one first fault.
pub fn one_fault()
    ensures { (relation : Meaning) (text : List ℕ) (kind other : SchemaKind) (line place : ℕ)
        → FirstFault relation text kind line → FirstFault relation text other place → (kind ≡ other) × (line ≡ place) }
{
    one_expression();
}

/// A text that declares a schema has no fault.
pub fn no_fault()
    ensures { (relation : Meaning) (text : List ℕ) (schema : SchemaData) (kind : SchemaKind) (line : ℕ)
        → Declares relation text schema → FirstFault relation text kind line → ⊥ }
{
    one_expression();
}

/// Every schema that a text declares keeps what [`Schema`](schema::Schema) promises.
pub fn declared_is_sound()
    ensures { (relation : Meaning) (text : List ℕ) (schema : SchemaData) → Declares relation text schema
        → IsSchema schema }
{
    one_expression();
}

/// The samples of a schema that a text declares pass under the meaning of native checks under which it is declared.
pub fn declared_samples_pass()
    ensures { (relation : Meaning) (text : List ℕ) (schema : SchemaData) → Declares relation text schema
        → SamplesPass relation schema.tables }
{
    one_expression();
}

/// What is printed of a form is read as that form. Its names are to be words as they stand, as every name is, and a
/// table that is owned has to be deletable.
pub fn forms_are_read_again()
    ensures words { (form : Form) → HasLine form → form_at (skip_blanks (form_text form)) ≡ Some form }
    ensures form { (form : Form) → HasLine form → IsUtf8 (form_text form) → IsWhole form
        → HasForm (form_text form) form }
{
    words_are_by_rule();
    integers_are_as_printed();
    values_are_read_again();
}
