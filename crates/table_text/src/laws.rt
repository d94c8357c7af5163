//! Laws of printing. Each function does nothing: its contract is a theorem for callers to cite.

ghost use Rattle.std.specs.Prelude.{◌≡◌, Some};
ghost use Rattle.text_words.specs.Hexadecimal.{row_of};
ghost use Rattle.update_model.specs.declared.row_name.RowName.{RowName};
ghost use Rattle.update_model.specs.Rows.{IsRowName};
ghost use Rattle.table_text.specs.declared.name_style.NameStyle.TheVariants.{Full};
ghost use Rattle.table_text.specs.Names.{name_text};

use text_words::integers_are_as_printed;

/// The whole name of a row is read again from what is printed of it.
pub fn names_are_read_again()
    ensures { (name : RowName) → IsRowName name → row_of (name_text Full name) ≡ Some (name.update.0, name.index) }
{
    integers_are_as_printed();
}
