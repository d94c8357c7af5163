//! Laws of printing. Each function does nothing: its contract is a theorem for callers to cite.

ghost use Rattle.std.specs.Prelude.{ℕ, List};
ghost use Rattle.update_model.specs.declared.op.Op.{Op};
ghost use Rattle.schema.specs.Data.{SchemaData};
ghost use Rattle.txn_text.specs.Transactions.{Reads};
ghost use Rattle.txn_printing.specs.Printing.{transaction_text, AreNamed, IsPrintable};

use table_text::names_are_read_again;
use text_words::{integers_are_as_printed, values_are_read_again, words_are_by_rule};

/// What is printed of operations is read as these operations, over tables each of which is found by its name.
pub fn transactions_are_read_again()
    ensures { (schema : SchemaData) (ops : List Op) → AreNamed schema.tables → IsPrintable schema.tables ops
        → Reads schema (transaction_text schema.tables ops) ops }
{
    words_are_by_rule();
    integers_are_as_printed();
    values_are_read_again();
    names_are_read_again();
}
