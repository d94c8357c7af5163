ghost use Rattle.std.specs.Prelude.{◌≡◌, ℕ, List, Bool, Option, IfOk};
ghost use Rattle.std.specs.Option.{option_copied};
ghost use Rattle.update_model.specs.declared.row_entry.RowEntry.{RowEntry};
ghost use Rattle.update_model.specs.declared.row_name.RowName.{RowName};
ghost use Rattle.update_model.specs.declared.value.Value.{Value};

use crate::{RowEntry, RowName, Value};
use std::alloc::{AllocError, Global};

/// The rows that are visible in one stated set of updates. All answers speak of that set.
///
/// Every call gives up where memory runs out.
pub trait RowsAt {
    // the visible row with a name, where there is one
    ghost row: { Self → RowName → Option RowEntry };

    // whether a visible row names this one by a RESTRICT reference
    ghost has_child: { Self → RowName → Bool };

    // how many visible rows of a table have a value in a column
    ghost equal_count: { Self → ℕ → ℕ → Value → ℕ };

    // how many visible rows a table has
    ghost count: { Self → ℕ → ℕ };

    /// The row with this name, where it is visible.
    fn row_at(&self, alloc: Global, name: &RowName) -> Result<Option<&RowEntry>, AllocError>
        ensures { IfOk result (λ found. option_copied found ≡ row self.now name.now) };

    /// Whether a visible row names this one by a RESTRICT reference.
    fn restrict_child(&self, alloc: Global, name: &RowName) -> Result<bool, AllocError>
        ensures { IfOk result (λ answer. answer ≡ has_child self.now name.now) };

    /// How many visible rows of the table have this value in this column.
    fn equal_rows(
        &self,
        alloc: Global,
        table: u8,
        column: u8,
        value: &Value,
    ) -> Result<u32, AllocError>
        ensures { IfOk result (λ number. number ≡ equal_count self.now table column value.now) };

    /// How many visible rows the table has.
    fn row_count(&self, alloc: Global, table: u8) -> Result<u32, AllocError>
        ensures { IfOk result (λ number. number ≡ count self.now table) };
}
