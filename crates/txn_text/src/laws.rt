//! Laws of the definitions. Each function does nothing: its contract is a theorem for callers to cite.

ghost use Rattle.std.specs.Prelude.{◌≡◌, ℕ, List};
ghost use Rattle.update_model.specs.declared.op.Op.{Op};
ghost use Rattle.schema.specs.Data.{SchemaData};
ghost use Rattle.txn_text.specs.declared.fault.TextKind.{TextKind};
ghost use Rattle.txn_text.specs.Transactions.{Reads, FirstFault};

/// A text is at most one list of operations.
pub fn one_transaction()
    ensures { (schema : SchemaData) (text : List ℕ) (ops other : List Op)
        → Reads schema text ops → Reads schema text other → ops ≡ other }
{}

/// A text has at most one first fault.
pub fn one_fault()
    ensures { (schema : SchemaData) (text : List ℕ) (kind other : TextKind) (line number column place : ℕ)
        → FirstFault schema text kind line column → FirstFault schema text other number place
        → (kind ≡ other) × (line ≡ number) × (column ≡ place) }
{}

/// A text that is a list of operations has no fault.
pub fn no_fault()
    ensures { (schema : SchemaData) (text : List ℕ) (ops : List Op) (kind : TextKind) (line column : ℕ)
        → Reads schema text ops → FirstFault schema text kind line column → ⊥ }
{}
