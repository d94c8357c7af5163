//! Laws of the definitions. Each function does nothing: its contract is a theorem for callers to cite.

ghost use Rattle.std.specs.Prelude.{◌≡◌, ℕ, List};
ghost use Rattle.schema.specs.Data.{SchemaData};
ghost use Rattle.query.specs.declared.fault.QueryKind.{QueryKind};
ghost use Rattle.query.specs.declared.stop.Spot.{Spot};
ghost use Rattle.query.specs.Queries.{QueryData, Reads, FirstFault};

use expression_text::one_expression;

/// A text is at most one query.
pub fn one_query()
    ensures { (schema : SchemaData) (text : List ℕ) (query other : QueryData)
        → Reads schema text query → Reads schema text other → query ≡ other }
{
    one_expression();
}

/// A text has at most one first fault.
pub fn one_fault()
    ensures { (schema : SchemaData) (text : List ℕ) (kind other : QueryKind) (spot place : Spot)
        → FirstFault schema text kind spot → FirstFault schema text other place → (kind ≡ other) × (spot ≡ place) }
{
    one_expression();
}

/// A text that is a query has no fault.
pub fn no_fault()
    ensures { (schema : SchemaData) (text : List ℕ) (query : QueryData) (kind : QueryKind) (spot : Spot)
        → Reads schema text query → FirstFault schema text kind spot → ⊥ }
{
    one_expression();
}
