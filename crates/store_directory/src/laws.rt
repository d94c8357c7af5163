//! Laws of what parts read as. Each function does no work: its contract is a theorem for callers to cite.

ghost use Rattle.std.specs.Prelude.{◌≡◌, ℕ, List, Option};
ghost use Rattle.schema.specs.Data.{Meaning};
ghost use Rattle.store_directory.specs.Stores.{IsBadStore, IsNoStore, ReadsAs, StoreData};

use schema_text::one_schema;

/// Two parts read as one store.
pub fn one_store()
    ensures { (ask : Meaning) (schema updates : Option (List ℕ)) (store other : StoreData)
        → ReadsAs ask schema updates store → ReadsAs ask schema updates other → store ≡ other }
{
    one_schema();
}

/// There is no store, or a bad one, or the parts read as a store: no two of these.
pub fn store_or_not()
    ensures not_bad { (ask : Meaning) (schema updates : Option (List ℕ)) → IsNoStore schema
        → IsBadStore ask schema updates → ⊥ }
    ensures no_store { (ask : Meaning) (schema updates : Option (List ℕ)) (store : StoreData) → IsNoStore schema
        → ReadsAs ask schema updates store → ⊥ }
    ensures bad_store { (ask : Meaning) (schema updates : Option (List ℕ)) (store : StoreData)
        → IsBadStore ask schema updates → ReadsAs ask schema updates store → ⊥ }
{}
