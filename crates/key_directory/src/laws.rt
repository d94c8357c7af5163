//! Laws of what the parts of a key read as. Each function does no work: its contract is a theorem for callers to cite.

ghost use Rattle.std.specs.Prelude.{◌≡◌, ℕ, List, Option};
ghost use Rattle.lms_tree.specs.SecretKey.{SecretData};
ghost use Rattle.key_directory.specs.Keys.{IsBadKey, IsNoKey, ReadsAsKey};

/// Two parts read as one key.
pub fn one_key()
    ensures { (key used : Option (List ℕ)) (secret other : SecretData) → ReadsAsKey key used secret
        → ReadsAsKey key used other → secret ≡ other }
{}

/// There is no key, or a bad one, or the parts read as a key: no two of these.
pub fn key_or_not()
    ensures not_bad { (key used : Option (List ℕ)) → IsNoKey key → IsBadKey key used → ⊥ }
    ensures no_key { (key used : Option (List ℕ)) (secret : SecretData) → IsNoKey key → ReadsAsKey key used secret → ⊥ }
    ensures bad_key { (key used : Option (List ℕ)) (secret : SecretData) → IsBadKey key used
        → ReadsAsKey key used secret → ⊥ }
{}
