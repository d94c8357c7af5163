// What holds of keys and signatures whatever the values.

ghost use Rattle.std.specs.Prelude.{◌≡◌, ◌<◌, ℕ, List, length};
ghost use Rattle.update_model.specs.Form.{IsKnownKey, signature_length};
ghost use Rattle.update_model.specs.declared.author_key.AuthorKey.{AuthorKey};
ghost use Rattle.lms_tree.specs.LmsKind.{leaf_count};
ghost use Rattle.lms_tree.specs.Signature.{Signed};
ghost use Rattle.lms_tree.specs.SecretKey.{SecretData, public_key, signature_by};

/// What [`sign_at`](crate::Secret::sign_at) writes is valid under the secret's public key.
pub fn made_is_signed()
    ensures { (secret : SecretData) (q : ℕ) (c msg : List ℕ) → q < leaf_count secret.lms → length c ≡ 32
        → Signed (public_key secret) msg (signature_by secret q c msg) }
{}

/// A valid signature is of a key with known types, and has the length that those types say.
pub fn signed_has_length()
    ensures known { (key : AuthorKey) (msg sig : List ℕ) → Signed key msg sig → IsKnownKey key }
    ensures length { (key : AuthorKey) (msg sig : List ℕ) → Signed key msg sig → length sig ≡ signature_length key }
{}
