//! Laws of certificates. Each function does nothing: its contract is a theorem for callers to cite.

ghost use Rattle.std.specs.Prelude.{◌≡◌, ◌≤◌, ℕ, List, length};
ghost use Rattle.update_model.specs.declared.author_key.AuthorKey.{AuthorKey as Key};
ghost use Rattle.audit_text.specs.Certificates.{HoldsDoubled};
ghost use Rattle.audit_text.specs.declared.certificate.TheConstants.{MAX_CERTIFICATE_BYTES};

/// A certificate is of one key and one index.
pub fn one_certificate()
    ensures { (bytes : List ℕ) (key other : Key) (index number : ℕ)
        → HoldsDoubled bytes key index → HoldsDoubled bytes other number → (key ≡ other) × (index ≡ number) }
{}

/// No certificate is longer than two records may be.
pub fn certificates_are_short()
    ensures { (bytes : List ℕ) (key : Key) (index : ℕ) → HoldsDoubled bytes key index
        → length bytes ≤ MAX_CERTIFICATE_BYTES }
{}
